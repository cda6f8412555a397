//! Engines that go on as far as they can.

use crate::trails::plan_on;
use pb_driver::{Engine, Next, Picker};
use pb_ids::{HostNo, Ticket};
use pb_outcome::job::Report;
use pb_outcome::outcome::Outcome;
use pb_value::text::Text;
use std::alloc::Global;
use std::test::Fail;

/// An engine over the hosts of an inventory, in a pool of 256.
pub fn engine_of(
    alloc: Global,
    inventory: &str,
    playbook: &str,
    forks: u32,
) -> Result<Engine, Fail> {
    let plan = plan_on(alloc, inventory, playbook, forks)?;
    match Engine::new(alloc, plan, 256) {
        Ok(engine) => Ok(engine),
        Err(_) => Err(Fail::new("an engine")),
    }
}

/// Goes on until reports alone can come. Whether the run is finished.
pub fn is_over<P: Picker>(engine: &mut Engine, picker: &mut P) -> Result<bool, Fail> {
    for _ in 0..1_000 {
        match engine.next(picker) {
            Ok(Next::Finished) => return Ok(true),
            Ok(Next::Waiting) => return Ok(false),
            Ok(_) => {}
            Err(_) => return Err(Fail::new("an event")),
        }
    }
    Err(Fail::new("an end"))
}

/// Reports that the job with this ticket, of this host, went well.
pub fn report(engine: &mut Engine, alloc: Global, ticket: u64, host: u32) -> Result<(), Fail> {
    let outcome = match Outcome::ran(0, Text::new(alloc), Text::new(alloc)) {
        Ok(outcome) => outcome,
        Err(_) => return Err(Fail::new("an outcome")),
    };
    let report = Report {
        ticket: Ticket(ticket),
        host: HostNo(host),
        item: 0,
        attempt: 1,
        outcome,
    };
    match engine.absorb(report) {
        Ok(()) => Ok(()),
        Err(_) => Err(Fail::new("a report that is taken")),
    }
}
