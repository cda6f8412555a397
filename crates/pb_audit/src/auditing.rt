//! Whether a trail is a legal run.

ghost use Rattle.std.specs.Prelude.{◌≡◌, ◌≢◌, ◌<◌, ◌≤◌, true, false, OnOk, IfOk, IfErr};
ghost use Rattle.pb_audit.specs.Audit.{is_legal, is_legal_under, end_under, Tells, TellsUnder};

use crate::fault::AuditFault;
use crate::name::EventName;
use pb_state::{EngineState, Event, Plan, StepFault};
use std::alloc::Global;

/// The size of the pool under which a trail is looked at, the largest that there is: a trail may set no more forks.
const POOL: u32 = 256;

/// The state to which the events of a trail lead, from the plan's first state on, with this number of forks, 1 to 256, and a pool of 256 workers. Which forks
/// the plan has itself is nothing to it.
///
/// # Errors
/// `Illegal` exactly where the events aren't a legal run with these forks, with the number, counted from 0, and the name of the first event that isn't
/// possible where it stands; `Memory` where memory was refused.
pub fn replay(
    alloc: Global,
    plan: &Plan,
    forks: u32,
    trail: &[Event],
) -> Result<EngineState, AuditFault>
    requires some { 0 < forks }
    requires most { forks ≤ 256 }
    ensures legal { OnOk result (is_legal_under plan.now forks trail.now ≡ true) }
    ensures illegal { IfErr result (λ e. e ≢ AuditFault.Memory → is_legal_under plan.now forks trail.now ≡ false) }
    ensures first { IfErr result (λ e. TellsUnder plan.now forks trail.now e) }
    ensures state { IfOk result (λ s. s ≡ end_under plan.now forks trail.now) }
{
    let mut state = EngineState::first(alloc, plan, forks, POOL)?;
    let mut known = None;
    for (step, event) in trail.iter().enumerate() {
        match state.step_knowing(plan, event, &mut known) {
            Ok(()) => {}
            Err(StepFault::Illegal) => {
                let rule = EventName::of(event);
                return Err(AuditFault::Illegal { step, rule });
            }
            Err(StepFault::Memory) => return Err(AuditFault::Memory),
        }
    }
    Ok(state)
}

/// Whether the events of a trail are a legal run of a plan: each is possible in the state to which those in front of it lead,
/// from the plan's first state on, with the plan's own forks and a pool of 256 workers. Such a run needn't be at its end, and
/// the outcomes of its reports are taken as they are. See Ansible's documentation, "Controlling playbook execution: strategies".
///
/// # Errors
/// `Illegal` exactly where the run isn't legal, with the number, counted from 0, and the name of the first event that isn't
/// possible where it stands; `Memory` where memory was refused.
pub fn audit(alloc: Global, plan: &Plan, trail: &[Event]) -> Result<(), AuditFault>
    ensures legal { OnOk result (is_legal plan.now trail.now ≡ true) }
    ensures illegal { IfErr result (λ e. e ≢ AuditFault.Memory → is_legal plan.now trail.now ≡ false) }
    ensures first { IfErr result (λ e. Tells plan.now trail.now e) }
{
    let _state = replay(alloc, plan, plan.forks(), trail)?;
    Ok(())
}
