//! Jobs that call for nothing much, and their reports.
ghost use Rattle.std.specs.Prelude.{◌≡◌, IfOk};

use pb_ids::{HostNo, Place, PlayNo, Ticket};
use pb_outcome::job::{Call, Job, Report};
use pb_outcome::outcome::Outcome;
use pb_value::items::Items;
use pb_value::text::Text;
use std::alloc::{AllocError, Global};

/// A job that calls for nothing much, with a text of its own.
pub fn job(alloc: Global, ticket: u64, text: &str) -> Result<Job, AllocError>
    ensures { IfOk result (λ x. x.ticket.0 ≡ ticket) }
{
    let name = Text::from_str(alloc, "a")?;
    let target = Text::from_str(alloc, "a")?;
    let text = Text::from_str(alloc, text)?;
    Ok(Job {
        ticket: Ticket(ticket),
        host: HostNo(0),
        name,
        play: PlayNo(0),
        place: Place::new(alloc),
        item: 0,
        attempt: 1,
        delay: 0,
        target,
        connector: Items::new(alloc),
        call: Call::Shell { text },
    })
}

/// The report of a job.
pub fn report_of(job: &Job, outcome: Outcome) -> Report
    ensures { result ≡ record { ticket = job.now.ticket; host = job.now.host; item = job.now.item; attempt = job.now.attempt; outcome = outcome } }
{
    Report {
        ticket: job.ticket,
        host: job.host,
        item: job.item,
        attempt: job.attempt,
        outcome,
    }
}
