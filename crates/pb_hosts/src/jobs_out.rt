//! The jobs that are out, in the order in which they were sent.

ghost use Rattle.std.specs.Prelude.{◌≡◌, ◌<◌, length, position, slice_get, IfSome, OnOk, OnErr};
ghost use Rattle.std.specs.List.{list_any};
ghost use Rattle.pb_hosts.specs.Oldest.{is_before, is_of, is_under, with_job, without_job};

use pb_ids::{HostNo, Ticket};
use std::alloc::AllocError;

/// Whether a job was sent before another one. Of two under one ticket that of the first host comes first.
fn is_before(job: (HostNo, Ticket), other: (HostNo, Ticket)) -> bool
    ensures { result ≡ is_before job other }
{
    if job.1.0 == other.1.0 {
        job.0.0 <= other.0.0
    } else {
        job.1.0 <= other.1.0
    }
}

/// Where the first of these jobs is before which this one was sent.
#[tactic(auto, using(crate::proofs::TicketOrder::found_below))]
fn place_for(all: &[(HostNo, Ticket)], job: (HostNo, Ticket)) -> Option<usize>
    ensures value { result ≡ position (is_before job) all.now }
    ensures below { IfSome result (λ at. at < length all.now) }
{
    all.iter().position(|other| is_before(job, *other))
}

/// Where the job of a host is.
#[tactic(auto, using(crate::proofs::TicketOrder::found_below))]
fn place_of(all: &[(HostNo, Ticket)], host: HostNo) -> Option<usize>
    ensures value { result ≡ position (is_of host.0) all.now }
    ensures below { IfSome result (λ at. at < length all.now) }
{
    all.iter().position(|job| job.0.0 == host.0)
}

/// One job more is out. It is the last one, as a rule: its ticket is above those before it. An `Err` changes nothing.
#[tactic(auto, using(crate::proofs::TicketOrder::put_there, crate::proofs::TicketOrder::put_last))]
pub(crate) fn put_job(
    all: &mut Vec<(HostNo, Ticket)>,
    job: (HostNo, Ticket),
) -> Result<(), AllocError>
    ensures ok { OnOk result (all.new.items ≡ with_job job all.old.items) }
    ensures err { OnErr result (all.new.items ≡ all.old.items) }
{
    match place_for(all, job) {
        Some(at) => all.insert(at, job)?,
        None => all.push(job)?,
    }
    Ok(())
}

/// The job of a host is out no more, if it was.
#[tactic(auto, using(crate::proofs::TicketOrder::cut_there, crate::proofs::TicketOrder::cut_none))]
pub(crate) fn drop_job(all: &mut Vec<(HostNo, Ticket)>, host: HostNo)
    ensures { all.new.items ≡ without_job host.0 all.old.items }
{
    if let Some(at) = place_of(all, host) {
        let _job = all.remove(at);
    }
}

/// The first of these jobs.
pub(crate) fn first_job(all: &[(HostNo, Ticket)]) -> Option<(HostNo, Ticket)>
    ensures { result ≡ slice_get all.now 0 }
{
    match all.first() {
        Some(job) => Some(*job),
        None => None,
    }
}

/// Whether one of these jobs is out under this ticket.
pub(crate) fn some_under(all: &[(HostNo, Ticket)], ticket: Ticket) -> bool
    ensures { result ≡ list_any (is_under ticket) all.now }
{
    all.iter().any(|job| job.1.0 == ticket.0)
}
