//! What is written of a plan in place of a run.

ghost use Rattle.std.specs.Prelude.{◌≡◌, ◌≢◌, ◌⊎◌, ℕ, List, Option, None, IfOk, IfErr, OnErr, Err};
ghost use Rattle.pb_state.specs.declared.event.Event.{Event};
ghost use Rattle.pb_driver.specs.Cut.{IsPart};
ghost use Rattle.pb_driver.specs.Taken.{with_more, one_more};
ghost use Rattle.pb_driver.specs.Failing.{failures_by};
ghost use Rattle.pb_audit.specs.Reading.{trail_in};
ghost use Rattle.pb_cli.specs.Audited.{IsVerdict, IsAudited, IsAuditCut};
ghost use Rattle.pb_cli.specs.Listing.{listing};

use crate::auditing::verdict;
use crate::listing::listing;
use crate::playing::{PlayFault, Played};
use pb_audit::{TrailFault, read_trail};
use pb_driver::{LineOut, RunFault, put_all};
use pb_runner::fault::TableFault;
use pb_state::{BundleFault, Event, Plan};
use std::alloc::Global;

/// Writes a text, and answers this status.
pub(crate) fn show<O: LineOut>(out: &mut O, text: &str, status: u8) -> Result<Played, PlayFault>
    ensures shown { IfOk result (λ played. (O.taken out.new ≡ with_more (O.taken out.old) text.now) × (played.status ≡ status) × (played.trail ≡ None)) }
    ensures fault { IfErr result (λ e. e ≡ PlayFault.Run RunFault.Write None) }
    ensures part { OnErr result (IsPart (O.taken out.old) (O.taken out.new) text.now) }
    ensures failed { OnErr result (O.failures out.new ≡ one_more (O.failures out.old)) }
{
    match put_all(out, text.as_bytes()) {
        Ok(()) => Ok(Played {
            status,
            trail: None,
        }),
        Err(_) => Err(PlayFault::Run(RunFault::Write, None)),
    }
}

/// Writes the list of the hosts of each play.
pub(crate) fn show_hosts<O: LineOut>(
    alloc: Global,
    plan: &Plan,
    out: &mut O,
) -> Result<Played, PlayFault>
    ensures shown { IfOk result (λ played. (O.taken out.new ≡ with_more (O.taken out.old) (listing plan.now)) × (played.status ≡ 0) × (played.trail ≡ None)) }
    ensures fault { IfErr result (λ e. (fault : RunFault) × (e ≡ PlayFault.Run fault None)) }
    ensures cut { (fault : RunFault) (trail : Option (List Event)) → result ≡ Err (PlayFault.Run fault trail) → ((fault ≡ RunFault.Memory) × (O.taken out.new ≡ O.taken out.old)) ⊎ ((fault ≡ RunFault.Write) × IsPart (O.taken out.old) (O.taken out.new) (listing plan.now)) }
    ensures failed { (fault : RunFault) (trail : Option (List Event)) → result ≡ Err (PlayFault.Run fault trail) → O.failures out.new ≡ failures_by fault (O.failures out.old) }
{
    match listing(alloc, plan) {
        Ok(text) => show(out, text.as_str(), 0),
        Err(_) => Err(PlayFault::Run(RunFault::Memory, None)),
    }
}

/// Looks at the bytes of a trail, and writes whether it is a legal run of the plan.
pub(crate) fn show_audit<O: LineOut>(
    alloc: Global,
    plan: &Plan,
    bytes: &[u8],
    out: &mut O,
) -> Result<Played, PlayFault>
    ensures audited { IfOk result (λ played. (played.trail ≡ None) × IsAudited bytes.now plan.now (O.taken out.old) (O.taken out.new) played.status) }
    ensures cut { (fault : RunFault) (trail : Option (List Event)) → result ≡ Err (PlayFault.Run fault trail) → (trail ≡ None) × (((fault ≡ RunFault.Memory) × (O.taken out.new ≡ O.taken out.old)) ⊎ ((fault ≡ RunFault.Write) × IsAuditCut bytes.now plan.now (O.taken out.old) (O.taken out.new))) }
    ensures failed { (fault : RunFault) (trail : Option (List Event)) → result ≡ Err (PlayFault.Run fault trail) → O.failures out.new ≡ failures_by fault (O.failures out.old) }
    ensures planned { (e : BundleFault) → result ≢ Err (PlayFault.Bundle e) }
    ensures tabled { (e : TableFault) → result ≢ Err (PlayFault.Outcomes e) }
    ensures unread { (e : TrailFault) → result ≡ Err (PlayFault.Trail e) → (O.taken out.new ≡ O.taken out.old) × (e ≢ TrailFault.Memory → trail_in bytes.now ≡ Err e) }
{
    match read_trail(alloc, bytes) {
        Ok(trail) => show_verdict(alloc, plan, trail.as_slice(), out),
        Err(fault) => Err(PlayFault::Trail(fault)),
    }
}

/// Writes what is said of a trail.
fn show_verdict<O: LineOut>(
    alloc: Global,
    plan: &Plan,
    trail: &[Event],
    out: &mut O,
) -> Result<Played, PlayFault>
    ensures said { IfOk result (λ played. (text : List ℕ) × IsVerdict plan.now trail.now text played.status × (O.taken out.new ≡ with_more (O.taken out.old) text) × (played.trail ≡ None)) }
    ensures fault { IfErr result (λ e. (fault : RunFault) × (e ≡ PlayFault.Run fault None)) }
    ensures cut { (fault : RunFault) (handed : Option (List Event)) → result ≡ Err (PlayFault.Run fault handed) → ((fault ≡ RunFault.Memory) × (O.taken out.new ≡ O.taken out.old)) ⊎ ((fault ≡ RunFault.Write) × (text : List ℕ) × (status : ℕ) × IsVerdict plan.now trail.now text status × IsPart (O.taken out.old) (O.taken out.new) text) }
    ensures failed { (fault : RunFault) (handed : Option (List Event)) → result ≡ Err (PlayFault.Run fault handed) → O.failures out.new ≡ failures_by fault (O.failures out.old) }
{
    match verdict(alloc, plan, trail) {
        Ok((text, status)) => show(out, text.as_str(), status),
        Err(_) => Err(PlayFault::Run(RunFault::Memory, None)),
    }
}
