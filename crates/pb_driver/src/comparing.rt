//! Whether two runs of one plan ended in the same.

ghost use Rattle.std.specs.Prelude.{◌≡◌, ◌<◌, ◌≤◌, ◌↔◌, IsTrue, true, length, map, IfOk, IfErr, OnOk};
ghost use Rattle.pb_audit.specs.Audit.{is_legal, is_legal_under, end_of, end_under};
ghost use Rattle.pb_host.specs.Host.{HostOf};
ghost use Rattle.pb_driver.specs.SameEnd.{IsSameAt, IsFirstApart, IsFaultOfEither, EndsSame};

use pb_audit::{AuditFault, replay};
use pb_facts::facts::Facts;
use pb_ids::HostNo;
use pb_state::{Counts, EngineState, Event, Plan};
use std::alloc::Global;

/// Whether two hosts know the same.
#[tactic(auto, using(crate::proofs::SameEnd::layers_tell))]
fn same_facts(one: &Facts, other: &Facts) -> bool
    ensures { IsTrue result ↔ (one.now ≡ other.now) }
{
    one.gathered_layer().same(other.gathered_layer()) && one.set_layer().same(other.set_layer())
}

/// Whether two hosts' tasks count alike.
fn same_counts(one: Counts, other: Counts) -> bool
    ensures { IsTrue result ↔ (one ≡ other) }
{
    one == other
}

/// Whether a host has the same facts and the same counts in two states, of which these are all counts.
#[tactic(auto, using(crate::proofs::SameEnd::count_at))]
fn is_same(
    one: &EngineState,
    two: &EngineState,
    counts: &[Counts],
    others: &[Counts],
    host: u32,
) -> bool
    requires one { host < length one.now.rows }
    requires two { host < length two.now.rows }
    requires counts { counts.now ≡ map (λ (row : HostOf). row.counts) one.now.rows }
    requires others { others.now ≡ map (λ (row : HostOf). row.counts) two.now.rows }
    ensures { IsTrue result ↔ IsSameAt one.now two.now host }
{
    same_facts(one.facts(HostNo(host)), two.facts(HostNo(host)))
        && same_counts(counts[host as usize], others[host as usize])
}

/// The first host that has other facts or other counts in the one state than in the other.
#[tactic(auto, using(crate::proofs::SameEnd::same_more))]
fn first_apart(
    plan: &Plan,
    one: &EngineState,
    two: &EngineState,
    counts: &[Counts],
    others: &[Counts],
) -> Option<HostNo>
    requires one { length one.now.rows ≡ length plan.now.inventory.hosts }
    requires two { length two.now.rows ≡ length plan.now.inventory.hosts }
    requires counts { counts.now ≡ map (λ (row : HostOf). row.counts) one.now.rows }
    requires others { others.now ≡ map (λ (row : HostOf). row.counts) two.now.rows }
    ensures { IsFirstApart plan.now one.now two.now result }
{
    for host in 0..plan.host_count() {
        if !is_same(one, two, counts, others, host) {
            return Some(HostNo(host));
        }
    }
    None
}

/// The first host, by its number, whose facts or counts differ at the ends of two trails of one plan; none where they end in the same. The second trail is that
/// of a run with this number of forks, 1 to 256. Both count 256 workers.
///
/// # Errors
/// Those of `replay`; the first trail's fault comes first.
#[tactic(auto, using(crate::proofs::SameEnd::rows_under, crate::proofs::SameEnd::first_of_ends, crate::proofs::SameEnd::same_of_ends))]
pub fn same_end(
    alloc: Global,
    plan: &Plan,
    trail: &[Event],
    forks: u32,
    other: &[Event],
) -> Result<Option<HostNo>, AuditFault>
    requires some { 0 < forks }
    requires most { forks ≤ 256 }
    ensures found { IfOk result (λ found. IsFirstApart plan.now (end_of plan.now trail.now) (end_under plan.now forks other.now) found) }
    ensures legal { OnOk result ((is_legal plan.now trail.now ≡ true) × (is_legal_under plan.now forks other.now ≡ true)) }
    ensures fault { IfErr result (λ e. IsFaultOfEither plan.now trail.now forks other.now e) }

    // Where what comes of each job is fixed, whole runs end in the same.
    ensures alike { IfOk result (λ found. EndsSame plan.now trail.now forks other.now found) }
{
    let one = replay(alloc, plan, plan.forks(), trail)?;
    let two = replay(alloc, plan, forks, other)?;
    let counts = one.counts(alloc)?;
    let others = two.counts(alloc)?;
    Ok(first_apart(plan, &one, &two, counts.as_slice(), others.as_slice()))
}
