//! The hosts of the batch alone are looked at, from one to the next: the others have no next place, run nothing and are not broken. As a batch opens, it
//! is those that step out of the one before and those that step in.

ghost use Rattle.std.specs.Prelude.{◌≡◌, ◌<◌, ◌≤◌, ◌+◌, ◌-◌, ◌^◌, length, map, replicate, slice_get, slice_set, count_by, true, false, None};
ghost use Rattle.std.specs.List.{list_any};
ghost use Rattle.std.specs.Option.{option_copied, option_map_or};
ghost use Rattle.pb_planes.specs.Set.{is_in as is_member, IsNextFrom, HasNoneFrom};
ghost use Rattle.pb_strategies.specs.Hosts.{nowhere};
ghost use Rattle.pb_host.specs.Host.{HostOf, next_place, is_waiting, left};
ghost use Rattle.pb_host.specs.Runs.{is_in};
ghost use Rattle.pb_host.specs.Standing.{standing};
ghost use Rattle.pb_host.specs.Walking.{with_walk};
ghost use Rattle.pb_hosts.specs.Hosts.{at_row, change, least_place, one_if};
ghost use Rattle.pb_hosts.specs.Turn.{batch_count, with_copy};
ghost use Rattle.pb_hosts.specs.Due.{asked_at, is_inside, AreOutside};
ghost use Rattle.pb_hosts.specs.Joining.{joined_by};
ghost use Rattle.pb_hosts.specs.TurnMade.{turning_row};

use crate::list::{lesser, row_at};
use crate::turned::{Copied, Turning};
use pb_cursors::PlayWalk;
use pb_host::Host;
use pb_ids::HostNo;
use pb_planes::HostSet;
use pb_strategies::{Standing, Standings};
use std::alloc::Global;

/// The number behind that of a host of a set.
#[tactic(auto, using(crate::proofs::Members::member_below))]
pub(crate) fn behind(set: &HostSet, host: HostNo) -> u32
    requires { is_member set.now host.0 ≡ true }
    ensures { result ≡ host.0 + 1 }
{
    // (a set's width is a host number too)
    let _width = set.width();
    host.0 + 1
}

/// The next place of a host.
fn place_at(rows: &[Host], host: HostNo) -> Option<usize>
    ensures { result ≡ option_map_or next_place (slice_get rows.now host.0) None }
{
    match row_at(rows, host) {
        Some(row) => row.next_place(),
        None => None,
    }
}

/// The least place at which a host of the batch is.
pub(crate) fn least_inside(rows: &[Host], batch: &HostSet) -> Option<usize>
    requires insiders { batch.now ≡ map is_inside rows.now }
    requires outsiders { AreOutside rows.now }
    ensures { result ≡ least_place rows.now }
{
    let mut least = None;
    let mut from = 0;
    while let Some(host) = batch.next_at(from) {
        least = lesser(least, place_at(rows, host));
        from = behind(batch, host);
    }
    least
}

/// Whether a host is in the batch and active.
fn is_in_at(rows: &[Host], host: HostNo) -> bool
    ensures { result ≡ at_row is_in rows.now host.0 }
{
    match row_at(rows, host) {
        Some(row) => row.is_in(),
        None => false,
    }
}

/// Whether a host of the batch is active.
pub(crate) fn some_inside(rows: &[Host], batch: &HostSet) -> bool
    requires insiders { batch.now ≡ map is_inside rows.now }
    requires outsiders { AreOutside rows.now }
    ensures { result ≡ list_any is_in rows.now }
{
    let mut from = 0;
    while let Some(host) = batch.next_at(from) {
        if is_in_at(rows, host) {
            return true;
        }
        from = behind(batch, host);
    }
    false
}

/// How many hosts are in the batch.
#[tactic(auto, using(crate::proofs::Members::inside_count))]
pub(crate) fn count_inside(rows: &[Host], batch: &HostSet) -> usize
    requires { batch.now ≡ map is_inside rows.now }
    ensures { result ≡ batch_count rows.now }
{
    // (what only the clauses speak of)
    let _rows = rows;
    batch.count() as usize
}

/// Whether a host is broken once it got what another one did for all.
fn is_broken_at(copied: &Copied, rows: &[Host], host: HostNo) -> bool
    ensures { result ≡ at_row (λ (row : HostOf). (with_copy copied.now.inventory.now copied.now.play.now copied.now.place (option_copied copied.now.from) row).is_broken) rows.now host.0 }
{
    match row_at(rows, host) {
        Some(row) => copied.is_broken_then(row),
        None => false,
    }
}

/// One more, where this holds.
fn one_more(count: usize, is: bool) -> usize
    requires { count < 2 ^ 64 - 1 }
    ensures { result ≡ count + one_if is }
{
    if is { count + 1 } else { count }
}

/// How many hosts are broken then: none is outside of the batch.
pub(crate) fn broken_inside(copied: &Copied, rows: &[Host], batch: &HostSet) -> usize
    requires insiders { batch.now ≡ map is_inside rows.now }
    requires outsiders { AreOutside rows.now }
    ensures { result ≡ count_by (λ (row : HostOf). (with_copy copied.now.inventory.now copied.now.play.now copied.now.place (option_copied copied.now.from) row).is_broken) rows.now }
{
    let mut count = 0;
    let mut from = 0;
    while let Some(host) = batch.next_at(from) {
        let is_broken = is_broken_at(copied, rows, host);
        count = one_more(count, is_broken);
        from = behind(batch, host);
    }
    count
}

/// Puts down where hosts stand that leave: those of the batch nowhere, as the others.
pub(crate) fn stand_left(rows: &[Host], batch: &HostSet, standings: &mut Standings)
    requires insiders { batch.now ≡ map is_inside rows.now }
    requires outsiders { AreOutside rows.now }
    requires stands { standings.old ≡ map standing rows.now }
    ensures { standings.new ≡ map standing (map left rows.now) }
{
    // (what only the clauses speak of)
    let _rows = rows;
    let mut from = 0;
    while let Some(host) = batch.next_at(from) {
        standings.put(host, Standing::nowhere());
        from = behind(batch, host);
    }
}

/// Puts down where a host stands.
fn stand_one(rows: &[Host], host: HostNo, standings: &mut Standings)
    ensures { standings.new ≡ asked_at standing rows.now host.0 standings.old }
{
    if let Some(row) = row_at(rows, host) {
        standings.put(host, row.standing());
    }
}

/// Puts down where the hosts of the batch stand, where no host of these stood anywhere.
#[tactic(auto, using(crate::proofs::Members::all_nowhere))]
pub(crate) fn stand_inside(rows: &[Host], batch: &HostSet, standings: &mut Standings)
    requires insiders { batch.now ≡ map is_inside rows.now }
    requires outsiders { AreOutside rows.now }
    requires nowhere { standings.old ≡ replicate (length rows.now) nowhere }
    ensures { standings.new ≡ map standing rows.now }
{
    let mut from = 0;
    while let Some(host) = batch.next_at(from) {
        stand_one(rows, host, standings);
        from = behind(batch, host);
    }
}

/// A host leaves the batch.
fn leave_at(rows: &mut Vec<Host>, host: HostNo)
    ensures { rows.new.items ≡ change rows.old.items host.0 left }
{
    if let Some(row) = rows.get_mut(host.0 as usize) {
        row.leave();
    }
}

/// Each host of the batch leaves it.
pub(crate) fn leave_inside(rows: &mut Vec<Host>, batch: &HostSet)
    requires insiders { batch.now ≡ map is_inside rows.old.items }
    requires outsiders { AreOutside rows.old.items }
    ensures { rows.new.items ≡ map left rows.old.items }
{
    let mut from = 0;
    while let Some(host) = batch.next_at(from) {
        leave_at(rows, host);
        from = behind(batch, host);
    }
}

/// A host is in a batch with this walk, or in none.
fn join_at(rows: &mut Vec<Host>, host: HostNo, walk: Option<PlayWalk>)
    ensures { rows.new.items ≡ change rows.old.items host.0 (with_walk walk) }
{
    match rows.get_mut(host.0 as usize) {
        Some(row) => row.join(walk),
        None => drop(walk),
    }
}

/// Each host of the batch is in none, as another one opens.
pub(crate) fn step_out(rows: &mut Vec<Host>, batch: &HostSet)
    requires insiders { batch.now ≡ map is_inside rows.old.items }
    requires outsiders { AreOutside rows.old.items }
    ensures { rows.new.items ≡ map (with_walk None) rows.old.items }
{
    let mut from = 0;
    while let Some(host) = batch.next_at(from) {
        join_at(rows, host, None);
        from = behind(batch, host);
    }
}

/// The batch goes on for a host.
fn turn_at(alloc: Global, rows: &mut Vec<Host>, host: HostNo, turning: Turning)
    ensures { rows.new.items ≡ change rows.old.items host.0 (turning_row turning) }
{
    if let Some(row) = rows.get_mut(host.0 as usize) {
        row.turn(
            alloc,
            turning.place,
            turning.kind,
            turning.is_caught,
            turning.halts,
        );
    }
}

/// The batch goes on for each of its hosts.
pub(crate) fn turn_inside(alloc: Global, rows: &mut Vec<Host>, batch: &HostSet, turning: Turning)
    requires insiders { batch.now ≡ map is_inside rows.old.items }
    requires outsiders { AreOutside rows.old.items }
    ensures { rows.new.items ≡ map (turning_row turning) rows.old.items }
{
    let mut from = 0;
    while let Some(host) = batch.next_at(from) {
        turn_at(alloc, rows, host, turning);
        from = behind(batch, host);
    }
}

/// The next host of a set that has one from this number on.
fn next_of(set: &HostSet, from: u32) -> HostNo
    requires { HasNoneFrom set.now from → ⊥ }
    ensures { IsNextFrom set.now from result.0 }
{
    match set.next_at(from) {
        Some(host) => host,
        None => unreachable!(),
    }
}

/// The first hosts that wait take these walks, one each, and are in the batch, in which nobody is before.
pub(crate) fn join_each(
    rows: &mut Vec<Host>,
    walks: Vec<PlayWalk>,
    awaits_batch: &HostSet,
    batch: &mut HostSet,
)
    requires awaits_batch { awaits_batch.now ≡ map is_waiting rows.old.items }
    requires few { length walks.items ≤ count_by (λ b. b) awaits_batch.now }
    requires nobody { rows.old.items ≡ map (with_walk None) rows.old.items }
    requires insiders { batch.old ≡ map is_inside rows.old.items }
    ensures rows { rows.new.items ≡ joined_by walks.items rows.old.items }
    ensures batch { batch.new ≡ map is_inside rows.new.items }
{
    let mut from = 0;
    for walk in walks {
        let host = next_of(awaits_batch, from);
        join_at(rows, host, Some(walk));
        put_in(batch, host, true);
        from = behind(awaits_batch, host);
    }
}

/// Adds a host to a set, or takes it out. A host past the set's end changes nothing.
#[tactic(auto, using(crate::proofs::Asked::set_past))]
pub(crate) fn put_in(set: &mut HostSet, host: HostNo, is_in: bool)
    ensures { set.new ≡ slice_set set.old host.0 is_in }
{
    if host.0 < set.width() {
        set.put(host, is_in);
    }
}

/// Takes all hosts out of a set that is as wide as another.
pub(crate) fn empty_by(other: &HostSet, set: &mut HostSet)
    requires { length set.old ≡ length other.now }
    ensures { set.new ≡ replicate (length set.old) false }
{
    set.and_with(other);
    set.minus_with(other);
}
