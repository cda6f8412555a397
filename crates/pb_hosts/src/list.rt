//! The rows of all hosts.

ghost use Rattle.std.specs.Prelude.{◌≡◌, ◌≤◌, length, map, replicate, slice_get, count_by, IfOk, OnOk, OnErr, None};
ghost use Rattle.std.specs.Option.{option_copied, option_map_or};
ghost use Rattle.pb_host.specs.Host.{HostOf, first_rows, is_waiting, sent};
ghost use Rattle.pb_cursors.specs.Walks.{walk_from};
ghost use Rattle.pb_hosts.specs.Joining.{first_walks, joined_by};
ghost use Rattle.pb_host.specs.Runs.{item_of, attempt_of};
ghost use Rattle.pb_hosts.specs.Hosts.{lesser, change};
ghost use Rattle.pb_host.specs.Back.{back_row, retried_row, undone};
ghost use Rattle.pb_hosts.specs.Due.{is_inside, AreOutside};

pub(crate) mod play_hosts;

use crate::inside::{empty_by, join_each, step_out};
use pb_cursors::{LaidTree, PlayWalk};
use pb_host::{Before, CameBack, Counts, Host, PlanPlay, PlanWithHostvars};
use pb_ids::{HostNo, Ticket};
use pb_outcome::outcome::Outcome;
use pb_planes::HostSet;
use std::alloc::{AllocError, Global};
use std::rc::Rc;

/// A row for each host.
pub(crate) fn first_rows(alloc: Global, hosts: u32) -> Result<Vec<Host>, AllocError>
    ensures { IfOk result (λ rows. rows.items ≡ first_rows 0 hosts) }
{
    let mut rows = Vec::new(alloc);
    for host in 0..hosts {
        rows.push(Host::new(alloc, HostNo(host)))?;
    }
    Ok(rows)
}

/// A job of a host goes out.
pub(crate) fn send_row(rows: &mut Vec<Host>, host: HostNo, ticket: Ticket)
    ensures { rows.new.items ≡ change rows.old.items host.0 (sent ticket) }
{
    if let Some(row) = rows.get_mut(host.0 as usize) {
        row.send(ticket);
    }
}

/// The job of a host that is out came to this: its item has its result, or waits for its next attempt. What the item was before is handed back, and the
/// attempt where another one comes behind it. An `Err` changes nothing.
pub(crate) fn take_back(
    alloc: Global,
    rows: &mut Vec<Host>,
    host: HostNo,
    plan: &PlanWithHostvars,
    play: &PlanPlay,
    outcome: &Outcome,
) -> Result<CameBack, AllocError>
    ensures ok { OnOk result (rows.new.items ≡ change rows.old.items host.0 (back_row plan.now play.now outcome.now)) }
    ensures retried { IfOk result (λ came. came.retried ≡ option_map_or (retried_row plan.now play.now outcome.now) (slice_get rows.old.items host.0) None) }
    ensures undo { IfOk result (λ came. change rows.new.items host.0 (undone came.before) ≡ rows.old.items) }
    ensures err { OnErr result (rows.new.items ≡ rows.old.items) }
{
    match rows.get_mut(host.0 as usize) {
        Some(row) => {
            let came = row.take_back(alloc, plan, play, outcome)?;
            Ok(came)
        }
        None => Ok(CameBack {
            before: None,
            retried: None,
        }),
    }
}

/// An item of the task that a host runs is what it was before.
pub(crate) fn undo(rows: &mut Vec<Host>, host: HostNo, before: Option<Before>)
    ensures { rows.new.items ≡ change rows.old.items host.0 (undone before) }
{
    match rows.get_mut(host.0 as usize) {
        Some(row) => row.undo(before),
        None => drop(before),
    }
}

/// The host with this number.
pub(crate) fn row_at(rows: &[Host], host: HostNo) -> Option<&Host>
    ensures { option_copied result ≡ slice_get rows.now host.0 }
{
    rows.get(host.0 as usize)
}

/// The number of the item that a host sends next, or whose job is out.
pub fn item_in(rows: &[Host], host: HostNo) -> Option<u32>
    ensures { result ≡ option_map_or item_of (slice_get rows.now host.0) None }
{
    match row_at(rows, host) {
        Some(row) => row.item(),
        None => None,
    }
}

/// The attempt at that item that a host sends next, or whose job is out.
pub fn attempt_in(rows: &[Host], host: HostNo) -> u32
    ensures { result ≡ option_map_or attempt_of (slice_get rows.now host.0) 1 }
{
    match row_at(rows, host) {
        Some(row) => row.attempt(),
        None => 1,
    }
}

/// So many walks, each at the beginning of a play that has this tree.
fn walks_of(alloc: Global, many: usize, laid: &Rc<LaidTree>) -> Result<Vec<PlayWalk>, AllocError>
    ensures { IfOk result (λ walks. walks.items ≡ replicate many (walk_from laid.now.value.tree)) }
{
    let mut walks = Vec::with_capacity(alloc, many)?;
    for _ in 0..many {
        let walk = PlayWalk::first(alloc, laid)?;
        walks.push(walk)?;
    }
    Ok(walks)
}

/// The walks of those hosts, of these that wait, that join a batch of this size of a play that has this tree. All of them are made before the first row
/// changes, so that a row is never made anew: what its host has learnt stays in it.
pub(crate) fn walks_for(
    alloc: Global,
    awaits_batch: &HostSet,
    size: u32,
    laid: &Rc<LaidTree>,
) -> Result<Vec<PlayWalk>, AllocError>
    ensures { IfOk result (λ walks. walks.items ≡ first_walks laid.now.value.tree size awaits_batch.now) }
{
    walks_of(alloc, size.min(awaits_batch.count()) as usize, laid)
}

/// A batch opens with these walks: the first hosts that wait take them, one each, and no other host is in it.
pub(crate) fn join_waiting(
    rows: &mut Vec<Host>,
    walks: Vec<PlayWalk>,
    awaits_batch: &HostSet,
    batch: &mut HostSet,
)
    requires awaits_batch { awaits_batch.now ≡ map is_waiting rows.old.items }
    requires few { length walks.items ≤ count_by (λ b. b) awaits_batch.now }
    requires insiders { batch.old ≡ map is_inside rows.old.items }
    requires outsiders { AreOutside rows.old.items }
    ensures rows { rows.new.items ≡ joined_by walks.items rows.old.items }
    ensures batch { batch.new ≡ map is_inside rows.new.items }
{
    step_out(rows, batch);
    empty_by(awaits_batch, batch);
    join_each(rows, walks, awaits_batch, batch);
}

/// The lesser of two places.
pub(crate) fn lesser(a: Option<usize>, b: Option<usize>) -> Option<usize>
    ensures { result ≡ lesser a b }
{
    match (a, b) {
        (Some(p), Some(q)) => Some(p.min(q)),
        (Some(p), None) => Some(p),
        (None, q) => q,
    }
}

/// How each host's finished tasks count.
pub fn counts_of(alloc: Global, rows: &[Host]) -> Result<Vec<Counts>, AllocError>
    ensures { IfOk result (λ counts. counts.items ≡ map (λ (row : HostOf). row.counts) rows.now) }
{
    let mut counts = Vec::with_capacity(alloc, rows.len())?;
    for row in rows {
        counts.push(row.counts())?;
    }
    Ok(counts)
}
