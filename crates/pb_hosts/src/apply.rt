//! Hosts learn something, all of them or none: what was before is put down on the way, and put back where memory is refused, or else handed out.

ghost use Rattle.std.specs.Prelude.{◌≡◌, ◌-◌, List, length, IfOk, OnOk, OnErr};
ghost use Rattle.pb_host.specs.Host.{HostOf};
ghost use Rattle.pb_host.specs.Turned.{applies};
ghost use Rattle.pb_hosts.specs.Hosts.{change};
ghost use Rattle.pb_hosts.specs.Applied.{AppliedAt, LeadsTo, with_update};

use crate::turned::HostUpdate;
use pb_facts::update::{FactsUndo, FactsUpdate};
use pb_host::Host;
use pb_ids::HostNo;
use std::alloc::{AllocError, Global};

/// A host learns this. What was before is handed back. An `Err` changes nothing.
fn apply_at(
    alloc: Global,
    rows: &mut Vec<Host>,
    host: HostNo,
    update: FactsUpdate,
) -> Result<FactsUndo, AllocError>
    ensures ok { OnOk result (rows.new.items ≡ change rows.old.items host.0 (applies update)) }
    ensures past { IfOk result (λ past. AppliedAt host.0 past rows.old.items rows.new.items) }
    ensures err { OnErr result (rows.new.items ≡ rows.old.items) }
{
    match rows.get_mut(host.0 as usize) {
        Some(row) => {
            let past = row.apply(alloc, update)?;
            Ok(past)
        }
        None => {
            drop(update);
            Ok(FactsUndo::Nothing)
        }
    }
}

/// What was before a host learnt something is put back. It takes no memory.
fn revert_at(rows: &mut Vec<Host>, host: HostNo, past: FactsUndo)
    ensures { (was : List HostOf) → AppliedAt host.0 past was rows.old.items → rows.new.items ≡ was }
{
    match rows.get_mut(host.0 as usize) {
        Some(row) => row.revert(past),
        None => drop(past),
    }
}

/// A host learns this; what was before is put down in the log, for which there is room first.
#[tactic(auto, using(crate::proofs::Applying::leads_same))]
fn apply_one(
    alloc: Global,
    rows: &mut Vec<Host>,
    log: &mut Vec<(HostNo, FactsUndo)>,
    applied: HostUpdate,
) -> Result<(), AllocError>
    ensures ok { OnOk result (rows.new.items ≡ change rows.old.items applied.host.0 (applies applied.update)) }
    ensures log { (was : List HostOf) → LeadsTo log.old.items was rows.old.items → LeadsTo log.new.items was rows.new.items }
{
    log.reserve(1)?;
    let host = applied.host;
    let update = applied.into_update();
    let past = apply_at(alloc, rows, host, update)?;
    match log.push((host, past)) {
        Ok(()) => Ok(()),
        Err(_) => unreachable!(),
    }
}

/// Hosts learn this one after another, as far as memory goes: the log tells how far.
#[tactic(auto, using(crate::proofs::Applying::update_step))]
fn apply_some(
    alloc: Global,
    rows: &mut Vec<Host>,
    log: &mut Vec<(HostNo, FactsUndo)>,
    all: Vec<HostUpdate>,
) -> Result<(), AllocError>
    ensures ok { OnOk result (rows.new.items ≡ with_update all.items rows.old.items) }
    ensures log { (was : List HostOf) → LeadsTo log.old.items was rows.old.items → LeadsTo log.new.items was rows.new.items }
{
    for applied in all {
        apply_one(alloc, rows, log, applied)?;
    }
    Ok(())
}

/// The last that learnt something is as it was before.
fn revert_last(rows: &mut Vec<Host>, log: &mut Vec<(HostNo, FactsUndo)>)
    ensures back { (was : List HostOf) → LeadsTo log.old.items was rows.old.items → LeadsTo log.new.items was rows.new.items }
    ensures fewer { length log.new.items ≡ length log.old.items - 1 }
{
    if let Some(last) = log.pop() {
        let (host, past) = last;
        revert_at(rows, host, past);
    }
}

/// All of them are as they were before.
#[tactic(auto, using(crate::proofs::Applying::leads_end))]
pub(crate) fn revert_all(rows: &mut Vec<Host>, log: Vec<(HostNo, FactsUndo)>)
    ensures { (was : List HostOf) → LeadsTo log.items was rows.old.items → rows.new.items ≡ was }
{
    let mut left = log;
    let count = left.len();
    for _ in 0..count {
        revert_last(rows, &mut left);
    }
}

/// Hosts learn this. What was before is handed back, in the order in which they do. An `Err` changes nothing.
pub(crate) fn apply_each(
    alloc: Global,
    rows: &mut Vec<Host>,
    all: Vec<HostUpdate>,
) -> Result<Vec<(HostNo, FactsUndo)>, AllocError>
    ensures ok { OnOk result (rows.new.items ≡ with_update all.items rows.old.items) }
    ensures past { IfOk result (λ log. LeadsTo log.items rows.old.items rows.new.items) }
    ensures err { OnErr result (rows.new.items ≡ rows.old.items) }
{
    let mut log = Vec::new(alloc);
    match apply_some(alloc, rows, &mut log, all) {
        Ok(()) => Ok(log),
        Err(error) => {
            revert_all(rows, log);
            Err(error)
        }
    }
}
