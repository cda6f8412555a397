//! What the tasks of hosts teach as they end: what they give to other hosts, and what these learn of it.

ghost use Rattle.std.specs.Prelude.{◌≡◌, List, position, IfOk, OnOk, OnErr};
ghost use Rattle.pb_facts.specs.Facts.{FactsOf};
ghost use Rattle.pb_facts.specs.Update.{applied};
ghost use Rattle.pb_host.specs.Host.{HostOf};
ghost use Rattle.pb_hosts.specs.Applied.{LeadsTo, with_update};
ghost use Rattle.pb_hosts.specs.Giving.{gives_now, gifts_at, with_delegated};
ghost use Rattle.pb_hosts.specs.Prepared.{AreOnce, IsGift, IsJoinedAt, IsTaken, is_for};

use crate::apply::apply_each;
use crate::list::row_at;
use crate::turned::HostUpdate;
use pb_facts::update::{FactsUndo, FactsUpdate, gift_update};
use pb_host::{DelegatedFacts, Ended, Host, PlanPlay, TaskItems, task_at};
use pb_ids::HostNo;
use pb_inventory::inventory::Inventory;
use std::alloc::{AllocError, Global};
use std::mem;

/// What the task at a place gives to other hosts than this one, which started it, once these items end it.
pub(crate) fn gifts_at(
    alloc: Global,
    inventory: &Inventory,
    play: &PlanPlay,
    place: usize,
    host: HostNo,
    items: &TaskItems,
) -> Result<Vec<DelegatedFacts>, AllocError>
    ensures { IfOk result (λ gifts. gifts.items ≡ gifts_at inventory.now play.now place host.0 items.now) }
{
    if !items.is_over() {
        return Ok(Vec::new(alloc));
    }
    let ended = Ended {
        inventory,
        play,
        place,
        result: task_at(play, place, items).result,
        items: items.as_slice(),
    };
    ended.gives(alloc, host)
}

/// The same of the task that this host runs.
pub(crate) fn gives_now(
    alloc: Global,
    inventory: &Inventory,
    play: &PlanPlay,
    rows: &[Host],
    host: HostNo,
) -> Result<Vec<DelegatedFacts>, AllocError>
    ensures { IfOk result (λ gifts. gifts.items ≡ gives_now inventory.now play.now host.0 rows.now) }
{
    let Some(row) = row_at(rows, host) else {
        return Ok(Vec::new(alloc));
    };
    match row.running() {
        Some(running) => gifts_at(alloc, inventory, play, running.place, host, &running.items),
        None => Ok(Vec::new(alloc)),
    }
}

/// What a host learns by a gift.
fn update_for(alloc: Global, gift: &DelegatedFacts) -> Result<HostUpdate, AllocError>
    ensures { IfOk result (λ given. IsGift gift.now given) }
{
    let update = gift_update(alloc, gift.gives, &gift.facts)?;
    Ok(HostUpdate {
        host: gift.host,
        update,
    })
}

/// Where it is put down what this host learns.
fn known_at(all: &[HostUpdate], host: HostNo) -> Option<usize>
    ensures { result ≡ position (is_for host.0) all.now }
{
    all.iter().position(|one| one.host.0 == host.0)
}

/// A host learns this, too, behind what it learns.
fn join_to(one: &mut HostUpdate, next: FactsUpdate) -> Result<(), AllocError>
    ensures host { one.new.host ≡ one.old.host }
    ensures both { OnOk result ((facts : FactsOf) → applied one.new.update facts ≡ applied next (applied one.old.update facts)) }
{
    let first = mem::replace(&mut one.update, FactsUpdate::Nothing);
    let both = first.join(next)?;
    one.update = both;
    Ok(())
}

/// The same of the host at this place.
fn join_at(all: &mut Vec<HostUpdate>, at: usize, next: FactsUpdate) -> Result<(), AllocError>
    ensures { OnOk result (IsJoinedAt next at all.old.items all.new.items) }
{
    match all.get_mut(at) {
        Some(one) => {
            join_to(one, next)?;
            Ok(())
        }
        None => {
            drop(next);
            Ok(())
        }
    }
}

/// One gift more: behind what its host learns, or where that learns nothing yet, behind what the others do.
fn take_in(
    alloc: Global,
    all: &mut Vec<HostUpdate>,
    gift: &DelegatedFacts,
) -> Result<(), AllocError>
    requires { AreOnce all.old.items }
    ensures { OnOk result (IsTaken gift.now all.old.items all.new.items) }
{
    let given = update_for(alloc, gift)?;
    match known_at(all.as_slice(), gift.host) {
        Some(at) => {
            join_at(all, at, given.into_update())?;
            Ok(())
        }
        None => {
            all.push(given)?;
            Ok(())
        }
    }
}

/// What hosts learn by these gifts, which is one thing for each of them. It is made before a row changes, so that memory that is refused changes nothing.
fn gift_updates(alloc: Global, gifts: &[DelegatedFacts]) -> Result<Vec<HostUpdate>, AllocError>
    ensures { IfOk result (λ all. (rows : List HostOf) → with_update all.items rows ≡ with_delegated gifts.now rows) }
{
    let mut all = Vec::new(alloc);
    for gift in gifts {
        take_in(alloc, &mut all, gift)?;
    }
    Ok(all)
}

/// Hosts are given this. What was before is handed back, in the order in which they learn it, each host once. An `Err` changes nothing.
pub(crate) fn apply_gifts(
    alloc: Global,
    rows: &mut Vec<Host>,
    gifts: Vec<DelegatedFacts>,
) -> Result<Vec<(HostNo, FactsUndo)>, AllocError>
    ensures ok { OnOk result (rows.new.items ≡ with_delegated gifts.items rows.old.items) }
    ensures past { IfOk result (λ log. LeadsTo log.items rows.old.items rows.new.items) }
    ensures err { OnErr result (rows.new.items ≡ rows.old.items) }
{
    let all = gift_updates(alloc, gifts.as_slice())?;
    apply_each(alloc, rows, all)
}
