//! What a turn makes of the rows of a batch: what one host did for all goes to the others, and hosts are halted.

ghost use Rattle.std.specs.Prelude.{◌≡◌, ◌<◌, ◌^◌, [], false, None, length, map, slice_get, IfOk, IfSome};
ghost use Rattle.std.specs.List.{list_any};
ghost use Rattle.std.specs.Option.{option_copied};
ghost use Rattle.pb_facts.specs.Update.{applied};
ghost use Rattle.pb_host.specs.Host.{facts_after};
ghost use Rattle.pb_hosts.specs.Hosts.{at_row};
ghost use Rattle.pb_hosts.specs.Turn.{any_errors_fatal_at, copied_if, has_ended_fatally, has_failed_too_often, has_done_run_once, is_fatal_at, is_halting, is_run_once_done_at, run_once_host, source, with_copy};
ghost use Rattle.pb_hosts.specs.TurnMade.{IsTurnOf, copy_applied, kind_from};
ghost use Rattle.pb_hosts.specs.Applied.{with_update};
ghost use Rattle.pb_hosts.specs.Due.{is_inside, AreOutside};

use crate::inside::{behind, broken_inside, count_inside};
use crate::list::row_at;
use pb_facts::facts::Facts;
use pb_facts::update::{FactsUndo, FactsUpdate};
use pb_host::{
    Ended, Host, LastTask, PlanPlay, TaskItems, breaks, caught_at, ends_run_once, is_fatal,
    runs_once_at, task_at, variable_at,
};
use pb_ids::HostNo;
use pb_inventory::inventory::Inventory;
use pb_outcome::registered::{only_result, registered};
use pb_planes::HostSet;
use pb_tree::Kind;
use std::alloc::{AllocError, Global};

/// What one host did at a place for all, which goes to the other hosts of its batch.
#[derive(Drop)]
pub(crate) struct Copied<'a> {
    pub(crate) inventory: &'a Inventory,
    pub(crate) play: &'a PlanPlay,
    pub(crate) place: usize,
    /// The host that did it, if one did.
    pub(crate) from: Option<&'a Host>,
}

impl<'a> Copied<'a> {
    /// What a host that knows this learns once it gets what the task left with another host, which ended it with these items, but for what that gave away.
    fn update_from(
        &self,
        alloc: Global,
        items: &TaskItems,
        facts: &Facts,
    ) -> Result<FactsUpdate, AllocError>
        ensures { IfOk result (λ update. applied update facts.now ≡ facts_after self.now.inventory.now self.now.play.now self.now.place None items.now facts.now) }
    {
        let ended = Ended {
            inventory: self.inventory,
            play: self.play,
            place: self.place,
            result: task_at(self.play, self.place, items).result,
            items: items.as_slice(),
        };
        if let Some(only) = only_result(items.as_slice()) {
            return ended.teaches(alloc, None, only, facts);
        }
        let shown = registered(alloc, variable_at(self.play, self.place), items.as_slice())?;
        ended.teaches(alloc, None, &shown, facts)
    }

    /// What a host learns that gets what this other one did, where its next place is that of the task: what that one registered and learnt itself.
    fn update_there(
        &self,
        alloc: Global,
        finish: &LastTask,
        row: &Host,
    ) -> Result<FactsUpdate, AllocError>
        ensures { IfOk result (λ update. applied update row.now.facts ≡ (copied_if self.now.inventory.now self.now.play.now self.now.place row.now finish.now).facts) }
    {
        if row.is_at(self.place) {
            self.update_from(alloc, &finish.items, row.facts())
        } else {
            Ok(FactsUpdate::Nothing)
        }
    }

    /// The same where a host did something for all.
    fn update_of(&self, alloc: Global, row: &Host) -> Result<FactsUpdate, AllocError>
        ensures { IfOk result (λ update. applied update row.now.facts ≡ (with_copy self.now.inventory.now self.now.play.now self.now.place (option_copied self.now.from) row.now).facts) }
    {
        match self.from {
            Some(from) => match from.last() {
                Some(finish) => self.update_there(alloc, finish, row),
                None => Ok(FactsUpdate::Nothing),
            },
            None => Ok(FactsUpdate::Nothing),
        }
    }

    /// The same of the host with this number.
    fn update_at(
        &self,
        alloc: Global,
        rows: &[Host],
        host: HostNo,
    ) -> Result<FactsUpdate, AllocError>
        ensures { IfOk result (λ update. IfSome (slice_get rows.now host.0) (λ row. applied update row.facts ≡ (with_copy self.now.inventory.now self.now.play.now self.now.place (option_copied self.now.from) row).facts)) }
    {
        match row_at(rows, host) {
            Some(row) => self.update_of(alloc, row),
            None => Ok(FactsUpdate::Nothing),
        }
    }

    /// What the hosts of the batch learn.
    fn update_inside(
        &self,
        alloc: Global,
        rows: &[Host],
        batch: &HostSet,
    ) -> Result<Vec<HostUpdate>, AllocError>
        requires insiders { batch.now ≡ map is_inside rows.now }
        requires outsiders { AreOutside rows.now }
        ensures { IfOk result (λ all. with_update all.items rows.now ≡ map (copy_applied self.now.inventory.now self.now.play.now self.now.place (option_copied self.now.from)) rows.now) }
    {
        let mut all = Vec::new(alloc);
        let mut from = 0;
        while let Some(host) = batch.next_at(from) {
            let update = self.update_at(alloc, rows, host)?;
            all.push(HostUpdate { host, update })?;
            from = behind(batch, host);
        }
        Ok(all)
    }

    /// Whether a host is broken once it got what another one did for all.
    pub(crate) fn is_broken_then(&self, row: &Host) -> bool
        ensures { result ≡ (with_copy self.now.inventory.now self.now.play.now self.now.place (option_copied self.now.from) row.now).is_broken }
    {
        match self.from {
            Some(from) => match from.last() {
                Some(finish) => {
                    let breaks_it = breaks(caught_at(self.play, self.place), finish.kind);
                    row.is_broken() || (row.is_at(self.place) && breaks_it)
                }
                None => row.is_broken(),
            },
            None => row.is_broken(),
        }
    }

    /// Whether more of them are broken then than the play allows.
    #[tactic(auto, using(crate::proofs::Making::broken_map, crate::proofs::Making::batch_map))]
    fn has_failed_too_often(&self, rows: &[Host], batch: &HostSet) -> bool
        requires few { length rows.now < 2 ^ 32 }
        requires insiders { batch.now ≡ map is_inside rows.now }
        requires outsiders { AreOutside rows.now }
        ensures { result ≡ has_failed_too_often self.now.play.now (map (with_copy self.now.inventory.now self.now.play.now self.now.place (option_copied self.now.from)) rows.now) }
    {
        let all = count_inside(rows, batch) as u64;
        let broken = broken_inside(self, rows, batch) as u64;
        self.play.max_fail_percentage() as u64 * all < 100 * broken
    }

    /// Whether hosts are halted then.
    #[tactic(auto, using(crate::proofs::Making::fatal_map))]
    fn is_halting(&self, rows: &[Host], batch: &HostSet) -> bool
        requires few { length rows.now < 2 ^ 32 }
        requires insiders { batch.now ≡ map is_inside rows.now }
        requires outsiders { AreOutside rows.now }
        ensures { result ≡ is_halting self.now.play.now self.now.place (map (with_copy self.now.inventory.now self.now.play.now self.now.place (option_copied self.now.from)) rows.now) }
    {
        is_fatal_at(self.play, self.place, rows, batch) || self.has_failed_too_often(rows, batch)
    }
}

/// Whether a host finished the task at a place, other than by being out of reach.
fn has_done_run_once(row: &Host, place: usize) -> bool
    ensures { result ≡ has_done_run_once place row.now }
{
    match row.last() {
        Some(finish) => finish.place == place && ends_run_once(finish.kind),
        None => false,
    }
}

/// Whether the host with this number did so.
fn is_run_once_host(rows: &[Host], host: HostNo, place: usize) -> bool
    ensures { result ≡ at_row (has_done_run_once place) rows.now host.0 }
{
    match row_at(rows, host) {
        Some(row) => has_done_run_once(row, place),
        None => false,
    }
}

/// The first of the hosts of the batch that did so: no other did.
fn run_once_host<'a>(rows: &'a [Host], batch: &HostSet, place: usize) -> Option<&'a Host>
    requires insiders { batch.now ≡ map is_inside rows.now }
    requires outsiders { AreOutside rows.now }
    ensures { option_copied result ≡ run_once_host place rows.now }
{
    let mut from = 0;
    while let Some(host) = batch.next_at(from) {
        if is_run_once_host(rows, host, place) {
            return row_at(rows, host);
        }
        from = behind(batch, host);
    }
    None
}

/// Whether one of the hosts of the batch did so: no other did.
fn some_run_once_done(rows: &[Host], batch: &HostSet, place: usize) -> bool
    requires insiders { batch.now ≡ map is_inside rows.now }
    requires outsiders { AreOutside rows.now }
    ensures { result ≡ list_any (has_done_run_once place) rows.now }
{
    run_once_host(rows, batch, place).is_some()
}

/// Whether a host did the task at a place for all, if it runs once.
pub(crate) fn is_run_once_done_at(
    play: &PlanPlay,
    rows: &[Host],
    batch: &HostSet,
    place: usize,
) -> bool
    requires insiders { batch.now ≡ map is_inside rows.now }
    requires outsiders { AreOutside rows.now }
    ensures { result ≡ is_run_once_done_at play.now rows.now place }
{
    runs_once_at(play, place) && some_run_once_done(rows, batch, place)
}

/// The host that did the task at a place for all, if it runs once.
fn source<'a>(play: &PlanPlay, place: usize, rows: &'a [Host], batch: &HostSet) -> Option<&'a Host>
    requires insiders { batch.now ≡ map is_inside rows.now }
    requires outsiders { AreOutside rows.now }
    ensures { option_copied result ≡ source play.now place rows.now }
{
    if runs_once_at(play, place) {
        run_once_host(rows, batch, place)
    } else {
        None
    }
}

/// Whether a failure of the task at a place is one of all hosts.
fn any_errors_fatal_at(play: &PlanPlay, place: usize) -> bool
    ensures { result ≡ any_errors_fatal_at play.now place }
{
    match play.place(place) {
        Some(place) => place.any_errors_fatal(),
        None => false,
    }
}

/// Whether a host ended the task at a place so that it is over for all where failures are fatal.
fn has_ended_fatally(play: &PlanPlay, place: usize, row: &Host) -> bool
    ensures { result ≡ has_ended_fatally play.now place row.now }
{
    match row.last() {
        Some(finish) => finish.place == place && is_fatal(caught_at(play, place), finish.kind),
        None => false,
    }
}

/// Whether the host with this number did.
fn is_fatally_over(play: &PlanPlay, place: usize, rows: &[Host], host: HostNo) -> bool
    ensures { result ≡ at_row (has_ended_fatally play.now place) rows.now host.0 }
{
    match row_at(rows, host) {
        Some(row) => has_ended_fatally(play, place, row),
        None => false,
    }
}

/// Whether one of the hosts of the batch did: no other did.
fn some_fatally(play: &PlanPlay, place: usize, rows: &[Host], batch: &HostSet) -> bool
    requires insiders { batch.now ≡ map is_inside rows.now }
    requires outsiders { AreOutside rows.now }
    ensures { result ≡ list_any (has_ended_fatally play.now place) rows.now }
{
    let mut from = 0;
    while let Some(host) = batch.next_at(from) {
        if is_fatally_over(play, place, rows, host) {
            return true;
        }
        from = behind(batch, host);
    }
    false
}

/// Whether one did, and failures are fatal there.
fn is_fatal_at(play: &PlanPlay, place: usize, rows: &[Host], batch: &HostSet) -> bool
    requires insiders { batch.now ≡ map is_inside rows.now }
    requires outsiders { AreOutside rows.now }
    ensures { result ≡ is_fatal_at play.now place rows.now }
{
    any_errors_fatal_at(play, place) && some_fatally(play, place, rows, batch)
}

/// What a host learns.
pub(crate) struct HostUpdate {
    pub(crate) host: HostNo,
    pub(crate) update: FactsUpdate,
}

impl Drop for HostUpdate {
    fn drop(self) {
        let HostUpdate { host: _, update } = self;
        drop(update);
    }
}

impl HostUpdate {
    /// What it learns.
    pub(crate) fn into_update(self) -> FactsUpdate
        ensures { result ≡ self.update }
    {
        let HostUpdate { host: _, update } = self;
        update
    }
}

/// What a turn does to each host of a batch that goes on from a place.
#[derive(Clone, Copy)]
pub(crate) struct Turning {
    pub(crate) place: usize,
    /// What a host answered there for all, if one did.
    pub(crate) kind: Option<Kind>,
    /// Whether a block round the place rescues a failure.
    pub(crate) is_caught: bool,
    /// Whether hosts are halted.
    pub(crate) halts: bool,
}

/// What a turn makes of the rows: what hosts learn, and what it does to each of them then.
pub(crate) struct TurnMade {
    pub(crate) all: Vec<HostUpdate>,
    pub(crate) turning: Turning,
}

impl Drop for TurnMade {
    fn drop(self) {
        let TurnMade { all, turning: _ } = self;
        drop(all);
    }
}

impl TurnMade {
    /// What hosts learn, and what is done to each of them.
    pub(crate) fn parts(self) -> (Vec<HostUpdate>, Turning)
        ensures { result ≡ (self.all, self.turning) }
    {
        let TurnMade { all, turning } = self;
        (all, turning)
    }
}

/// What a turn came to: whether hosts are halted, and what hosts learnt of what one of them did for all.
#[derive(Drop)]
pub struct TurnResult {
    /// Whether hosts are halted.
    pub halts: bool,
    /// What was before each host learnt something, in the order in which they did.
    pub learnt: Vec<(HostNo, FactsUndo)>,
}

impl TurnResult {
    /// Nothing.
    pub(crate) fn nothing(alloc: Global) -> TurnResult
        ensures halts { result.halts ≡ false }
        ensures learnt { result.learnt.items ≡ [] }
    {
        TurnResult {
            halts: false,
            learnt: Vec::new(alloc),
        }
    }
}

/// What the host that did something for all answered.
fn kind_from(from: Option<&Host>) -> Option<Kind>
    ensures { result ≡ kind_from (option_copied from.entry) }
{
    match from {
        Some(from) => match from.last() {
            Some(finish) => Some(finish.kind),
            None => None,
        },
        None => None,
    }
}

/// What a turn makes of these rows, of which those of the batch are in the set, as the batch goes on from a place, or nothing where it leaves them as
/// they are: where the task at the place doesn't run once, and no host is halted.
#[tactic(auto, using(crate::proofs::Making::nothing_new))]
pub(crate) fn turn_of<'a>(
    alloc: Global,
    inventory: &'a Inventory,
    play: &'a PlanPlay,
    place: usize,
    rows: &'a [Host],
    batch: &HostSet,
) -> Result<Option<TurnMade>, AllocError>
    requires few { length rows.now < 2 ^ 32 }
    requires insiders { batch.now ≡ map is_inside rows.now }
    requires outsiders { AreOutside rows.now }
    ensures { IfOk result (λ made. IsTurnOf inventory.now play.now place rows.now made) }
{
    let from = source(play, place, rows, batch);
    let copied = Copied {
        inventory,
        play,
        place,
        from,
    };
    let halts = copied.is_halting(rows, batch);
    if from.is_none() && !halts {
        return Ok(None);
    }
    let all = copied.update_inside(alloc, rows, batch)?;
    let turning = Turning {
        place,
        kind: kind_from(from),
        is_caught: caught_at(play, place),
        halts,
    };
    Ok(Some(TurnMade { all, turning }))
}
