//! The task of a host, as it starts or goes on: what it gives to other hosts is theirs, its own row changes, and what was before they learnt something is
//! handed out.

ghost use Rattle.std.specs.Prelude.{◌≡◌, ◌<◌, ◌-◌, ◌^◌, length, slice_get, true, None, IfOk, IfSome, OnOk, OnErr};
ghost use Rattle.std.specs.Option.{option_map_or};
ghost use Rattle.pb_host.specs.Back.{went_on, step_result_now};
ghost use Rattle.pb_host.specs.Ends.{IsAtMost};
ghost use Rattle.pb_host.specs.Host.{progressed};
ghost use Rattle.pb_host.specs.StepResults.{done_if};
ghost use Rattle.pb_hosts.specs.Applied.{LearnInTurn, LearnsLast, LearnsOne, learnt_in};
ghost use Rattle.pb_hosts.specs.Giving.{with_delegated, gifts_at, gives_now};
ghost use Rattle.pb_hosts.specs.Hosts.{change, pending_in};

use crate::apply::revert_all;
use crate::gifts::{apply_gifts, gifts_at, gives_now};
use pb_facts::update::FactsUndo;
use pb_host::{Host, PlanPlay, Retried, StepResult, TaskDone, TaskItems};
use pb_ids::HostNo;
use pb_inventory::inventory::Inventory;
use std::alloc::{AllocError, Global};

/// A task that a host has of its own: the hosts that it may give something to, and the play that it is of.
#[derive(Drop)]
pub(crate) struct OwnTask<'a> {
    pub(crate) inventory: &'a Inventory,
    pub(crate) play: &'a PlanPlay,
}

impl<'a> OwnTask<'a> {
    /// It starts at a place with these items. What was before its host learnt something by that is handed out. An `Err` changes nothing.
    fn start_at(
        &self,
        alloc: Global,
        rows: &mut Vec<Host>,
        host: HostNo,
        place: usize,
        items: TaskItems,
    ) -> Result<(Option<TaskDone>, FactsUndo), AllocError>
        requires there { host.0 < length rows.old.items }
        requires batch { IfSome (slice_get rows.old.items host.0) (λ row. row.in_batch ≡ true) }
        requires room { IfSome (slice_get rows.old.items host.0) (λ row. IsAtMost row.counts (2 ^ 64 - 2)) }
        ensures rows { OnOk result (rows.new.items ≡ change rows.old.items host.0 (progressed self.now.inventory.now self.now.play.now place items)) }
        ensures done { IfOk result (λ started. started.0 ≡ done_if self.now.play.now place (pending_in rows.old.items host.0) items) }
        ensures past { IfOk result (λ started. LearnsOne host.0 started.1 (learnt_in rows.old.items) (learnt_in rows.new.items)) }
        ensures err { OnErr result (rows.new.items ≡ rows.old.items) }
    {
        match rows.get_mut(host.0 as usize) {
            Some(row) => {
                let (done, past) = row.start(alloc, self.inventory, self.play, place, items)?;
                Ok((done, past))
            }
            None => unreachable!(),
        }
    }

    /// The same, with what was before put down in the log, for which there is room first.
    fn start_own(
        &self,
        alloc: Global,
        rows: &mut Vec<Host>,
        log: &mut Vec<(HostNo, FactsUndo)>,
        host: HostNo,
        place: usize,
        items: TaskItems,
    ) -> Result<Option<TaskDone>, AllocError>
        requires there { host.0 < length rows.old.items }
        requires batch { IfSome (slice_get rows.old.items host.0) (λ row. row.in_batch ≡ true) }
        requires room { IfSome (slice_get rows.old.items host.0) (λ row. IsAtMost row.counts (2 ^ 64 - 2)) }
        ensures rows { OnOk result (rows.new.items ≡ change rows.old.items host.0 (progressed self.now.inventory.now self.now.play.now place items)) }
        ensures done { IfOk result (λ done. done ≡ done_if self.now.play.now place (pending_in rows.old.items host.0) items) }
        ensures log { OnOk result (LearnsLast host log.old.items log.new.items (learnt_in rows.old.items) (learnt_in rows.new.items)) }
        ensures err { OnErr result (rows.new.items ≡ rows.old.items) }
        ensures same { OnErr result (log.new.items ≡ log.old.items) }
    {
        log.reserve(1)?;
        let (done, past) = self.start_at(alloc, rows, host, place, items)?;
        match log.push((host, past)) {
            Ok(()) => Ok(done),
            Err(_) => unreachable!(),
        }
    }

    /// It starts at a place with these items; where it ends at once, what it gives to other hosts is theirs. What was before they learnt something is handed out,
    /// that of its own host last. An `Err` changes nothing.
    pub(crate) fn start(
        &self,
        alloc: Global,
        rows: &mut Vec<Host>,
        host: HostNo,
        place: usize,
        items: TaskItems,
    ) -> Result<(Option<TaskDone>, Vec<(HostNo, FactsUndo)>), AllocError>
        requires there { host.0 < length rows.old.items }
        requires batch { IfSome (slice_get rows.old.items host.0) (λ row. row.in_batch ≡ true) }
        requires room { IfSome (slice_get rows.old.items host.0) (λ row. IsAtMost row.counts (2 ^ 64 - 2)) }
        ensures rows { OnOk result (rows.new.items ≡ with_delegated (gifts_at self.now.inventory.now self.now.play.now place host.0 items) (change rows.old.items host.0 (progressed self.now.inventory.now self.now.play.now place items))) }
        ensures done { IfOk result (λ started. started.0 ≡ done_if self.now.play.now place (pending_in rows.old.items host.0) items) }
        ensures learnt { IfOk result (λ started. LearnInTurn started.1.items (learnt_in rows.old.items) (learnt_in rows.new.items)) }
        ensures err { OnErr result (rows.new.items ≡ rows.old.items) }
    {
        let gifts = gifts_at(alloc, self.inventory, self.play, place, host, &items)?;
        let mut log = apply_gifts(alloc, rows, gifts)?;
        match self.start_own(alloc, rows, &mut log, host, place, items) {
            Ok(done) => Ok((done, log)),
            Err(error) => {
                revert_all(rows, log);
                Err(error)
            }
        }
    }

    /// What a step comes to for it, of which the item with this number came back, or this attempt at it. What was before its host learnt something by that is
    /// handed out. An `Err` changes nothing.
    fn advance_at(
        &self,
        alloc: Global,
        rows: &mut Vec<Host>,
        host: HostNo,
        number: Option<u32>,
        retried: Option<Retried>,
    ) -> Result<(Option<StepResult>, FactsUndo), AllocError>
        requires { IfSome (slice_get rows.old.items host.0) (λ row. IsAtMost row.counts (2 ^ 64 - 2)) }
        ensures rows { OnOk result (rows.new.items ≡ change rows.old.items host.0 (went_on self.now.inventory.now self.now.play.now)) }
        ensures comes_to { IfOk result (λ both. both.0 ≡ option_map_or (step_result_now self.now.play.now number retried) (slice_get rows.old.items host.0) None) }
        ensures past { IfOk result (λ both. LearnsOne host.0 both.1 (learnt_in rows.old.items) (learnt_in rows.new.items)) }
        ensures err { OnErr result (rows.new.items ≡ rows.old.items) }
    {
        match rows.get_mut(host.0 as usize) {
            Some(row) => {
                let (step_result, past) = row.advance(
                    alloc,
                    self.inventory,
                    self.play,
                    number,
                    retried,
                )?;
                Ok((step_result, past))
            }
            None => Ok((None, FactsUndo::Nothing)),
        }
    }

    /// The same, with what was before put down in the log, for which there is room first.
    fn advance_own(
        &self,
        alloc: Global,
        rows: &mut Vec<Host>,
        log: &mut Vec<(HostNo, FactsUndo)>,
        host: HostNo,
        number: Option<u32>,
        retried: Option<Retried>,
    ) -> Result<Option<StepResult>, AllocError>
        requires { IfSome (slice_get rows.old.items host.0) (λ row. IsAtMost row.counts (2 ^ 64 - 2)) }
        ensures rows { OnOk result (rows.new.items ≡ change rows.old.items host.0 (went_on self.now.inventory.now self.now.play.now)) }
        ensures comes_to { IfOk result (λ step_result. step_result ≡ option_map_or (step_result_now self.now.play.now number retried) (slice_get rows.old.items host.0) None) }
        ensures log { OnOk result (LearnsLast host log.old.items log.new.items (learnt_in rows.old.items) (learnt_in rows.new.items)) }
        ensures err { OnErr result (rows.new.items ≡ rows.old.items) }
        ensures same { OnErr result (log.new.items ≡ log.old.items) }
    {
        log.reserve(1)?;
        let (step_result, past) = self.advance_at(alloc, rows, host, number, retried)?;
        match log.push((host, past)) {
            Ok(()) => Ok(step_result),
            Err(_) => unreachable!(),
        }
    }

    /// What a step comes to for it, of which the item with this number came back, or this attempt at it; where it ends, what it gives to other hosts is theirs.
    /// What was before they learnt something is handed out, that of its own host last. An `Err` changes nothing.
    pub(crate) fn advance(
        &self,
        alloc: Global,
        rows: &mut Vec<Host>,
        host: HostNo,
        number: Option<u32>,
        retried: Option<Retried>,
    ) -> Result<(Option<StepResult>, Vec<(HostNo, FactsUndo)>), AllocError>
        requires { IfSome (slice_get rows.old.items host.0) (λ row. IsAtMost row.counts (2 ^ 64 - 2)) }
        ensures rows { OnOk result (rows.new.items ≡ with_delegated (gives_now self.now.inventory.now self.now.play.now host.0 rows.old.items) (change rows.old.items host.0 (went_on self.now.inventory.now self.now.play.now))) }
        ensures comes_to { IfOk result (λ both. both.0 ≡ option_map_or (step_result_now self.now.play.now number retried) (slice_get rows.old.items host.0) None) }
        ensures learnt { IfOk result (λ both. LearnInTurn both.1.items (learnt_in rows.old.items) (learnt_in rows.new.items)) }
        ensures err { OnErr result (rows.new.items ≡ rows.old.items) }
    {
        let gifts = gives_now(alloc, self.inventory, self.play, rows.as_slice(), host)?;
        let mut log = apply_gifts(alloc, rows, gifts)?;
        match self.advance_own(alloc, rows, &mut log, host, number, retried) {
            Ok(step_result) => Ok((step_result, log)),
            Err(error) => {
                revert_all(rows, log);
                Err(error)
            }
        }
    }
}
