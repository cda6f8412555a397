//! How the task at a place starts on a host.

ghost use Rattle.std.specs.Prelude.{◌≡◌, ◌≤◌, OnOk, OnErr, IfOk, IfSome, length, true, false, Some};
ghost use Rattle.std.specs.Prelude.{slice_set};
ghost use Rattle.std.specs.Option.{option_map_or};
ghost use Rattle.pb_planes.specs.Set.{is_in as is_member};
ghost use Rattle.pb_task_vars.specs.Results.{items_at};
ghost use Rattle.pb_state.specs.Machine.{facts_at, learnt_by, plan_seen};
ghost use Rattle.pb_state.specs.Known.{IsKnown, running_at};
ghost use Rattle.pb_hosts.specs.Applied.{LearnInTurn};

use super::EngineState;
use crate::event::Event;
use crate::hostvars::{unread, whole};
use crate::known::keep;
use pb_facts::facts::Facts;
use pb_facts::update::FactsUndo;
use pb_host::{StepResult, TaskItems, numbered, put_step_result};
use pb_ids::HostNo;
use pb_inventory::inventory::Inventory;
use pb_outcome::item::Item;
use pb_plan::{Plan, PlanPlay};
use pb_task_vars::site::Site;
use pb_task_vars::with_hostvars::PlanWithHostvars;
use pb_value::items::Items;
use pb_value::val::Dict;
use std::alloc::AllocError;

impl EngineState {
    ghost use Rattle.pb_state.specs.Machine.{open_play, may_start_in};
    ghost use Rattle.pb_state.specs.Machine.{after, next_at, start_at, start_with};

    /// What was before each host learnt something is handed out, in the order in which they did.
    pub(crate) fn start(
        &mut self,
        plan: &Plan,
        host: HostNo,
        known: &mut Option<Dict>,
    ) -> Result<Vec<(HostNo, FactsUndo)>, AllocError>
        requires may { option_map_or (may_start_in self.old host.0) (open_play plan.now self.old) false ≡ true }
        requires known { IsKnown plan.now self.old known.old }
        ensures ok { OnOk result (self.new ≡ after plan.now self.old (Event.Start host)) }
        ensures learnt { IfOk result (λ log. LearnInTurn log.items (learnt_by self.old.rows) (learnt_by self.new.rows)) }
        ensures err { OnErr result (self.new ≡ self.old) }
        ensures known { IsKnown plan.now self.old known.new }
    {
        match (self.open_play(plan), self.next_at(host)) {
            (Some(play), Some(place)) => self.start_at(plan, host, play, place, known),
            _ => Ok(Vec::new(self.alloc)),
        }
    }

    /// The place of the task that a host runs.
    pub(crate) fn running_at(&self, host: HostNo) -> Option<usize>
        ensures { result ≡ running_at self.now host.0 }
    {
        match self.row_at(host) {
            Some(row) => match row.running() {
                Some(running) => Some(running.place),
                None => None,
            },
            None => None,
        }
    }

    /// The next place of a host.
    pub(crate) fn next_at(&self, host: HostNo) -> Option<usize>
        ensures { result ≡ next_at self.now host.0 }
    {
        match self.row_at(host) {
            Some(row) => row.next_place(),
            None => None,
        }
    }

    pub(crate) fn start_at(
        &mut self,
        plan: &Plan,
        host: HostNo,
        play: &PlanPlay,
        place: usize,
        known: &mut Option<Dict>,
    ) -> Result<Vec<(HostNo, FactsUndo)>, AllocError>
        requires open { self.old.is_open ≡ true }
        requires may { may_start_in self.old host.0 play.now ≡ true }
        requires here { next_at self.old host.0 ≡ Some place }
        requires known { IsKnown plan.now self.old known.old }
        ensures ok { OnOk result (self.new ≡ start_at plan.now self.old host.0 play.now place) }
        ensures learnt { IfOk result (λ log. LearnInTurn log.items (learnt_by self.old.rows) (learnt_by self.new.rows)) }
        ensures err { OnErr result (self.new ≡ self.old) }
        ensures known { IsKnown plan.now self.old known.new }
    {
        let items = self.items_here(plan, play, host, place, known)?;
        self.start_with(plan.inventory(), host, play, place, items)
    }

    /// The items of the task at a place as it starts on a host, which has learnt what stands in its row.
    pub(crate) fn items_here(
        &self,
        plan: &Plan,
        play: &PlanPlay,
        host: HostNo,
        place: usize,
        known: &mut Option<Dict>,
    ) -> Result<TaskItems, AllocError>
        requires { IsKnown plan.now self.now known.old }
        ensures items { IfOk result (λ items. items ≡ items_at (plan_seen plan.now self.now) play.now host.0 (facts_at self.now host.0) place) }
        ensures known { IsKnown plan.now self.now known.new }
    {
        match self.row_at(host) {
            Some(row) => self.items_on(plan, play, host, row.facts(), place, known),
            None => {
                let none = Facts::new(self.alloc);
                let items = self.items_on(plan, play, host, &none, place, known);
                drop(none);
                items
            }
        }
    }

    /// The same on a host that has learnt this.
    pub(crate) fn items_on(
        &self,
        plan: &Plan,
        play: &PlanPlay,
        host: HostNo,
        facts: &Facts,
        place: usize,
        known: &mut Option<Dict>,
    ) -> Result<TaskItems, AllocError>
        requires { IsKnown plan.now self.now known.old }
        ensures items { IfOk result (λ items. items ≡ items_at (plan_seen plan.now self.now) play.now host.0 facts.now place) }
        ensures known { IsKnown plan.now self.now known.new }
    {
        if let Some(hosts) = known.as_ref() {
            let seen = PlanWithHostvars::new(plan, hosts);
            return self.items_seeing(&seen, play, host, facts, place);
        }
        if let Some(items) = self.unread_items(plan, play, host, facts, place)? {
            return Ok(TaskItems::of(items));
        }
        let shown = whole(self.alloc, plan, self.rows.as_slice())?;
        let seen = PlanWithHostvars::new(plan, &shown.hosts);
        let items = self.items_seeing(&seen, play, host, facts, place)?;
        keep(known, shown);
        Ok(items)
    }

    /// The items of the task at a place as it starts on a host that has learnt this, where it sees the plan so.
    pub(crate) fn items_seeing(
        &self,
        plan: &PlanWithHostvars,
        play: &PlanPlay,
        host: HostNo,
        facts: &Facts,
        place: usize,
    ) -> Result<TaskItems, AllocError>
        ensures { IfOk result (λ items. items ≡ items_at plan.now play.now host.0 facts.now place) }
    {
        let site = Site {
            plan,
            play,
            host,
            facts,
            place,
        };
        let items = site.items(self.alloc)?;
        Ok(TaskItems::of(items))
    }

    /// The same where they may not look `hostvars` up, which isn't there then.
    pub(crate) fn unread_items(
        &self,
        plan: &Plan,
        play: &PlanPlay,
        host: HostNo,
        facts: &Facts,
        place: usize,
    ) -> Result<Option<Items<Item>>, AllocError>
        ensures items { IfOk result (λ found. IfSome found (λ items. items ≡ items_at (plan_seen plan.now self.now) play.now host.0 facts.now place)) }
        ensures few { IfOk result (λ found. IfSome found (λ items. length items ≤ 10000)) }
    {
        let none = unread(self.alloc);
        let seen = PlanWithHostvars::new(plan, &none.hosts);
        let site = Site {
            plan: &seen,
            play,
            host,
            facts,
            place,
        };
        let found = site.unread_items(self.alloc)?;
        Ok(found)
    }

    /// The task at a place starts on a host with these items. What was before each host learnt something, where it ends at once, is handed out.
    pub(crate) fn start_with(
        &mut self,
        inventory: &Inventory,
        host: HostNo,
        play: &PlanPlay,
        place: usize,
        items: TaskItems,
    ) -> Result<Vec<(HostNo, FactsUndo)>, AllocError>
        requires open { self.old.is_open ≡ true }
        requires may { may_start_in self.old host.0 play.now ≡ true }
        ensures ok { OnOk result (self.new ≡ start_with inventory.now self.old host.0 play.now place items) }
        ensures learnt { IfOk result (λ log. LearnInTurn log.items (learnt_by self.old.rows) (learnt_by self.new.rows)) }
        ensures err { OnErr result (self.new ≡ self.old) }
    {
        let results = numbered(self.alloc, &items)?;
        let (done, learnt) = self
            .rows
            .start_row(self.alloc, host, inventory, play, place, items)?;
        let is_new = !has_place(self.begun.as_slice(), place);
        begin_at_place(self.begun.as_mut_slice(), place);
        put_step_result(
            &mut self.step_result,
            Some(StepResult {
                place,
                is_new,
                items: results,
                retried: None,
                done,
            }),
        );
        Ok(learnt)
    }
}

/// Whether a place has begun; none beyond the end has.
fn has_place(begun: &[bool], place: usize) -> bool
    ensures { result ≡ is_member begun.now place }
{
    match begun.get(place) {
        Some(has) => *has,
        None => false,
    }
}

/// A place begins.
fn begin_at_place(begun: &mut [bool], place: usize)
    ensures { begun.new ≡ slice_set begun.old place true }
{
    if place < begun.len() {
        begun[place] = true;
    }
}
