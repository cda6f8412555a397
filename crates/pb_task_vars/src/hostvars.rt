//! What `hostvars` stands for where a task may look it up.

ghost use Rattle.std.specs.Prelude.{◌≡◌, ◌<◌, ◌≤◌, true, false, length, Some, IfOk, IfSome};
ghost use Rattle.pb_variables.specs.Learnt.{facts_in};
ghost use Rattle.pb_variables.specs.Magic.{hostvars, hosts_magic};
ghost use Rattle.pb_items.specs.Loops.{max_items};
ghost use Rattle.pb_task_vars.specs.Results.{items_at, items_for, place_for};
ghost use Rattle.pb_task_vars.specs.Unread.{IsFreeOfHostvars, ItemsUnread, AttemptsUnread};

use crate::host_vars::HostVars;
use crate::planned::no_task;
use crate::site::Site;
use crate::task_vars::TaskVars;
use pb_facts::facts::Facts;
use pb_outcome::item::Item;
use pb_places::Place;
use pb_plan::Plan;
use pb_reach::reach::{has_result_conditions, may_read_of_result_by_itself};
use pb_value::items::Items;
use pb_value::val::Dict;
use pb_variables::hostvars::{hosts_magic, hostvars};
use std::alloc::{AllocError, Global};

/// The variable `hostvars` of a plan whose hosts, by their numbers, have learnt this. The only error is want of memory.
pub fn hosts_known(alloc: Global, plan: &Plan, learnt: &[&Facts]) -> Result<Dict, AllocError>
    ensures { IfOk result (λ hosts. hosts ≡ hosts_magic (hostvars plan.now.inventory plan.now.extra (facts_in learnt.now))) }
{
    let hosts = hostvars(alloc, plan.inventory(), plan.extra(), learnt)?;
    hosts_magic(alloc, hosts)
}

impl<'a> Site<'a> {
    /// Whether the plan knows that `hostvars` stands in no variable that the task sees, but for what the host has learnt.
    #[tactic(auto, using(crate::proofs::FreeOfHostvars::free_of_hostvars_at))]
    fn is_free_of_hostvars(&self) -> bool
        ensures { result ≡ true → IsFreeOfHostvars self.now.plan.now self.now.play.now self.now.host.0 self.now.facts.now
            (place_for self.now.plan.now self.now.play.now self.now.host.0 self.now.place) }
    {
        !self.plan.may_read_hosts(self.host) && !self.play.may_read_hosts(self.place)
    }

    /// The items of the task at a place as it starts, where they may not look `hostvars` up.
    #[tactic(auto, using(crate::proofs::Unseeing::constant_for, crate::proofs::Unseeing::constant_unread))]
    fn unread_items_for(
        &self,
        alloc: Global,
        place: &'a Place,
        is_free: bool,
    ) -> Result<Option<Items<Item>>, AllocError>
        requires there { self.now.host.0 < length self.now.plan.now.inventory.hosts }
        requires is_free { is_free ≡ true → IsFreeOfHostvars self.now.plan.now self.now.play.now self.now.host.0 self.now.facts.now (Some place.now) }
        ensures value { IfOk result (λ found. IfSome found (λ items. items ≡ items_for self.now.plan.now self.now.play.now self.now.host.0 self.now.facts.now place.now)) }
        ensures unread { IfOk result (λ found. IfSome found (λ _. ItemsUnread self.now.plan.now self.now.play.now self.now.host.0 self.now.facts.now (Some place.now))) }
        ensures few { IfOk result (λ found. IfSome found (λ items. length items ≤ max_items)) }
    {
        if let Some(items) = self.constant_items(alloc, place)? {
            return Ok(Some(items));
        }
        let own = HostVars::of(alloc, self.plan, self.host)?;
        let sight = TaskVars::of(self.plan, self.play, self.host, self.facts, place, &own);
        if sight.is_read_at_start(is_free) {
            return Ok(None);
        }
        let items = sight.items(alloc)?;
        Ok(Some(items))
    }

    /// The items of the task as it starts, where they may not look `hostvars` up: they are the same whatever it stands for. The only error is want of memory.
    #[tactic(auto, unfolding(crate::specs::Results::items_at))]
    pub fn unread_items(&self, alloc: Global) -> Result<Option<Items<Item>>, AllocError>
        ensures value { IfOk result (λ found. IfSome found (λ items. items ≡ items_at self.now.plan.now self.now.play.now self.now.host.0 self.now.facts.now self.now.place)) }
        ensures unread { IfOk result (λ found. IfSome found (λ _. ItemsUnread self.now.plan.now self.now.play.now self.now.host.0 self.now.facts.now
            (place_for self.now.plan.now self.now.play.now self.now.host.0 self.now.place))) }
        ensures few { IfOk result (λ found. IfSome found (λ items. length items ≤ max_items)) }
    {
        let is_free = self.is_free_of_hostvars();
        match self.found() {
            Some(place) => self.unread_items_for(alloc, place, is_free),
            None => {
                let items = no_task(alloc)?;
                Ok(Some(items))
            }
        }
    }

    /// Whether the task at a place may look `hostvars` up as it says something of a result. Where it says nothing it sees nothing, and no layers are made;
    /// nor are they where it is known that it stands in none of the variables.
    fn result_reads(
        &self,
        alloc: Global,
        place: &'a Place,
        is_free: bool,
    ) -> Result<bool, AllocError>
        requires there { self.now.host.0 < length self.now.plan.now.inventory.hosts }
        requires is_free { is_free ≡ true → IsFreeOfHostvars self.now.plan.now self.now.play.now self.now.host.0 self.now.facts.now (Some place.now) }
        ensures { IfOk result (λ reads. reads ≡ false → AttemptsUnread self.now.plan.now self.now.play.now self.now.host.0 self.now.facts.now (Some place.now)) }
    {
        let task = place.task();
        if !has_result_conditions(task) {
            return Ok(false);
        }
        if is_free {
            return Ok(may_read_of_result_by_itself("hostvars", task));
        }
        let own = HostVars::of(alloc, self.plan, self.host)?;
        let sight = TaskVars::of(self.plan, self.play, self.host, self.facts, place, &own);
        Ok(sight.is_read_of_result())
    }

    /// Whether the task may look `hostvars` up as it says of a result whether it changed something or failed, and whether it is tried again. Where it may
    /// not, it says the same whatever `hostvars` stands for. The only error is want of memory.
    pub fn reads_of_result(&self, alloc: Global) -> Result<bool, AllocError>
        ensures { IfOk result (λ reads. reads ≡ false → AttemptsUnread self.now.plan.now self.now.play.now self.now.host.0 self.now.facts.now
            (place_for self.now.plan.now self.now.play.now self.now.host.0 self.now.place)) }
    {
        let is_free = self.is_free_of_hostvars();
        match self.found() {
            Some(place) => self.result_reads(alloc, place, is_free),
            None => Ok(false),
        }
    }
}
