//! What attempts at items of tasks come to.

ghost use Rattle.std.specs.Prelude.{◌≡◌, ◌<◌, length, IfOk};
ghost use Rattle.pb_task_vars.specs.Results.{came_for, came_at};

use crate::host_vars::HostVars;
use crate::site::Site;
use crate::task_vars::TaskVars;
use pb_items::Back;
use pb_outcome::gather::ItemResult;
use pb_places::Place;
use pb_reach::reach::has_result_conditions;
use pb_value::val::Val;
use std::alloc::{AllocError, Global};

impl<'a> Site<'a> {
    /// What an attempt at an item with this value of the loop variable comes to, as the task at a place says in the scope that its host has then. Where the
    /// task says nothing no scope is made, and the item has the result that came back.
    fn came_for(
        &self,
        alloc: Global,
        value: &Option<Val>,
        attempt: u32,
        item: ItemResult,
        place: &'a Place,
    ) -> Result<Back, AllocError>
        requires { self.now.host.0 < length self.now.plan.now.inventory.hosts }
        ensures { IfOk result (λ back. back ≡ came_for self.now.plan.now self.now.play.now self.now.host.0 self.now.facts.now value.now attempt item place.now) }
    {
        if !has_result_conditions(place.task()) {
            return Ok(Back::Ends(item));
        }
        let own = HostVars::of(alloc, self.plan, self.host)?;
        let sight = TaskVars::of(self.plan, self.play, self.host, self.facts, place, &own);
        sight.attempted(alloc, value, attempt, item)
    }

    /// What an attempt, numbered from 1, at an item with this value of the loop variable comes to, from the result that came back, as the task says. The
    /// only error is want of memory.
    #[tactic(auto, unfolding(crate::specs::Results::came_at))]
    pub fn came(
        &self,
        alloc: Global,
        value: &Option<Val>,
        attempt: u32,
        item: ItemResult,
    ) -> Result<Back, AllocError>
        ensures { IfOk result (λ back. back ≡ came_at self.now.plan.now self.now.play.now self.now.host.0 self.now.facts.now self.now.place value.now attempt item) }
    {
        match self.found() {
            Some(place) => self.came_for(alloc, value, attempt, item, place),
            None => Ok(Back::Ends(item)),
        }
    }
}
