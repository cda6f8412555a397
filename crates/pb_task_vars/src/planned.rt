//! What tasks are when they start on a host.

ghost use Rattle.std.specs.Prelude.{◌≡◌, ◌<◌, ◌≤◌, ◌∷◌, [], length, None, IfOk};
ghost use Rattle.pb_task_vars.specs.Results.{nothing, items_for, items_at};
ghost use Rattle.pb_outcome.specs.declared.item.Planned.TheVariants.{Decided};
ghost use Rattle.pb_items.specs.Loops.{max_items};

use crate::host_vars::HostVars;
use crate::site::Site;
use crate::task_vars::TaskVars;
use pb_outcome::gather::{Ending, ItemResult};
use pb_outcome::item::{Item, Planned};
use pb_places::Place;
use pb_value::items::Items;
use pb_value::val::{Node, Val};
use std::alloc::{AllocError, Global};

/// The one item of a place without a task, which has nothing to run.
pub(crate) fn no_task(alloc: Global) -> Result<Items<Item>, AllocError>
    ensures value { IfOk result (λ items. items ≡ record { value = None; delegate = None; tried = 0; step = Decided nothing } ∷ []) }
    ensures few { IfOk result (λ items. length items ≤ max_items) }
{
    let mut items = Items::new(alloc);
    items.push(Item {
        value: None,
        delegate: None,
        tried: 0,
        step: Planned::Decided(ItemResult {
            ending: Ending::Skipped,
            result: Val { node: Node::Null },
        }),
    })?;
    Ok(items)
}

impl<'a> Site<'a> {
    /// The items of the task at a place as it starts.
    #[tactic(auto, using(crate::proofs::Unseeing::constant_for))]
    fn items_for(&self, alloc: Global, place: &'a Place) -> Result<Items<Item>, AllocError>
        requires { self.now.host.0 < length self.now.plan.now.inventory.hosts }
        ensures value { IfOk result (λ items. items ≡ items_for self.now.plan.now self.now.play.now self.now.host.0 self.now.facts.now place.now) }
        ensures few { IfOk result (λ items. length items ≤ max_items) }
    {
        if let Some(items) = self.constant_items(alloc, place)? {
            return Ok(items);
        }
        let own = HostVars::of(alloc, self.plan, self.host)?;
        let sight = TaskVars::of(self.plan, self.play, self.host, self.facts, place, &own);
        sight.items(alloc)
    }

    /// The items of the task as it starts. The only error is want of memory.
    #[tactic(auto, unfolding(crate::specs::Results::items_at))]
    pub fn items(&self, alloc: Global) -> Result<Items<Item>, AllocError>
        ensures value { IfOk result (λ items. items ≡ items_at self.now.plan.now self.now.play.now self.now.host.0 self.now.facts.now self.now.place) }
        ensures few { IfOk result (λ items. length items ≤ max_items) }
    {
        match self.found() {
            Some(place) => self.items_for(alloc, place),
            None => no_task(alloc),
        }
    }
}
