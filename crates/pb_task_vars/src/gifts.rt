//! What a task gives to other hosts than the one that started it.

ghost use Rattle.std.specs.Prelude.{◌≡◌, ◌++◌, [], IfOk, OnOk};
ghost use Rattle.std.specs.Option.{option_copied, option_map};
ghost use Rattle.pb_task_vars.specs.Delegates.{delegate_of};
ghost use Rattle.pb_task_vars.specs.Gifts.{facts_of, gift_then, gifts_of, gives_away, gifts_from, given_by};

use crate::ends::{Ended, has_run};
use crate::learning::gives_of;
use pb_facts::facts::Gives;
use pb_facts::reading::facts_in;
use pb_ids::HostNo;
use pb_inventory::inventory::Inventory;
use pb_outcome::gather::TaskResult;
use pb_outcome::item::{Item, Planned};
use pb_places::Place;
use pb_value::val::Dict;
use std::alloc::{AllocError, Global};

/// Facts that a task gives to another host than the one that started it.
pub struct DelegatedFacts {
    /// The host that is given them.
    pub host: HostNo,
    /// How its module gives them.
    pub gives: Gives,
    pub facts: Dict,
}

impl Drop for DelegatedFacts {
    fn drop(self) {
        let DelegatedFacts {
            host: _,
            gives: _,
            facts,
        } = self;
        drop(facts);
    }
}

/// The host that an item is delegated to.
fn delegate_of(inventory: &Inventory, item: &Item) -> Option<HostNo>
    ensures { option_map (λ (h : HostNo). h.0) result ≡ delegate_of inventory.now item.now }
{
    match &item.delegate {
        Some(name) => inventory.number(name.as_str()),
        None => None,
    }
}

/// The facts in an item's result.
fn facts_of(item: &Item) -> Option<&Dict>
    ensures { option_copied result ≡ facts_of item.now.step }
{
    match &item.step {
        Planned::Decided(result) => facts_in(&result.result),
        Planned::Sends(_) => None,
    }
}

/// Puts down what an item gives, where it gives something to another host.
fn push_gift(
    alloc: Global,
    gifts: &mut Vec<DelegatedFacts>,
    inventory: &Inventory,
    host: HostNo,
    gives: Gives,
    item: &Item,
) -> Result<(), AllocError>
    ensures { OnOk result (gifts.new.items ≡ gifts.old.items ++ gift_then host.0 gives (delegate_of inventory.now item.now) (facts_of item.now.step) []) }
{
    match (delegate_of(inventory, item), facts_of(item)) {
        (Some(to), Some(facts)) => {
            if to.0 != host.0 {
                let facts = facts.try_clone(alloc)?;
                gifts.push(DelegatedFacts {
                    host: to,
                    gives,
                    facts,
                })?;
            }
            Ok(())
        }
        _ => Ok(()),
    }
}

/// What these items give to other hosts than this one, in their order.
fn gifts_of(
    alloc: Global,
    inventory: &Inventory,
    host: HostNo,
    gives: Gives,
    items: &[Item],
) -> Result<Vec<DelegatedFacts>, AllocError>
    ensures { IfOk result (λ gifts. gifts.items ≡ gifts_of inventory.now host.0 gives items.now) }
{
    let mut gifts = Vec::new(alloc);
    for number in 0..items.len() {
        push_gift(alloc, &mut gifts, inventory, host, gives, &items[number])?;
    }
    Ok(gifts)
}

/// Whether a task that ended so at a place gives something away.
fn gives_away(place: &Place, ended: TaskResult) -> bool
    ensures { result ≡ gives_away place.now ended }
{
    place.delegate_facts() && has_run(ended) && !ended.unreachable
}

impl<'a> Ended<'a> {
    fn gifts_from(
        &self,
        alloc: Global,
        host: HostNo,
        place: &Place,
    ) -> Result<Vec<DelegatedFacts>, AllocError>
        ensures { IfOk result (λ gifts. gifts.items ≡ gifts_from self.now.inventory.now host.0 self.now.result self.now.items.now place.now) }
    {
        if !gives_away(place, self.result) {
            return Ok(Vec::new(alloc));
        }
        let gives = gives_of(&place.task().module);
        gifts_of(alloc, self.inventory, host, gives, self.items)
    }

    /// What the task gives to other hosts than this one, which started it: where its facts are delegated, those of an item go to the host that the item is
    /// delegated to, and a name that is no host's is given nothing. The only error is want of memory. See Ansible's documentation, "Controlling where tasks
    /// run", "Delegating facts".
    #[tactic(auto, unfolding(crate::specs::Gifts::given_by))]
    pub fn gives(&self, alloc: Global, host: HostNo) -> Result<Vec<DelegatedFacts>, AllocError>
        ensures { IfOk result (λ gifts. gifts.items ≡ given_by self.now.inventory.now self.now.play.now self.now.place host.0 self.now.result self.now.items.now) }
    {
        match self.play.place(self.place) {
            Some(place) => self.gifts_from(alloc, host, place),
            None => Ok(Vec::new(alloc)),
        }
    }
}
