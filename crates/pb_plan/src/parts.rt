//! What plays and plans are made of.

ghost use Rattle.std.specs.Prelude.{◌≡◌, IfOk};
ghost use Rattle.pb_plan.specs.Plan.{throttles_of, run_once_of};

use pb_batches::Serial;
use pb_inventory::inventory::Inventory;
use pb_outcome::result_names::ResultNames;
use pb_places::Place;
use pb_planes::HostSet;
use pb_strategies::Strategy;
use pb_value::items::Items;
use pb_value::names::Names;
use pb_value::text::Text;
use pb_value::val::Dict;
use pb_variables::shared::GroupShares;
use std::alloc::{AllocError, Global};

/// What a play is, but for its tree and what stands at the tree's places.
pub struct PlayHead {
    /// Its name, as it is printed.
    pub name: Text,
    /// The hosts that are its own.
    pub hosts: HostSet,
    /// How the hosts of a batch go through its tasks.
    pub strategy: Strategy,
    /// What it says of the sizes of its batches.
    pub serial: Serial,
    /// How many of a batch's hosts in a hundred may fail.
    pub max_fail_percentage: u32,
    /// Its variables, as they are written.
    pub vars: Dict,
    /// The variables that it gives by itself.
    pub magic: Dict,
}

/// What stands at each place of a play's tree, in the order of places, and what is known of it once for all hosts.
pub struct AtPlaces {
    /// What stands there.
    pub places: Items<Place>,
    /// How many hosts may run the task there at once.
    pub throttles: Vec<u32>,
    /// Whether the first host of a batch runs the task there for all.
    pub run_once: Vec<bool>,
    /// The places that are marked have no variable in whose text `hostvars` stands.
    pub free_places: Vec<bool>,
    /// The names of the result of a program that ran, which the results of all hosts share.
    pub ran: Option<Names>,
    /// Those of results that are decided as a task starts.
    pub names: ResultNames,
}

/// How many hosts may run the task at each of these places at once.
pub fn throttles_of(alloc: Global, places: &[Place]) -> Result<Vec<u32>, AllocError>
    ensures { IfOk result (λ all. all.items ≡ throttles_of places.now) }
{
    let mut all = Vec::with_capacity(alloc, places.len())?;
    for place in places {
        all.push(place.throttle())?;
    }
    Ok(all)
}

/// Whether the first host of a batch runs the task at each of these places for all.
pub fn run_once_of(alloc: Global, places: &[Place]) -> Result<Vec<bool>, AllocError>
    ensures { IfOk result (λ all. all.items ≡ run_once_of places.now) }
{
    let mut all = Vec::with_capacity(alloc, places.len())?;
    for place in places {
        all.push(place.run_once())?;
    }
    Ok(all)
}

/// The hosts of a plan, with the variables that don't depend on the play, and what is known of them once for all plays.
pub struct PlanHosts {
    /// The hosts, their groups, and the variables of both.
    pub inventory: Inventory,
    /// The extra variables, as they are given.
    pub extra: Dict,
    /// What hosts have from their groups, made once for all hosts of the same groups.
    pub shares: GroupShares,
    /// The hosts that are marked have no variable in whose text `hostvars` stands.
    pub free_hosts: Vec<bool>,
}
