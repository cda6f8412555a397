//! Tasks that ended, and whether they did what they were to do.

ghost use Rattle.std.specs.Prelude.{◌≡◌};
ghost use Rattle.pb_task_vars.specs.Ends.{has_run};

use pb_inventory::inventory::Inventory;
use pb_outcome::gather::TaskResult;
use pb_outcome::item::Item;
use pb_plan::PlanPlay;

/// A task that ended: the one at a place of a play, over the hosts of an inventory.
#[derive(Drop)]
pub struct Ended<'a> {
    pub inventory: &'a Inventory,
    pub play: &'a PlanPlay,
    /// The place's position in the play's tree.
    pub place: usize,
    /// How it ended.
    pub result: TaskResult,
    /// Its items, with what they came to.
    pub items: &'a [Item],
}

/// Whether a task neither failed nor was left out.
pub fn has_run(task: TaskResult) -> bool
    ensures { result ≡ has_run task }
{
    !task.failed && !task.skipped
}
