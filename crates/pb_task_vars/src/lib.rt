//! What the tasks of a play see on a host, and what they leave there.
//!
//! For the layer above: `PlanWithHostvars` is a plan as tasks see it, with `hostvars` behind its magic variables, and a `Site` is the task at hand: its `items` are
//! those with which it starts on its host, and `came` says what an attempt at an item comes to whose job came back, by what the task tells
//! (`specs/Results.antt`): a task without `changed_when`, `failed_when` and retries tells nothing, and no scope is made for it. `unread_items`
//! are its items where they may not look `hostvars` up, which `hosts_known` makes, and `reads_of_result` says whether what it tells of a result may
//! (`specs/Unread.antt`). An `Ended` is a task that ended: what a host knows then is what it `teaches` it (`specs/Learning.antt`), and it `gives` facts to
//! other hosts (`specs/Gifts.antt`). Nothing here knows of events or of what a host runs. Only want of memory may come in place of an answer.
#![tactic(auto)]

ghost use Rattle.pb_task_vars.specs.Teaching.{OnlyGoodTasksTeach};

mod attempts;
mod constant;
mod delegates;
pub mod ends;
pub mod gifts;
mod host_vars;
pub mod hostvars;
mod learning;
mod planned;
pub mod site;
mod task_vars;
pub mod with_hostvars;

pub use pb_plan::PlanPlay;

/// What a task leaves that failed, be that ignored or not, or that was left out: what its host knows stays, but for the task's result
/// under the name that it registers, and where the host was out of reach it stays as it is.
#[tactic(auto, using(crate::proofs::FactsAfter::only_good_tasks_teach))]
pub fn only_good_tasks_teach()
    ensures { OnlyGoodTasksTeach }
{}
