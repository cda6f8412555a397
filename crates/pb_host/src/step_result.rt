//! What a step comes to.

ghost use Rattle.std.specs.Prelude.{◌≡◌};

use pb_outcome::gather::{ItemResult, TaskResult};
use pb_play::modules::Meta;
use pb_value::items::Items;
use pb_value::val::Val;

/// What a step came to for the task that started, or that a report was for.
pub struct StepResult {
    /// The place's position in the play's tree.
    pub place: usize,
    /// Whether no host of the batch had started there before.
    pub is_new: bool,
    /// The items of a loop that ended, with their numbers.
    pub items: Items<(u32, ItemResult)>,
    /// The attempt that came back with a result behind which another attempt at its item comes.
    pub retried: Option<Retried>,
    /// How the task ended, if it did.
    pub done: Option<TaskDone>,
}

impl Drop for StepResult {
    fn drop(self) {
        let StepResult {
            place: _,
            is_new: _,
            items,
            retried,
            done,
        } = self;
        drop(items);
        drop(retried);
        drop(done);
    }
}

/// An attempt at an item behind which another one comes. See Ansible's documentation, "Retrying a task until a condition is met".
pub struct Retried {
    /// Its number, from 1.
    pub attempt: u32,
    /// What came of it, as it is shown.
    pub result: Val,
}

impl Drop for Retried {
    fn drop(self) {
        let Retried { attempt: _, result } = self;
        drop(result);
    }
}

/// How a task ended on a host, with what its place says of that.
#[derive(Clone, Copy)]
pub struct TaskEnd {
    /// What its items came to.
    pub result: TaskResult,
    /// Whether a block round the place rescues a failure there.
    pub is_caught: bool,
    /// Which task of `meta` it is, if it is one.
    pub meta: Option<Meta>,
}

/// How a task ended on a host, and what is shown of it.
pub struct TaskDone {
    /// The task's result, as it is shown.
    pub result: Val,
    /// How it ended.
    pub task: TaskEnd,
    /// The numbers of the handlers that it notified and that were not pending before, in the order of definition.
    pub notified: Items<u32>,
}

impl Drop for TaskDone {
    fn drop(self) {
        let TaskDone {
            result,
            task: _,
            notified,
        } = self;
        drop(result);
        drop(notified);
    }
}

/// Puts down what a step came to.
pub fn put_step_result(slot: &mut Option<StepResult>, step_result: Option<StepResult>)
    ensures { slot.new ≡ step_result }
{
    *slot = step_result;
}
