//! One host of a run: what the state keeps of it, and what a step does to that alone.
//!
//! For the layers above: a `Host` is one host, which contracts see as `HostOf` (`specs/Host.antt`). It has the host's walk through the open batch's play,
//! the task that it runs with its items (`TaskItems`), what it finished last, what it has learnt, and how its tasks count (`Counts`). A task starts, its
//! jobs go out, come back and end it, which gives a `StepResult`; a batch takes the host in and lets it go; a turn gives it what another host answered for
//! all, and halts it (`specs/Turned.antt`). How a task's end answers, breaks its host and counts is `specs/Ends.antt`, whom it notifies `specs/Handlers.antt`. Nothing here knows of
//! other hosts or of events. A call that finds no memory changes nothing.
#![tactic(auto)]

mod ends;
mod handlers;
mod host;
mod item_results;
mod items;
mod step_result;

pub use ends::{breaks, ends_run_once, is_fatal};
pub use host::{Counts, Host, LastTask, Running};
pub use item_results::{caught_at, numbered, runs_once_at, task_at, variable_at};
pub use items::{Before, CameBack, TaskItems};
pub use pb_task_vars::PlanPlay;
pub use pb_task_vars::ends::Ended;
pub use pb_task_vars::gifts::DelegatedFacts;
pub use pb_task_vars::with_hostvars::PlanWithHostvars;
pub use step_result::{Retried, StepResult, TaskDone, TaskEnd, put_step_result};
