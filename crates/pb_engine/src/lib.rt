//! The engine: a plan, the state of its run, and the trail of events that led to it.
//!
//! For the layers above: an `Engine` starts in the first state of its plan, and each call of `next` either takes exactly
//! one event that is possible and writes it down, or finds that nothing is possible but the report of a job, or nothing
//! at all, and changes nothing. A `Picker` chooses among the hosts that have a job to send or may start; a job that goes
//! out is handed to the caller. `absorb` takes the report of a job that is out as one event, and hands every other report
//! back. `command` takes a command as one event, where the run isn't at its end. So the trail is a legal run of the plan
//! that ends in the state, always. Each event but commands leaves less to do, so the calls come to an end, and a run that
//! is at its end is never stuck: it was stopped, it ended early, or no batch is open and none is left to open.
#![tactic(auto)]

ghost use Rattle.pb_engine.specs.Awaited.{JobsOutAreAwaited};

mod choice;
mod command;
mod engine;
mod fault;
mod picker;
mod refusal;

pub use command::{Command, CommandFault};
pub use engine::{Engine, Next};
pub use fault::EngineFault;
pub use pb_laws::{runs_end_as_fixed, runs_keep_laws};
pub use picker::{Lowest, Picker, RoundRobin};
pub use refusal::Refusal;

/// What holds of every run: a report of a job that is out, of its host, its item and its attempt, is not refused.
pub fn jobs_that_are_out_are_awaited()
    ensures { JobsOutAreAwaited }
{}
