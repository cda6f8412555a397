//! The state of a run and its steps.
//!
//! For the layers above: `EngineState` is the state of the strategy machine, and `step_knowing` takes exactly the events that
//! may happen in it, each with exactly its effect; an event that may not happen is `Illegal` and changes nothing. It keeps the map of
//! `hostvars` from step to step; `step`, which nothing calls, does the same without it.
//! `Plan` (pb_plan) is what the machine reads of a bundle, `pb_host` what a step does to one host, and `pb_hosts` what it does to the rows of all.
#![tactic(auto)]

ghost use Rattle.pb_state.specs.Walks.{WalksLead, RowsStay};
ghost use Rattle.pb_state.specs.Rising.{StartsRise};

mod boxed;
mod event;
mod hostvars;
mod job;
mod known;
mod sizes_left;
mod state;
mod through;

pub use boxed::BoxedReport;
pub use event::{Event, Trail};
pub use pb_host::{Counts, Retried, StepResult, TaskDone, TaskEnd};
pub use pb_plan::{Plan, PlanPlay};
pub use pb_planning::{Bundle, BundleFault, MAX_BYTES, RoleFault};
pub use state::{EngineState, StepFault};

/// What holds of every run: each host of the open batch is at the place to which its answers lead in the play's tree, and no other host
/// is at a place; each row is its host's; and the places at which a host starts in a play rise.
pub fn walks_lead()
    ensures walks { WalksLead }
    ensures rows { RowsStay }
    ensures rise { StartsRise }
{}
