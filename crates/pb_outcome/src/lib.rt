//! What a runner is asked to do and what it answers, and what an answer means for a task.
//!
//! A `Job` is one item of a task on one host, a `Report` brings its `Outcome` back. `read_outcome` and `outcome_to_json` go
//! between an outcome and its JSON, both exactly `outcome_of` and `outcome_json` of `specs/Reading.antt` and
//! `specs/Writing.antt`. `judge` makes an outcome the result of an item, and `gather` makes the results of a task's items
//! the task's result, as `specs/Results.antt` and `specs/Gathered.antt` say. Results of items without a job are
//! `specs/Decided.antt`.
#![tactic(auto)]

pub mod cause;
pub mod decided;
pub mod fault;
pub mod gather;
pub mod item;
pub mod items;
pub mod job;
pub mod judge;
mod members;
pub mod outcome;
pub mod output;
pub mod reading;
pub mod registered;
pub mod result_names;
mod short;
pub mod writing;
