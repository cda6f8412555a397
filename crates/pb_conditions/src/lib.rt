//! Conditions: whether each of a list of expressions holds in a scope, and what a task says by them of an item's result.
//!
//! For the layer above: `holds` reads the conditions in order up to the first that doesn't hold, and gives whether all of them do,
//! or the first fault that is met on the way (`specs/Conditions.antt`). `with_conditions` makes an item's result what its task's
//! `changed_when` and `failed_when` say (`specs/ResultConditions.antt`). `attempted` says of an attempt at an item that may be tried more than
//! once whether the item has its result or is tried again (`specs/Attempts.antt`). Only want of memory may come in place of the answer.
#![tactic(auto)]

pub mod attempt;
pub mod holds;
pub mod result_conditions;
