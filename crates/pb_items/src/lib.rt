//! What the items of a task are when the task starts on a host.
//!
//! For the layer above: `items` reads a task's loop, its conditions and what its module is given, in the scopes that its host has at that
//! moment. Each item has its result at once, or its call is sent as a job, exactly as `items_of` of `specs/Items.antt` says. What can't
//! be read fails the item, whose result says why. `attempted` is what an attempt at an item comes to whose job came back
//! (`attempted_item`): the item has its result, or is tried again. Only want of memory may come in place of an answer.
#![tactic(auto)]

mod calls;
pub mod constant;
mod facts;
pub mod fault;
pub mod items;
pub mod loops;
pub mod planned;
pub mod planning;
mod results;
pub mod start;

pub use pb_conditions::attempt::Back;
