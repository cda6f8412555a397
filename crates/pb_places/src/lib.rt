//! What stands at a place of a play's tree: a task, with all that it has from its own keys, the blocks round it, its role and its play.
//!
//! For the layers above: a `Place` is one of these, as `specs/Place.antt` says. `Place::of` is the place of a plain task, which has nothing
//! beside the task; `Place::within` is that of a task in its surroundings, `Place::sharing` that of one that several places share. What a place doesn't have takes no memory: a plain task's place is
//! its task and one pointer, and blocks and roles share their variables among their places. What places share is searched for `hostvars` as it is made (`searched`), so that
//! `Place::is_free_of_hostvars` searches a task's own variables alone (`specs/Hostvars.antt`).
#![tactic(auto)]

pub mod conditions;
mod held;
mod place;
mod searched;
mod surroundings;

pub use place::Place;
pub use searched::{SearchedRole, SearchedTask, SearchedVars};
pub use surroundings::{Role, Surroundings};
