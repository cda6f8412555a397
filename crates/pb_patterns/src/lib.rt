//! Patterns of hosts: which hosts of an inventory a play or a limit means.
//!
//! `Pattern::parse` reads a text, and `Pattern::parse_all` the texts of a list, to the elements that
//! `specs/Reading.antt` says, or to the first fault. `Pattern::select` gives the hosts that a pattern
//! means in an inventory, by `specs/Selection.antt`: those of some unmarked element, which are in each
//! element marked `&` and in none marked `!`, in whatever order the elements stand. (Ansible's
//! documentation, "Patterns: targeting hosts and groups".) Want of memory alone may come in place.
#![tactic(auto)]

mod choice;
pub mod element;
pub mod fault;
mod glob;
mod hits;
pub mod meaning;
pub mod number;
mod order;
pub mod pattern;
mod reading;
pub mod selected;
mod sets;
mod spelling;
mod subscript;

pub use element::{Element, Mark, Subscript, What};
pub use fault::PatFault;
pub use pattern::Pattern;
pub use selected::Selected;
