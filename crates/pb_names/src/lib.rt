//! Names by their numbers.
//!
//! For the layers above: a `NameList` is a list of names in the order of their first mention, each
//! once. A name is found by its number, and a number by its name, without a look at the others.
#![tactic(auto)]

pub mod list;

pub use list::NameList;
