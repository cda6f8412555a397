//! The inventory: which hosts and groups there are, by the numbers that a run knows them by.
//!
//! `Inventory::read` takes the bytes of an inventory file and answers the inventory that they
//! spell, or the first fault in them, both exactly as `specs/Reading.antt` says; its objects and
//! lists are read by the readers of `pb_reading`, with a definition for each. To the crates
//! above, an inventory is the list of its hosts' names in the order of their numbers, each name
//! once, the groups' names in byte order, the groups' own hosts, the links from groups to children,
//! and the variables of groups and hosts. A host's variables are those of its groups, merged in
//! the order of depth, priority and name, and its own.
#![tactic(auto)]

mod blocks;
pub mod fault;
mod graph;
mod group;
pub mod inventory;
pub mod listed;
mod meta;
pub mod named;
mod names;
mod numbering;
mod reading;
mod sorted;
mod variables;
pub mod vars;
