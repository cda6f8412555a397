//! Groups of hosts, and which hosts belong to them.
//!
//! `Groups` knows each group's own hosts and which groups are children of which. To the crates above it
//! answers a group's members, which are the hosts that some way from parent to child leads to, and its
//! depth, which is the length of the longest way that ends there, and the order in which groups merge: by depth,
//! then by a priority, then by number. A link that would let ways go on without end is refused as a cycle.
//! (Ansible's documentation, "How to build your inventory".)
#![tactic(auto)]

mod depths;
pub mod fault;
pub mod groups;
pub mod links;
pub mod merging;
mod planes;

pub use fault::GroupFault;
pub use groups::Groups;
pub use links::{ChildLink, OwnHost};
