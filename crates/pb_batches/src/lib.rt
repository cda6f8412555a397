//! The batches in which a play goes over its hosts.
//!
//! For the layers above: a `Serial` is what a play says of the sizes of its batches; `batches` gives these sizes for a number of hosts, as
//! `specs/Sizes.antt` says. They add up to the number of hosts, and no batch is empty.
#![tactic(auto)]

pub mod serial;
pub mod sizes;

pub use serial::{Entry, Serial};
pub use sizes::batches;
