//! Sets of hosts.
//!
//! A `HostSet` holds hosts whose numbers lie below its width. Contracts see it as a list of Bools, one for each
//! number below the width: whether that host is in the set. Only the constructors and `try_clone` take memory;
//! every other call succeeds.
#![tactic(auto)]

pub mod host_set;
mod span;
mod words;

pub use host_set::HostSet;
