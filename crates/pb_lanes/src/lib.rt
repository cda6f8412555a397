//! The statuses of hosts, and the counts of their tasks, as columns.
//!
//! A `StatusRow` holds the status of each host, in one byte a host. Contracts see it as a list of statuses, one for each
//! host number. `select` puts the hosts of one status into a set, and `count` counts them, 64 bytes at a time.
//!
//! `Columns` hold seven counts of each host, one for each kind under which a finished task counts, in four bytes a
//! count. Contracts see them as seven lists of counts, one count for each host number. `total` is the plain sum of such
//! a list, in 64 bits, which hold any such sum.
//!
//! There can be any number of hosts below 2^32. Only the two `new` take memory, and want of it is their only error;
//! every other call succeeds.
#![tactic(auto)]

mod bytes;
pub mod columns;
pub mod kind;
pub mod status_row;
mod sums;

pub use columns::Columns;
pub use kind::CountKind;
pub use status_row::StatusRow;
