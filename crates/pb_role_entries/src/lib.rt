//! Role entries: the roles that a play names, and those that a role depends on, each with what it is given.
//!
//! For the crates above: `RoleEntry` reads itself, as `role_entry` of `specs/RoleEntries.antt` says; only want of memory may come in place of that
//! answer. What tells one entry from another is kept as it is written (`EntryAsWritten`).
#![tactic(auto)]

pub mod entry;
mod keys;
pub mod reading;
