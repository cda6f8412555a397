//! The files of a role: its tasks, its handlers, its variables, and what it says of itself, as JSON files spell them.
//!
//! For the layer above: each file is read from its bytes as its definition says (`specs/RoleFiles.antt`), or its first fault is answered, in the order of
//! reading that playbooks have; only want of memory may come in place of that answer.
#![tactic(auto)]

pub mod files;
pub mod meta;
