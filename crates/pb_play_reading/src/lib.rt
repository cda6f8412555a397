//! The playbook: which plays there are, and which tasks each has, as a JSON file spells them.
//!
//! For the layer above: `Playbook::read` gives the plays of a playbook's bytes, or the first fault in them.
//! What it answers is `playbook_of` of `specs/Playbooks.antt`, exactly: objects are looked at with their keys in byte order
//! and lists from the front, the first fault met counts, and the rules over several keys of an object come after its keys.
//! Some keys are allowed without effect, and any other key that isn't read here is refused by its name. The hosts of a play are a
//! pattern, which `pb_patterns` reads; `expressions_of_book` lists the regular expressions that are met in them, up to the first fault. Where
//! a playbook is read, the `regex` crate took each of these. `BadPattern` comes for the first one that it refuses, with the path of its hosts; any other fault comes
//! only where each expression before it was taken. Want of memory may come at any point, in place of that answer.
//!
//! The texts of a module's arguments and of variables are templates: a text that is none is `BadExpression`. They are
//! kept as they are written (`pb_play`). What a play, its blocks and its tasks say of ignored failures is kept as each says it, and so is how many hosts
//! may run a task at once, and how the hosts of a task are coupled: whether one runs it for all, which host runs it in place of another, and which failures end
//! the play for the others. A play that gathers facts begins with a task that does. How its hosts go through it, by which strategy and in which batches, is kept
//! as it says (`pb_strategies`, `pb_batches`). The roles that a play names are kept as its entries say (`pb_role_entries`), and its handlers are tasks with the
//! topics that they listen to. `nodes::read_nodes_at` reads one list of tasks and blocks, for whoever finds such lists elsewhere, and `Handler` reads
//! itself.
#![tactic(auto)]

mod assert;
mod batches;
mod blocks;
mod commands;
mod couplings;
mod debug;
mod facts;
mod gathering;
pub mod handlers;
mod hosts;
mod loops;
mod messages;
mod meta;
mod modules;
mod no_effect;
pub mod nodes;
mod other_keys;
mod percentage;
pub mod play;
pub mod playbook;
mod retrying;
mod short;
mod strategies;
mod task;
mod throttle;

pub use pb_written::fault;
