//! What stands in a play: tasks, blocks, and what each says, as it is written.
//!
//! For the layers above: these types are data, which `pb_play_reading` reads and the machine runs. The texts of a module's arguments and of variables are templates, kept
//! as they are written, since what they give is known only when a task starts on a host. Messages, commands and their words, facts that are set, what loops go over, and the names of delegates are kept with their templates, which are parsed once;
//! the expression at `var` of `debug` is kept as its tree, too, and so are conditions. Contracts see a list of nodes as what is written there (`specs/Nodes.antt`). `delay_before` says how long an attempt
//! at a task waits (`specs/Retrying.antt`).
#![tactic(auto)]

pub mod commands;
pub mod couplings;
pub mod loops;
pub mod modules;
pub mod node;
pub mod retrying;
pub mod task;

pub use pb_prepared::prepared::PreparedText;
