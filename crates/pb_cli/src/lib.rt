//! The program `pb-play`: its words, its files and its messages.
//!
//! Its theorem is the contract of `play_bundle` (playing.rt), which does what is wanted of a bundle, without files: its run by as many workers as it has
//! forks, whose events it hands out, the audit of a trail in place of that, or what else is said of its plan.
//! Its clauses speak of the world before and after (`World`, specs/World.antt): what the launchers were to start, and what stands on the two streams.
//!
//! For the program: `play` does what its words ask for, which pb_command_line reads, by `play_bundle`; `system_launchers` gives the
//! workers their launchers; `read_file` gives a file's bytes up to one byte over a limit; `message`, `file_message` and
//! `bundle_message` are the texts of faults for standard error.
#![tactic(auto)]

pub mod again;
mod asked;
mod auditing;
mod failed;
pub mod files;
pub mod listing;
pub mod messages;
mod places;
pub mod playing;
pub mod program;
pub mod role_files;
mod runs;
mod showing;
mod warnings;
pub mod workers;

pub use pb_command_line::words;
pub use pb_driver::{Failed, LineOut, Printed};
