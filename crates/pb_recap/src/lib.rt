//! The recap of a run: how the tasks that each host finished count.
//!
//! For the layers above: `Recap::of` takes the counts that a state keeps for its hosts, and they are those that one
//! finds by going over the events of a run from its beginning. Of a recap there are each count, their sums, the text
//! and the line of statistics that are written at the end, and the exit status. A recap keeps its counts in columns
//! (pb_lanes), 28 bytes a host, and contracts see it as a list of each host's counts.
#![tactic(auto)]

mod columns;
mod counting;
mod recap;
mod stats;
mod text;

pub use pb_lanes::CountKind;
pub use recap::Recap;
