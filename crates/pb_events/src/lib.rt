//! The lines that are written for the events of a run.
//!
//! For the layers above: `start_line` is the line before all events, and `lines_of` gives the lines of an event and the
//! state that it led to. A line is one object as compact JSON, its keys in byte order, and a line end: no line is torn, and
//! none joined with another (`events_have_lines`). The line of statistics at the end is the recap's.
#![tactic(auto)]

ghost use Rattle.pb_events.specs.Whole.{EventsHaveLines};

mod batch;
mod behind;
mod end;
mod item;
mod line;
mod lines;
mod notify;
mod retry;
mod site;

pub use lines::{lines_of, start_line};

/// What holds of the lines of all events: each is one object as compact JSON and a line end, and what is written behind an event's lines begins a
/// line of its own.
#[tactic(auto, using(crate::proofs::Whole::events_have_lines))]
pub fn events_have_lines()
    ensures { EventsHaveLines }
{}
