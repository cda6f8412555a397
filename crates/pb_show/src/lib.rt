//! What the event lines of `pb-play` become for people who read them.
//!
//! For the program: `Showing::show_line` says of one line what it becomes, exactly as `specs/Showing.antt` says: an event of the
//! program becomes its text, and any other line is passed on as it is. `show_lines` does so for all lines of a reader, in order,
//! with a line behind them that says how the run went, and `show` is the whole program for its words. Only want of memory, and a
//! reader or writer that fails, may cut that short; what was written then is a beginning of it (`specs/Whole.antt`).
//! `texts_stand` is what holds of all texts of events: they are whole lines, and no text in them ends a line, moves the cursor or
//! turns the direction of text.
#![tactic(auto)]

ghost use Rattle.pb_show.specs.Laws.{TextsStand};

mod banner;
mod closing;
mod ended;
mod kind;
mod line;
mod look;
mod notices;
mod output;
mod program;
mod reading;
mod showing;
mod streams;
mod words;

pub use ended::{Ended, Ending};
pub use kind::{How, Kind};
pub use look::Look;
pub use notices::{Notice, Play, Task, Totals};
pub use output::{ShowFault, show_lines};
pub use program::show;
pub use showing::{Failure, Phase, Showing};
pub use streams::{BytesOut, Counted, Failed, LinesIn};
pub use words::{Asked, read_words};

/// What holds of the texts of all events: what they show of an event stands in them, escaped, so that none of its characters ends a line,
/// moves the cursor or turns the direction of text; they are whole lines and never empty, but for starts that are not to be shown; and
/// other lines are passed on, byte for byte.
#[tactic(auto, using(crate::proofs::Standing::texts_stand))]
pub fn texts_stand()
    ensures { TextsStand }
{}
