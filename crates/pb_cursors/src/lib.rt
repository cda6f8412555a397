//! Where each host of a play stands: its answers, and a cursor that stands where they lead.
//!
//! `HostWalk` is one host, `Cursors` all hosts of a play with the play's plan. `PlayWalk` is one host with its play's tree, which
//! a `LaidTree` holds for all of them: it stands by itself, so that its calls need no plan. An answer leads a host's cursor on and
//! walks no tree; `reach`, `status`, `status_now` and `pending` say what the walk of the host's whole list of answers says (`pb_tree`).
//! The list itself is kept by proofs alone (`Answered`): an answer takes no memory, and a walk of many answers is copied as one of none.
#![tactic(auto)]

mod answered;
pub mod cursors;
pub mod laid;
pub mod play_walk;
pub mod walk;

pub use cursors::Cursors;
pub use laid::LaidTree;
pub use play_walk::PlayWalk;
pub use walk::HostWalk;
