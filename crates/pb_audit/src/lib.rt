//! The text of a trail, and whether a trail is a legal run.
//!
//! For the layers above: `trail_text` writes the events of a run down, and `read_trail` reads that text as the same
//! events (`reads_back`), or tells the first line that is no event. `audit` answers Ok exactly where events are a legal run of a
//! plan, else it tells the first of them that isn't possible where it stands; `replay` gives the state to which they lead, with any forks. So one machine can check what another one did.
//! Only want of memory may come in the place of each of these answers.
#![tactic(auto)]

ghost use Rattle.pb_audit.specs.Larger.{LargerPoolsAllow};

mod auditing;
mod fault;
mod lines;
mod name;
mod reading;
mod version;
mod writing;

pub use auditing::{audit, replay};
pub use fault::{AuditFault, TrailFault};
pub use name::EventName;
pub use reading::read_trail;
pub use writing::trail_text;

/// What holds of every trail: where it is legal with some workers it is legal with more, and leads to the same state but for their number.
/// So the trail of a run by a few workers passes its audit.
pub fn larger_pools_allow_as_much()
    ensures { LargerPoolsAllow }
{}
