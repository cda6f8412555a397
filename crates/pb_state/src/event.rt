//! What may happen in a run.

use crate::boxed::BoxedReport;
use pb_ids::{HostNo, Ticket};

/// A step of a run.
#[derive(Drop)]
pub enum Event {
    /// The next batch opens: of the play that goes on, or the first of the next play.
    Open,
    /// A host starts the task at its next place.
    Start(HostNo),
    /// A job of the task that a host runs goes out: an attempt at one of its items.
    Send {
        host: HostNo,
        /// The item's number in the task's loop, from 0; 0 where there is no loop.
        item: u32,
        /// Which attempt at the item it is, from 1.
        attempt: u32,
        /// How many jobs were sent before.
        ticket: Ticket,
    },
    /// What came of a job that is out.
    Report(BoxedReport),
    /// The hosts of the batch turn to the next place.
    Turn,
    /// The batch closes.
    Close,
    /// No more is started or sent.
    Stop,
    /// From now on so many hosts may run at once.
    Forks(u32),
}

/// The events of a run, in order.
pub type Trail = Vec<Event>;
