//! Mailboxes between the thread that drives a run and its workers.
//!
//! A pool has one word and one slot for each of its forks, as the workers are called after Ansible's `forks`. The main
//! seat offers jobs and collects reports, a fork's seat takes its jobs and answers them, each in a few atomic steps
//! that wait for nobody and take no memory. Whatever the threads do, between any two steps each fork's four lists and
//! its slot are what its word says (`specs/Mailbox.antt`): so a job is taken at most once, by the fork that it was
//! offered to, and its report fits it and has an outcome that the runner's relation allows.
#![tactic(auto)]

ghost use Rattle.pb_forks.specs.Mailbox.{MailboxesHold, NothingFollowsShut};

pub mod closed;
pub mod ends;
pub mod look;
pub mod parcel;
mod plays;
pub mod pool;
pub mod rule;
pub mod seats;
pub mod views;
pub mod waits;

pub use closed::PoolEnd;
use pb_outcome::job::Allows;
pub use pool::{NoAnswer, NoOffer};
pub use seats::{ForkSeat, MainSeat, Pool};

/// What holds of the table of a pool, whatever its threads do: between any two steps each fork is a mailbox, and no
/// step changes the word of a fork that was shut.
#[tactic(auto, using(crate::proofs::AtEnd::mailboxes_hold, crate::proofs::AtEnd::nothing_follows_shut))]
pub fn mailboxes_hold<A: Allows>()
    ensures between_steps { MailboxesHold A.allows }
    ensures shut_is_last { NothingFollowsShut }
{}
