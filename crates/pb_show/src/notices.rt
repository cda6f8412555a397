//! What events tell but for results.

ghost use Rattle.std.specs.Prelude.{◌≡◌, IfOk};

use pb_value::text::Text;
use std::alloc::AllocError;

/// A batch of a play that starts.
#[derive(Drop)]
pub struct Play {
    pub name: Text,
    /// The batch's number in the play, from 0 on.
    pub batch: u32,
    /// How many hosts are in the batch.
    pub hosts: u64,
}

/// A task or a handler that starts at a place of its play.
pub struct Task {
    pub place: Text,
    pub name: Text,
    pub is_handler: bool,
}

// (by hand: it is then dropped by one call, and not part by part at each exit)
impl Drop for Task {
    fn drop(self) {
        let Task {
            place,
            name,
            is_handler: _,
        } = self;
        drop(place);
        drop(name);
    }
}

impl Task {
    /// An equal task of its own.
    pub(crate) fn try_clone(&self) -> Result<Task, AllocError>
        ensures { IfOk result (λ task. task ≡ self.now) }
    {
        Ok(Task {
            place: self.place.try_clone()?,
            name: self.name.try_clone()?,
            is_handler: self.is_handler,
        })
    }

    /// The task's name.
    pub(crate) fn into_name(self) -> Text
        ensures { result ≡ self.name }
    {
        let Task {
            place,
            name,
            is_handler: _,
        } = self;
        drop(place);
        name
    }
}

/// A handler that a host notified.
#[derive(Drop)]
pub struct Notice {
    pub handler: Text,
    pub host: Text,
}

/// How many hosts a run had, and how many of them failed or were out of reach at its end.
#[derive(Clone, Copy)]
pub struct Totals {
    pub hosts: u64,
    pub failed: u64,
    pub unreachable: u64,
}
