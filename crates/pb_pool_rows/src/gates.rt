//! Runners that wait for one another.

use pb_outcome::cause::Cause;
use pb_outcome::job::{Allows, Job};
use pb_outcome::outcome::Outcome;
use pb_runner::runner::Runner;
use pb_value::text::Text;
use std::alloc::Global;
use std::sync::atomic::{AtomicU64, Ordering};
use std::thread;

/// A runner that answers only once so many have begun, or says so after ten million turns.
#[derive(Drop)]
pub struct Gate<'a> {
    pub begun: &'a AtomicU64,
    pub all: u64,
}

fn done(alloc: Global) -> Outcome {
    match Outcome::ran(0, Text::new(alloc), Text::new(alloc)) {
        Ok(outcome) => outcome,
        Err(_) => Outcome::not_started(Cause::OutOfMemory),
    }
}

impl<'a> Allows for Gate<'a> {
    ghost allows = { λ _ _. Unit {0} };
}

impl<'a> Runner for Gate<'a> {
    ghost gives = { λ _ _ _. Unit {0} };

    ghost ran = { λ _ _ _. Unit {0} };

    ghost ran_none = { λ _. tt };

    ghost ran_more = { λ _ _ _ _ _ _ _. tt };

    fn run(&mut self, alloc: Global, _job: &Job) -> Outcome {
        self.begun.fetch_add(1, Ordering::SeqCst);
        for _ in 0..10_000_000u64 {
            if self.begun.load(Ordering::SeqCst) >= self.all {
                return done(alloc);
            }
            thread::yield_now();
        }
        Outcome::not_started(Cause::CannotStart)
    }
}
