//! Runners that are sent to threads of their own.

use pb_outcome::cause::Cause;
use pb_outcome::job::{Allows, Job};
use pb_outcome::outcome::Outcome;
use pb_runner::runner::Runner;
use pb_value::text::Text;
use std::alloc::{AllocError, Global};

/// Says of each job that it went well and wrote these words, which takes memory.
#[derive(Drop)]
pub struct Worker {
    words: Text,
}

impl Allows for Worker {
    ghost allows = { λ _ _. Unit {0} };
}

impl Runner for Worker {
    ghost gives = { λ _ _ _. Unit {0} };

    ghost ran = { λ _ _ _. Unit {0} };

    ghost ran_none = { λ _. tt };

    ghost ran_more = { λ _ _ _ _ _ _ _. tt };

    fn run(&mut self, alloc: Global, _job: &Job) -> Outcome {
        let Ok(words) = self.words.try_clone() else {
            return Outcome::not_started(Cause::OutOfMemory);
        };
        match Outcome::ran(0, words, Text::new(alloc)) {
            Ok(outcome) => outcome,
            Err(_) => Outcome::not_started(Cause::CannotStart),
        }
    }
}

/// So many of them.
pub fn workers(alloc: Global, count: u32) -> Result<Vec<Worker>, AllocError> {
    let mut workers = Vec::new(alloc);
    for _ in 0..count {
        workers.push(Worker {
            words: Text::from_str(alloc, "it went well")?,
        })?;
    }
    Ok(workers)
}
