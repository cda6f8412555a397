//! A launcher that starts nothing and waits for nothing, and keeps what it was to start and how long it was to wait.
ghost use Rattle.std.specs.Prelude.{◌≡◌, Some};
ghost use Rattle.pb_local_rows.specs.Recorded.{ended_well, recorded};

use pb_runner::caught::Caught;
use pb_runner::command::Words;
use pb_runner::launcher::{Ending, Launcher};
use std::alloc::{AllocError, Global};

// Each program ends with status 0, and has written nothing.
#[derive(Drop)]
pub(crate) struct Recorder {
    pub(crate) past: Vec<Words>,
    // all seconds, up to the most that 32 bits count
    pub(crate) waited: u32,
}

fn ended_well(alloc: Global) -> Ending
    ensures { result ≡ ended_well }
{
    Ending::Ended {
        status: Some(0),
        out: Caught::new(alloc),
        err: Caught::new(alloc),
    }
}

impl Launcher for Recorder {
    ghost launched = { λ recorder. Some (recorded recorder.past.items) };

    #[tactic(auto, using(crate::specs::Recorded::one_more))]
    fn launch(&mut self, alloc: Global, words: Words) -> Result<Ending, AllocError> {
        self.past.push(words)?;
        Ok(ended_well(alloc))
    }

    fn pause(&mut self, seconds: u32) {
        self.waited = self.waited.saturating_add(seconds);
    }
}
