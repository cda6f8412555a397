//! What starts programs.
ghost use Rattle.std.specs.Prelude.{◌≡◌, [], ◌∷◌, IfOk, OnErr};

use crate::caught::Caught;
use crate::command::Words;
use std::alloc::{AllocError, Global};

/// What came of a program that was to be started.
#[derive(Drop)]
pub enum Ending {
    /// It couldn't be started.
    Refused,
    /// It was started; but its streams couldn't be read, or it couldn't be waited for.
    Lost,
    /// It ended, with a status unless a signal ended it, and had written this.
    Ended {
        status: Option<i32>,
        out: Caught,
        err: Caught,
    },
}

/// Starts programs. To contracts it tells the words of each that it was to start so far, and what came of it, unless it can't.
pub trait Launcher {
    ghost use Rattle.std.specs.Prelude.{List, Option};
    ghost use Rattle.pb_runner.specs.History.{with_more};
    ghost use Rattle.pb_runner.specs.Launch.{Launch, launch_of};

    ghost launched: { Self → Option (List Launch) };

    /// Starts one program of these words, the first of which names it, without input, and waits for its end.
    ///
    /// # Errors
    /// Where memory was refused before it was started.
    fn launch(&mut self, alloc: Global, words: Words) -> Result<Ending, AllocError>
        ensures history { IfOk result (λ ending. launched self.new ≡ with_more (launched self.old) (launch_of words ending ∷ [])) }
        ensures err { OnErr result (launched self.new ≡ launched self.old) };

    /// Waits so many seconds, of which nothing is known.
    fn pause(&mut self, seconds: u32)
        ensures { launched self.new ≡ launched self.old };
}
