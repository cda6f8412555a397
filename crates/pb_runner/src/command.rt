//! The words that a program is started with.
ghost use Rattle.std.specs.Prelude.{◌≡◌, [], ◌∷◌, ◌++◌, OnOk, IfSome, IfNone};
ghost use Rattle.std.specs.Process.{command_program, command_args};

use pb_value::text::Text;
use std::alloc::{AllocError, Global};
use std::marker::Model;
use std::process::Command;

/// A command that gets its words one after another; the first is its program. Contracts see it as its words.
pub struct Words {
    command: Option<Command>,
}

// (by hand: the parts of a command are then let go in this one place, and not at each exit of who holds words)
impl Drop for Words {
    fn drop(self) {
        let Words { command: _command } = self;
    }
}

impl Model for Words {
    ghost use Rattle.std.specs.Prelude.{ℕ, List};
    ghost use Rattle.pb_runner.specs.Local.{command_words};

    ghost Value = { List (List ℕ) };

    ghost view = { λ w. command_words w.command };
}

impl Words {
    /// No words.
    pub fn new() -> Words
        ensures { result ≡ [] }
    {
        Words { command: None }
    }

    /// Puts a word at the end.
    pub fn push(&mut self, alloc: Global, word: &str) -> Result<(), AllocError>
        ensures { OnOk result (self.new ≡ self.old ++ word.now ∷ []) }
    {
        match &mut self.command {
            Some(command) => {
                command.arg(word)?;
            }
            None => self.command = Some(Command::new(alloc, word)?),
        }
        Ok(())
    }

    /// Puts words at the end.
    pub fn push_all(&mut self, alloc: Global, words: &[Text]) -> Result<(), AllocError>
        ensures { OnOk result (self.new ≡ self.old ++ words.now) }
    {
        for word in words {
            self.push(alloc, word.as_str())?;
        }
        Ok(())
    }

    /// The command of these words, if there is a word.
    pub fn into_command(self) -> Option<Command>
        ensures some { IfSome result (λ c. command_program c ∷ command_args c ≡ self) }
        ensures none { IfNone result (self ≡ []) }
    {
        let Words { command } = self;
        command
    }
}
