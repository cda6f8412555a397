ghost use Rattle.pb_words.specs.declared.fault.CallFault.TheVariants.{Memory};
ghost use Rattle.pb_words.specs.Calls.{fault_message};
ghost use Rattle.std.specs.Prelude.{◌≡◌};

use std::alloc::{AllocError, AllocFailed};
use thiserror::Error;

/// Why there is no call to send. All but want of memory are faults of reading, by which an item fails.
#[derive(Debug, Drop, Error)]
pub enum CallFault {
    /// A quote in a command's text isn't closed.
    #[error("unclosed quote")]
    UnclosedQuote,
    /// A command has no word.
    #[error("no command given")]
    NoCommand,
    /// A text has more than 1,048,576 bytes.
    #[error("value too large")]
    TooLarge,
    #[error("out of memory")]
    Memory,
}

impl From<AllocError> for CallFault {
    ghost from_gives = { λ _ e. e ≡ Memory };

    fn from(_e: AllocError) -> CallFault {
        CallFault::Memory
    }
}

impl<T: Drop> From<AllocFailed<T>> for CallFault {
    ghost from_gives = { λ _ e. e ≡ Memory };

    fn from(_e: AllocFailed<T>) -> CallFault {
        CallFault::Memory
    }
}

impl CallFault {
    /// What a result says of the fault.
    pub fn message(&self) -> &'static str
        ensures { result.now ≡ fault_message self.now }
    {
        match self {
            CallFault::UnclosedQuote => "unclosed quote",
            CallFault::NoCommand => "no command given",
            CallFault::TooLarge => "value too large",
            CallFault::Memory => "out of memory",
        }
    }
}
