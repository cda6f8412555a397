ghost use Rattle.pb_patterns.specs.declared.fault.PatFault.TheVariants.{Memory};
ghost use Rattle.std.specs.Prelude.{◌≡◌, ◌≢◌};

use std::alloc::{AllocError, AllocFailed};
use thiserror::Error;

/// Why a text is no pattern.
#[derive(Debug, Drop, Error)]
pub enum PatFault {
    /// There is no element, or nothing behind an element's mark.
    #[error("1 Empty")]
    Empty,
    /// Square brackets that aren't a subscript behind a term.
    #[error("2 BadSubscript")]
    BadSubscript,
    /// What stands behind `~` is refused as a regular expression.
    #[error("3 BadRegex")]
    BadRegex,
    #[error("4 Memory")]
    Memory,
}

impl From<AllocError> for PatFault {
    ghost from_gives = { λ _ e. e ≡ Memory };

    fn from(_e: AllocError) -> PatFault {
        PatFault::Memory
    }
}

impl<T: Drop> From<AllocFailed<T>> for PatFault {
    ghost from_gives = { λ _ e. e ≡ Memory };

    fn from(_e: AllocFailed<T>) -> PatFault {
        PatFault::Memory
    }
}
