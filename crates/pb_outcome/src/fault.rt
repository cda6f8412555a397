ghost use Rattle.pb_outcome.specs.declared.fault.OutcomeFault.TheVariants.{Memory};
ghost use Rattle.std.specs.Prelude.{◌≡◌};

use pb_value::text::Text;
use std::alloc::{AllocError, AllocFailed};
use thiserror::Error;

/// Why there is no outcome.
#[derive(Debug, Drop, Error)]
pub enum OutcomeFault {
    /// A text has more than 1,048,576 bytes, or a value nests more than 64 deep.
    #[error("1 TooLarge")]
    TooLarge,
    /// What stands at the path has another form than an outcome has there, or a key of the object at the path is missing.
    #[error("2 WrongShape {path}")]
    WrongShape { path: Text },
    #[error("3 Memory")]
    Memory,
}

impl From<AllocError> for OutcomeFault {
    ghost from_gives = { λ _ e. e ≡ Memory };

    fn from(_e: AllocError) -> OutcomeFault {
        OutcomeFault::Memory
    }
}

impl<T: Drop> From<AllocFailed<T>> for OutcomeFault {
    ghost from_gives = { λ _ e. e ≡ Memory };

    fn from(_e: AllocFailed<T>) -> OutcomeFault {
        OutcomeFault::Memory
    }
}
