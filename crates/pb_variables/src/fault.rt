ghost use Rattle.pb_variables.specs.declared.fault.ExtraFault.TheVariants.{Memory};
ghost use Rattle.std.specs.Prelude.{◌≡◌};

use pb_value::text::Text;
use std::alloc::{AllocError, AllocFailed};
use thiserror::Error;

/// Why bytes are no extra variables.
#[derive(Debug, Drop, Error)]
pub enum ExtraFault {
    /// The bytes are no JSON value (RFC 8259), or nest deeper than 127.
    #[error("1 NotJson")]
    NotJson,
    /// The key at the path is no name of a variable, or its value is refused; where the path is
    /// empty, the whole is no object or the empty key stands there.
    #[error("2 WrongShape {path}")]
    WrongShape { path: Text },
    /// Memory was wanting.
    #[error("3 Memory")]
    Memory,
}

impl From<AllocError> for ExtraFault {
    ghost from_gives = { λ _ e. e ≡ Memory };

    fn from(_e: AllocError) -> ExtraFault {
        ExtraFault::Memory
    }
}

impl<T: Drop> From<AllocFailed<T>> for ExtraFault {
    ghost from_gives = { λ _ e. e ≡ Memory };

    fn from(_e: AllocFailed<T>) -> ExtraFault {
        ExtraFault::Memory
    }
}
