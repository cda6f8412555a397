ghost use Rattle.pb_expr_syntax.specs.declared.fault.ExprFault.TheVariants.{Memory};
ghost use Rattle.std.specs.Prelude.{◌≡◌};

use std::alloc::{AllocError, AllocFailed};
use thiserror::Error;

/// Why a text is no expression.
#[derive(Clone, Copy, Debug, PartialEq, Eq, Error)]
pub enum ExprFault {
    /// A token can't stand where it stands, or isn't one; counted in bytes from 0.
    #[error("1 Unexpected {at}")]
    Unexpected { at: usize },
    /// The text stops short.
    #[error("2 End")]
    End,
    /// The text is longer than 4,096 bytes, or its tree is deeper than 64.
    #[error("3 TooDeep")]
    TooDeep,
    /// Digits write a number above 9,223,372,036,854,775,807.
    #[error("4 NumberTooLarge")]
    NumberTooLarge,
    #[error("5 Memory")]
    Memory,
}

impl From<AllocError> for ExprFault {
    ghost from_gives = { λ _ e. e ≡ Memory };

    fn from(_e: AllocError) -> ExprFault {
        ExprFault::Memory
    }
}

impl<T: Drop> From<AllocFailed<T>> for ExprFault {
    ghost from_gives = { λ _ e. e ≡ Memory };

    fn from(_e: AllocFailed<T>) -> ExprFault {
        ExprFault::Memory
    }
}
