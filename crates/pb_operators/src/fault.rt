ghost use Rattle.pb_operators.specs.declared.fault.EvalFault.TheVariants.{Memory};
ghost use Rattle.std.specs.Prelude.{◌≡◌};

use pb_value::text::Text;
use std::alloc::{AllocError, AllocFailed};
use thiserror::Error;

/// Why an expression has no value.
#[derive(Debug, Drop, Error)]
pub enum EvalFault {
    /// A name, or a key or number in a dict or list, stands for nothing.
    #[error("1 Undefined {name}")]
    Undefined { name: Text },
    /// A value has another kind than the form takes.
    #[error("2 WrongKind")]
    WrongKind,
    /// A number is not within 64 signed bits.
    #[error("3 Overflow")]
    Overflow,
    /// A text, a list or a value's depth is over its limit, or look-ups are nested too deep.
    #[error("4 TooLarge")]
    TooLarge,
    #[error("5 Memory")]
    Memory,
    /// A template in a variable is none.
    #[error("6 BadTemplate")]
    BadTemplate,
}

impl From<AllocError> for EvalFault {
    ghost from_gives = { λ _ e. e ≡ Memory };

    fn from(_e: AllocError) -> EvalFault {
        EvalFault::Memory
    }
}

impl<T: Drop> From<AllocFailed<T>> for EvalFault {
    ghost from_gives = { λ _ e. e ≡ Memory };

    fn from(_e: AllocFailed<T>) -> EvalFault {
        EvalFault::Memory
    }
}
