ghost use Rattle.pb_inventory.specs.declared.fault.InvFault.TheVariants.{Memory};
ghost use Rattle.std.specs.Prelude.{◌≡◌};

use pb_value::text::Text;
use std::alloc::{AllocError, AllocFailed};
use thiserror::Error;

/// Why bytes are no inventory.
#[derive(Debug, Drop, Error)]
pub enum InvFault {
    /// The bytes are no JSON value.
    #[error("1 NotJson")]
    NotJson,
    /// What stands at the path has another form than an inventory has there, or a key of the
    /// object at the path is missing.
    #[error("2 WrongShape {path}")]
    WrongShape { path: Text },
    /// A group is, at some depth, its own child.
    #[error("3 Cycle")]
    Cycle,
    /// There are more than 1,048,576 hosts.
    #[error("4 TooManyHosts")]
    TooManyHosts,
    /// There are more than 4,096 groups.
    #[error("5 TooManyGroups")]
    TooManyGroups,
    /// A variable has a value that is refused.
    #[error("6 Value")]
    Value,
    #[error("7 Memory")]
    Memory,
}

impl From<AllocError> for InvFault {
    ghost from_gives = { λ _ e. e ≡ Memory };

    fn from(_e: AllocError) -> InvFault {
        InvFault::Memory
    }
}

impl<T: Drop> From<AllocFailed<T>> for InvFault {
    ghost from_gives = { λ _ e. e ≡ Memory };

    fn from(_e: AllocFailed<T>) -> InvFault {
        InvFault::Memory
    }
}
