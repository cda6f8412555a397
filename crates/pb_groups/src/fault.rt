ghost use Rattle.pb_groups.specs.declared.fault.GroupFault.TheVariants.{Memory};
ghost use Rattle.std.specs.Prelude.{◌≡◌, ◌≢◌};

use std::alloc::{AllocError, AllocFailed};
use thiserror::Error;

/// Why groups are refused.
#[derive(Debug, Drop, Error)]
pub enum GroupFault {
    /// Ways from parent to child go on without end.
    #[error("1 Cycle")]
    Cycle,
    /// There are more than 4,096 groups.
    #[error("2 TooMany")]
    TooMany,
    #[error("3 Memory")]
    Memory,
}

impl From<AllocError> for GroupFault {
    ghost from_gives = { λ _ e. e ≡ Memory };

    fn from(_e: AllocError) -> GroupFault {
        GroupFault::Memory
    }
}

impl<T: Drop> From<AllocFailed<T>> for GroupFault {
    ghost from_gives = { λ _ e. e ≡ Memory };

    fn from(_e: AllocFailed<T>) -> GroupFault {
        GroupFault::Memory
    }
}
