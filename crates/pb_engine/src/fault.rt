//! Why an engine isn't made, or doesn't go on.

use std::alloc::AllocError;
use thiserror::Error;

/// Why an engine wasn't made, or didn't go on.
#[derive(Clone, Copy, Debug, PartialEq, Eq, Error)]
pub enum EngineFault {
    /// The plan may run more hosts at once than the pool has workers.
    #[error("1 PoolTooSmall")]
    PoolTooSmall,
    /// Memory was refused.
    #[error("2 Memory")]
    Memory,
}

impl From<AllocError> for EngineFault {
    ghost use Rattle.std.specs.Prelude.{◌≡◌};
    ghost use Rattle.pb_engine.specs.declared.fault.EngineFault.TheVariants.{Memory};

    ghost from_gives = { λ _ e. e ≡ Memory };

    fn from(_: AllocError) -> EngineFault {
        EngineFault::Memory
    }
}
