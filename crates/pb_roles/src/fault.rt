//! Why plays have no trees.
use pb_value::text::Text;
use pb_written::fault::LoadFault;
use std::alloc::{AllocError, AllocFailed};
use thiserror::Error;

/// Why a playbook and its role files give no trees.
#[derive(Debug, Drop, Error)]
pub enum RoleFault {
    /// A role has none of the files of a role; or a task or handler notifies a name that no handler has, and no handler listens to.
    #[error("1 Unknown {name}")]
    Unknown { name: Text },
    /// A role depends on itself, over whatever other roles.
    #[error("2 Cycle")]
    Cycle,
    /// A fault stands in the file at this path.
    #[error("3 Load {path} {fault}")]
    Load { path: Text, fault: LoadFault },
    /// Memory was refused.
    #[error("4 Memory")]
    Memory,
    /// A play has more than 16,384 places, or always parts that stand more than 32 deep in one another, which nothing that was read has.
    #[error("5 TooLarge")]
    TooLarge,
}

impl From<AllocError> for RoleFault {
    ghost use Rattle.std.specs.Prelude.{◌≡◌};
    ghost use Rattle.pb_roles.specs.declared.fault.RoleFault.TheVariants.{Memory};

    ghost from_gives = { λ _ e. e ≡ Memory };

    fn from(_: AllocError) -> RoleFault {
        RoleFault::Memory
    }
}

impl<T: Drop> From<AllocFailed<T>> for RoleFault {
    ghost use Rattle.std.specs.Prelude.{◌≡◌};
    ghost use Rattle.pb_roles.specs.declared.fault.RoleFault.TheVariants.{Memory};

    ghost from_gives = { λ _ e. e ≡ Memory };

    fn from(_: AllocFailed<T>) -> RoleFault {
        RoleFault::Memory
    }
}
