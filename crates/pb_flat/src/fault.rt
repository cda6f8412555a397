ghost use Rattle.pb_flat.specs.declared.fault.FlatFault.TheVariants.{Memory};
ghost use Rattle.std.specs.Prelude.{◌≡◌};

use std::alloc::AllocError;

/// Why a tree isn't laid out.
#[derive(Clone, Copy, Debug, PartialEq, Eq)]
pub enum FlatFault {
    /// Always parts stand in one another, more than 32 deep.
    TooDeep,
    /// Memory ran out, or the tree has 2^32 places or steps or more.
    Memory,
}

impl From<AllocError> for FlatFault {
    ghost from_gives = { λ _ e. e ≡ Memory };

    fn from(_: AllocError) -> FlatFault {
        FlatFault::Memory
    }
}
