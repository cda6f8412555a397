//! Why a text is no trail, and why a trail is no legal run.

ghost use Rattle.std.specs.Prelude.{◌≡◌};

use crate::name::EventName;
use std::alloc::{AllocError, AllocFailed};
use thiserror::Error;

/// Why bytes are no trail.
#[derive(Clone, Copy, Debug, PartialEq, Eq, Error)]
pub enum TrailFault {
    /// The first line isn't that of a trail, or there is none.
    #[error("1 BadHeader")]
    BadHeader,
    /// A line is no event, and those in front of it are.
    #[error("2 BadLine {line}")]
    BadLine {
        /// The line's number, counted from 1; the first event stands on line 2.
        line: usize,
    },
    /// Memory was refused.
    #[error("3 Memory")]
    Memory,
}

impl From<AllocError> for TrailFault {
    ghost use Rattle.pb_audit.specs.declared.fault.TrailFault.TheVariants.{Memory};

    ghost from_gives = { λ _ e. e ≡ Memory };

    fn from(_: AllocError) -> TrailFault {
        TrailFault::Memory
    }
}

impl<T: Drop> From<AllocFailed<T>> for TrailFault {
    ghost use Rattle.pb_audit.specs.declared.fault.TrailFault.TheVariants.{Memory};

    ghost from_gives = { λ _ e. e ≡ Memory };

    fn from(_: AllocFailed<T>) -> TrailFault {
        TrailFault::Memory
    }
}

/// Why a trail is no legal run of a plan.
#[derive(Clone, Copy, Debug, PartialEq, Eq, Error)]
pub enum AuditFault {
    /// An event isn't possible where it stands, and those in front of it are.
    #[error("1 Illegal {step} {rule:?}")]
    Illegal {
        /// The event's number in the trail, counted from 0.
        step: usize,
        /// The event's name, which is that of the rule that it breaks.
        rule: EventName,
    },
    /// Memory was refused.
    #[error("2 Memory")]
    Memory,
}

impl From<AllocError> for AuditFault {
    ghost use Rattle.pb_audit.specs.declared.fault.AuditFault.TheVariants.{Memory};

    ghost from_gives = { λ _ e. e ≡ Memory };

    fn from(_: AllocError) -> AuditFault {
        AuditFault::Memory
    }
}
