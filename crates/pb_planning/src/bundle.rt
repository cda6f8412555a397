//! What a run is made of, and its plan.

ghost use Rattle.std.specs.Prelude.{◌≡◌, ◌<◌, ◌+◌, nat_lt, IfSome, IfNone};
ghost use Rattle.pb_planning.specs.Bundle.{bundle_bytes, bytes_in, role_bytes};
ghost use Rattle.pb_value.specs.Limits.{max_bytes};

use pb_inventory::fault::InvFault;
use pb_patterns::fault::PatFault;
use pb_roles::{RoleFault, RoleFile, RoleFiles};
use pb_value::items::Items;
use pb_value::limits::MAX_BYTES;
use pb_value::text::Text;
use pb_variables::fault::ExtraFault;
use pb_written::fault::LoadFault;
use std::alloc::{AllocError, AllocFailed};
use std::fmt::{self, Debug, Display, Formatter};
use thiserror::Error;

/// What a run is made of: the bytes of its files and of its extra variables, how many hosts may run at once, and whether a program gathers facts.
#[derive(Drop)]
pub struct Bundle {
    /// The bytes of the inventory's file.
    pub inventory: Items<u8>,
    /// The bytes of the playbook's file.
    pub playbook: Items<u8>,
    /// The files of roles.
    pub roles: RoleFiles,
    /// The pattern of the hosts that the plays are limited to, if there is one.
    pub limit: Option<Text>,
    /// The extra variables, an object in JSON, if some are given.
    pub extra: Option<Text>,
    /// How many hosts may run at once: 1 to 256.
    pub forks: u32,
    /// Whether there is a program that gathers the facts of hosts.
    pub has_facts_program: bool,
}

/// Why a bundle has no plan.
#[derive(Error)]
pub enum BundleFault {
    /// A fault of the inventory.
    #[error("1 Inventory {0}")]
    Inventory(InvFault),
    /// A fault of the playbook.
    #[error("2 Playbook {0}")]
    Playbook(LoadFault),
    /// A fault of the plays' roles or trees.
    #[error("3 Roles {0}")]
    Roles(RoleFault),
    /// A fault of the limit's pattern.
    #[error("4 Limit {0}")]
    Limit(PatFault),
    /// A fault of the extra variables.
    #[error("5 Extra {0}")]
    Extra(ExtraFault),
    /// The number of forks isn't 1 to 256.
    #[error("6 BadForks")]
    BadForks,
    /// The bundle has more than 64 MiB.
    #[error("7 TooLarge")]
    TooLarge,
    /// Memory was refused.
    #[error("8 Memory")]
    Memory,
}

// (by hand: it is then dropped by one call, and not by its variants at each exit)
impl Drop for BundleFault {
    fn drop(self) {
        match self {
            BundleFault::Inventory(fault) => drop(fault),
            BundleFault::Playbook(fault) => drop(fault),
            BundleFault::Roles(fault) => drop(fault),
            BundleFault::Limit(fault) => drop(fault),
            BundleFault::Extra(fault) => drop(fault),
            BundleFault::BadForks | BundleFault::TooLarge | BundleFault::Memory => {}
        }
    }
}

// (by hand: it shows what is printed)
impl Debug for BundleFault {
    fn fmt<W: fmt::Write>(&self, f: &mut Formatter<W>) -> fmt::Result {
        Display::fmt(self, f)
    }
}

impl From<AllocError> for BundleFault {
    ghost use Rattle.std.specs.Prelude.{◌≡◌};
    ghost use Rattle.pb_planning.specs.declared.bundle.BundleFault.TheVariants.{Memory};

    ghost from_gives = { λ _ e. e ≡ Memory };

    fn from(_: AllocError) -> BundleFault {
        BundleFault::Memory
    }
}

impl<T: Drop> From<AllocFailed<T>> for BundleFault {
    ghost use Rattle.std.specs.Prelude.{◌≡◌};
    ghost use Rattle.pb_planning.specs.declared.bundle.BundleFault.TheVariants.{Memory};

    ghost from_gives = { λ _ e. e ≡ Memory };

    fn from(_: AllocFailed<T>) -> BundleFault {
        BundleFault::Memory
    }
}

/// How many bytes a text has that may be given.
fn bytes_in(given: &Option<Text>) -> usize
    ensures { result ≡ bytes_in given.now }
{
    match given {
        Some(text) => text.as_str().len(),
        None => 0,
    }
}

/// How many bytes of a number of bytes are left, if the files of roles, with their paths, have no more.
fn behind_files(files: &[RoleFile], bytes: usize) -> Option<usize>
    ensures some { IfSome result (λ left. left + role_bytes files.now ≡ bytes) }
    ensures none { IfNone result (bytes < role_bytes files.now) }
{
    let mut left = bytes;
    for file in files {
        let behind_path = left.checked_sub(file.path.len())?;
        left = behind_path.checked_sub(file.bytes.len())?;
    }
    Some(left)
}

/// Whether a bundle is too large.
pub(crate) fn is_too_large(bundle: &Bundle) -> bool
    ensures { result ≡ nat_lt max_bytes (bundle_bytes bundle.now) }
{
    let Some(left) = behind_files(bundle.roles.files.as_slice(), MAX_BYTES) else {
        return true;
    };
    let inventory = bundle.inventory.len();
    let playbook = bundle.playbook.len();
    let limit = bytes_in(&bundle.limit);
    let extra = bytes_in(&bundle.extra);
    inventory > left
        || playbook > left - inventory
        || limit > left - inventory - playbook
        || extra > left - inventory - playbook - limit
}
