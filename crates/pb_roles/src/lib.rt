//! Plays with the roles that they name: which role entries count, in what order, and what they bring (Ansible's documentation, "Roles").
//!
//! For the layers above: `RoleFiles` are the files of all roles. `expand` makes of each play of a playbook its tree and what stands at its
//! places, or answers the first fault, both as `specs/Plays.antt` says. It also tells which keys stand in a play and in its roles that linear plays alone
//! heed (`specs/LinearKeys.antt`).
#![tactic(auto)]

ghost use Rattle.pb_roles.specs.Circles.{CyclesAreCircles};
ghost use Rattle.pb_roles.specs.Taken.{RolesAreInOrder};

mod collected;
mod enter;
mod entry_key;
mod expansion;
mod fault;
mod files;
mod flush;
mod flush_tasks;
mod inherited;
mod linear_keys;
mod load;
mod nodes;
mod open_role;
mod origin;
mod placing;
mod queue;
mod roles;
mod sections;
mod unknown;

pub use expansion::expand;
pub use fault::RoleFault;
pub use files::{RoleFile, RoleFiles};
pub use sections::{Expanded, LinearKeys};

/// What holds of the roles that a play takes, whatever stands in their files: each comes behind those that it depends on, and none comes twice for entries that
/// are alike, unless its file of dependencies allows it; and a cycle is reported only where a role depends on itself.
#[tactic(auto, using(crate::proofs::Taking::roles_are_in_order, crate::proofs::Circling::cycles_are_circles))]
pub fn roles_are_in_order()
    ensures order { RolesAreInOrder }
    ensures circles { CyclesAreCircles }
{}
