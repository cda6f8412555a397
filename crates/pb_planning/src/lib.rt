//! What a run is made of, and how its plan is made.
//!
//! For the layers above: a `Bundle` has the bytes of a run's files, those of roles too, and what its words give. `Plan::of` makes its plan: the hosts
//! and their variables, and of each play its name, its tree, what stands at each place and the hosts that its pattern and the limit
//! select, and warnings, those of keys that a play's strategy ignores among them (`specs/Ignored.antt`); or it answers the bundle's first fault, both as `specs/Bundle.antt` says (`IsPlanOf`, `IsBundleFault`).
//! A bundle has one plan (`plans_are_one`).
#![tactic(auto)]

ghost use Rattle.pb_planning.specs.Bundle.{PlansAreOne, ForksAreApart};

mod bundle;
mod ignored;
mod planning;

pub use bundle::{Bundle, BundleFault};
pub use pb_roles::{RoleFault, RoleFile, RoleFiles};
pub use pb_value::limits::MAX_BYTES;

/// What holds of every bundle: it has no more than one plan, and bundles that differ in forks alone have plans that differ in forks alone.
pub fn plans_are_one()
    ensures one { PlansAreOne }
    ensures forks { ForksAreApart }
{}
