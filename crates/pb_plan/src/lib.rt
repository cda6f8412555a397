//! The plan of a run: what the machine reads of a bundle.
//!
//! For the layers above: a `Plan` has the hosts and their variables, and of each play its name, its tree, what stands at each place and the hosts that
//! are its own. `Plan::of` makes it of what can be planned (`Planned`), as a bundle is. `Plan::may_read_hosts` and `PlanPlay::may_read_hosts` tell once for
//! all starts through which variables `hostvars` can't be looked up (`specs/Hostvars.antt`).
#![tactic(auto)]

pub mod hostvars;
pub mod parts;
pub mod plan;
mod planned;

pub use plan::{Plan, PlanPlay};
pub use planned::Planned;
