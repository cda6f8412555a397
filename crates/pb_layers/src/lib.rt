//! Which value a variable has: the maps that a task sees on a host, over one another.
//!
//! For the layers above: `Layers` lends eleven maps, from role defaults up to extra variables, and a
//! `Scope` puts the magic variables and the loop variable above them. The variables of a host's groups
//! are `Merged`: a dict, or values that are `Lent` from where they stand, so that no copies are made. `Magic` lends the magic
//! variables: those of a host as two values (`HostMagic`), and three maps behind them, which contracts see as one map. Contracts see a scope as the list of its
//! maps, the highest first. `Scope::value` gives the value of the highest map that has the name,
//! whole and as it is stored, `Scope::layer_of` the number of that map, from 1 to 13; and
//! `has_templates` says in which of them texts are templates. `Layers::marking` marks a name whose value
//! has no expression in its texts, and `Scope::knows_plain` tells that it is read as it is stored.
#![tactic(auto)]

pub mod host;
pub mod layers;
pub mod lent;
mod marking;
pub mod scope;
