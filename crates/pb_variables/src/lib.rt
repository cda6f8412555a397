//! The variables that a plan gives: extra variables, magic variables, and the connectors of its hosts.
//!
//! For the layers above: `read_extra` takes the bytes of a file of extra variables and answers the
//! variables that they spell, or the first fault in them, both exactly as `specs/Extra.antt` says.
//! `plan_magic`, `play_magic` and `host_magic` answer the magic variables that are the same for a
//! whole plan, for a play and for a host (`specs/Magic.antt`): the first two as dicts, those of a host as two values that are lent. `hostvars`
//! answers what stands for the variables of all hosts, with what they have learnt, and `renewed_between` puts there what one host learnt since
//! (`specs/Renewed.antt`), under the names that what can put back what it knew tells (`specs/Between.antt`).
//! `connector` answers the words of the program that connects to a host (`specs/Connector.antt`).
//! `GroupShares` has what all hosts have from their groups, the variables of these and their names, made once for hosts of the same groups
//! (`specs/Shared.antt`); where it has no room for that of a host, the inventory lends these variables, and none is copied (`HostGroups`).
#![tactic(auto)]

pub mod connector;
pub mod extra;
pub mod fault;
pub mod host_groups;
pub mod hostvars;
pub mod magic;
mod put;
pub mod shared;
mod weight;
