//! What hosts learn in a run: the facts that were gathered of them, and what was set and registered for them.
//!
//! For the layers above: `Facts` is what one host has learnt. It lends the layers of variables in which that is seen. `update_of` makes
//! of a finished task what a host is to learn: its registered result, then the facts of its items; and `gift_update` of facts that the
//! task of another host gave; `join` makes one of two. `apply` puts that in place, and `revert` puts back what was before, which tells
//! under which names the host learnt something (`IsBetween`). `learn` does both, `update_of` and `apply`; nothing calls it. A `FactBook` has the
//! facts of each host by its number; tests alone use it. All of it is what `specs/Facts.antt` and `specs/Update.antt` say, and a call that
//! finds no memory changes nothing, but `put_all`, which has put the first few values then.
#![tactic(auto)]

pub mod book;
pub mod facts;
pub mod layer;
pub mod put;
pub mod reading;
mod stands;
pub mod update;
