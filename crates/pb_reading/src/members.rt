//! The members of an object that are left.
ghost use Rattle.std.specs.Prelude.{◌≡◌};
ghost use Rattle.pb_reading.specs.Members.{left};

use serde_json::{Map, Value};
use std::collections::btree_map::Iter;

/// The members that are still to be looked at, in the byte order of their keys. The first stands beside the others: it is taken from them once,
/// however many keys are asked for that aren't there.
#[derive(Drop)]
pub(crate) struct Members<'a> {
    /// The first of them, unless none is left.
    pub(crate) first: Option<(&'a String, &'a Value)>,
    rest: Iter<'a, String, Value>,
}

impl<'a> Members<'a> {
    /// All members of an object.
    #[tactic(auto, using(crate::proofs::Taken::taken))]
    pub(crate) fn of(members: &'a Map<String, Value>) -> Members<'a>
        ensures { left result ≡ members.now.entries }
    {
        let mut rest = members.iter();
        let first = rest.next();
        Members { first, rest }
    }

    /// Lets the first go.
    #[tactic(auto, using(crate::proofs::Taken::taken))]
    pub(crate) fn pass(&mut self)
        ensures { left self.new ≡ self.old.rest }
    {
        self.first = self.rest.next();
    }
}
