//! The names that a play's results share.

ghost use Rattle.std.specs.Prelude.{◌≡◌};

use super::PlanPlay;
use pb_outcome::result_names::ResultNames;
use pb_value::val::Val;

impl PlanPlay {
    /// Where what is shown is the result of a program that ran, its names are from now on the ones that are kept once for all hosts, as far as
    /// there is memory for it.
    pub fn share(&self, shown: &mut Val)
        ensures { shown.new ≡ shown.old }
    {
        if let Some(names) = &self.ran {
            shown.share(names);
        }
    }

    /// The names of results that are decided as a task starts, which are kept once for all hosts.
    pub fn names(&self) -> &ResultNames {
        &self.names
    }
}
