//! The task at hand.

ghost use Rattle.std.specs.Prelude.{◌≡◌};
ghost use Rattle.std.specs.Option.{option_copied};
ghost use Rattle.pb_task_vars.specs.Results.{place_for};

use crate::with_hostvars::PlanWithHostvars;
use pb_facts::facts::Facts;
use pb_ids::HostNo;
use pb_places::Place;
use pb_plan::PlanPlay;

/// The task at hand: the one at a place of a play, on a host that has learnt this, as the plan is seen then.
#[derive(Drop)]
pub struct Site<'a> {
    pub plan: &'a PlanWithHostvars<'a>,
    pub play: &'a PlanPlay,
    pub host: HostNo,
    /// What the host has learnt.
    pub facts: &'a Facts,
    /// The place's position in the play's tree.
    pub place: usize,
}

impl<'a> Site<'a> {
    /// What stands at the place, where the host is one of the plan.
    pub(crate) fn found(&self) -> Option<&'a Place>
        ensures { option_copied result ≡ place_for self.now.plan.now self.now.play.now self.now.host.0 self.now.place }
    {
        if self.host.0 < self.plan.host_count() {
            self.play.place(self.place)
        } else {
            None
        }
    }
}
