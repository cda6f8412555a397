//! How the map of `hostvars` that is kept follows what hosts have learnt.

ghost use Rattle.pb_hosts.specs.Applied.{LearnInTurn};
ghost use Rattle.pb_state.specs.Known.{IsKnown};
ghost use Rattle.pb_state.specs.Machine.{learnt_by};
ghost use Rattle.pb_state.specs.State.{State};

use super::EngineState;
use crate::hostvars::renewed_once_learnt;
use pb_facts::update::FactsUndo;
use pb_ids::HostNo;
use pb_plan::Plan;
use pb_value::val::Dict;
use std::mem;

impl EngineState {
    /// After an event what is kept is put right for those that learnt something. Where memory is refused for that, or a host learnt something twice, nothing
    /// is kept any more.
    pub(crate) fn renew(&self, plan: &Plan, log: &[(HostNo, FactsUndo)], known: &mut Option<Dict>)
        ensures { (old : State) → LearnInTurn log.now (learnt_by old.rows) (learnt_by self.now.rows) → IsKnown plan.now old known.old → IsKnown plan.now self.now known.new }
    {
        let Some(hosts) = mem::replace(known, None) else {
            return;
        };
        let rows = self.rows.as_slice();
        let anew = renewed_once_learnt(self.alloc, plan, rows, hosts, log);
        drop(mem::replace(known, anew));
    }
}
