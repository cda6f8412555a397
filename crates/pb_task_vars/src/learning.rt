//! What a task that ended leaves with its host.

ghost use Rattle.std.specs.Prelude.{◌≡◌, IfOk, option_map};
ghost use Rattle.pb_facts.specs.Update.{applied};
ghost use Rattle.pb_task_vars.specs.Delegates.{host_number};
ghost use Rattle.pb_task_vars.specs.Ends.{has_run};
ghost use Rattle.pb_task_vars.specs.Learning.{gives_of, gives_if, learns, learns_at, facts_after_end};

use crate::delegates::staying;
use crate::ends::{Ended, has_run};
use pb_facts::facts::{Facts, Gives};
use pb_facts::update::{FactsUpdate, update_of};
use pb_ids::HostNo;
use pb_outcome::item::Item;
use pb_places::Place;
use pb_play::modules::Module;
use pb_play::task::Task;
use pb_value::val::Val;
use std::alloc::{AllocError, Global};

/// What a module gives beside its result.
pub(crate) fn gives_of(called: &Module) -> Gives
    ensures { result ≡ gives_of called.now }
{
    match called {
        Module::SetFact { facts: _ } => Gives::Sets,
        Module::Setup => Gives::Gathers,
        Module::Assert {
            that: _,
            fail_msg: _,
            success_msg: _,
        } => Gives::Nothing,
        Module::Command(_) => Gives::Nothing,
        Module::Debug { msg: _ } => Gives::Nothing,
        Module::DebugVar { text: _, expr: _ } => Gives::Nothing,
        Module::Fail { msg: _ } => Gives::Nothing,
        Module::Meta(_) => Gives::Nothing,
        Module::Shell { cmd: _ } => Gives::Nothing,
    }
}

/// What a task gives beside its result: what its module gives, where it went well.
fn gives_if(went_well: bool, called: &Module) -> Gives
    ensures { result ≡ gives_if went_well called.now }
{
    if went_well {
        gives_of(called)
    } else {
        Gives::Nothing
    }
}

/// What a host that knows this learns of a task that ended with these items and this result, well or not.
fn learns(
    alloc: Global,
    shown: &Val,
    went_well: bool,
    items: &[Item],
    facts: &Facts,
    task: &Task,
) -> Result<FactsUpdate, AllocError>
    ensures { IfOk result (λ update. applied update facts.now ≡ learns shown.now went_well items.now facts.now task.now) }
{
    let gives = gives_if(went_well, &task.module);
    match &task.register {
        Some(name) => {
            let shown = shown.try_clone(alloc)?;
            update_of(alloc, gives, Some(name.as_str()), shown, items, facts)
        }
        None => update_of(alloc, gives, None, Val::null(), items, facts),
    }
}

impl<'a> Ended<'a> {
    /// What a host that knows this learns of the task at a place, which this host started, or another one for all: where facts are delegated, those of an
    /// item that is delegated to another host don't stay, and what was done for all has no facts of a delegated item.
    fn learns_at(
        &self,
        alloc: Global,
        starter: Option<HostNo>,
        shown: &Val,
        facts: &Facts,
        place: &Place,
    ) -> Result<FactsUpdate, AllocError>
        ensures { IfOk result (λ update. applied update facts.now
            ≡ learns_at self.now.inventory.now (option_map host_number starter) shown.now (has_run self.now.result) self.now.items.now facts.now place.now) }
    {
        let went_well = has_run(self.result);
        let task = place.task();
        if place.delegate_facts() {
            let stay = staying(alloc, self.inventory, starter, self.items)?;
            learns(alloc, shown, went_well, stay.as_slice(), facts, task)
        } else {
            learns(alloc, shown, went_well, self.items, facts, task)
        }
    }

    /// What a host that knows this learns of the task, whose result is shown so: what it knows then is what it learns. It is the host that started the task; or
    /// there is none, and a host learns what another one did for all. A host that is out of reach learns nothing, nor do the facts of an item stay that go to
    /// another host (`gives`). The only error is want of memory.
    #[tactic(auto, unfolding(crate::specs::Learning::facts_after_end))]
    pub fn teaches(
        &self,
        alloc: Global,
        starter: Option<HostNo>,
        shown: &Val,
        facts: &Facts,
    ) -> Result<FactsUpdate, AllocError>
        ensures { IfOk result (λ update. applied update facts.now
            ≡ facts_after_end self.now.inventory.now self.now.play.now self.now.place (option_map host_number starter) self.now.result shown.now self.now.items.now facts.now) }
    {
        if self.result.unreachable {
            return Ok(FactsUpdate::Nothing);
        }
        match self.play.place(self.place) {
            Some(place) => self.learns_at(alloc, starter, shown, facts, place),
            None => Ok(FactsUpdate::Nothing),
        }
    }
}
