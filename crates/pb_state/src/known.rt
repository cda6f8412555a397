//! The map of `hostvars` that is kept from step to step, and which steps leave what the hosts have learnt as it was.

ghost use Rattle.std.specs.Prelude.{◌≡◌, true, Some, if◌then◌else◌};
ghost use Rattle.pb_task_vars.specs.Learning.{gives_of};
ghost use Rattle.pb_state.specs.Known.{gives_nothing, teaches_nothing, teaches_nothing_at, keeps_facts, start_keeps, report_keeps, turn_keeps_at};

use crate::event::Event;
use crate::hostvars::Shown;
use crate::state::EngineState;
use pb_host::runs_once_at;
use pb_ids::HostNo;
use pb_places::Place;
use pb_plan::{Plan, PlanPlay};
use pb_play::modules::Module;
use pb_value::val::Dict;
use std::mem;

/// What a task was shown is kept where it is what each task may see.
pub(crate) fn keep(known: &mut Option<Dict>, shown: Shown)
    ensures { known.new ≡ (if shown.is_whole then Some shown.hosts else known.old) }
{
    if shown.is_whole {
        drop(mem::replace(known, Some(shown.into_hosts())));
    }
}

/// Whether a module gives no facts.
fn gives_nothing(called: &Module) -> bool
    ensures { result ≡ gives_nothing (gives_of called.now) }
{
    match called {
        Module::SetFact { facts: _ } => false,
        Module::Setup => false,
        Module::Assert {
            that: _,
            fail_msg: _,
            success_msg: _,
        } => true,
        Module::Command(_) => true,
        Module::Debug { msg: _ } => true,
        Module::DebugVar { text: _, expr: _ } => true,
        Module::Fail { msg: _ } => true,
        Module::Meta(_) => true,
        Module::Shell { cmd: _ } => true,
    }
}

/// Whether hosts know what they knew once the task at a place has ended on one.
fn teaches_nothing(place: &Place) -> bool
    ensures { result ≡ teaches_nothing place.now }
{
    let task = place.task();
    task.register.is_none() && gives_nothing(&task.module)
}

/// The same of the place with this number; where there is none there is no task.
fn teaches_nothing_at(play: &PlanPlay, place: usize) -> bool
    ensures { result ≡ teaches_nothing_at play.now place }
{
    match play.place(place) {
        Some(place) => teaches_nothing(place),
        None => true,
    }
}

/// Whether hosts know what they knew once what one of them did at a place, if the task there runs once, has gone to the others.
pub(crate) fn turn_keeps_at(play: &PlanPlay, place: usize) -> bool
    ensures { result ≡ turn_keeps_at play.now place }
{
    !runs_once_at(play, place) || teaches_nothing_at(play, place)
}

impl EngineState {
    /// Whether hosts know what they knew once the task that a host starts has ended.
    fn start_keeps(&self, play: &PlanPlay, host: HostNo) -> bool
        ensures { result ≡ start_keeps self.now host.0 play.now }
    {
        match self.next_at(host) {
            Some(place) => teaches_nothing_at(play, place),
            None => true,
        }
    }

    /// Whether hosts know what they knew once the task that a host runs has ended.
    fn report_keeps(&self, play: &PlanPlay, host: HostNo) -> bool
        ensures { result ≡ report_keeps self.now host.0 play.now }
    {
        match self.running_at(host) {
            Some(place) => teaches_nothing_at(play, place),
            None => true,
        }
    }

    /// Whether after an event the hosts surely know what they knew.
    pub(crate) fn keeps_facts(&self, plan: &Plan, event: &Event) -> bool
        ensures { result ≡ keeps_facts plan.now self.now event.now }
    {
        match event {
            Event::Start(host) => match self.open_play(plan) {
                Some(play) => self.start_keeps(play, *host),
                None => true,
            },
            Event::Report(report) => match self.open_play(plan) {
                Some(play) => self.report_keeps(play, report.host),
                None => true,
            },
            Event::Turn => match self.open_play(plan) {
                Some(play) => self.turn_keeps(play),
                None => true,
            },
            Event::Send { .. } | Event::Stop | Event::Forks(_) => true,
            Event::Open | Event::Close => true,
        }
    }
}
