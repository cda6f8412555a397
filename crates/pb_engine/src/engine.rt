//! The engine.

ghost use Rattle.std.specs.Prelude.{◌≡◌, ◌≢◌, ◌≤◌, ◌<◌, ◌++◌, ◌∷◌, [], length, true, false, IfOk, OnOk, OnErr, IfErr, Ok, Err, Some, None};
ghost use Rattle.std.specs.Prelude.{◌-◌, slice_get};
ghost use Rattle.std.specs.Option.{option_copied};
ghost use Rattle.pb_state.specs.Known.{IsKnown};
ghost use Rattle.pb_state.specs.Machine.{possible, after, first_state, facts_at, pending_at};
ghost use Rattle.pb_state.specs.Once.{IsOnce};
ghost use Rattle.pb_state.specs.Run.{IsRun, is_command, IsFinished};
ghost use Rattle.pb_state.specs.Work.{work};
ghost use Rattle.pb_recap.specs.Recap.{recap};
ghost use Rattle.pb_laws.specs.Fixed.{EndsAsFixed};
ghost use Rattle.pb_laws.specs.Kept.{KeepsLaws};
ghost use Rattle.pb_engine.specs.EngineOf.{EngineOf, Takes, LessWork, IsSound, engine_of};
ghost use Rattle.pb_engine.specs.Notes.{noted_at};
ghost use Rattle.pb_engine.specs.Choice.{NextIs};
ghost use Rattle.pb_engine.specs.Refusals.{refusal_of, is_waited_for, fits};
ghost use Rattle.pb_engine.specs.Commands.{event_for, is_finished, fault_of};

use crate::choice::{Choice, choose};
use crate::command::{Command, CommandFault, event_for, is_finished, is_in_range};
use crate::fault::EngineFault;
use crate::picker::Picker;
use crate::refusal::{Refusal, refusal_for};
use pb_facts::facts::Facts;
use pb_ids::HostNo;
use pb_outcome::job::{Job, Report};
use pb_planes::HostSet;
use pb_recap::Recap;
use pb_state::{BoxedReport, EngineState, Event, Plan, StepFault};
use pb_value::val::Dict;
use std::alloc::{AllocError, Global};
use std::marker::Model;

/// What a call of `next` did.
#[derive(Drop)]
pub enum Next {
    /// This job went out.
    Sent(Job),
    /// One event of another kind was taken.
    Moved,
    /// Nothing is possible but the report of a job that is out.
    Waiting,
    /// Nothing is possible any more.
    Finished,
}

/// A plan, the state of its run, and the trail of events that led to it.
#[derive(Drop)]
pub struct Engine {
    alloc: Global,
    plan: Plan,
    pool: u32,
    state: EngineState,
    trail: Vec<Event>,
    ready: HostSet,
    /// The map of `hostvars`, where a task looked it up. What hosts learn since is put into it.
    known: Option<Dict>,
}

impl Model for Engine {
    ghost use Rattle.pb_engine.specs.EngineOf.{EngineOf};
    ghost use Rattle.pb_plan.specs.contracts.plan.Plan as the_plan;
    ghost use Rattle.pb_state.specs.contracts.state.EngineState as the_state;
    ghost use Rattle.pb_value.specs.contracts.val.Val as val;
    ghost use Rattle.std.specs.Coded.{codes};

    ghost Value = { EngineOf };

    ghost coded = { Prim.hlevel (codes, val.the_row.coded, the_plan.the_row.coded, the_state.the_row.coded) };

    ghost view = { λ e. record { plan = e.plan; pool = e.pool; state = e.state; trail = e.trail.items } };

    ghost use Rattle.pb_engine.specs.Holds.{Holds};

    ghost invariant = { Holds };
}

impl Engine {
    /// An engine in the first state of a plan, whose pool has this many workers: at most 256.
    ///
    /// # Errors
    /// `PoolTooSmall` where the plan's forks are more than the pool has workers, `Memory` where memory was refused. The
    /// plan is dropped then.
    pub fn new(alloc: Global, plan: Plan, pool_size: u32) -> Result<Engine, EngineFault>
        requires { pool_size ≤ 256 }
        ensures value { IfOk result (λ engine. engine_of plan pool_size ≡ Ok engine) }
        ensures fault { IfErr result (λ e. e ≢ EngineFault.Memory → engine_of plan pool_size ≡ Err e) }

        // Nothing else is reported of a pool that is too small.
        ensures small { pool_size < plan.forks → result ≡ Err EngineFault.PoolTooSmall }
        ensures run { IfOk result IsSound }
    {
        let forks = plan.forks();
        if forks > pool_size {
            return Err(EngineFault::PoolTooSmall);
        }
        let ready = HostSet::empty(alloc, plan.host_count())?;
        let state = EngineState::first(alloc, &plan, forks, pool_size)?;
        Ok(Engine {
            alloc,
            plan,
            pool: pool_size,
            state,
            trail: Vec::new(alloc),
            ready,
            known: None,
        })
    }

    /// Takes what the machine does by itself: one event, if one is possible. A host that is ready sends its job or starts,
    /// and the picker chooses which host; it is asked only where one is ready, and sees exactly those that are. `Waiting`
    /// is answered only where a job is out and nothing else is possible but commands.
    ///
    /// # Errors
    /// `Memory` where memory was refused: the engine is unchanged then.
    pub fn next<P: Picker>(&mut self, picker: &mut P) -> Result<Next, EngineFault>
        ensures value { IfOk result (NextIs P.picks picker.old picker.new self.old self.new) }
        ensures fault { IfErr result (λ e. e ≡ EngineFault.Memory) }
        ensures err { OnErr result (self.new ≡ self.old) }
        ensures run { IsSound self.new }
    {
        match self.choose(picker) {
            Choice::Finished => Ok(Next::Finished),
            Choice::Waiting => Ok(Next::Waiting),
            Choice::Take(event) => self.go(event),
        }
    }

    /// Takes the report of a job that is out. A report that is refused is handed back whole, and the engine is unchanged.
    ///
    /// # Errors
    /// `UnknownTicket` exactly where no job was sent under the report's ticket, `AlreadyReported` exactly where one was sent
    /// and isn't out, `WrongItem` exactly where it is out for another host, item or attempt; else `Memory` where memory was refused.
    #[tactic(auto, using(crate::proofs::Waits::report_in_run, crate::proofs::Waits::wrong_in_run))]
    pub fn absorb(&mut self, report: Report) -> Result<(), (Report, Refusal)>
        ensures ok { OnOk result (Takes self.old self.new (Event.Report report)) }
        ensures accepted { OnOk result (refusal_of self.old.state report ≡ None) }
        ensures work { OnOk result (LessWork self.old self.new) }
        ensures refusal { IfErr result (λ e. e.1 ≢ Refusal.Memory → refusal_of self.old.state report ≡ Some e.1) }
        ensures memory { IfErr result (λ e. e.1 ≡ Refusal.Memory → refusal_of self.old.state report ≡ None) }
        ensures back { IfErr result (λ e. e.0 ≡ report) }
        ensures err { OnErr result (self.new ≡ self.old) }
        ensures run { IsSound self.new }

        // A job that is out was sent, so that no report of it is of an unknown ticket.
        ensures wrong { is_waited_for self.old.state report ≡ true → fits self.old.state report ≡ false → refusal_of self.old.state report ≡ Some Refusal.WrongItem }
    {
        if let Some(refusal) = refusal_for(&self.state, &report) {
            return Err((report, refusal));
        }
        let boxed = match BoxedReport::new(self.alloc, report) {
            Ok(boxed) => boxed,
            Err(failed) => return Err((failed.value, Refusal::Memory)),
        };
        match self.take(Event::Report(boxed)) {
            Ok(()) => Ok(()),
            Err(Event::Report(boxed)) => Err((boxed.into_report(), Refusal::Memory)),
            Err(_) => unreachable!(),
        }
    }

    /// Takes a command. One that is refused changes nothing.
    ///
    /// # Errors
    /// `BadForks` exactly where the forks that it asks for aren't 1 to the size of the pool, else `Finished` exactly where the run is at its end; else
    /// `Memory` where memory was refused.
    #[tactic(auto, using(crate::proofs::Commands::may_command, crate::proofs::Commands::finished_run))]
    pub fn command(&mut self, command: Command) -> Result<(), CommandFault>
        ensures ok { OnOk result (Takes self.old self.new (event_for command)) }
        ensures accepted { OnOk result (fault_of self.old.plan self.old.pool self.old.state command ≡ None) }
        ensures fault { IfErr result (λ e. e ≢ CommandFault.Memory → fault_of self.old.plan self.old.pool self.old.state command ≡ Some e) }
        ensures memory { IfErr result (λ e. e ≡ CommandFault.Memory → fault_of self.old.plan self.old.pool self.old.state command ≡ None) }
        ensures err { OnErr result (self.new ≡ self.old) }
        ensures run { IsSound self.new }

        // A run is at its end exactly where nothing but commands is possible, and no job is out.
        ensures finished { (is_finished self.old.plan self.old.state ≡ true → IsFinished self.old.plan self.old.state)
            × (IsFinished self.old.plan self.old.state → is_finished self.old.plan self.old.state ≡ true) }
    {
        if !is_in_range(self.pool, command) {
            return Err(CommandFault::BadForks);
        }
        if self.is_finished() {
            return Err(CommandFault::Finished);
        }
        match self.take(event_for(command)) {
            Ok(()) => Ok(()),
            Err(event) => {
                drop(event);
                Err(CommandFault::Memory)
            }
        }
    }

    /// The plan.
    pub fn plan(&self) -> &Plan
        ensures { result.now ≡ self.now.plan }
    {
        &self.plan
    }

    /// The state to which the trail leads.
    pub fn state(&self) -> &EngineState
        ensures value { result.now ≡ self.now.state }
        ensures run { IsSound self.now }
    {
        &self.state
    }

    /// What a host has learnt: the layers of variables of its facts, and of what was set and registered for it.
    #[tactic(auto, using(pb_state::proofs::Held::host_has_row))]
    pub fn facts(&self, host: HostNo) -> &Facts
        requires { host.0 < length self.now.plan.inventory.hosts }
        ensures value { result.now ≡ facts_at self.now.state host.0 }

        // At the end of a run whose outcomes are fixed these are what the hosts reach together, or alone.
        ensures ends { EndsAsFixed self.now.plan self.now.pool self.now.trail self.now.state }
    {
        pb_laws::runs_end_as_fixed();
        self.state.facts(host)
    }

    /// The handlers that are pending on a host: of each handler of the open play, by its number, whether a task of the open batch notified it there, and
    /// it hasn't run since. Where the host is in no open batch there are none.
    #[tactic(auto, using(pb_state::proofs::Held::host_has_row))]
    pub fn pending(&self, host: HostNo) -> &[bool]
        requires { host.0 < length self.now.plan.inventory.hosts }
        ensures value { result.now ≡ pending_at self.now.state host.0 }

        // So says all that happened on the host: a handler is pending where an answer notified it, and it hasn't run since.
        ensures notes { result.now ≡ noted_at self.now.state host.0 }
    {
        pb_handlers::marks_are_notes();
        self.state.pending(host)
    }

    /// The events so far, in order. They do nothing twice, and keep the laws of runs.
    pub fn trail(&self) -> &[Event]
        ensures value { result.now ≡ self.now.trail }
        ensures run { IsSound self.now }
        ensures once { IsOnce self.now.plan (first_state self.now.plan self.now.plan.forks self.now.pool) self.now.trail }
        ensures laws { KeepsLaws self.now.plan self.now.pool self.now.trail }
    {
        pb_laws::runs_keep_laws();
        self.trail.as_slice()
    }

    /// The last event.
    pub fn last(&self) -> Option<&Event>
        ensures { option_copied result ≡ slice_get self.now.trail (length self.now.trail - 1) }
    {
        self.trail.last()
    }

    /// How the tasks that the events so far finished count, counted over the events from the first one on.
    ///
    /// # Errors
    /// `AllocError` where memory was refused.
    pub fn recap(&self, alloc: Global) -> Result<Recap, AllocError>
        ensures value { IfOk result (λ r. r ≡ recap self.now.plan self.now.pool self.now.trail) }

        // At the end of a run whose outcomes are fixed it is what the hosts count together, or alone.
        ensures ends { EndsAsFixed self.now.plan self.now.pool self.now.trail self.now.state }
    {
        pb_laws::runs_end_as_fixed();
        Recap::of(alloc, &self.state)
    }

    /// The events, which do nothing twice and keep the laws of runs, of an engine that is needed no more. It takes no memory.
    pub fn into_trail(self) -> Vec<Event>
        ensures value { result.items ≡ self.trail }
        ensures run { IsSound self }
        ensures once { IsOnce self.plan (first_state self.plan self.plan.forks self.pool) self.trail }
        ensures laws { KeepsLaws self.plan self.pool self.trail }
    {
        pb_laws::runs_keep_laws();
        self.trail
    }
}

impl Engine {
    ghost use Rattle.pb_engine.specs.Choice.{IsChoice, IsGone, answer_of};
    ghost use Rattle.pb_state.specs.Run.{is_move};

    /// What to take next.
    #[tactic(auto, using(pb_state::proofs::Stuck::placed_run, pb_state::proofs::Held::going_run))]
    fn choose<P: Picker>(&mut self, picker: &mut P) -> Choice
        ensures choice { IsChoice self.old.plan self.old.state P.picks picker.old picker.new result }
        ensures same { self.new ≡ self.old }
        ensures run { IsSound self.new }
    {
        choose(&self.plan, &self.state, &mut self.ready, picker)
    }

    /// Whether the run is at its end.
    fn is_finished(&mut self) -> bool
        ensures value { result ≡ is_finished self.old.plan self.old.state }
        ensures same { self.new ≡ self.old }
        ensures run { IsSound self.new }
    {
        is_finished(&self.plan, &self.state, &mut self.ready)
    }

    /// What is answered for an event that the machine takes by itself: for a send its job.
    fn answer(&self, event: &Event) -> Result<Option<Next>, AllocError>
        ensures { IfOk result (λ next. next ≡ answer_of self.now.plan self.now.state event.now) }
    {
        match event {
            Event::Send { host, ticket, .. } => {
                match self.state.job(self.alloc, &self.plan, *host, *ticket)? {
                    Some(job) => Ok(Some(Next::Sent(job))),
                    None => Ok(None),
                }
            }
            Event::Open | Event::Start(_) | Event::Turn | Event::Close => Ok(Some(Next::Moved)),
            Event::Report(_) | Event::Stop | Event::Forks(_) => Ok(None),
        }
    }

    /// Takes an event that the machine takes by itself. Its job is made before the step.
    #[tactic(auto, using(crate::proofs::Waits::answered_in_run))]
    fn go(&mut self, event: Event) -> Result<Next, EngineFault>
        requires sound { IsSound self.old }
        requires possible { possible self.old.plan self.old.state event ≡ true }
        requires moves { is_move event ≡ true }
        ensures value { IfOk result (λ next. IsGone self.old self.new event next) }
        ensures fault { IfErr result (λ e. e ≡ EngineFault.Memory) }
        ensures err { OnErr result (self.new ≡ self.old) }
        ensures run { IsSound self.new }
    {
        let answered = match self.answer(&event) {
            Ok(answered) => answered,
            Err(_) => return Err(without_event(event)),
        };
        match answered {
            Some(next) => match self.take(event) {
                Ok(()) => Ok(next),
                Err(_) => Err(EngineFault::Memory),
            },
            None => unreachable!(),
        }
    }

    /// Takes one event that is possible, or hands it back.
    fn take(&mut self, event: Event) -> Result<(), Event>
        requires { possible self.old.plan self.old.state event ≡ true }
        ensures ok { OnOk result (Takes self.old self.new event) }
        ensures err { OnErr result (self.new ≡ self.old) }
        ensures back { IfErr result (λ e. e ≡ event) }
        ensures work { OnOk result (is_command event ≡ false → LessWork self.old self.new) }
        ensures run { IsSound self.new }
    {
        record(
            &self.plan,
            &mut self.state,
            &mut self.known,
            &mut self.trail,
            event,
        )
    }
}

/// The fault for which an event isn't taken. The event is dropped.
fn without_event(event: Event) -> EngineFault
    ensures { result ≡ EngineFault.Memory }
{
    drop(event);
    EngineFault::Memory
}

/// Takes a step, and writes the event down, or hands it back.
fn record(
    plan: &Plan,
    state: &mut EngineState,
    known: &mut Option<Dict>,
    trail: &mut Vec<Event>,
    event: Event,
) -> Result<(), Event>
    requires possible { possible plan.now state.old event ≡ true }
    requires known { IsKnown plan.now state.old known.old }
    ensures ok { OnOk result ((state.new ≡ after plan.now state.old event) × (trail.new.items ≡ trail.old.items ++ event ∷ [])) }
    ensures err { OnErr result ((state.new ≡ state.old) × (trail.new.items ≡ trail.old.items)) }
    ensures back { IfErr result (λ e. e ≡ event) }
    ensures hosts { length state.new.rows ≡ length state.old.rows }
    ensures work { OnOk result (0 < state.old.forks → is_command event ≡ false → work plan.now state.new < work plan.now state.old) }
    ensures forks { 0 < state.old.forks → 0 < state.new.forks }
    ensures known { IsKnown plan.now state.new known.new }
{
    if trail.reserve(1).is_err() {
        return Err(event);
    }
    match state.step_knowing(plan, &event, known) {
        Ok(()) => {}
        Err(StepFault::Memory) => return Err(event),
        Err(StepFault::Illegal) => unreachable!(),
    }
    match trail.push(event) {
        Ok(()) => Ok(()),
        Err(_) => unreachable!(),
    }
}
