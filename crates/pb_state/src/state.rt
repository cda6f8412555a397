//! The state of a run, and its steps.

ghost use Rattle.std.specs.Prelude.{◌≡◌, ◌≤◌, ◌<◌, [], length, OnOk, OnErr, IfOk, true, false};
ghost use Rattle.pb_hosts.specs.Applied.{LearnInTurn};
ghost use Rattle.pb_state.specs.Known.{IsKnown};
ghost use Rattle.pb_state.specs.Machine.{learnt_by};
ghost use Rattle.pb_state.specs.State.{State};

mod asked;
mod open;
mod possible;
mod renew;
mod report;
mod start;
mod turn;

use crate::event::Event;
use crate::sizes_left::SizesLeft;
use pb_facts::update::FactsUndo;
use pb_host::{StepResult, put_step_result};
use pb_hosts::Hosts;
use pb_ids::HostNo;
use pb_plan::Plan;
use pb_value::val::Dict;
use std::alloc::{AllocError, Global};
use std::marker::Model;

/// Why a step wasn't taken.
#[derive(Clone, Copy, Debug, PartialEq, Eq)]
pub enum StepFault {
    /// The event isn't possible in the state.
    Illegal,
    /// Memory was refused.
    Memory,
}

impl From<AllocError> for StepFault {
    ghost use Rattle.std.specs.Prelude.{◌≡◌};
    ghost use Rattle.pb_state.specs.declared.state.StepFault.TheVariants.{Memory};

    ghost from_gives = { λ _ e. e ≡ Memory };

    fn from(_: AllocError) -> StepFault {
        StepFault::Memory
    }
}

/// The state of a run.
pub struct EngineState {
    alloc: Global,
    rows: Hosts,
    play: usize,
    batch: u32,
    sizes_left: SizesLeft,
    is_open: bool,
    place: Option<usize>,
    begun: Vec<bool>,
    forks: u32,
    pool: u32,
    sends: u64,
    stopped: bool,
    ended: bool,
    step_result: Option<StepResult>,
}

impl Drop for EngineState {
    fn drop(self) {
        let EngineState {
            alloc: _,
            rows,
            play: _,
            batch: _,
            sizes_left,
            is_open: _,
            place: _,
            begun,
            forks: _,
            pool: _,
            sends: _,
            stopped: _,
            ended: _,
            step_result,
        } = self;
        drop(rows);
        drop(sizes_left);
        drop(begun);
        drop(step_result);
    }
}

impl Model for EngineState {
    ghost use Rattle.pb_state.specs.State.{State};
    ghost use Rattle.pb_tree.specs.contracts.tree.PlayTree as play_tree;
    ghost use Rattle.pb_value.specs.contracts.val.Val as val;
    ghost use Rattle.std.specs.Coded.{codes};

    ghost Value = { State };

    ghost coded = { Prim.hlevel (codes, val.the_row.coded, play_tree.the_row.coded) };

    ghost view = { λ s. record {
      rows = s.rows;
      play = s.play;
      batch = s.batch;
      sizes_left = s.sizes_left;
      is_open = s.is_open;
      place = s.place;
      begun = s.begun.items;
      forks = s.forks;
      pool = s.pool;
      sends = s.sends;
      stopped = s.stopped;
      ended = s.ended;
      step_result = s.step_result;
    } };

    ghost use Rattle.pb_state.specs.Bounds.{IsBounded};

    ghost invariant = { λ s. IsBounded s.is_open s.batch s.sizes_left s.play s.sends s.rows };
}

impl EngineState {
    ghost use Rattle.pb_state.specs.Machine.{possible};
    ghost use Rattle.pb_state.specs.Machine.{after, first_state, stopped, with_forks};
    ghost use Rattle.pb_state.specs.Local.{IsLocal, MovesByPlace};
    ghost use Rattle.pb_state.specs.Run.{is_command};
    ghost use Rattle.pb_state.specs.Work.{work};

    /// The first state of a plan, with this number of forks and this size of the pool.
    pub fn first(
        alloc: Global,
        plan: &Plan,
        forks: u32,
        pool: u32,
    ) -> Result<EngineState, AllocError>
        requires some { 0 < forks }
        requires within { forks ≤ pool }
        requires most { pool ≤ 256 }
        ensures { IfOk result (λ s. s ≡ first_state plan.now forks pool) }
    {
        let rows = Hosts::first(alloc, plan.host_count())?;
        Ok(EngineState {
            alloc,
            rows,
            play: 0,
            batch: 0,
            sizes_left: SizesLeft::none(alloc),
            is_open: false,
            place: None,
            begun: Vec::new(alloc),
            forks,
            pool,
            sends: 0,
            stopped: false,
            ended: false,
            step_result: None,
        })
    }

    /// One step, if the event is possible. An `Err` changes nothing.
    ///
    /// # Errors
    /// `Illegal` where the event isn't possible in this state, `Memory` where memory was refused.
    pub fn step(&mut self, plan: &Plan, event: &Event) -> Result<(), StepFault>
        ensures ok { OnOk result ((possible plan.now self.old event.now ≡ true) × (self.new ≡ after plan.now self.old event.now)) }
        ensures illegal { result ≡ Err StepFault.Illegal → possible plan.now self.old event.now ≡ false }
        ensures err { OnErr result (self.new ≡ self.old) }

        ensures hosts { length self.new.rows ≡ length self.old.rows }

        // In a plan whose hosts know nothing of each other an event of one host changes its row alone; and rows, play, batch and place say what an opening, a turn and a
        // closing do. Forks are nothing to either.
        ensures local { OnOk result (IsLocal plan.now self.old self.new event.now) }
        ensures shared { OnOk result (MovesByPlace plan.now self.old self.new event.now) }

        // Each step but a command leaves less to do.
        ensures work { OnOk result (0 < self.old.forks → is_command event.now ≡ false → work plan.now self.new < work plan.now self.old) }
        ensures forks { 0 < self.old.forks → 0 < self.new.forks }
    {
        let mut known = None;
        let stepped = self.step_knowing(plan, event, &mut known);
        drop(known);
        stepped
    }

    /// The same, where the map of `hostvars` is kept from step to step: it is made where a task may look it up and there is none. Where hosts learn
    /// something, the names under which they do are put anew in it. An `Err` changes nothing of the state.
    ///
    /// # Errors
    /// `Illegal` where the event isn't possible in this state, `Memory` where memory was refused.
    pub fn step_knowing(
        &mut self,
        plan: &Plan,
        event: &Event,
        known: &mut Option<Dict>,
    ) -> Result<(), StepFault>
        requires { IsKnown plan.now self.old known.old }
        ensures ok { OnOk result ((possible plan.now self.old event.now ≡ true) × (self.new ≡ after plan.now self.old event.now)) }
        ensures illegal { result ≡ Err StepFault.Illegal → possible plan.now self.old event.now ≡ false }
        ensures err { OnErr result (self.new ≡ self.old) }

        ensures hosts { length self.new.rows ≡ length self.old.rows }

        // In a plan whose hosts know nothing of each other an event of one host changes its row alone; and rows, play, batch and place say what an opening, a turn and a
        // closing do. Forks are nothing to either.
        ensures local { OnOk result (IsLocal plan.now self.old self.new event.now) }
        ensures shared { OnOk result (MovesByPlace plan.now self.old self.new event.now) }

        // Each step but a command leaves less to do.
        ensures work { OnOk result (0 < self.old.forks → is_command event.now ≡ false → work plan.now self.new < work plan.now self.old) }
        ensures forks { 0 < self.old.forks → 0 < self.new.forks }

        // What is kept is what would be made.
        ensures known { IsKnown plan.now self.new known.new }
    {
        if !self.is_possible(plan, event) {
            return Err(StepFault::Illegal);
        }
        let keeps = self.keeps_facts(plan, event);
        let learnt = self.apply(plan, event, known)?;
        if keeps {
            return Ok(());
        }
        self.renew(plan, learnt.as_slice(), known);
        Ok(())
    }

    /// What an event that is possible leads to. What was before each host learnt something is handed out, in the order in which they did.
    fn apply(
        &mut self,
        plan: &Plan,
        event: &Event,
        known: &mut Option<Dict>,
    ) -> Result<Vec<(HostNo, FactsUndo)>, AllocError>
        requires may { possible plan.now self.old event.now ≡ true }
        requires known { IsKnown plan.now self.old known.old }
        ensures ok { OnOk result (self.new ≡ after plan.now self.old event.now) }
        ensures learnt { IfOk result (λ log. LearnInTurn log.items (learnt_by self.old.rows) (learnt_by self.new.rows)) }
        ensures err { OnErr result (self.new ≡ self.old) }
        ensures known { IsKnown plan.now self.old known.new }
    {
        match event {
            Event::Open => {
                self.open(plan)?;
                Ok(Vec::new(self.alloc))
            }
            Event::Start(host) => self.start(plan, *host, known),
            Event::Send {
                host,
                item,
                attempt,
                ticket,
            } => {
                self.send(plan, *host, *item, *attempt, *ticket)?;
                Ok(Vec::new(self.alloc))
            }
            Event::Report(report) => self.report(plan, report, known),
            Event::Turn => self.turn(plan),
            Event::Close => {
                self.close();
                Ok(Vec::new(self.alloc))
            }
            Event::Stop => Ok(self.stop()),
            Event::Forks(forks) => Ok(self.set_forks(*forks)),
        }
    }

    /// No more is started or sent. No host learns anything of it.
    fn stop(&mut self) -> Vec<(HostNo, FactsUndo)>
        ensures ok { self.new ≡ stopped self.old }
        ensures learnt { result.items ≡ [] }
    {
        self.stopped = true;
        put_step_result(&mut self.step_result, None);
        Vec::new(self.alloc)
    }

    /// From now on so many hosts may run at once. No host learns anything of it.
    fn set_forks(&mut self, forks: u32) -> Vec<(HostNo, FactsUndo)>
        ensures ok { self.new ≡ with_forks self.old forks }
        ensures learnt { result.items ≡ [] }
    {
        self.forks = forks;
        put_step_result(&mut self.step_result, None);
        Vec::new(self.alloc)
    }
}
