//! What a host runs: a task starts, its jobs go out and come back, and it ends.

ghost use Rattle.std.specs.Prelude.{◌≡◌, ◌-◌, ◌^◌, OnOk, OnErr, IfOk, true};
ghost use Rattle.pb_facts.specs.Update.{applied, IsBetween};
ghost use Rattle.pb_host.specs.Host.{kept_items, runs_once_at};
ghost use Rattle.pb_host.specs.Shown.{let_go};
ghost use Rattle.pb_host.specs.Handlers.{notified_by};
ghost use Rattle.pb_host.specs.Back.{items_run};
ghost use Rattle.pb_host.specs.Ends.{answer_of, IsAtMost};

use super::{Host, LastTask, Running, put_last};
use crate::ends::{breaks, counted, kind_of};
use crate::handlers::{marks_in, notified_by};
use crate::item_results::{end_at, item_results_in, runs_once_at};
use crate::items::{Before, CameBack, TaskItems, none_back};
use crate::step_result::{Retried, StepResult, TaskDone, TaskEnd};
use pb_facts::update::{FactsUndo, FactsUpdate};
use pb_ids::Ticket;
use pb_inventory::inventory::Inventory;
use pb_outcome::outcome::Outcome;
use pb_task_vars::PlanPlay;
use pb_task_vars::ends::Ended;
use pb_task_vars::site::Site;
use pb_task_vars::with_hostvars::PlanWithHostvars;
use pb_tree::Answer;
use std::alloc::{AllocError, Global};
use std::mem;

/// The items of the task that a host runs.
fn items_run(alloc: Global, running: Option<Running>) -> TaskItems
    ensures { result ≡ items_run running }
{
    match running {
        Some(running) => running.into_items(),
        None => TaskItems::none(alloc),
    }
}

/// What a host answers as the task at a place ends so.
fn answer_of(
    alloc: Global,
    play: &PlanPlay,
    place: usize,
    task: TaskEnd,
) -> Result<Answer, AllocError>
    ensures { IfOk result (λ answer. answer ≡ answer_of task (notified_by play.now place task)) }
{
    let notified = Vec::from_slice(alloc, notified_by(play, place, task))?;
    Ok(Answer::of(kind_of(task), notified))
}

/// What is kept of the items of a task that ended, and those that are let go.
fn parted(alloc: Global, once: bool, items: TaskItems) -> (TaskItems, TaskItems)
    ensures kept { result.0 ≡ kept_items once items }
    ensures gone { result.1 ≡ let_go once items }
{
    let none = TaskItems::none(alloc);
    if once { (items, none) } else { (none, items) }
}

impl Host {
    ghost use Rattle.pb_host.specs.Host.{finished, progressed, sent, pending};
    ghost use Rattle.pb_host.specs.StepResults.{done_if};
    ghost use Rattle.pb_host.specs.Back.{back_row, retried_row, finish_run, end_recorded, with_running, waiting, went_on, ended_now, step_result_now, undone};

    /// Puts down how the task at a place ended that the host runs. Items that aren't kept are handed back.
    fn record_end(&mut self, alloc: Global, once: bool, place: usize, task: TaskEnd) -> TaskItems
        requires { IsAtMost self.old.counts (2 ^ 64 - 2) }
        ensures row { self.new ≡ end_recorded once place task self.old }
        ensures gone { result ≡ let_go once (items_run self.old.running) }
    {
        let kind = kind_of(task);
        let ran = mem::replace(&mut self.running, None);
        let (items, gone) = parted(alloc, once, items_run(alloc, ran));
        put_last(&mut self.last, Some(LastTask { place, kind, items }));
        self.is_broken = self.is_broken || breaks(task.is_caught, kind);
        self.counts = counted(self.counts, task);
        gone
    }

    /// The task at a place that the host runs ends, and the host learns this. Items that aren't kept are handed back, and what was before it learnt it.
    /// An `Err` changes nothing.
    fn finish(
        &mut self,
        alloc: Global,
        play: &PlanPlay,
        place: usize,
        task: TaskEnd,
        update: FactsUpdate,
    ) -> Result<(TaskItems, FactsUndo), AllocError>
        requires batch { self.old.in_batch ≡ true }
        requires room { IsAtMost self.old.counts (2 ^ 64 - 2) }
        ensures ok { OnOk result (self.new ≡ finished (finish_run play.now place task self.old.running) task (notified_by play.now place task) (applied update self.old.facts) self.old) }
        ensures gone { IfOk result (λ ended. ended.0 ≡ let_go (runs_once_at play.now place) (items_run self.old.running)) }
        ensures past { IfOk result (λ ended. IsBetween ended.1 self.old.facts self.new.facts) }
        ensures err { OnErr result (self.new ≡ self.old) }
    {
        match answer_of(alloc, play, place, task) {
            Ok(answer) => {
                let past = self.apply_and_answer(alloc, &answer, update)?;
                let gone = self.record_end(alloc, runs_once_at(play, place), place, task);
                Ok((gone, past))
            }
            Err(error) => {
                drop(update);
                Err(error)
            }
        }
    }

    /// The task at a place starts with these items: it waits for their jobs, or ends at once. What was before the host learnt something by that is handed
    /// out. An `Err` changes nothing.
    pub fn start(
        &mut self,
        alloc: Global,
        inventory: &Inventory,
        play: &PlanPlay,
        place: usize,
        items: TaskItems,
    ) -> Result<(Option<TaskDone>, FactsUndo), AllocError>
        requires batch { self.old.in_batch ≡ true }
        requires room { IsAtMost self.old.counts (2 ^ 64 - 2) }
        ensures row { OnOk result (self.new ≡ progressed inventory.now play.now place items self.old) }
        ensures done { IfOk result (λ started. started.0 ≡ done_if play.now place (pending self.old) items) }
        ensures past { IfOk result (λ started. IsBetween started.1 self.old.facts self.new.facts) }
        ensures err { OnErr result (self.new ≡ self.old) }
    {
        let before = self.put_running(Some(Running {
            place,
            items,
            out: None,
        }));
        match self.end_if_over(alloc, inventory, play) {
            Ok(ended) => Ok(ended),
            Err(error) => {
                self.put_running(before);
                Err(error)
            }
        }
    }

    /// Puts down what the host runs, and hands back what it ran.
    fn put_running(&mut self, running: Option<Running>) -> Option<Running>
        requires { self.old.in_batch ≡ true }
        ensures row { self.new ≡ with_running running self.old }
        ensures before { result ≡ self.old.running }
    {
        mem::replace(&mut self.running, running)
    }

    /// A job goes out.
    pub fn send(&mut self, ticket: Ticket)
        ensures { self.new ≡ sent ticket self.old }
    {
        if let Some(running) = &mut self.running {
            running.out = Some(ticket);
        }
    }

    /// The job that is out came to this: its item has its result, or waits for its next attempt. What the item was before is handed back, and the attempt
    /// where another one comes behind it. An `Err` changes nothing.
    pub fn take_back(
        &mut self,
        alloc: Global,
        plan: &PlanWithHostvars,
        play: &PlanPlay,
        outcome: &Outcome,
    ) -> Result<CameBack, AllocError>
        ensures ok { OnOk result (self.new ≡ back_row plan.now play.now outcome.now self.old) }
        ensures retried { IfOk result (λ came. came.retried ≡ retried_row plan.now play.now outcome.now self.old) }
        ensures undo { IfOk result (λ came. undone came.before self.new ≡ self.old) }
        ensures err { OnErr result (self.new ≡ self.old) }
    {
        match &mut self.running {
            Some(running) => {
                let site = Site {
                    plan,
                    play,
                    host: self.host,
                    facts: &self.facts,
                    place: running.place,
                };
                running.items.back(alloc, &site, outcome)
            }
            None => Ok(none_back()),
        }
    }

    /// Puts an item of the task that the host runs back as it was.
    pub fn undo(&mut self, before: Option<Before>)
        ensures { self.new ≡ undone before self.old }
    {
        match &mut self.running {
            Some(running) => running.items.undo(before),
            None => drop(before),
        }
    }

    /// The task that the host runs waits for its next item to be sent.
    fn wait(&mut self)
        ensures { self.new ≡ waiting self.old }
    {
        if let Some(running) = &mut self.running {
            running.out = None;
        }
    }

    /// What a step comes to for the task that the host runs, of which the item with this number came back, or this attempt at it; and what was before the host
    /// learnt something by that. An `Err` changes nothing.
    pub fn advance(
        &mut self,
        alloc: Global,
        inventory: &Inventory,
        play: &PlanPlay,
        number: Option<u32>,
        retried: Option<Retried>,
    ) -> Result<(Option<StepResult>, FactsUndo), AllocError>
        requires { IsAtMost self.old.counts (2 ^ 64 - 2) }
        ensures row { OnOk result (self.new ≡ went_on inventory.now play.now self.old) }
        ensures comes_to { IfOk result (λ advanced. advanced.0 ≡ step_result_now play.now number retried self.old) }
        ensures past { IfOk result (λ advanced. IsBetween advanced.1 self.old.facts self.new.facts) }
        ensures err { OnErr result (self.new ≡ self.old) }
    {
        match &self.running {
            None => Ok((None, FactsUndo::Nothing)),
            Some(running) => {
                let place = running.place;
                let items = item_results_in(alloc, &running.items, number)?;
                let (done, past) = self.end_if_over(alloc, inventory, play)?;
                let step_result = StepResult {
                    place,
                    is_new: false,
                    items,
                    retried,
                    done,
                };
                Ok((Some(step_result), past))
            }
        }
    }

    /// Where the task that the host runs has no loop and its result is that of a program that ran, that has the names that are kept once for all hosts.
    fn share(&mut self, play: &PlanPlay)
        ensures { self.new ≡ self.old }
    {
        if let Some(running) = &mut self.running {
            running.items.share(play);
        }
    }

    /// The task that the host runs goes on, or ends where it is over. What was before the host learnt something by that is handed out. An `Err` changes
    /// nothing.
    fn end_if_over(
        &mut self,
        alloc: Global,
        inventory: &Inventory,
        play: &PlanPlay,
    ) -> Result<(Option<TaskDone>, FactsUndo), AllocError>
        requires { IsAtMost self.old.counts (2 ^ 64 - 2) }
        ensures row { OnOk result (self.new ≡ went_on inventory.now play.now self.old) }
        ensures done { IfOk result (λ ended. ended.0 ≡ ended_now play.now self.old) }
        ensures past { IfOk result (λ ended. IsBetween ended.1 self.old.facts self.new.facts) }
        ensures err { OnErr result (self.new ≡ self.old) }
    {
        self.share(play);
        match &self.running {
            None => Ok((None, FactsUndo::Nothing)),
            Some(running) => {
                if !running.items.is_over() {
                    self.wait();
                    return Ok((None, FactsUndo::Nothing));
                }
                let place = running.place;
                let end = end_at(alloc, play, place, marks_in(&self.walk), &running.items)?;
                let items = running.items.as_slice();
                let ended = Ended {
                    inventory,
                    play,
                    place,
                    result: end.task.result,
                    items,
                };
                let shown = end.shown(items);
                let update = ended.teaches(alloc, Some(self.host), shown, &self.facts)?;
                let (gone, past) = self.finish(alloc, play, place, end.task, update)?;
                Ok((Some(end.done(gone)), past))
            }
        }
    }
}
