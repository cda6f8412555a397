//! A run by calls on an engine, each of which is made once more where memory was refused.

use crate::play::{Break, NotBegun, Run};
use pb_driver::{Command, CommandFault, Engine, Lowest, Next, Refusal};
use pb_outcome::cause::Cause;
use pb_outcome::job::{Job, Report};
use pb_outcome::outcome::{Form, Outcome};
use pb_runner::runner::Runner;
use pb_runner::table::TableRunner;
use pb_state::Plan;
use std::alloc::Global;

/// No row takes so many calls.
const CALLS: u32 = 1_000;

/// Before the call of this number, from 0, the engine is commanded to run one host at a time.
const ONE_FORK_AT: u32 = 4;

/// No row has as many jobs out.
const MOST_OUT: usize = 4;

/// As many workers has a pool at most.
const POOL: u32 = 256;

/// What the engine does next.
fn next_of(engine: &mut Engine) -> Result<Next, Break> {
    match engine.next(&mut Lowest) {
        Ok(next) => Ok(next),
        Err(_) => match engine.next(&mut Lowest) {
            Ok(next) => Ok(next),
            Err(_) => Err(Break::Memory),
        },
    }
}

/// Whether the runner was refused memory for a job of this outcome.
pub fn wants_memory(outcome: &Outcome) -> bool {
    match outcome.form() {
        Form::NotStarted {
            cause: Cause::OutOfMemory,
        } => true,
        _ => false,
    }
}

/// What comes of a job.
fn outcome_of(alloc: Global, runner: &mut TableRunner, job: &Job) -> Result<Outcome, Break> {
    let first = runner.run(alloc, job);
    if !wants_memory(&first) {
        return Ok(first);
    }
    let second = runner.run(alloc, job);
    if wants_memory(&second) {
        return Err(Break::Memory);
    }
    Ok(second)
}

/// Runs a job, and keeps its report.
fn keep(
    alloc: Global,
    runner: &mut TableRunner,
    reports: &mut Vec<Report>,
    job: Job,
) -> Result<(), Break> {
    let outcome = outcome_of(alloc, runner, &job)?;
    let report = Report {
        ticket: job.ticket,
        host: job.host,
        item: job.item,
        attempt: job.attempt,
        outcome,
    };
    match reports.push(report) {
        Ok(()) => Ok(()),
        Err(_) => Err(Break::Other),
    }
}

/// Gives the engine a report.
fn absorb(engine: &mut Engine, report: Report) -> Result<(), Break> {
    let (report, refusal) = match engine.absorb(report) {
        Ok(()) => return Ok(()),
        Err(refused) => refused,
    };
    if refusal != Refusal::Memory {
        return Err(Break::Other);
    }
    match engine.absorb(report) {
        Ok(()) => Ok(()),
        Err(_) => Err(Break::Memory),
    }
}

/// Gives the engine the last of the reports that are kept.
fn answer(engine: &mut Engine, reports: &mut Vec<Report>) -> Result<(), Break> {
    match reports.pop() {
        Some(report) => absorb(engine, report),
        None => Err(Break::Other),
    }
}

/// Tells the engine to run one host at a time.
fn run_one(engine: &mut Engine) -> Result<(), Break> {
    match engine.command(Command::Forks(1)) {
        Ok(()) => Ok(()),
        Err(CommandFault::Memory) => match engine.command(Command::Forks(1)) {
            Ok(()) => Ok(()),
            Err(_) => Err(Break::Memory),
        },
        Err(_) => Err(Break::Other),
    }
}

/// One call, and what it asks for. It answers whether the run goes on.
fn step(
    alloc: Global,
    engine: &mut Engine,
    runner: &mut TableRunner,
    reports: &mut Vec<Report>,
) -> Result<bool, Break> {
    match next_of(engine)? {
        Next::Finished => return Ok(false),
        Next::Moved => {}
        Next::Sent(job) => keep(alloc, runner, reports, job)?,
        Next::Waiting => answer(engine, reports)?,
    }
    Ok(true)
}

/// Goes on to the end of the run.
fn go(
    alloc: Global,
    engine: &mut Engine,
    runner: &mut TableRunner,
    reports: &mut Vec<Report>,
) -> Result<(), Break> {
    for call in 0..CALLS {
        if call == ONE_FORK_AT {
            run_one(engine)?;
        }
        if !step(alloc, engine, runner, reports)? {
            return Ok(());
        }
    }
    Err(Break::Other)
}

/// Counts what the run came to.
fn count(alloc: Global, engine: &Engine) -> Result<(), Break> {
    if engine.recap(alloc).is_ok() || engine.recap(alloc).is_ok() {
        return Ok(());
    }
    Err(Break::Memory)
}

/// Goes on to the end of the run, and counts what it came to.
fn finish(
    alloc: Global,
    engine: &mut Engine,
    runner: &mut TableRunner,
    reports: &mut Vec<Report>,
) -> Result<(), Break> {
    go(alloc, engine, runner, reports)?;
    count(alloc, engine)
}

/// Plays a plan: the reports that came last are given first.
pub fn play_by_hand(alloc: Global, plan: Plan, runner: TableRunner) -> Result<Run, NotBegun> {
    if plan.forks() > POOL {
        return Err(NotBegun::TooFewWorkers);
    }
    let mut reports = Vec::with_capacity(alloc, MOST_OUT)?;
    let mut runner = runner;
    let Ok(mut engine) = Engine::new(alloc, plan, POOL) else {
        return Err(NotBegun::Memory);
    };
    let fault = match finish(alloc, &mut engine, &mut runner, &mut reports) {
        Ok(()) => None,
        Err(fault) => Some(fault),
    };
    Ok(Run {
        trail: engine.into_trail(),
        fault,
    })
}
