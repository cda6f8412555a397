//! A run whose jobs are run by workers in threads of their own.

ghost use Rattle.std.specs.Prelude.{◌≡◌, ◌≢◌, ◌<◌, ◌≤◌, [], List, IfOk, IfErr, OnOk, length, map, reverse, vec_capacity, true};
ghost use Rattle.pb_outcome.specs.declared.job.Report.{Report};
ghost use Rattle.pb_forks.specs.Seats.{main_view, number, forks_of, IsMainOf, IsSameMain};
ghost use Rattle.pb_forks.specs.Views.{upto};
ghost use Rattle.pb_driver.specs.declared.workers.Worker.{Worker};
ghost use Rattle.pb_driver.specs.Cut.{IsCut};
ghost use Rattle.pb_driver.specs.Driven.{IsBegunBy, IsRecapped, IsWhole, IsWorkersAnswer};
ghost use Rattle.pb_driver.specs.Mails.{AreWithin};
ghost use Rattle.pb_driver.specs.Failing.{failures_by};
ghost use Rattle.pb_driver.specs.Workers.{AreShut, AreWorkersOf, ArePaired, HaveShares, IsLeft, IsReady, IsRunInPool, IsSpread, IsStoppedInPool, IsUnused, runner_of};

use crate::driver::{Ended, RunFault};
use crate::given::Given;
use crate::line_out::LineOut;
use crate::pooled::drive;
use crate::workers::{Back, Hall, Worker, join_all, pair_all, part_all, start_all};
use pb_engine::Picker;
use pb_forks::{ForkSeat, MainSeat, Pool};
use pb_runner::runner::Runner;
use pb_state::{Event, Plan};
use std::alloc::Global;
use std::sync::Wait;
use std::thread;
use std::thread::{PromisedHandle, Scope, Threads};

/// A pool's main seat, its workers, and room for the handles of their threads.
#[derive(Drop)]
struct Staff<N: Runner> {
    main: MainSeat,
    workers: Vec<Worker<N>>,
    handles: Vec<PromisedHandle<Worker<N>, Back<N>>>,
}

/// What is left of a run, with its writer.
#[derive(Drop)]
struct Left<'w, N, W> {
    ended: Result<Ended, (RunFault, Vec<Event>)>,
    main: MainSeat,
    workers: Vec<Worker<N>>,
    writer: &'w mut W,
}

/// Drives the run, if all workers were started; else all forks are shut, and nothing is done.
fn drive_if<N: Runner, R: Wait, P: Picker, W: LineOut>(
    hall: &Hall<'_, N, R>,
    started: bool,
    main: &mut MainSeat,
    plan: Plan,
    picker: &mut P,
    writer: &mut W,
) -> Result<Ended, (RunFault, Vec<Event>)>
    requires main { IsMainOf hall.now.pool.now main.old }
    requires unused { started ≡ true → IsUnused (forks_of hall.now.pool.now) (main_view main.old) }
    requires shut { started ≢ true → AreShut (forks_of hall.now.pool.now) (main_view main.old) × ((main_view main.old).log ≡ []) }
    requires forks { plan.forks ≤ forks_of hall.now.pool.now }
    ensures seat { IsSameMain main.old main.new }
    ensures shut { AreShut (forks_of hall.now.pool.now) (main_view main.new) }
    ensures within { AreWithin (forks_of hall.now.pool.now) (main_view main.new).log }
    ensures run { IfOk result (λ e. IsRunInPool N.allows plan (forks_of hall.now.pool.now) hall.now.commands.now e.trail.items e.recap e.status (main_view main.new).log (W.taken writer.old) (W.taken writer.new)) }
    ensures stopped { IfErr result (λ e. IsStoppedInPool N.allows plan (forks_of hall.now.pool.now) hall.now.commands.now e.0 e.1.items (main_view main.new).log (W.taken writer.old) (W.taken writer.new) (W.failures writer.old) (W.failures writer.new)) }
    ensures quiet { OnOk result (W.failures writer.new ≡ W.failures writer.old) }
{
    if !started {
        return Err((RunFault::Closed, Vec::new(hall.alloc)));
    }
    match drive(
        hall.rt,
        hall.alloc,
        hall.pool,
        main,
        plan,
        picker,
        hall.commands,
        writer,
    ) {
        Ok(ended) => Ok(ended),
        Err(stopped) => Err(stopped),
    }
}

/// Starts the workers, drives the run, and waits for them.
fn supervise<
    'w,
    's,
    E: 's,
    N: Runner + Send + Drop + 's,
    R: Threads + Wait + Sync,
    P: Picker,
    W: LineOut,
>(
    hall: &Hall<'s, N, R>,
    scope: &Scope<'s, E>,
    staff: Staff<N>,
    plan: Plan,
    picker: &mut P,
    writer: &'w mut W,
) -> Left<'w, N, W>
    requires staff { IsReady hall.now.pool.now staff }
    requires forks { plan.forks ≤ forks_of hall.now.pool.now }
    ensures same { result.writer.ghost_name ≡ writer.entry.ghost_name }
    ensures left { IsLeft N.ran hall.now.pool.now staff.workers.items result.main result.workers.items }
    ensures run { IfOk result.ended (λ e. IsRunInPool N.allows plan (forks_of hall.now.pool.now) hall.now.commands.now e.trail.items e.recap e.status (main_view result.main).log (W.taken writer.entry.now) (W.taken result.writer.now)) }
    ensures stopped { IfErr result.ended (λ e. IsStoppedInPool N.allows plan (forks_of hall.now.pool.now) hall.now.commands.now e.0 e.1.items (main_view result.main).log (W.taken writer.entry.now) (W.taken result.writer.now) (W.failures writer.entry.now) (W.failures result.writer.now)) }
    ensures quiet { OnOk result.ended (W.failures result.writer.now ≡ W.failures writer.entry.now) }
{
    let Staff {
        mut main,
        mut workers,
        mut handles,
    } = staff;
    let started = start_all(hall, scope, &mut main, &mut workers, &mut handles);
    let ended = drive_if(hall, started, &mut main, plan, picker, writer);
    join_all(hall.rt, handles, &mut workers);
    Left {
        ended,
        main,
        workers,
        writer,
    }
}

/// Runs the workers in a scope of threads.
fn spread<'w, N: Runner + Send + Drop, R: Threads + Wait + Sync, P: Picker + Drop, W: LineOut>(
    hall: &Hall<'_, N, R>,
    staff: Staff<N>,
    plan: Plan,
    picker: P,
    writer: &'w mut W,
) -> Left<'w, N, W>
    requires staff { IsReady hall.now.pool.now staff }
    requires forks { plan.forks ≤ forks_of hall.now.pool.now }
    ensures same { result.writer.ghost_name ≡ writer.entry.ghost_name }
    ensures left { IsLeft N.ran hall.now.pool.now staff.workers.items result.main result.workers.items }
    ensures run { IfOk result.ended (λ e. IsRunInPool N.allows plan (forks_of hall.now.pool.now) hall.now.commands.now e.trail.items e.recap e.status (main_view result.main).log (W.taken writer.entry.now) (W.taken result.writer.now)) }
    ensures stopped { IfErr result.ended (λ e. IsStoppedInPool N.allows plan (forks_of hall.now.pool.now) hall.now.commands.now e.0 e.1.items (main_view result.main).log (W.taken writer.entry.now) (W.taken result.writer.now) (W.failures writer.entry.now) (W.failures result.writer.now)) }
    ensures quiet { OnOk result.ended (W.failures result.writer.now ≡ W.failures writer.entry.now) }
{
    thread::scope(
        thread::scope_env(),
        hall.rt,
        |scope| -> Left<'_, N, W>
            requires staff { IsReady hall.now.pool.now staff }
            requires forks { plan.forks ≤ forks_of hall.now.pool.now }
            ensures same { result.writer.ghost_name ≡ writer.entry.ghost_name }
            ensures left { IsLeft N.ran hall.entry.now.pool.now staff.workers.items result.main result.workers.items }
            ensures run { IfOk result.ended (λ e. IsRunInPool N.allows plan (forks_of hall.entry.now.pool.now) hall.entry.now.commands.now e.trail.items e.recap e.status (main_view result.main).log (W.taken writer.entry.now) (W.taken result.writer.now)) }
            ensures stopped { IfErr result.ended (λ e. IsStoppedInPool N.allows plan (forks_of hall.entry.now.pool.now) hall.entry.now.commands.now e.0 e.1.items (main_view result.main).log (W.taken writer.entry.now) (W.taken result.writer.now) (W.failures writer.entry.now) (W.failures result.writer.now)) }
            ensures quiet { OnOk result.ended (W.failures result.writer.now ≡ W.failures writer.entry.now) }
        {
            let mut picker = picker;
            supervise(hall, scope, staff, plan, &mut picker, writer)
        },
    )
}

/// Takes the workers apart, hands their runners back, and ends the pool.
fn dismiss<N: Runner + Drop>(
    pool: Pool<N>,
    main: MainSeat,
    workers: Vec<Worker<N>>,
    mut seats: Vec<ForkSeat>,
    runners: &mut Vec<N>,
)
    requires main { IsMainOf pool main }
    requires workers { AreWorkersOf pool workers.items × (map (λ (w : Worker N). number w.seat) workers.items ≡ reverse (upto (forks_of pool))) }
    requires empty { (seats.items ≡ []) × (runners.old.items ≡ []) }
    requires room { (length workers.items ≤ vec_capacity seats) × (length workers.items ≤ vec_capacity runners.old) }
    ensures many { length runners.new.items ≡ forks_of pool }
    ensures shares { (before : List (Worker N)) → ArePaired pool before → IsLeft N.ran pool before main workers.items → HaveShares N.ran (reverse (map runner_of before)) runners.new.items (main_view main).log }
{
    part_all(workers, &mut seats, runners);
    drop(pool.close(main, seats));
}

/// The events of a run that couldn't begin. Nothing was run.
fn no_events<N: Runner>(alloc: Global, runners: &Vec<N>, plan: &Plan) -> Vec<Event>
    ensures none { result.items ≡ [] }
    ensures spread { IsSpread N.ran runners.now.items runners.now.items plan.now [] [] }
{
    // (what only the clauses speak of)
    let _ = (runners.len(), plan.forks());
    Vec::new(alloc)
}

/// Runs a plan to its end by these runners, each in a thread of its own, which run its jobs at once: a worker for each fork of a pool. All are started before the
/// first event. Else it does what `drive` does. The runners are handed back in their order.
///
/// # Errors
/// As those of `run_plain`; and `Closed` where a worker couldn't be started: nothing was run and nothing was written then, and there are no events. Where a run
/// couldn't go on, the reports of jobs that are still out are waited for, and dropped.
pub fn run_pool<N: Runner + Send + Drop, R: Threads + Wait + Sync, P: Picker + Drop, W: LineOut>(
    rt: &R,
    alloc: Global,
    plan: Plan,
    runners: &mut Vec<N>,
    picker: P,
    commands: &[Given],
    writer: &mut W,
) -> Result<Ended, (RunFault, Vec<Event>)>
    requires { (plan.forks ≤ length runners.old.items) × (length runners.old.items ≤ 256) }
    ensures run { IfOk result (λ ended. IsWhole (IsWorkersAnswer N.allows) plan (length runners.old.items) commands.now ended.trail.items (W.taken writer.old) (W.taken writer.new)) }
    ensures recapped { IfOk result (λ ended. IsRecapped plan (length runners.old.items) ended.trail.items ended.recap ended.status) }
    ensures spread { IfOk result (λ ended. IsSpread N.ran runners.old.items runners.new.items plan ended.trail.items []) }
    ensures begun { IfErr result (λ e. IsBegunBy (IsWorkersAnswer N.allows) plan (length runners.old.items) commands.now e.1.items) }
    ensures cut { IfErr result (λ e. IsCut plan (length runners.old.items) e.1.items (W.taken writer.old) (W.taken writer.new)) }
    ensures later { IfErr result (λ e. (later : List Report) × IsSpread N.ran runners.old.items runners.new.items plan e.1.items later) }
    ensures quiet { OnOk result (W.failures writer.new ≡ W.failures writer.old) }
    ensures failed { IfErr result (λ e. W.failures writer.new ≡ failures_by e.0 (W.failures writer.old)) }
    ensures closed { IfErr result (λ e. e.0 ≡ RunFault.Closed → (e.1.items ≡ []) × (W.taken writer.new ≡ W.taken writer.old) × IsSpread N.ran runners.old.items runners.new.items plan [] []) }
{
    // (a plan has a fork, so there is a runner)
    let _forks = plan.forks();
    let count = runners.len() as u32;
    let Ok((pool, main, mut seats)) = Pool::<N>::new(alloc, count) else {
        return Err((RunFault::Memory, no_events(alloc, runners, &plan)));
    };
    let Ok(mut workers) = Vec::with_capacity(alloc, seats.len()) else {
        return Err((RunFault::Memory, no_events(alloc, runners, &plan)));
    };
    let Ok(handles) = Vec::with_capacity(alloc, seats.len()) else {
        return Err((RunFault::Memory, no_events(alloc, runners, &plan)));
    };
    pair_all(&mut seats, runners, &mut workers);
    let staff = Staff {
        main,
        workers,
        handles,
    };
    let Left {
        ended,
        main,
        workers,
        writer: lines,
    } = spread(
        &Hall {
            rt,
            alloc,
            pool: &pool,
            commands,
        },
        staff,
        plan,
        picker,
        writer,
    );
    // (the writer is given back)
    let _ = &*lines;
    dismiss(pool, main, workers, seats, runners);
    ended
}
