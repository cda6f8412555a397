//! A worker for each fork of a pool, in a thread of its own.
ghost use Rattle.std.specs.Prelude.{◌≡◌, ◌≤◌, ◌+◌, true, false, [], IfOk, IfErr, List, length, map, reverse, vec_capacity};
ghost use Rattle.pb_forks.specs.Seats.{IsForkOf};
ghost use Rattle.pb_driver.specs.declared.workers.Worker.{Worker};
ghost use Rattle.pb_driver.specs.Workers.{AllShut, AreWorks, AreWorkersOf, IsIdleMain, IsStarted, IsWorkOf, runner_of, seat_of};

use crate::given::Given;
use pb_forks::{ForkSeat, MainSeat, Pool};
use pb_runner::runner::Runner;
use pb_runner::serve::serve;
use std::alloc::Global;
use std::snapshot::Snapshot;
use std::sync::Wait;
use std::thread::{Promise, PromisedHandle, Scope, SpawnError, Threads};

/// A fork's seat, and the runner that serves it.
#[derive(Drop)]
pub struct Worker<N> {
    pub seat: ForkSeat,
    pub runner: N,
}

/// Where a run's workers work, and what the run is commanded: it stays the same from its beginning to its end.
#[derive(Drop)]
pub(crate) struct Hall<'s, N: Runner, R> {
    pub rt: &'s R,
    pub alloc: Global,
    pub pool: &'s Pool<N>,
    pub commands: &'s [Given],
}

/// A pool as its workers see it: what a worker's thread does.
pub trait Workplace<N: Runner> {
    ghost use Rattle.pb_forks.specs.declared.seats.ForkSeat.{ForkSeat};
    ghost use Rattle.pb_forks.specs.declared.seats.MainSeat.{MainSeat};
    ghost use Rattle.pb_driver.specs.Workers.{IsWorkOf};

    /// Whether the seat is one of this pool.
    ghost seats: { Self → ForkSeat → Type 0 };

    /// Whether the main seat is one of this pool, and no job is out.
    ghost idle: { Self → MainSeat → Type 0 };

    /// Each fork was shut, and nothing else was done.
    ghost shuts: { Self → MainSeat → MainSeat → Type 0 };

    /// Serves the fork until it is shut, and gives the worker back.
    fn work<R: Wait>(&self, rt: &R, alloc: Global, worker: Worker<N>) -> Worker<N>
        requires { seats self.now worker.seat }
        ensures { IsWorkOf N.ran worker result };

    /// Shuts each fork.
    fn end(&self, main: &mut MainSeat)
        requires { idle self.now main.old }
        ensures { shuts self.now main.old main.new };
}

impl<N: Runner> Workplace<N> for Pool<N> {
    ghost seats = { λ pool seat. IsForkOf pool seat };

    ghost idle = { λ pool main. IsIdleMain pool main };

    ghost shuts = { λ pool old new. AllShut pool old new };

    fn work<R: Wait>(&self, rt: &R, alloc: Global, worker: Worker<N>) -> Worker<N>
        requires { IsForkOf self.now worker.seat }
        ensures { IsWorkOf N.ran worker result }
    {
        let Worker { seat, runner } = worker;
        let mut runner = runner;
        let seat = serve(rt, alloc, self, seat, &mut runner);
        Worker { seat, runner }
    }

    fn end(&self, main: &mut MainSeat) {
        self.shut_all(main)
    }
}

/// The worker comes back from its thread, with its work done.
#[derive(Drop)]
pub struct Back<N> {
    before: Snapshot<Worker<N>>,
}

impl<N: Runner> Promise<Worker<N>> for Back<N> {
    ghost use Rattle.pb_driver.specs.Workers.{IsWorkOf};

    ghost kept_by = { λ p w. IsWorkOf N.ran p.before.value w };
}

/// Does in this thread what no thread could be made for.
fn call<F: FnOnce() -> T, T>(refused: SpawnError<F>) -> T
    requires { F.pre refused.value }
    ensures { F.post refused.value result }
{
    let SpawnError { value } = refused;
    value()
}

/// Starts a thread for a worker. Where none can be made it shuts all forks and gives the worker back, once it has seen its fork shut.
fn start_one<'s, E: 's, N: Runner + Send + Drop + 's, P: Workplace<N> + Sync, R: Wait + Sync>(
    rt: &'s R,
    alloc: Global,
    scope: &Scope<'s, E>,
    place: &'s P,
    main: &mut MainSeat,
    worker: Worker<N>,
) -> Result<PromisedHandle<Worker<N>, Back<N>>, Worker<N>>
    requires seat { P.seats place.now worker.seat }
    requires idle { P.idle place.now main.old }
    ensures ok { IfOk result (λ h. (h.promise.before.value ≡ worker) × (main.new ≡ main.old)) }
    ensures err { IfErr result (λ w. IsWorkOf N.ran worker w × P.shuts place.now main.old main.new) }
{
    let back = Back {
        before: Snapshot::of(&worker),
    };
    match scope.spawn_with(
        back,
        move || -> Worker<N>
            requires { P.seats place.now worker.seat }
            ensures { IsWorkOf N.ran worker result }
        { place.work(rt, alloc, worker) },
    ) {
        Ok(handle) => Ok(handle),
        Err(refused) => {
            place.end(main);
            Err(call(refused))
        }
    }
}

/// Starts a thread for each worker, the last one first, and puts their handles into a list with room; a worker that has a thread leaves the
/// list of workers. False where no thread could be made for one: all forks are shut then, and it is back in its place.
pub(crate) fn start_all<'s, E: 's, N: Runner + Send + Drop + 's, R: Wait + Sync>(
    hall: &Hall<'s, N, R>,
    scope: &Scope<'s, E>,
    main: &mut MainSeat,
    workers: &mut Vec<Worker<N>>,
    handles: &mut Vec<PromisedHandle<Worker<N>, Back<N>>>,
) -> bool
    requires main { IsIdleMain hall.now.pool.now main.old }
    requires workers { AreWorkersOf hall.now.pool.now workers.old.items }
    requires room { (handles.old.items ≡ []) × (length workers.old.items ≤ vec_capacity handles.old) }
    ensures split { IsStarted N.ran workers.old.items workers.new.items handles.new.items }
    ensures room { (vec_capacity workers.new ≡ vec_capacity workers.old) × (length workers.new.items + length handles.new.items ≤ length workers.old.items) }
    ensures all { result ≡ true → main.new ≡ main.old }
    ensures refused { result ≡ false → AllShut hall.now.pool.now main.old main.new }
{
    while let Some(worker) = workers.pop() {
        match start_one(hall.rt, hall.alloc, scope, hall.pool, main, worker) {
            Ok(handle) => handles.push_reserved(handle),
            Err(worker) => {
                workers.push_reserved(worker);
                return false;
            }
        }
    }
    true
}

/// Joins each thread, and puts its worker back into its place, in a list with room.
pub(crate) fn join_all<N: Runner + Drop, R: Threads>(
    rt: &R,
    handles: Vec<PromisedHandle<Worker<N>, Back<N>>>,
    workers: &mut Vec<Worker<N>>,
)
    requires room { length workers.old.items + length handles.items ≤ vec_capacity workers.old }
    ensures back { (all : List (Worker N)) → IsStarted N.ran all workers.old.items handles.items → AreWorks N.ran all workers.new.items }
{
    let mut handles = handles;
    while let Some(handle) = handles.pop() {
        workers.push_reserved(handle.join(rt));
    }
}

/// A worker for each seat, in an empty list with room: the last one first.
pub(crate) fn pair_all<N: Runner>(
    seats: &mut Vec<ForkSeat>,
    runners: &mut Vec<N>,
    workers: &mut Vec<Worker<N>>,
)
    requires runners { length runners.old.items ≡ length seats.old.items }
    requires room { (workers.old.items ≡ []) × (length seats.old.items ≤ vec_capacity workers.old) }
    ensures seats { (seats.new.items ≡ []) × (map seat_of workers.new.items ≡ reverse seats.old.items) }
    ensures runners { (runners.new.items ≡ []) × (map runner_of workers.new.items ≡ reverse runners.old.items) }
    ensures room { (vec_capacity seats.new ≡ vec_capacity seats.old) × (vec_capacity runners.new ≡ vec_capacity runners.old) × (vec_capacity workers.new ≡ vec_capacity workers.old) }
{
    while let Some(seat) = seats.pop() {
        let Some(runner) = runners.pop() else {
            unreachable!()
        };
        workers.push_reserved(Worker { seat, runner });
    }
}

/// Takes the workers apart again, into empty lists with room.
pub(crate) fn part_all<N: Runner + Drop>(
    workers: Vec<Worker<N>>,
    seats: &mut Vec<ForkSeat>,
    runners: &mut Vec<N>,
)
    requires empty { (seats.old.items ≡ []) × (runners.old.items ≡ []) }
    requires room { (length workers.items ≤ vec_capacity seats.old) × (length workers.items ≤ vec_capacity runners.old) }
    ensures seats { seats.new.items ≡ reverse (map seat_of workers.items) }
    ensures runners { runners.new.items ≡ reverse (map runner_of workers.items) }
{
    let mut workers = workers;
    while let Some(worker) = workers.pop() {
        let Worker { seat, runner } = worker;
        seats.push_reserved(seat);
        runners.push_reserved(runner);
    }
}
