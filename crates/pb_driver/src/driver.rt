//! The driver.

ghost use Rattle.std.specs.Prelude.{◌≡◌, ◌≢◌, ◌<◌, ◌≤◌, ◌-◌, drop, length, slice_get, IfOk, IfErr, OnOk, OnErr, Ok, true, false};
ghost use Rattle.std.specs.List.{list_any};
ghost use Rattle.pb_state.specs.Run.{IsQuiet};
ghost use Rattle.std.specs.Option.{option_map_or};
ghost use Rattle.pb_host.specs.Runs.{is_out};
ghost use Rattle.pb_engine.specs.Commands.{event_for};
ghost use Rattle.pb_engine.specs.EngineOf.{EngineOf, LessWork, IsSound, Takes, engine_of};
ghost use Rattle.pb_recap.specs.Recap.{recap};
ghost use Rattle.pb_driver.specs.Failing.{failures_by};
ghost use Rattle.pb_driver.specs.Crews.{FitsSince};
ghost use Rattle.pb_driver.specs.Cut.{IsCut};
ghost use Rattle.pb_driver.specs.Turning.{Stands, GoesOn, BreaksOff, RunsOut, RunsTo};
ghost use Rattle.pb_driver.specs.Mails.{GoesAlong, GoesOver};
ghost use Rattle.pb_driver.specs.Ran.{IsRanTo};
ghost use Rattle.pb_driver.specs.Commanded.{IsAlong, IsObeyed, IsObeyedTo, count_report, is_taken, none_due};
ghost use Rattle.pb_driver.specs.Driven.{TakesOne, TakesAtMost, TakesCommands, TakesOwn, HasEnded, IsWholeRun, IsBegun, IsRecapped, IsFresh};

use crate::alone::Alone;
use crate::crew::{Crew, Desk};
use crate::emitting::{emit, emit_start, end_run};
use crate::given::{CommandCursor, Given, count_last, next_due};
use crate::line_out::{Failed, LineOut};
use pb_engine::{CommandFault, Engine, EngineFault, Next, Picker, Refusal};
use pb_recap::Recap;
use pb_runner::runner::Runner;
use pb_state::{Event, Plan};
use std::alloc::{AllocError, Global};
use std::snapshot::Snapshot;
use thiserror::Error;

/// How many workers a run in one thread counts as having.
const POOL: u32 = 256;

/// Why a run stopped early.
#[derive(Clone, Copy, Debug, PartialEq, Eq, Error)]
pub enum RunFault {
    /// Memory was refused.
    #[error("1 Memory")]
    Memory,
    /// The writer failed.
    #[error("2 Write")]
    Write,
    /// A worker couldn't be started.
    #[error("3 Closed")]
    Closed,
}

impl From<AllocError> for RunFault {
    ghost use Rattle.std.specs.Prelude.{◌≡◌};
    ghost use Rattle.pb_driver.specs.declared.driver.RunFault.TheVariants.{Memory};

    ghost from_gives = { λ _ e. e ≡ Memory };

    fn from(_: AllocError) -> RunFault {
        RunFault::Memory
    }
}

impl From<EngineFault> for RunFault {
    ghost use Rattle.std.specs.Prelude.{◌≡◌};
    ghost use Rattle.pb_driver.specs.declared.driver.RunFault.TheVariants.{Memory};

    ghost from_gives = { λ _ e. e ≡ Memory };

    fn from(_: EngineFault) -> RunFault {
        RunFault::Memory
    }
}

impl From<Failed> for RunFault {
    ghost use Rattle.std.specs.Prelude.{◌≡◌};
    ghost use Rattle.pb_driver.specs.declared.driver.RunFault.TheVariants.{Write};

    ghost from_gives = { λ _ e. e ≡ Write };

    fn from(_: Failed) -> RunFault {
        RunFault::Write
    }
}

/// A run that came to its end: its events in order, its recap, and the exit status that they give.
#[derive(Drop)]
pub struct Ended {
    pub trail: Vec<Event>,
    pub recap: Recap,
    /// 0 where no task failed and no host was out of reach, 2 where a task failed, else 4.
    pub status: u8,
}

/// Takes the report of a job that is out.
#[tactic(auto, using(crate::proofs::Driving::takes_report, crate::proofs::Crewing::since_taken, crate::proofs::Going::along_came, crate::proofs::Going::over_none, crate::proofs::Going::over_lost))]
fn answer<H, C: Crew<H>>(
    alloc: Global,
    engine: &mut Engine,
    crew: &C,
    hand: &mut H,
) -> Result<(), RunFault>
    requires since { FitsSince (C.fits crew.now hand.old) engine.old }
    requires quiet { IsQuiet engine.old.plan engine.old.state }
    requires out { list_any is_out engine.old.state.rows ≡ true }
    ensures took { OnOk result (TakesOne (C.answers crew.now) engine.old engine.new) }
    ensures work { OnOk result (LessWork engine.old engine.new) }
    ensures since { OnOk result (FitsSince (C.fits crew.now hand.new) engine.new) }
    ensures went { OnOk result (GoesAlong C.went engine.old engine.new hand.old hand.new) }
    ensures lost { IfErr result (λ e. GoesOver (C.answers crew.now) C.went engine.old engine.new hand.old hand.new e) }
    ensures err { OnErr result (engine.new ≡ engine.old) }
    ensures fault { IfErr result (λ e. e ≡ RunFault.Memory) }
    ensures run { IsSound engine.new }
{
    let report = crew.collect(hand, alloc, engine)?;
    match engine.absorb(report) {
        Ok(()) => Ok(()),
        Err((_, refusal)) => match refusal {
            Refusal::Memory => Err(RunFault::Memory),
            Refusal::UnknownTicket => unreachable!(),
            Refusal::AlreadyReported => unreachable!(),
            Refusal::WrongItem => unreachable!(),
        },
    }
}

/// One event: one of the machine's own, or the report of a job where the machine waits for one. It answers whether there was
/// one to take.
#[tactic(auto, using(crate::proofs::Driving::moves_one, crate::proofs::Driving::moves_sent, crate::proofs::Driving::less_sent, crate::proofs::Driving::less_next, crate::proofs::Driving::over_next, crate::proofs::Driving::waits_quiet, crate::proofs::Driving::waits_out, crate::proofs::Driving::waits_same, crate::proofs::Driving::waits_took, crate::proofs::Driving::waits_less, crate::proofs::Crewing::has_sent, crate::proofs::Crewing::since_now, crate::proofs::Crewing::since_moved, crate::proofs::Crewing::since_waits, crate::proofs::Crewing::since_as, crate::proofs::Going::along_sent, crate::proofs::Going::along_moved, crate::proofs::Going::along_same, crate::proofs::Going::over_same, crate::proofs::Going::waits_along, crate::proofs::Going::waits_over))]
fn advance<H, C: Crew<H>, P: Picker>(
    alloc: Global,
    engine: &mut Engine,
    crew: &C,
    hand: &mut H,
    picker: &mut P,
) -> Result<bool, RunFault>
    requires { FitsSince (C.fits crew.now hand.old) engine.old }
    ensures took { result ≡ Ok true → TakesOne (C.answers crew.now) engine.old engine.new }
    ensures work { result ≡ Ok true → LessWork engine.old engine.new }
    ensures over { result ≡ Ok false → (engine.new ≡ engine.old) × HasEnded engine.old.plan engine.old.state }
    ensures since { OnOk result (FitsSince (C.fits crew.now hand.new) engine.new) }
    ensures went { OnOk result (GoesAlong C.went engine.old engine.new hand.old hand.new) }
    ensures lost { IfErr result (λ e. GoesOver (C.answers crew.now) C.went engine.old engine.new hand.old hand.new e) }
    ensures err { OnErr result (engine.new ≡ engine.old) }
    ensures fault { IfErr result (λ e. e ≡ RunFault.Memory) }
    ensures run { IsSound engine.new }
{
    match engine.next(picker)? {
        Next::Finished => return Ok(false),
        Next::Sent(job) => {
            crew.send(hand, engine, job);
            return Ok(true);
        }
        Next::Moved => return Ok(true),
        Next::Waiting => {}
    }
    answer(alloc, engine, crew, hand)?;
    Ok(true)
}

/// One event, with its lines. It answers whether there was one to take.
fn take_one<H, C: Crew<H>, P: Picker, W: LineOut>(
    desk: &Desk<'_, C>,
    engine: &mut Engine,
    hand: &mut H,
    picker: &mut P,
    writer: &mut W,
) -> Result<bool, RunFault>
    requires { Stands (C.answers desk.now.crew.now) (C.fits desk.now.crew.now hand.old) engine.old }
    ensures stands { OnOk result (Stands (C.answers desk.now.crew.now) (C.fits desk.now.crew.now hand.new) engine.new) }
    ensures on { OnOk result (GoesOn C.went engine.old engine.new hand.old hand.new (W.taken writer.old) (W.taken writer.new) (W.failures writer.old) (W.failures writer.new)) }
    ensures off { IfErr result (λ e. BreaksOff (C.answers desk.now.crew.now) C.went engine.old engine.new hand.old hand.new (W.taken writer.old) (W.taken writer.new) (W.failures writer.old) (W.failures writer.new) e) }
    ensures most { OnErr result (TakesAtMost engine.old engine.new) }
    ensures own { result ≡ Ok true → TakesOwn engine.old engine.new × LessWork engine.old engine.new }
    ensures over { result ≡ Ok false → (engine.new ≡ engine.old) × HasEnded engine.old.plan engine.old.state }
{
    let more = advance(desk.alloc, engine, desk.crew, hand, picker)?;
    if !more {
        return Ok(false);
    }
    emit(desk.alloc, engine, writer)?;
    Ok(true)
}

/// Gives a command. One that is refused changes nothing.
#[tactic(auto, using(crate::proofs::Obeying::takes, crate::proofs::Obeying::refuses))]
fn give(engine: &mut Engine, given: Given) -> Result<(), RunFault>
    ensures taken { OnOk result (is_taken engine.old.plan engine.old.pool engine.old.state given ≡ true → Takes engine.old engine.new (event_for given.command)) }
    ensures refused { OnOk result (is_taken engine.old.plan engine.old.pool engine.old.state given ≡ false → engine.new ≡ engine.old) }
    ensures err { OnErr result (engine.new ≡ engine.old) }
    ensures fault { IfErr result (λ e. e ≡ RunFault.Memory) }
    ensures run { IsSound engine.new }
{
    match engine.command(given.command) {
        Ok(()) => Ok(()),
        Err(CommandFault::BadForks) => Ok(()),
        Err(CommandFault::Finished) => Ok(()),
        Err(CommandFault::Memory) => Err(RunFault::Memory),
    }
}

/// Gives the commands that are due, in their order.
#[tactic(auto, using(crate::proofs::Commanding::commands_none, crate::proofs::Commanding::commands_more, crate::proofs::Obeying::along_given))]
fn give_due(
    engine: &mut Engine,
    commands: &[Given],
    cursor: &mut CommandCursor,
) -> Result<(), RunFault>
    requires sound { IsSound engine.old }
    requires along { IsAlong commands.now cursor.old engine.old }
    ensures commanded { TakesCommands engine.old engine.new }
    ensures along { IsAlong commands.now cursor.new engine.new }
    ensures none { OnOk result (none_due cursor.new.reports (drop cursor.new.given commands.now) ≡ true) }
    ensures fault { IfErr result (λ e. e ≡ RunFault.Memory) }
{
    'commands: loop {
        let Some(given) = next_due(commands, *cursor) else {
            return Ok(());
        };
        give(engine, given)?;
        cursor.given += 1;
    }
}

/// Counts the last event, where it is a report.
fn count(engine: &Engine, cursor: &mut CommandCursor)
    requires { cursor.old.reports < length engine.now.trail }
    ensures { cursor.new ≡ record cursor.old { reports = option_map_or (count_report cursor.old.reports) (slice_get engine.now.trail (length engine.now.trail - 1)) cursor.old.reports } }
{
    // (no trail has more events than a number counts)
    let _events = engine.trail().len();
    cursor.reports = count_last(cursor.reports, engine.last());
}

/// Gives the commands that are due, and takes one event, with its lines. It answers whether there was one to take.
fn turn<H, C: Crew<H>, P: Picker, W: LineOut>(
    desk: &Desk<'_, C>,
    engine: &mut Engine,
    hand: &mut H,
    picker: &mut P,
    cursor: &mut CommandCursor,
    writer: &mut W,
) -> Result<bool, RunFault>
    requires stands { Stands (C.answers desk.now.crew.now) (C.fits desk.now.crew.now hand.old) engine.old }
    requires along { IsAlong desk.now.commands.now cursor.old engine.old }
    ensures stands { OnOk result (Stands (C.answers desk.now.crew.now) (C.fits desk.now.crew.now hand.new) engine.new) }
    ensures along { OnOk result (IsAlong desk.now.commands.now cursor.new engine.new) }
    ensures on { OnOk result (GoesOn C.went engine.old engine.new hand.old hand.new (W.taken writer.old) (W.taken writer.new) (W.failures writer.old) (W.failures writer.new)) }
    ensures off { IfErr result (λ e. BreaksOff (C.answers desk.now.crew.now) C.went engine.old engine.new hand.old hand.new (W.taken writer.old) (W.taken writer.new) (W.failures writer.old) (W.failures writer.new) e) }
    ensures front { OnErr result (IsObeyedTo engine.new.plan engine.new.pool desk.now.commands.now engine.new.trail) }
    ensures less { result ≡ Ok true → LessWork engine.old engine.new }
    ensures over { result ≡ Ok false → HasEnded engine.new.plan engine.new.state × (none_due cursor.new.reports (drop cursor.new.given desk.now.commands.now) ≡ true) }
{
    give_due(engine, desk.commands, cursor)?;
    let more = take_one(desk, engine, hand, picker, writer)?;
    if more {
        count(engine, cursor);
    }
    Ok(more)
}

/// Takes events, with their lines, and gives the commands where they are due, until nothing is possible.
fn turn_all<H, C: Crew<H>, P: Picker, W: LineOut>(
    desk: &Desk<'_, C>,
    engine: &mut Engine,
    hand: &mut H,
    picker: &mut P,
    cursor: &mut CommandCursor,
    writer: &mut W,
) -> Result<(), RunFault>
    requires stands { Stands (C.answers desk.now.crew.now) (C.fits desk.now.crew.now hand.old) engine.old }
    requires along { IsAlong desk.now.commands.now cursor.old engine.old }
    ensures stands { OnOk result (Stands (C.answers desk.now.crew.now) (C.fits desk.now.crew.now hand.new) engine.new) }
    ensures on { OnOk result (GoesOn C.went engine.old engine.new hand.old hand.new (W.taken writer.old) (W.taken writer.new) (W.failures writer.old) (W.failures writer.new)) }
    ensures off { IfErr result (λ e. BreaksOff (C.answers desk.now.crew.now) C.went engine.old engine.new hand.old hand.new (W.taken writer.old) (W.taken writer.new) (W.failures writer.old) (W.failures writer.new) e) }
    ensures front { OnErr result (IsObeyedTo engine.new.plan engine.new.pool desk.now.commands.now engine.new.trail) }
    ensures over { OnOk result (HasEnded engine.new.plan engine.new.state) }
    ensures obeyed { OnOk result (IsObeyed engine.new.plan engine.new.pool desk.now.commands.now engine.new.trail) }
{
    'turns: loop {
        let more = turn(desk, engine, hand, picker, cursor, writer)?;
        if !more {
            return Ok(());
        }
    }
}

/// Takes a fresh engine through its whole run, with its output.
fn run_engine<H, C: Crew<H>, P: Picker, W: LineOut>(
    desk: &Desk<'_, C>,
    engine: &mut Engine,
    hand: &mut H,
    picker: &mut P,
    writer: &mut W,
) -> Result<Recap, RunFault>
    requires sound { IsSound engine.old }
    requires fresh { IsFresh engine.old }
    requires fits { C.fits desk.now.crew.now hand.old engine.old }
    ensures run { OnOk result (RunsOut (C.answers desk.now.crew.now) (C.fits desk.now.crew.now hand.new) C.went engine.old.plan engine.old.pool desk.now.commands.now engine.new.trail hand.old hand.new (W.taken writer.old) (W.taken writer.new) (W.failures writer.old) (W.failures writer.new)) }
    ensures recap { IfOk result (λ r. r ≡ recap engine.old.plan engine.old.pool engine.new.trail) }
    ensures stopped { IfErr result (λ e. RunsTo (C.answers desk.now.crew.now) C.went engine.old.plan engine.old.pool desk.now.commands.now engine.new.trail hand.old hand.new (W.taken writer.old) (W.taken writer.new) (W.failures writer.old) (W.failures writer.new) e) }
{
    emit_start(desk.alloc, engine, writer)?;
    let mut cursor = CommandCursor {
        given: 0,
        reports: 0,
    };
    turn_all(desk, engine, hand, picker, &mut cursor, writer)?;
    let recap = end_run(desk.alloc, engine, writer)?;
    Ok(recap)
}

/// Runs a plan to its end, with its output on the writer. The crew runs its jobs, and has room for so many at once. Else it is
/// as `run_plain` says.
#[tactic(auto, using(crate::proofs::Driving::not_small))]
pub(crate) fn run_crew<H, C: Crew<H>, P: Picker, W: LineOut>(
    desk: &Desk<'_, C>,
    plan: Plan,
    pool: u32,
    hand: &mut H,
    picker: &mut P,
    writer: &mut W,
) -> Result<Ended, (RunFault, Vec<Event>)>
    requires pool { (pool ≤ 256) × (plan.forks ≤ pool) }
    requires fits { (engine : EngineOf) → engine_of plan pool ≡ Ok engine → C.fits desk.now.crew.now hand.old engine }
    ensures run { IfOk result (λ ended. RunsOut (C.answers desk.now.crew.now) (C.fits desk.now.crew.now hand.new) C.went plan pool desk.now.commands.now ended.trail.items hand.old hand.new (W.taken writer.old) (W.taken writer.new) (W.failures writer.old) (W.failures writer.new)) }
    ensures recapped { IfOk result (λ ended. IsRecapped plan pool ended.trail.items ended.recap ended.status) }
    ensures stopped { IfErr result (λ e. RunsTo (C.answers desk.now.crew.now) C.went plan pool desk.now.commands.now e.1.items hand.old hand.new (W.taken writer.old) (W.taken writer.new) (W.failures writer.old) (W.failures writer.new) e.0) }
{
    pb_engine::runs_end_as_fixed();
    let alloc = desk.alloc;
    let mut engine = match Engine::new(alloc, plan, pool) {
        Ok(engine) => engine,
        Err(EngineFault::Memory) => return Err((RunFault::Memory, Vec::new(alloc))),
        Err(EngineFault::PoolTooSmall) => unreachable!(),
    };
    match run_engine(desk, &mut engine, hand, picker, writer) {
        Ok(recap) => {
            let status = recap.status();
            Ok(Ended {
                trail: engine.into_trail(),
                recap,
                status,
            })
        }
        Err(fault) => Err((fault, engine.into_trail())),
    }
}

/// Runs a plan to its end in this thread, with its output on the writer. The picker chooses among the hosts that have a
/// job to send or may start. The runner runs the oldest of the jobs that are out where the machine has nothing else to do. Each of
/// the commands is given directly after the report that reaches its number, once those before it in the list were given; one that is
/// refused changes nothing.
///
/// # Errors
/// `Memory` where memory was refused, and `Write` where a call of the writer failed, each with the events so far, which are
/// the beginning of such a run. What was written is then a beginning of the output of these events, with the lines of all but
/// the last whole. What was run is then the jobs of these events' reports, or these and the oldest one that is out, where memory
/// was refused for its report.
#[tactic(auto, using(crate::proofs::RunsAlone::gives_self))]
pub fn run_plain<R: Runner, P: Picker, W: LineOut>(
    alloc: Global,
    plan: Plan,
    runner: &mut R,
    picker: &mut P,
    commands: &[Given],
    writer: &mut W,
) -> Result<Ended, (RunFault, Vec<Event>)>
    ensures run { IfOk result (λ ended. IsWholeRun R.allows (R.gives runner.old) (λ jobs. R.ran runner.old jobs runner.new) plan 256 commands.now ended.trail.items (W.taken writer.old) (W.taken writer.new)) }
    ensures recapped { IfOk result (λ ended. IsRecapped plan 256 ended.trail.items ended.recap ended.status) }
    ensures begun { IfErr result (λ e. IsBegun R.allows (R.gives runner.old) plan 256 commands.now e.1.items) }
    ensures cut { IfErr result (λ e. IsCut plan 256 e.1.items (W.taken writer.old) (W.taken writer.new)) }
    ensures ran { IfErr result (λ e. IsRanTo (λ jobs. R.ran runner.old jobs runner.new) plan 256 e.1.items e.0) }
    ensures quiet { OnOk result (W.failures writer.new ≡ W.failures writer.old) }
    ensures failed { IfErr result (λ e. W.failures writer.new ≡ failures_by e.0 (W.failures writer.old)) }
    ensures opened { IfErr result (λ e. e.0 ≢ RunFault.Closed) }
{
    let _forks = plan.forks();
    let crew = Alone {
        first: Snapshot::of(&*runner),
    };
    let desk = Desk {
        alloc,
        crew: &crew,
        commands,
    };
    match run_crew(&desk, plan, POOL, runner, picker, writer) {
        Ok(ended) => Ok(ended),
        Err(stopped) => Err(stopped),
    }
}
