//! Runs whose jobs' programs are started by workers, each with a launcher of its own.

ghost use Rattle.std.specs.Prelude.{◌≡◌, ◌≤◌, ◌<◌, ◌+◌, ◌++◌, ◌⊎◌, [], All, List, Option, ℕ, IfOk, IfErr, length, map, reverse, vec_capacity};
ghost use Rattle.pb_outcome.specs.declared.job.Report.{Report};
ghost use Rattle.pb_driver.specs.Driven.{IsWorkersAnswer};
ghost use Rattle.pb_driver.specs.Failing.{failures_by};
ghost use Rattle.pb_driver.specs.Workers.{IsSpread};
ghost use Rattle.pb_cli.specs.Played.{commands_for, IsRunBy, IsCutBy, IsLocalRun, IsLocalCut, IsUnbegun, HasTrail};
ghost use Rattle.pb_cli.specs.Hired.{launcher_of, facts_of, HasRoomFor};
ghost use Rattle.pb_cli.specs.World.{stage_of};

use crate::playing::Wanted;
use pb_driver::{Command, Ended, Given, LineOut, Lowest, RunFault, run_pool};
use pb_runner::launcher::Launcher;
use pb_runner::local::LocalRunner;
use pb_runner::runner::Runner;
use pb_runner::system::SystemLauncher;
use pb_state::{Event, Plan};
use pb_value::items::Items;
use pb_value::text::Text;
use std::alloc::{AllocError, Global};
use std::process::{Processes, SystemProcess};
use std::sync::Wait;
use std::thread::Threads;

/// So many launchers a run may need: one for each fork that a plan may have.
pub const MAX_LAUNCHERS: usize = 256;

/// Launchers of this machine's programs, as many as a run may need.
///
/// # Errors
/// Where memory was refused.
pub fn system_launchers<R: Processes<Started = SystemProcess> + AllocGlobal>(
    rt: &R,
) -> Result<Vec<SystemLauncher<&R>>, AllocError>
    ensures { IfOk result (λ launchers. length launchers.items ≡ 256) }
{
    let mut launchers = Vec::new(rt.alloc());
    for _ in 0..MAX_LAUNCHERS {
        launchers.push(SystemLauncher::new(rt))?;
    }
    Ok(launchers)
}

/// Runs a plan by these runners, each in a thread of its own, with these commands, and with its lines on a writer. It answers the
/// exit status and the events.
#[tactic(auto, using(crate::proofs::Running::run_in_pool, crate::proofs::Running::cut_in_pool))]
fn run_commanded<N: Runner + Send + Drop, R: AllocGlobal + Threads + Wait + Sync, O: LineOut>(
    rt: &R,
    plan: Plan,
    commands: &[Given],
    runners: &mut Vec<N>,
    out: &mut O,
) -> Result<(u8, Items<Event>), (RunFault, Items<Event>)>
    requires { (plan.forks ≤ length runners.old.items) × (0 < length runners.old.items) × (length runners.old.items ≤ 256) }
    ensures run { IfOk result (λ ran. IsRunBy (IsWorkersAnswer N.allows) plan (length runners.old.items) commands.now ran.1 (O.taken out.old) (O.taken out.new) ran.0) }
    ensures spread { IfOk result (λ ran. IsSpread N.ran runners.old.items runners.new.items plan ran.1 []) }
    ensures cut { IfErr result (λ cut. IsCutBy (IsWorkersAnswer N.allows) plan (length runners.old.items) commands.now cut.1 (O.taken out.old) (O.taken out.new)) }
    ensures later { IfErr result (λ cut. (later : List Report) × IsSpread N.ran runners.old.items runners.new.items plan cut.1 later) }
    ensures closed { IfErr result (λ cut. cut.0 ≡ RunFault.Closed → (cut.1 ≡ []) × (O.taken out.new ≡ O.taken out.old) × IsSpread N.ran runners.old.items runners.new.items plan [] []) }
    ensures failed { IfErr result (λ cut. O.failures out.new ≡ failures_by cut.0 (O.failures out.old)) }
{
    pb_driver::runs_keep_laws();
    pb_driver::lines_stand_behind_events();
    pb_audit::larger_pools_allow_as_much();
    match run_pool(rt, rt.alloc(), plan, runners, Lowest, commands, out) {
        Ok(
            Ended {
                trail,
                recap,
                status,
            },
        ) => {
            drop(recap);
            Ok((status, Items::from_vec(trail)))
        }
        Err((fault, trail)) => Err((fault, Items::from_vec(trail))),
    }
}

/// Runs a plan by these runners, with its lines on a writer, and stops it behind so many reports, if that is asked for.
fn run_workers<N: Runner + Send + Drop, R: AllocGlobal + Threads + Wait + Sync, O: LineOut>(
    rt: &R,
    plan: Plan,
    stop_after: Option<u32>,
    runners: &mut Vec<N>,
    out: &mut O,
) -> Result<(u8, Items<Event>), (RunFault, Items<Event>)>
    requires { (plan.forks ≤ length runners.old.items) × (0 < length runners.old.items) × (length runners.old.items ≤ 256) }
    ensures run { IfOk result (λ ran. IsRunBy (IsWorkersAnswer N.allows) plan (length runners.old.items) (commands_for stop_after) ran.1 (O.taken out.old) (O.taken out.new) ran.0) }
    ensures spread { IfOk result (λ ran. IsSpread N.ran runners.old.items runners.new.items plan ran.1 []) }
    ensures cut { IfErr result (λ cut. IsCutBy (IsWorkersAnswer N.allows) plan (length runners.old.items) (commands_for stop_after) cut.1 (O.taken out.old) (O.taken out.new)) }
    ensures later { IfErr result (λ cut. (later : List Report) × IsSpread N.ran runners.old.items runners.new.items plan cut.1 later) }
    ensures closed { IfErr result (λ cut. cut.0 ≡ RunFault.Closed → (cut.1 ≡ []) × (O.taken out.new ≡ O.taken out.old) × IsSpread N.ran runners.old.items runners.new.items plan [] []) }
    ensures failed { IfErr result (λ cut. O.failures out.new ≡ failures_by cut.0 (O.failures out.old)) }
{
    match stop_after {
        Some(after) => {
            let command = Command::Stop;
            run_commanded(rt, plan, &[Given { after, command }], runners, out)
        }
        None => run_commanded(rt, plan, &[], runners, out),
    }
}

/// Room for launchers and their runners, and a facts program for each runner.
#[derive(Drop)]
struct Staff<L> {
    queue: Vec<L>,
    facts: Vec<Option<Text>>,
    runners: Vec<LocalRunner<L>>,
}

/// The facts program so many times, each a text of its own.
fn copies(
    alloc: Global,
    facts_program: &Option<Text>,
    count: usize,
) -> Result<Vec<Option<Text>>, AllocError>
    ensures count { IfOk result (λ copies. length copies.items ≡ count) }
    ensures same { IfOk result (λ copies. All (λ (copy : Option (List ℕ)). copy ≡ facts_program.now) copies.items) }
{
    let mut copies = Vec::new(alloc);
    for _ in 0..count {
        copies.push(copy_of(facts_program)?)?;
    }
    Ok(copies)
}

fn copy_of(facts_program: &Option<Text>) -> Result<Option<Text>, AllocError>
    ensures { IfOk result (λ copy. copy ≡ facts_program.now) }
{
    match facts_program {
        Some(path) => Ok(Some(path.try_clone()?)),
        None => Ok(None),
    }
}

fn make_staff<L: Drop>(
    alloc: Global,
    facts_program: &Option<Text>,
    launchers: usize,
    forks: usize,
) -> Result<Staff<L>, AllocError>
    ensures { IfOk result (HasRoomFor facts_program.now launchers forks) }
{
    Ok(Staff {
        queue: Vec::with_capacity(alloc, launchers)?,
        facts: copies(alloc, facts_program, forks)?,
        runners: Vec::with_capacity(alloc, forks)?,
    })
}

/// Moves all to a list with room, the last one first.
fn pour<L>(from: &mut Vec<L>, to: &mut Vec<L>)
    requires { length to.old.items + length from.old.items ≤ vec_capacity to.old }
    ensures from { from.new.items ≡ [] }
    ensures to { to.new.items ≡ to.old.items ++ reverse from.old.items }
    ensures rooms { (vec_capacity from.new ≡ vec_capacity from.old) × (vec_capacity to.new ≡ vec_capacity to.old) }
{
    while let Some(one) = from.pop() {
        to.push_reserved(one);
    }
}

/// Makes a runner for each facts program, of the launchers at the end of the queue, in an empty list with room.
fn pair<L>(queue: &mut Vec<L>, facts: Vec<Option<Text>>, runners: &mut Vec<LocalRunner<L>>)
    requires room { (runners.old.items ≡ []) × (length facts.items ≤ vec_capacity runners.old) }
    requires enough { length facts.items ≤ length queue.old.items }
    ensures launchers { queue.new.items ++ reverse (map launcher_of runners.new.items) ≡ queue.old.items }
    ensures facts { map facts_of runners.new.items ≡ reverse facts.items }
    ensures room { vec_capacity queue.new ≡ vec_capacity queue.old }
{
    let mut facts = facts;
    while let Some(facts) = facts.pop() {
        let Some(launcher) = queue.pop() else {
            unreachable!()
        };
        runners.push_reserved(LocalRunner { launcher, facts });
    }
}

/// Puts the launchers of these runners back into the queue, which has room for them.
fn part<L: Drop>(runners: Vec<LocalRunner<L>>, queue: &mut Vec<L>)
    requires { length queue.old.items + length runners.items ≤ vec_capacity queue.old }
    ensures { queue.new.items ≡ queue.old.items ++ reverse (map launcher_of runners.items) }
{
    let mut runners = runners;
    while let Some(runner) = runners.pop() {
        let LocalRunner { launcher, facts } = runner;
        drop(facts);
        queue.push_reserved(launcher);
    }
}

/// Runs a plan by as many workers as it has forks. The first launchers start their programs.
fn run_hired<L: Launcher + Send + Drop, R: AllocGlobal + Threads + Wait + Sync, O: LineOut>(
    rt: &R,
    plan: Plan,
    wanted: &Wanted,
    launchers: &mut Vec<L>,
    staff: Staff<L>,
    out: &mut O,
) -> Result<(u8, Items<Event>), (RunFault, Items<Event>)>
    requires forks { (0 < plan.forks) × (plan.forks ≤ 256) × (256 ≤ length launchers.old.items) }
    requires room { HasRoomFor wanted.now.facts_program (length launchers.old.items) plan.forks staff }
    ensures run { IfOk result (λ ran. IsLocalRun plan wanted.now.stop_after wanted.now.facts_program ran.1 (stage_of L.Launcher O.LineOut launchers.old.items out.old) (stage_of L.Launcher O.LineOut launchers.new.items out.new) ran.0) }
    ensures cut { IfErr result (λ cut. IsLocalCut plan wanted.now.stop_after wanted.now.facts_program cut.1 cut.0 (stage_of L.Launcher O.LineOut launchers.old.items out.old) (stage_of L.Launcher O.LineOut launchers.new.items out.new)) }
    ensures failed { IfErr result (λ cut. O.failures out.new ≡ failures_by cut.0 (O.failures out.old)) }
{
    let Staff {
        mut queue,
        facts,
        mut runners,
    } = staff;
    pour(launchers, &mut queue);
    pair(&mut queue, facts, &mut runners);
    let ran = run_workers(rt, plan, wanted.stop_after, &mut runners, out);
    part(runners, &mut queue);
    pour(&mut queue, launchers);
    ran
}

/// Runs a plan, with its lines on a writer: the jobs' programs are started, the facts program where facts are gathered, by as many
/// workers as the plan has forks. It answers the exit status and the events.
///
/// # Errors
/// Those of `run_pool`; where memory was refused before the run began there are no events.
pub(crate) fn run_local<
    L: Launcher + Send + Drop,
    R: AllocGlobal + Threads + Wait + Sync,
    O: LineOut,
>(
    rt: &R,
    plan: Plan,
    wanted: &Wanted,
    launchers: &mut Vec<L>,
    out: &mut O,
) -> Result<(u8, Items<Event>), (RunFault, Option<Items<Event>>)>
    requires { 256 ≤ length launchers.old.items }
    ensures run { IfOk result (λ ran. IsLocalRun plan wanted.now.stop_after wanted.now.facts_program ran.1 (stage_of L.Launcher O.LineOut launchers.old.items out.old) (stage_of L.Launcher O.LineOut launchers.new.items out.new) ran.0) }
    ensures cut { IfErr result (λ cut. IsUnbegun cut.0 cut.1 (stage_of L.Launcher O.LineOut launchers.old.items out.old) (stage_of L.Launcher O.LineOut launchers.new.items out.new) ⊎ HasTrail cut.1 (λ events. IsLocalCut plan wanted.now.stop_after wanted.now.facts_program events cut.0 (stage_of L.Launcher O.LineOut launchers.old.items out.old) (stage_of L.Launcher O.LineOut launchers.new.items out.new))) }
    ensures failed { IfErr result (λ cut. O.failures out.new ≡ failures_by cut.0 (O.failures out.old)) }
{
    let forks = plan.forks() as usize;
    let Ok(staff) = make_staff(rt.alloc(), &wanted.facts_program, launchers.len(), forks) else {
        return Err((RunFault::Memory, None));
    };
    match run_hired(rt, plan, wanted, launchers, staff, out) {
        Ok(ran) => Ok(ran),
        Err((fault, trail)) => Err((fault, Some(trail))),
    }
}
