//! Runs of a plan: by the programs of its jobs, or by a file of outcomes.

ghost use Rattle.std.specs.Prelude.{◌≡◌, ◌≢◌, ◌⊎◌, ◌≤◌, List, length, Option, IfOk, IfErr, Err, is_some, true};
ghost use Rattle.pb_state.specs.declared.event.Event.{Event};
ghost use Rattle.pb_driver.specs.Driven.{IsAnswer};
ghost use Rattle.pb_driver.specs.Ran.{IsRanTo, answers_of};
ghost use Rattle.pb_driver.specs.Failing.{failures_by};
ghost use Rattle.pb_runner.specs.Reading.{table_of};
ghost use Rattle.pb_cli.specs.Played.{commands_for, IsBadTable, IsRunBy, IsCutBy, IsTabled, IsTabledCut, IsPlayed, IsPlayedTo, HasTrail, IsUnbegun};
ghost use Rattle.pb_cli.specs.World.{stage_of, IsUntouched};

use crate::playing::{PlayFault, Played, Wanted};
use crate::workers::run_local;
use pb_audit::TrailFault;
use pb_driver::{Command, Ended, Given, LineOut, Lowest, Picker, RunFault, run_plain};
use pb_runner::fault::TableFault;
use pb_runner::launcher::Launcher;
use pb_runner::runner::Runner;
use pb_runner::table::TableRunner;
use pb_state::{BundleFault, Event, Plan};
use pb_value::items::Items;
use std::alloc::Global;
use std::sync::Wait;
use std::thread::Threads;

/// Runs a plan, with its lines on a writer: the jobs' programs are started, or none where there are bytes of a file of outcomes,
/// which say what comes of each job.
#[tactic(auto, unfolding(crate::specs::Played::IsBadTable))]
pub(crate) fn run_plan<
    L: Launcher + Send + Drop,
    R: AllocGlobal + Threads + Wait + Sync,
    O: LineOut,
>(
    rt: &R,
    plan: Plan,
    wanted: &Wanted,
    launchers: &mut Vec<L>,
    out: &mut O,
) -> Result<Played, PlayFault>
    requires { 256 ≤ length launchers.old.items }
    ensures played { IfOk result (λ played. HasTrail played.trail (λ trail. IsPlayed plan wanted.now.stop_after wanted.now.facts_program wanted.now.outcomes trail (stage_of L.Launcher O.LineOut launchers.old.items out.old) (stage_of L.Launcher O.LineOut launchers.new.items out.new) played.status)) }
    ensures stopped { (fault : RunFault) (trail : Option (List Event)) → result ≡ Err (PlayFault.Run fault trail) → IsUnbegun fault trail (stage_of L.Launcher O.LineOut launchers.old.items out.old) (stage_of L.Launcher O.LineOut launchers.new.items out.new) ⊎ HasTrail trail (λ events. IsPlayedTo plan wanted.now.stop_after wanted.now.facts_program wanted.now.outcomes events fault (stage_of L.Launcher O.LineOut launchers.old.items out.old) (stage_of L.Launcher O.LineOut launchers.new.items out.new)) }
    ensures failed { (fault : RunFault) (trail : Option (List Event)) → result ≡ Err (PlayFault.Run fault trail) → O.failures out.new ≡ failures_by fault (O.failures out.old) }
    ensures planned { (e : BundleFault) → result ≢ Err (PlayFault.Bundle e) }
    ensures unaudited { (e : TrailFault) → result ≢ Err (PlayFault.Trail e) }
    ensures bad_outcomes { (e : TableFault) → result ≡ Err (PlayFault.Outcomes e) → (is_some wanted.now.outcomes ≡ true) × IsUntouched (stage_of L.Launcher O.LineOut launchers.old.items out.old) (stage_of L.Launcher O.LineOut launchers.new.items out.new) × (e ≢ TableFault.Memory → IsBadTable wanted.now.outcomes e) }
{
    if let Some(bytes) = &wanted.outcomes {
        return run_tabled(rt.alloc(), plan, wanted.stop_after, bytes.as_slice(), out);
    }
    match run_local(rt, plan, wanted, launchers, out) {
        Ok((status, trail)) => Ok(Played {
            status,
            trail: Some(trail),
        }),
        Err((fault, trail)) => Err(PlayFault::Run(fault, trail)),
    }
}

/// Runs a plan, with its lines on a writer. Jobs have the outcomes of a file's bytes.
fn run_tabled<O: LineOut>(
    alloc: Global,
    plan: Plan,
    stop_after: Option<u32>,
    bytes: &[u8],
    out: &mut O,
) -> Result<Played, PlayFault>
    ensures run { IfOk result (λ played. HasTrail played.trail (λ trail. IsTabled bytes.now plan stop_after trail (O.taken out.old) (O.taken out.new) played.status)) }
    ensures cut { (fault : RunFault) (trail : Option (List Event)) → result ≡ Err (PlayFault.Run fault trail) → HasTrail trail (λ events. IsTabledCut bytes.now plan stop_after events fault (O.taken out.old) (O.taken out.new)) }
    ensures failed { (fault : RunFault) (trail : Option (List Event)) → result ≡ Err (PlayFault.Run fault trail) → O.failures out.new ≡ failures_by fault (O.failures out.old) }
    ensures planned { (e : BundleFault) → result ≢ Err (PlayFault.Bundle e) }
    ensures unaudited { (e : TrailFault) → result ≢ Err (PlayFault.Trail e) }
    ensures bad_outcomes { (e : TableFault) → result ≡ Err (PlayFault.Outcomes e) → (O.taken out.new ≡ O.taken out.old) × (e ≢ TableFault.Memory → table_of bytes.now ≡ Err e) }
{
    let mut runner = match TableRunner::read(alloc, bytes) {
        Ok(runner) => runner,
        Err(fault) => return Err(PlayFault::Outcomes(fault)),
    };
    match run_by(alloc, plan, stop_after, &mut runner, &mut Lowest, out) {
        Ok((status, trail)) => Ok(Played {
            status,
            trail: Some(trail),
        }),
        Err((fault, trail)) => Err(PlayFault::Run(fault, Some(trail))),
    }
}

/// Runs a plan by this runner, with its lines on a writer, and stops it behind so many reports, if that is asked for.
pub(crate) fn run_by<N: Runner, P: Picker, O: LineOut>(
    alloc: Global,
    plan: Plan,
    stop_after: Option<u32>,
    runner: &mut N,
    picker: &mut P,
    out: &mut O,
) -> Result<(u8, Items<Event>), (RunFault, Items<Event>)>
    ensures run { IfOk result (λ ran. IsRunBy (IsAnswer N.allows (N.gives runner.old)) plan 256 (commands_for stop_after) ran.1 (O.taken out.old) (O.taken out.new) ran.0) }
    ensures ran { IfOk result (λ ran. N.ran runner.old (answers_of plan 256 ran.1) runner.new) }
    ensures cut { IfErr result (λ cut. IsCutBy (IsAnswer N.allows (N.gives runner.old)) plan 256 (commands_for stop_after) cut.1 (O.taken out.old) (O.taken out.new)) }
    ensures over { IfErr result (λ cut. IsRanTo (λ jobs. N.ran runner.old jobs runner.new) plan 256 cut.1 cut.0) }
    ensures failed { IfErr result (λ cut. O.failures out.new ≡ failures_by cut.0 (O.failures out.old)) }
    ensures opened { IfErr result (λ cut. cut.0 ≢ RunFault.Closed) }
{
    match stop_after {
        Some(after) => {
            let command = Command::Stop;
            run_given(
                alloc,
                plan,
                &[Given { after, command }],
                runner,
                picker,
                out,
            )
        }
        None => run_given(alloc, plan, &[], runner, picker, out),
    }
}

/// Runs a plan by this runner, with these commands, and with its lines on a writer. It answers the exit status and the events.
#[tactic(auto, using(crate::proofs::Running::run_by))]
fn run_given<N: Runner, P: Picker, O: LineOut>(
    alloc: Global,
    plan: Plan,
    commands: &[Given],
    runner: &mut N,
    picker: &mut P,
    out: &mut O,
) -> Result<(u8, Items<Event>), (RunFault, Items<Event>)>
    ensures run { IfOk result (λ ran. IsRunBy (IsAnswer N.allows (N.gives runner.old)) plan 256 commands.now ran.1 (O.taken out.old) (O.taken out.new) ran.0) }
    ensures ran { IfOk result (λ ran. N.ran runner.old (answers_of plan 256 ran.1) runner.new) }
    ensures cut { IfErr result (λ cut. IsCutBy (IsAnswer N.allows (N.gives runner.old)) plan 256 commands.now cut.1 (O.taken out.old) (O.taken out.new)) }
    ensures over { IfErr result (λ cut. IsRanTo (λ jobs. N.ran runner.old jobs runner.new) plan 256 cut.1 cut.0) }
    ensures failed { IfErr result (λ cut. O.failures out.new ≡ failures_by cut.0 (O.failures out.old)) }
    ensures opened { IfErr result (λ cut. cut.0 ≢ RunFault.Closed) }
{
    pb_driver::runs_keep_laws();
    pb_driver::lines_stand_behind_events();
    match run_plain(alloc, plan, runner, picker, commands, out) {
        Ok(
            Ended {
                trail,
                recap,
                status,
            },
        ) => {
            drop(recap);
            Ok((status, Items::from_vec(trail)))
        }
        Err((fault, trail)) => Err((fault, Items::from_vec(trail))),
    }
}
