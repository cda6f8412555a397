//! What is done with a bundle: its plan, its warnings, and then what the plan is made for. The program's theorem is the contract of `play_bundle`;
//! its steps stand below it, and in runs.rt, showing.rt and warnings.rt.

ghost use Rattle.std.specs.Prelude.{◌≡◌, ◌≢◌, ◌⊎◌, ◌≤◌, List, length, Option, None, IfOk, Err, is_some, true};
ghost use Rattle.pb_state.specs.declared.event.Event.{Event};
ghost use Rattle.pb_planning.specs.Bundle.{IsBundleFault};
ghost use Rattle.pb_driver.specs.Failing.{failures_by};
ghost use Rattle.pb_cli.specs.Audited.{IsBadTrail};
ghost use Rattle.pb_cli.specs.Played.{IsBadTable, IsRunOrAudited, IsRunOrAuditedTo, IsUnbegun, IsGiven, IsGivenTo};
ghost use Rattle.pb_cli.specs.Done.{HasBadOutcomes, IsUnread, IsShown, IsStopped, TrailsAreLegal};
ghost use Rattle.pb_cli.specs.World.{stage_of, stream_of, world_of, IsQuiet, IsUntouched};

use crate::runs::run_plan;
use crate::showing::{show, show_audit, show_hosts};
use crate::warnings::{is_forbidden, warn};
use pb_audit::TrailFault;
use pb_command_line::words::Purpose;
use pb_driver::{LineOut, RunFault};
use pb_runner::fault::TableFault;
use pb_runner::launcher::Launcher;
use pb_state::{Bundle, BundleFault, Event, Plan};
use pb_value::items::Items;
use pb_value::text::Text;
use std::sync::Wait;
use std::thread::Threads;

/// Makes the plan of a bundle and does with it what is wanted, on a writer, and answers the exit status: it is run, and
/// stopped behind so many reports, if that is asked for; or a trail is looked at in place of that, and it is written whether this is
/// a legal run of the plan; or its hosts are listed, or nothing but `ok` is written. Warnings of the plan are written before that, on
/// a writer of their own; where they are faults and there is one, nothing else is done, and the status is 1. The events of a run are handed out, in their order.
/// Without outcomes each job's program is started, and the facts program where facts are gathered, by as many workers as the bundle
/// has forks, each in a thread of its own and with one of the launchers, which come back in their order; with them nothing is
/// started, and they say what comes of each job. That facts are gathered by a program at all is the bundle's to say, which says so
/// exactly where there is such a program.
///
/// # Errors
/// `Bundle` with the bundle's first fault, where it has no plan: nothing is started, and nothing written on `out` or `err` then. `Outcomes`
/// with the first fault of the outcomes, which are looked into only where there is a plan, its warnings are written, and it is to
/// be run, and `Trail` with that of a trail, which is looked into only where it is to be looked at in place of a run: nothing is
/// started, and nothing written on `out` then. `Run` where memory was refused or the writer failed: what was started and written
/// then is the beginning of such a run, whose events so far are handed out, and the reports of jobs that were out were waited for;
/// and where a worker's thread couldn't be made, before anything was started or written.
pub fn play_bundle<
    L: Launcher + Send + Drop,
    R: AllocGlobal + Threads + Wait + Sync,
    O: LineOut,
    E: LineOut,
>(
    rt: &R,
    bundle: &Bundle,
    wanted: &Wanted,
    launchers: &mut Vec<L>,
    out: &mut O,
    err: &mut E,
) -> Result<Played, PlayFault>
    requires facts { bundle.now.has_facts_program ≡ is_some wanted.now.facts_program }
    requires launchers { 256 ≤ length launchers.old.items }
    ensures answered { IfOk result (IsShown bundle.now wanted.now (world_of L.Launcher O.LineOut E.LineOut launchers.old.items out.old err.old) (world_of L.Launcher O.LineOut E.LineOut launchers.new.items out.new err.new)) }
    ensures refused { (e : BundleFault) → result ≡ Err (PlayFault.Bundle e) → IsUntouched (stage_of L.Launcher O.LineOut launchers.old.items out.old) (stage_of L.Launcher O.LineOut launchers.new.items out.new) × IsQuiet (stream_of E.LineOut err.old) (stream_of E.LineOut err.new) × (e ≢ BundleFault.Memory → IsBundleFault bundle.now e) }
    ensures bad_outcomes { (e : TableFault) → result ≡ Err (PlayFault.Outcomes e) → HasBadOutcomes bundle.now wanted.now e (world_of L.Launcher O.LineOut E.LineOut launchers.old.items out.old err.old) (world_of L.Launcher O.LineOut E.LineOut launchers.new.items out.new err.new) }
    ensures unread { (e : TrailFault) → result ≡ Err (PlayFault.Trail e) → IsUnread bundle.now wanted.now e (world_of L.Launcher O.LineOut E.LineOut launchers.old.items out.old err.old) (world_of L.Launcher O.LineOut E.LineOut launchers.new.items out.new err.new) }
    ensures stopped { (fault : RunFault) (trail : Option (List Event)) → result ≡ Err (PlayFault.Run fault trail) → IsStopped bundle.now wanted.now fault trail (world_of L.Launcher O.LineOut E.LineOut launchers.old.items out.old err.old) (world_of L.Launcher O.LineOut E.LineOut launchers.new.items out.new err.new) }
    ensures failed { (fault : RunFault) (trail : Option (List Event)) → result ≡ Err (PlayFault.Run fault trail) → O.failures out.new ≡ failures_by fault (O.failures out.old) }
{
    let alloc = rt.alloc();
    let plan = match Plan::of(alloc, bundle) {
        Ok(plan) => plan,
        Err(fault) => return Err(PlayFault::Bundle(fault)),
    };
    if warn(alloc, &plan, err).is_err() {
        return Err(PlayFault::Run(RunFault::Memory, None));
    }
    if is_forbidden(wanted, &plan) {
        return Ok(Played {
            status: 1,
            trail: None,
        });
    }
    give(rt, plan, wanted, launchers, out)
}

/// What holds of each trail that `play_bundle` hands out, be it of a whole run or of one that couldn't go on: it is a legal run
/// of the bundle's plan. An audit of its text with the same bundle asks this very thing of the plan that it makes, which is the same.
#[tactic(auto, using(crate::proofs::Trails::trails_are_legal))]
pub fn trails_are_legal()
    ensures { TrailsAreLegal }
{}

/// What is to be done with the plan of a bundle.
pub struct Wanted {
    /// Whether it is run, or what is said of it in place of that.
    pub purpose: Purpose,
    /// Whether a warning of the plan is a fault.
    pub strict: bool,
    /// After how many reports the run is stopped, if it is to be.
    pub stop_after: Option<u32>,
    /// The path of the program that gathers facts, if there is one.
    pub facts_program: Option<Text>,
    /// The bytes of a file of outcomes, if there is one: it says what comes of each job, and nothing is started.
    pub outcomes: Option<Items<u8>>,
    /// The bytes of a trail, if there are some: they are looked at in place of a run.
    pub audited: Option<Items<u8>>,
}

// (by hand: it is then dropped by one call, and not part by part at each exit)
impl Drop for Wanted {
    fn drop(self) {
        let Wanted {
            purpose: _,
            strict: _,
            stop_after: _,
            facts_program,
            outcomes,
            audited,
        } = self;
        drop(facts_program);
        drop(outcomes);
        drop(audited);
    }
}

/// What came of a bundle.
#[derive(Drop)]
pub struct Played {
    /// The exit status.
    pub status: u8,
    /// The events of its run, in their order, if it was run.
    pub trail: Option<Items<Event>>,
}

/// Why what a bundle is for wasn't done to its end.
#[derive(Drop)]
pub enum PlayFault {
    /// The bundle has no plan.
    Bundle(BundleFault),
    /// The outcomes are no table.
    Outcomes(TableFault),
    /// The trail that was to be looked at is none.
    Trail(TrailFault),
    /// It stopped early. The events are those of its run so far, if one began.
    Run(RunFault, Option<Items<Event>>),
}

/// Does with a plan what it is made for.
fn give<L: Launcher + Send + Drop, R: AllocGlobal + Threads + Wait + Sync, O: LineOut>(
    rt: &R,
    plan: Plan,
    wanted: &Wanted,
    launchers: &mut Vec<L>,
    out: &mut O,
) -> Result<Played, PlayFault>
    requires { 256 ≤ length launchers.old.items }
    ensures given { IfOk result (IsGiven wanted.now plan (stage_of L.Launcher O.LineOut launchers.old.items out.old) (stage_of L.Launcher O.LineOut launchers.new.items out.new)) }
    ensures stopped { (fault : RunFault) (trail : Option (List Event)) → result ≡ Err (PlayFault.Run fault trail) → IsGivenTo wanted.now plan fault trail (stage_of L.Launcher O.LineOut launchers.old.items out.old) (stage_of L.Launcher O.LineOut launchers.new.items out.new) }
    ensures failed { (fault : RunFault) (trail : Option (List Event)) → result ≡ Err (PlayFault.Run fault trail) → O.failures out.new ≡ failures_by fault (O.failures out.old) }
    ensures planned { (e : BundleFault) → result ≢ Err (PlayFault.Bundle e) }
    ensures bad_outcomes { (e : TableFault) → result ≡ Err (PlayFault.Outcomes e) → (wanted.now.purpose ≡ Purpose.Run) × (wanted.now.audited ≡ None) × (is_some wanted.now.outcomes ≡ true) × IsUntouched (stage_of L.Launcher O.LineOut launchers.old.items out.old) (stage_of L.Launcher O.LineOut launchers.new.items out.new) × (e ≢ TableFault.Memory → IsBadTable wanted.now.outcomes e) }
    ensures unread { (e : TrailFault) → result ≡ Err (PlayFault.Trail e) → (wanted.now.purpose ≡ Purpose.Run) × (is_some wanted.now.audited ≡ true) × IsUntouched (stage_of L.Launcher O.LineOut launchers.old.items out.old) (stage_of L.Launcher O.LineOut launchers.new.items out.new) × (e ≢ TrailFault.Memory → IsBadTrail wanted.now.audited e) }
{
    match wanted.purpose {
        Purpose::CheckSyntax => show(out, "ok\n", 0),
        Purpose::ListHosts => show_hosts(rt.alloc(), &plan, out),
        Purpose::Run => run_or_audit(rt, plan, wanted, launchers, out),
    }
}

/// Runs a plan, or looks at a trail in place of that.
#[tactic(auto, unfolding(crate::specs::Audited::IsBadTrail))]
fn run_or_audit<L: Launcher + Send + Drop, R: AllocGlobal + Threads + Wait + Sync, O: LineOut>(
    rt: &R,
    plan: Plan,
    wanted: &Wanted,
    launchers: &mut Vec<L>,
    out: &mut O,
) -> Result<Played, PlayFault>
    requires { 256 ≤ length launchers.old.items }
    ensures given { IfOk result (IsRunOrAudited wanted.now.audited wanted.now plan (stage_of L.Launcher O.LineOut launchers.old.items out.old) (stage_of L.Launcher O.LineOut launchers.new.items out.new)) }
    ensures stopped { (fault : RunFault) (trail : Option (List Event)) → result ≡ Err (PlayFault.Run fault trail) → IsUnbegun fault trail (stage_of L.Launcher O.LineOut launchers.old.items out.old) (stage_of L.Launcher O.LineOut launchers.new.items out.new) ⊎ IsRunOrAuditedTo wanted.now.audited wanted.now plan fault trail (stage_of L.Launcher O.LineOut launchers.old.items out.old) (stage_of L.Launcher O.LineOut launchers.new.items out.new) }
    ensures failed { (fault : RunFault) (trail : Option (List Event)) → result ≡ Err (PlayFault.Run fault trail) → O.failures out.new ≡ failures_by fault (O.failures out.old) }
    ensures planned { (e : BundleFault) → result ≢ Err (PlayFault.Bundle e) }
    ensures bad_outcomes { (e : TableFault) → result ≡ Err (PlayFault.Outcomes e) → (wanted.now.audited ≡ None) × (is_some wanted.now.outcomes ≡ true) × IsUntouched (stage_of L.Launcher O.LineOut launchers.old.items out.old) (stage_of L.Launcher O.LineOut launchers.new.items out.new) × (e ≢ TableFault.Memory → IsBadTable wanted.now.outcomes e) }
    ensures unread { (e : TrailFault) → result ≡ Err (PlayFault.Trail e) → (is_some wanted.now.audited ≡ true) × IsUntouched (stage_of L.Launcher O.LineOut launchers.old.items out.old) (stage_of L.Launcher O.LineOut launchers.new.items out.new) × (e ≢ TrailFault.Memory → IsBadTrail wanted.now.audited e) }
{
    match &wanted.audited {
        Some(bytes) => show_audit(rt.alloc(), &plan, bytes.as_slice(), out),
        None => run_plan(rt, plan, wanted, launchers, out),
    }
}
