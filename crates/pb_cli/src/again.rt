//! A run that is made once more, with other forks, and what is said of it.

ghost use Rattle.std.specs.Prelude.{◌≡◌, ◌<◌, ◌≤◌, ℕ, None, Ok, IfOk, IfSome, OnErr, OnOk, is_some, length, string_bytes, true};
ghost use Rattle.pb_audit.specs.Audit.{is_legal};
ghost use Rattle.pb_driver.specs.ByTable.{allows_all};
ghost use Rattle.pb_driver.specs.Driven.{IsAnswer};
ghost use Rattle.pb_planning.specs.Bundle.{IsPlanOf};
ghost use Rattle.pb_plan.specs.Plan.{PlanOf};
ghost use Rattle.pb_ids.specs.declared.numbers.HostNo.{HostNo};
ghost use Rattle.pb_runner.specs.declared.table.Table.{Table};
ghost use Rattle.pb_runner.specs.Reading.{table_of};
ghost use Rattle.pb_runner.specs.Table.{TableGives};
ghost use Rattle.pb_cli.specs.Again.{same_text, IsCompared, IsSameUnderPut, ForksChangeNothing, PlaysAgree};
ghost use Rattle.pb_cli.specs.Played.{IsRunBy, commands_for};
ghost use Rattle.pb_cli.specs.World.{stream_of};
ghost use Rattle.std.specs.Prelude.{Option};

use crate::playing::Wanted;
use crate::runs::run_by;
use pb_driver::{LineOut, RoundRobin, Silent, put_all, same_end};
use pb_ids::HostNo;
use pb_runner::table::TableRunner;
use pb_state::{Bundle, Event, Plan};
use pb_value::items::Items;
use std::alloc::{AllocError, Global};

/// What is said where no file says what comes of a job, so that another run would start the programs again.
const IGNORED: &str = "warning: same-under is ignored without outcomes\n";

/// What is said of two runs, of which this is the first host that ends otherwise.
fn same_text(alloc: Global, plan: &Plan, found: Option<HostNo>) -> Result<String, AllocError>
    requires { IfSome found (λ host. host.0 < length plan.now.inventory.hosts) }
    ensures { IfOk result (λ text. string_bytes text ≡ same_text plan.now found) }
{
    let Some(host) = found else {
        return String::from_str(alloc, "same\n");
    };
    let mut text = String::from_str(alloc, "not same: ")?;
    text.push_str(plan.inventory().name(host))?;
    text.push('\n')?;
    Ok(text)
}

/// The plan of a bundle that had one before, so that only memory may be wanting.
pub(crate) fn plan_again(alloc: Global, bundle: &Bundle) -> Result<Plan, AllocError>
    ensures { IfOk result (λ plan. IsPlanOf bundle.now plan) }
{
    match Plan::of(alloc, bundle) {
        Ok(plan) => Ok(plan),
        Err(fault) => {
            drop(fault);
            Err(AllocError)
        }
    }
}

/// Runs a plan by the outcomes of a file's bytes, which were read before. Hosts are chosen in turn, and lines go nowhere. It answers the events.
fn run_again(
    alloc: Global,
    plan: Plan,
    stop_after: Option<u32>,
    bytes: &[u8],
) -> Result<Items<Event>, AllocError>
    ensures { IfOk result (λ again. (table : Table) × (status : ℕ) × (table_of bytes.now ≡ Ok table) × IsRunBy (IsAnswer allows_all (TableGives table)) plan 256 (commands_for stop_after) again None None status) }
{
    let mut runner = match TableRunner::read(alloc, bytes) {
        Ok(runner) => runner,
        Err(_) => return Err(AllocError),
    };
    let mut picker = RoundRobin { from: 0 };
    match run_by(
        alloc,
        plan,
        stop_after,
        &mut runner,
        &mut picker,
        &mut Silent,
    ) {
        Ok((_, again)) => Ok(again),
        Err(_) => Err(AllocError),
    }
}

/// Runs a bundle once more, with this many forks, and tells whether that ends in the same as this trail.
fn compare(
    alloc: Global,
    bundle: &mut Bundle,
    forks: u32,
    stop_after: Option<u32>,
    bytes: &[u8],
    trail: &[Event],
) -> Result<String, AllocError>
    requires some { 0 < forks }
    requires most { forks ≤ 256 }
    ensures comparison { IfOk result (λ text. (plan : PlanOf) × (found : Option HostNo) × IsCompared bundle.old forks stop_after bytes.now trail.now plan found × (string_bytes text ≡ same_text plan found)) }
    ensures same { bundle.new ≡ bundle.old }
{
    let own = bundle.forks;
    let plan = plan_again(alloc, bundle)?;
    bundle.forks = forks;
    let other = plan_again(alloc, bundle);
    bundle.forks = own;
    let again = run_again(alloc, other?, stop_after, bytes)?;
    // (both are runs of this plan, so that only memory may be wanting)
    let Ok(found) = same_end(alloc, &plan, trail, forks, again.as_slice()) else {
        return Err(AllocError);
    };
    same_text(alloc, &plan, found)
}

/// Where a bundle was run, tells whether it ends in the same with this many forks, if that is asked for. That it can't be written changes nothing.
///
/// # Errors
/// `AllocError` where memory was refused for another run.
pub(crate) fn put_same_under<E: LineOut>(
    alloc: Global,
    bundle: &mut Bundle,
    wanted: &Wanted,
    same_under: Option<u32>,
    trail: &Option<Items<Event>>,
    err: &mut E,
) -> Result<(), AllocError>
    requires { IfSome same_under (λ n. (0 < n) × (n ≤ 256)) }
    ensures put { OnOk result (IsSameUnderPut same_under trail.now bundle.old wanted.now (stream_of E.LineOut err.old) (stream_of E.LineOut err.new)) }
    ensures asked { OnErr result (is_some same_under ≡ true) }
    ensures run { OnErr result (is_some trail.now ≡ true) }
    ensures same { bundle.new ≡ bundle.old }
{
    let (Some(forks), Some(trail)) = (same_under, trail) else {
        return Ok(());
    };
    let Some(bytes) = &wanted.outcomes else {
        let _ = put_all(err, IGNORED.as_bytes());
        return Ok(());
    };
    let trail = trail.as_slice();
    let text = compare(
        alloc,
        bundle,
        forks,
        wanted.stop_after,
        bytes.as_slice(),
        trail,
    )?;
    let _ = put_all(err, text.as_bytes());
    Ok(())
}

/// What holds of every run that was made once more by the same outcomes: where all plays are linear and no host knows of another, neither run was stopped, and memory
/// was refused for no outcome, both end in the same, whatever their forks.
pub fn forks_change_nothing()
    ensures { ForksChangeNothing }
{}

/// What holds of two plays of one bundle by one file of outcomes that differ in forks alone: under the same premises they have the same recap and exit status, and every
/// host ends with the same facts.
pub fn plays_agree()
    ensures { PlaysAgree }
{}
