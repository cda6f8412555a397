//! The hosts that a run didn't bring through, and the file of their names.

ghost use Rattle.std.specs.Prelude.{◌≡◌, ◌++◌, ◌||◌, not, IfOk, IfErr, IfSome, OnErr, Some, is_some, string_bytes, true};
ghost use Rattle.pb_cli.specs.Failed.{failed_text, left_if, IsFailedOf};

use crate::again::plan_again;
use crate::files::FileFault;
use pb_audit::replay;
use pb_ids::HostNo;
use pb_state::{Bundle, EngineState, Event, Plan};
use pb_value::items::Items;
use pb_value::text::Text;
use std::alloc::{AllocError, Global};
use std::fs;
use std::fs::Files;

/// The names of the hosts that didn't get through, as `-l` takes them, and a line end behind the last; nothing where all got through.
fn failed_text(alloc: Global, plan: &Plan, state: &EngineState) -> Result<String, AllocError>
    ensures { IfOk result (λ text. string_bytes text ≡ failed_text plan.now state.now) }
{
    let mut text = String::new(alloc);
    let mut others = false;
    for host in 0..plan.host_count() {
        let through = state.got_through(plan, HostNo(host));
        others = push_left(&mut text, through, others, plan.host_name(HostNo(host)))?;
    }
    if !others {
        return Ok(text);
    }
    text.push('\n')?;
    Ok(text)
}

/// Adds the name of a host, unless it got through, behind a comma where there are others, and answers whether there are some now.
fn push_left(text: &mut String, through: bool, others: bool, name: &str) -> Result<bool, AllocError>
    ensures text { IfOk result (λ _. string_bytes text.new ≡ string_bytes text.old ++ left_if through others name.now) }
    ensures others { IfOk result (λ now. now ≡ (others || not through)) }
{
    if through {
        return Ok(others);
    }
    if others {
        text.push(',')?;
    }
    text.push_str(name)?;
    Ok(true)
}

/// The same of the state to which the trail of a bundle's run leads.
fn failed_of(alloc: Global, bundle: &Bundle, trail: &[Event]) -> Result<String, AllocError>
    ensures { IfOk result (λ text. IsFailedOf bundle.now trail.now (string_bytes text)) }
{
    let plan = plan_again(alloc, bundle)?;
    // (it is a run of this plan, so that only memory may be wanting)
    let Ok(state) = replay(alloc, &plan, plan.forks(), trail) else {
        return Err(AllocError);
    };
    failed_text(alloc, &plan, &state)
}

/// Writes the names of the hosts that a bundle's run didn't bring through to the file at a path, in the place of what stood there, if there is a path and it was run.
pub(crate) fn keep_failed<R: Files + AllocGlobal>(
    rt: &R,
    bundle: &Bundle,
    path: &Option<Text>,
    trail: &Option<Items<Event>>,
) -> Result<(), FileFault>
    ensures named { OnErr result (is_some path.now ≡ true) }
    ensures run { OnErr result (is_some trail.now ≡ true) }
    ensures fault { IfErr result (λ fault. IfSome fault.path (λ named. path.now ≡ Some named)) }
{
    let (Some(path), Some(trail)) = (path, trail) else {
        return Ok(());
    };
    // (the text first, so that the file stays as it was where memory is refused)
    let text = failed_of(rt.alloc(), bundle, trail.as_slice())?;
    match fs::write(rt, path.as_str(), text.as_bytes()) {
        Ok(()) => Ok(()),
        Err(error) => Err(FileFault::at(rt.alloc(), path.as_str(), error)),
    }
}
