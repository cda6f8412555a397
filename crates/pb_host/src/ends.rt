//! What the end of a task is for its host's walk, and how it counts.

ghost use Rattle.std.specs.Prelude.{◌≡◌, ◌<◌, ◌-◌, ◌^◌};
ghost use Rattle.pb_host.specs.Ends.{IsAtMost, is_fatal, ends_run_once, fails, does_notify, ends_play, kind_if, kind_of, breaks, more, is_okay, counted_result, is_counted, counted};

use crate::host::Counts;
use crate::step_result::TaskEnd;
use pb_outcome::gather::TaskResult;
use pb_play::modules::Meta;
use pb_task_vars::ends::has_run;
use pb_tree::Kind;

/// Whether a task failed and that isn't ignored.
fn fails(task: TaskResult) -> bool
    ensures { result ≡ fails task }
{
    task.failed && !task.ignored
}

/// Whether a task notifies its handlers.
pub fn does_notify(task: TaskResult) -> bool
    ensures { result ≡ does_notify task }
{
    task.changed && !task.failed && !task.unreachable
}

/// Whether a task of `meta` ends the play for its host.
fn ends_play(meta: Option<Meta>) -> bool
    ensures { result ≡ ends_play meta }
{
    match meta {
        Some(Meta::EndHost) => true,
        Some(Meta::Noop) => false,
        None => false,
    }
}

/// What a task that reached its host is for the walk.
fn kind_if(is_bad: bool, ends: bool) -> Kind
    ensures { result ≡ kind_if is_bad ends }
{
    if is_bad {
        Kind::Bad
    } else if ends {
        Kind::Ended
    } else {
        Kind::Good
    }
}

/// What a task's end is for the walk through the play.
pub fn kind_of(task: TaskEnd) -> Kind
    ensures { result ≡ kind_of task }
{
    if task.result.unreachable {
        return Kind::Gone;
    }
    let ends = ends_play(task.meta) && has_run(task.result);
    kind_if(fails(task.result), ends)
}

/// Whether an answer breaks its host, at a place that is caught or not.
pub fn breaks(is_caught: bool, kind: Kind) -> bool
    ensures { result ≡ breaks is_caught kind }
{
    match kind {
        Kind::Bad => !is_caught,
        Kind::Good | Kind::Halted | Kind::Gone | Kind::Ended => false,
    }
}

/// Whether an answer is over for all where a failure is fatal, at a place that is caught or not.
pub fn is_fatal(is_caught: bool, kind: Kind) -> bool
    ensures { result ≡ is_fatal is_caught kind }
{
    match kind {
        Kind::Bad => !is_caught,
        Kind::Gone => true,
        Kind::Good | Kind::Halted | Kind::Ended => false,
    }
}

/// Whether an answer ends a task that runs once.
pub fn ends_run_once(kind: Kind) -> bool
    ensures { result ≡ ends_run_once kind }
{
    match kind {
        Kind::Good | Kind::Bad | Kind::Ended => true,
        Kind::Halted | Kind::Gone => false,
    }
}

fn more(counts: bool, n: u64) -> u64
    requires { n < 2 ^ 64 - 1 }
    ensures { result ≡ more counts n }
{
    if counts { n + 1 } else { n }
}

/// Whether a task went well, or failed and that is ignored.
fn is_okay(task: TaskResult) -> bool
    ensures { result ≡ is_okay task }
{
    !task.unreachable && !task.skipped && !fails(task)
}

/// The counts with one result more, at a place that is caught or not.
fn counted_result(counts: Counts, is_caught: bool, task: TaskResult) -> Counts
    requires { IsAtMost counts (2 ^ 64 - 2) }
    ensures { result ≡ counted_result is_caught task counts }
{
    let is_bad = fails(task);
    let is_okay = is_okay(task);
    Counts {
        ok: more(is_okay, counts.ok),
        changed: more(is_okay && task.changed, counts.changed),
        unreachable: more(task.unreachable, counts.unreachable),
        failed: more(is_bad && !is_caught, counts.failed),
        skipped: more(task.skipped, counts.skipped),
        rescued: more(is_bad && is_caught, counts.rescued),
        ignored: more(task.failed && task.ignored, counts.ignored),
    }
}

/// Whether the end of a task counts.
fn is_counted(task: TaskEnd) -> bool
    ensures { result ≡ is_counted task }
{
    task.meta.is_none() || task.result.failed
}

/// The counts with one finished task more.
pub fn counted(counts: Counts, task: TaskEnd) -> Counts
    requires { IsAtMost counts (2 ^ 64 - 2) }
    ensures { result ≡ counted task counts }
{
    if is_counted(task) {
        counted_result(counts, task.is_caught, task.result)
    } else {
        counts
    }
}
