//! How a finished task counts, and the counts after one event more.

ghost use Rattle.std.specs.Prelude.{◌≡◌, ◌<◌, ◌-◌, ◌^◌, ℕ, IfSome, Some, option_map, slice_get, slice_index};
ghost use Rattle.pb_lanes.specs.ColumnsOf.{column, with_count};
ghost use Rattle.pb_host.specs.Ends.{more};
ghost use Rattle.pb_recap.specs.InColumns.{HasHost, counts_of, rows_of, with_counts};
ghost use Rattle.pb_recap.specs.Counting.{HasRoom, with_task, with_finished, host_of, task_in};
ghost use Rattle.pb_recap.specs.Recap.{FinishedTask, finished_in, result_counts, counts_at_all, counts_under};

use pb_ids::HostNo;
use pb_lanes::{Columns, CountKind};
use pb_outcome::gather::TaskResult;
use pb_state::{EngineState, Event, TaskEnd};

/// Whether a finished task counts under a kind. A task counts as okay where it went well or its failure is ignored, and
/// as changed too where it changed something. Another failure is rescued where its place is caught. A task of `meta`
/// counts only where it failed.
fn counts_under(kind: CountKind, task: TaskEnd) -> bool
    ensures { result ≡ counts_under kind task }
{
    counts_at_all(task) && result_counts(kind, task.is_caught, task.result)
}

/// Whether a finished task counts at all.
fn counts_at_all(task: TaskEnd) -> bool
    ensures { result ≡ counts_at_all task }
{
    task.meta.is_none() || task.result.failed
}

/// Whether a result counts under a kind, at a place that is caught or not.
fn result_counts(kind: CountKind, is_caught: bool, task: TaskResult) -> bool
    ensures { result ≡ result_counts kind is_caught task }
{
    let is_ignored = task.failed && task.ignored;
    let is_failure = task.failed && !task.ignored;
    let is_okay = is_ignored || !(task.failed || task.skipped || task.unreachable);
    match kind {
        CountKind::Okay => is_okay,
        CountKind::Changed => is_okay && task.changed,
        CountKind::Unreachable => task.unreachable,
        CountKind::Failed => is_failure && !is_caught,
        CountKind::Skipped => task.skipped,
        CountKind::Rescued => is_failure && is_caught,
        CountKind::Ignored => is_ignored,
    }
}

/// One more task of a host under a kind, if a finished task counts under that.
fn add_under(counts: &mut Columns, host: HostNo, kind: CountKind, task: TaskEnd)
    requires host { HasHost counts.old host.0 }
    requires room { slice_index (column kind counts.old) host.0 < 2 ^ 32 - 1 }
    ensures host { HasHost counts.new host.0 }
    ensures count { counts.new ≡ with_count kind host.0 (more (counts_under kind task) (slice_index (column kind counts.old) host.0)) counts.old }
{
    if counts_under(kind, task) {
        counts.bump(host, kind);
    }
}

/// One more task of a host, under each kind under which it counts.
fn add_to_host(counts: &mut Columns, host: HostNo, task: TaskEnd)
    requires host { HasHost counts.old host.0 }
    requires room { HasRoom (counts_of counts.old host.0) }
    ensures { counts.new ≡ with_counts host.0 (with_task task (counts_of counts.old host.0)) counts.old }
{
    add_under(counts, host, CountKind::Okay, task);
    add_under(counts, host, CountKind::Changed, task);
    add_under(counts, host, CountKind::Unreachable, task);
    add_under(counts, host, CountKind::Failed, task);
    add_under(counts, host, CountKind::Skipped, task);
    add_under(counts, host, CountKind::Rescued, task);
    add_under(counts, host, CountKind::Ignored, task);
}

/// A host's counts with one finished task more. A number that is no host's changes nothing.
fn add_task(counts: &mut Columns, host: HostNo, task: TaskEnd)
    requires { (h : ℕ) → IfSome (slice_get (rows_of counts.old) h) HasRoom }
    ensures { rows_of counts.new ≡ with_finished (Some (record { host = host.0; task = task })) (rows_of counts.old) }
{
    if host.0 < counts.hosts() {
        add_to_host(counts, host, task);
    }
}

/// The host whose task an event may finish.
fn host_of(event: &Event) -> Option<HostNo>
    ensures { option_map (λ h. h.0) result ≡ host_of event.now }
{
    match event {
        Event::Start(host) => Some(*host),
        Event::Report(report) => Some(report.host),
        _ => None,
    }
}

/// How the step that led to a state ended a task, if it did.
fn task_of(state: &EngineState) -> Option<TaskEnd>
    ensures { result ≡ task_in state.now }
{
    match state.step_result() {
        Some(step_result) => match &step_result.done {
            Some(done) => Some(done.task),
            None => None,
        },
        None => None,
    }
}

/// The counts with the task that an event finished, by the state after it.
#[tactic(auto, using(crate::proofs::Finishing::finishes_at))]
pub fn count_event(counts: &mut Columns, state: &EngineState, event: &Event)
    requires { (h : ℕ) → IfSome (slice_get (rows_of counts.old) h) HasRoom }
    ensures { rows_of counts.new ≡ with_finished (finished_in state.now event.now) (rows_of counts.old) }
{
    let Some(host) = host_of(event) else { return };
    let Some(task) = task_of(state) else { return };
    add_task(counts, host, task);
}
