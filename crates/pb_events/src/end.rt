//! The lines of tasks that ended.

ghost use Rattle.std.specs.Prelude.{◌≡◌, ◌++◌, IfOk};
ghost use Rattle.pb_events.specs.Lines.{host_end, host_failed, result_line, done_text, meta_text};

use crate::behind::end_shown;
use crate::line::{begin_host, put_bool};
use crate::site::Site;
use pb_state::TaskDone;
use pb_value::val::Val;
use std::alloc::AllocError;

/// Adds the line of a task that ended; none as long as it waits for a job.
pub fn done_text(lines: Vec<u8>, site: &Site) -> Result<Vec<u8>, AllocError>
    ensures { IfOk result (λ bytes. bytes.items ≡ lines.items ++ done_text site.now.host site.now.path site.now.number site.now.step_result.done) }
{
    match &site.step_result.done {
        Some(done) => result_line(lines, site, done),
        None => Ok(lines),
    }
}

/// Adds the line of a task of `meta` whose conditions can't be read; none of any other.
pub fn meta_text(lines: Vec<u8>, site: &Site) -> Result<Vec<u8>, AllocError>
    ensures { IfOk result (λ bytes. bytes.items ≡ lines.items ++ meta_text site.now.host site.now.path site.now.number site.now.step_result.done) }
{
    match &site.step_result.done {
        Some(done) if done.task.result.failed => host_failed(lines, site, false, &done.result),
        _ => Ok(lines),
    }
}

/// Adds the line of a task's result: the host can't be reached, or else the task failed, or else it was skipped, or else it went well.
fn result_line(lines: Vec<u8>, site: &Site, done: &TaskDone) -> Result<Vec<u8>, AllocError>
    ensures { IfOk result (λ bytes. bytes.items ≡ lines.items ++ result_line site.now.host site.now.path site.now.number done.now) }
{
    let task = done.task.result;
    if task.unreachable {
        host_end(lines, site, "runner_on_unreachable", &done.result)
    } else if task.failed {
        host_failed(lines, site, task.ignored, &done.result)
    } else if task.skipped {
        host_end(lines, site, "runner_on_skipped", &done.result)
    } else {
        host_end(lines, site, "runner_on_ok", &done.result)
    }
}

/// Adds the line of a task that didn't fail.
fn host_end(lines: Vec<u8>, site: &Site, event: &str, shown: &Val) -> Result<Vec<u8>, AllocError>
    ensures { IfOk result (λ bytes. bytes.items ≡ lines.items ++ host_end event.now site.now.host site.now.path site.now.number shown.now) }
{
    let out = begin_host(lines, event, site.host)?;
    end_shown(out, site, shown)
}

/// Adds the line of a task that failed: it says whether that is ignored.
fn host_failed(
    lines: Vec<u8>,
    site: &Site,
    ignored: bool,
    shown: &Val,
) -> Result<Vec<u8>, AllocError>
    ensures { IfOk result (λ bytes. bytes.items ≡ lines.items ++ host_failed ignored site.now.host site.now.path site.now.number shown.now) }
{
    let mut out = begin_host(lines, "runner_on_failed", site.host)?;
    put_bool(&mut out, "ignored", ignored)?;
    end_shown(out, site, shown)
}
