//! The lines of the handlers that a task notified.

ghost use Rattle.std.specs.Prelude.{◌≡◌, ◌++◌, IfOk};
ghost use Rattle.pb_events.specs.Notify.{last_place, handler_name, notify_line, notify_lines, notify_text};

use crate::line::{begin, end, put_number, put_text};
use crate::site::Site;
use pb_state::PlanPlay;
use std::alloc::AllocError;

/// The position of a handler's place in the last Flush.
fn last_place(play: &PlanPlay, handler: u32) -> usize
    ensures { result ≡ last_place play.now.tree handler }
{
    let tree = play.tree();
    let before = tree.places().saturating_sub(tree.handlers() as usize);
    before + handler as usize
}

/// The name of a handler.
fn handler_name(play: &PlanPlay, handler: u32) -> &str
    ensures { result.now ≡ handler_name play.now handler }
{
    match play.place(last_place(play, handler)) {
        Some(place) => place.task().name.as_str(),
        None => "",
    }
}

/// Adds the line of a handler that was not pending before.
fn notify_line(lines: Vec<u8>, site: &Site, handler: u32) -> Result<Vec<u8>, AllocError>
    ensures { IfOk result (λ bytes. bytes.items ≡ lines.items ++ notify_line site.now.host (handler_name site.now.play handler) site.now.number) }
{
    let mut out = begin(lines)?;
    put_text(&mut out, "event", "playbook_on_notify")?;
    put_text(&mut out, "handler", handler_name(site.play, handler))?;
    put_text(&mut out, "host", site.host)?;
    put_number(&mut out, "play", site.number)?;
    end(out)
}

/// Adds the lines of these handlers, in order.
fn notify_lines(lines: Vec<u8>, site: &Site, handlers: &[u32]) -> Result<Vec<u8>, AllocError>
    ensures { IfOk result (λ bytes. bytes.items ≡ lines.items ++ notify_lines site.now.host site.now.play site.now.number handlers.now) }
{
    let mut all = lines;
    for handler in handlers {
        all = notify_line(all, site, *handler)?;
    }
    Ok(all)
}

/// Adds the lines of the handlers that a task notified and that were not pending before; none as long as it waits for a job.
pub fn notify_text(lines: Vec<u8>, site: &Site) -> Result<Vec<u8>, AllocError>
    ensures { IfOk result (λ bytes. bytes.items ≡ lines.items ++ notify_text site.now.host site.now.play site.now.number site.now.step_result.done) }
{
    match &site.step_result.done {
        Some(done) => notify_lines(lines, site, done.notified.as_slice()),
        None => Ok(lines),
    }
}
