//! Whom a task notifies as it ends, and which handlers are pending.

ghost use Rattle.std.specs.Prelude.{◌≡◌, IfOk};
ghost use Rattle.pb_tree.specs.Walk.{marks_of};
ghost use Rattle.pb_planes.specs.Set.{is_in as is_marked};
ghost use Rattle.pb_host.specs.Handlers.{named_at, handler_at, notified_by, is_own, is_pending, newly, newly_at};
ghost use Rattle.pb_host.specs.Walking.{tree_in, answers_in};

use crate::ends::does_notify;
use crate::step_result::TaskEnd;
use pb_cursors::PlayWalk;
use pb_task_vars::PlanPlay;
use pb_value::items::Items;
use std::alloc::{AllocError, Global};

/// The handlers that the task at a place names, in order.
fn named_at(play: &PlanPlay, place: usize) -> &[u32]
    ensures { result.now ≡ named_at play.now place }
{
    match play.place(place) {
        Some(place) => place.notifies(),
        None => &[],
    }
}

/// The handler whose own place it is, if it is one's.
fn handler_at(play: &PlanPlay, place: usize) -> Option<u32>
    ensures { result ≡ handler_at play.now place }
{
    match play.place(place) {
        Some(place) => place.handler(),
        None => None,
    }
}

/// The handlers that the task at a place notifies as it ends so, in order.
pub fn notified_by(play: &PlanPlay, place: usize, task: TaskEnd) -> &[u32]
    ensures { result.now ≡ notified_by play.now place task }
{
    if does_notify(task.result) {
        named_at(play, place)
    } else {
        &[]
    }
}

fn is_own(own: Option<u32>, handler: u32) -> bool
    ensures { result ≡ is_own own handler }
{
    match own {
        Some(ran) => ran == handler,
        None => false,
    }
}

fn is_marked(marks: &[bool], handler: u32) -> bool
    ensures { result ≡ is_marked marks.now handler }
{
    match marks.get(handler as usize) {
        Some(is_marked) => *is_marked,
        None => false,
    }
}

/// Whether a handler is pending with these marks, once the one with the number `own` has run.
fn is_pending(marks: &[bool], own: Option<u32>, handler: u32) -> bool
    ensures { result ≡ is_pending marks.now own handler }
{
    !is_own(own, handler) && is_marked(marks, handler)
}

/// Those of these handlers that are not pending yet.
fn newly(
    alloc: Global,
    marks: &[bool],
    own: Option<u32>,
    handlers: &[u32],
) -> Result<Items<u32>, AllocError>
    ensures { IfOk result (λ new. new ≡ newly marks.now own handlers.now) }
{
    let mut new = Items::new(alloc);
    for handler in handlers {
        if !is_pending(marks, own, *handler) {
            new.push(*handler)?;
        }
    }
    Ok(new)
}

/// The handlers that the task at a place notifies as it ends so, on a host with these marks, where they aren't pending yet.
pub fn newly_at(
    alloc: Global,
    play: &PlanPlay,
    place: usize,
    marks: &[bool],
    task: TaskEnd,
) -> Result<Items<u32>, AllocError>
    ensures { IfOk result (λ new. new ≡ newly_at play.now place marks.now task) }
{
    let handlers = notified_by(play, place, task);
    newly(alloc, marks, handler_at(play, place), handlers)
}

/// Of each handler whether it is pending on a host with this walk; none is where there is no walk.
pub fn marks_in(walk: &Option<PlayWalk>) -> &[bool]
    ensures { result.now ≡ marks_of (tree_in walk.now) (answers_in walk.now) }
{
    match walk {
        Some(walk) => walk.pending(),
        None => &[],
    }
}
