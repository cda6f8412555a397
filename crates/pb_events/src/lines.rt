//! The lines of events.

ghost use Rattle.std.specs.Prelude.{◌≡◌, ◌∷◌, ◌++◌, [], ℕ, List, IfOk, codes, pos, slice_get, if◌then◌else◌};
ghost use Rattle.std.specs.Option.{option_map_or};
ghost use Rattle.json.specs.Token.{begin_object};
ghost use Rattle.pb_value.specs.Datum.{Datum, text, int};
ghost use Rattle.pb_events.specs.Members.{tokens_in};
ghost use Rattle.pb_events.specs.Lines.{start_line, play_start, start_event, task_start, host_start, start_text, end_text, site_of, started, came_back, opened_in, lines_of};

use crate::batch::batch_names;
use crate::end::{done_text, meta_text};
use crate::item::item_lines;
use crate::line::{begin, end, put_number, put_text, put_value};
use crate::notify::notify_text;
use crate::retry::retried_text;
use crate::site::{Site, play_at, site_of};
use json::Writer;
use pb_ids::HostNo;
use pb_state::{EngineState, Event, Plan};
use pb_value::val::{Val, ValList};
use std::alloc::{AllocError, Global};

/// Room for the lines of most events.
const ROOM: usize = 512;

/// The line before all others, which tells how many plays there are.
pub fn start_line(alloc: Global, plays: u32) -> Result<Vec<u8>, AllocError>
    ensures { IfOk result (λ bytes. bytes.items ≡ start_line plays) }
{
    let mut out = begin(Vec::new(alloc))?;
    put_text(&mut out, "event", "playbook_on_start")?;
    put_number(&mut out, "plays", plays)?;
    end(out)
}

/// The lines of an event that led to a state: where a batch opens, the play and the hosts; where a host starts a task, the
/// task, if the host is the first to start there, the host's start, the items of a loop that ended at once, and the task's
/// result, if it ended; where a report comes, the item of the loop that it ends, or the attempt behind which another one
/// comes, and the task's result, if that ended. Other events have none.
pub fn lines_of(
    alloc: Global,
    plan: &Plan,
    state: &EngineState,
    event: &Event,
) -> Result<Vec<u8>, AllocError>
    ensures { IfOk result (λ bytes. bytes.items ≡ lines_of plan.now state.now event.now) }
{
    match event {
        Event::Open => opened(alloc, plan, state),
        Event::Start(host) => started(alloc, plan, state, *host),
        Event::Report(report) => came_back(alloc, plan, state, report.host),
        Event::Send { .. } | Event::Turn | Event::Close | Event::Stop | Event::Forks(_) => {
            Ok(Vec::new(alloc))
        }
    }
}

/// The line of a batch that opened.
fn opened(alloc: Global, plan: &Plan, state: &EngineState) -> Result<Vec<u8>, AllocError>
    ensures { IfOk result (λ bytes. bytes.items ≡ option_map_or (opened_in plan.now state.now) (slice_get plan.now.plays state.now.play) []) }
{
    match play_at(plan, state.play()) {
        Some(play) => {
            let hosts = batch_names(alloc, plan, state)?;
            let name = play.name().as_str();
            play_start(alloc, state.play() as u32, state.batch(), name, hosts)
        }
        None => Ok(Vec::new(alloc)),
    }
}

/// What stands before the play's name in the line of a batch.
fn play_front(alloc: Global, batch: u32, hosts: &Val) -> Result<Writer, AllocError>
    ensures before { IfOk result (λ out. out.before ≡ []) }
    ensures tokens { IfOk result (λ out. (ms : List (List ℕ × Datum)) → out.tokens ++ tokens_in ms
        ≡ begin_object ∷ tokens_in ((codes "batch", int (pos batch)) ∷ (codes "event", text (codes "playbook_on_play_start")) ∷ (codes "hosts", hosts.now) ∷ ms)) }
{
    let mut out = begin(Vec::new(alloc))?;
    put_number(&mut out, "batch", batch)?;
    put_text(&mut out, "event", "playbook_on_play_start")?;
    put_value(&mut out, "hosts", hosts)?;
    Ok(out)
}

/// The line of a batch of a play.
fn play_start(
    alloc: Global,
    play: u32,
    batch: u32,
    name: &str,
    hosts: ValList,
) -> Result<Vec<u8>, AllocError>
    ensures { IfOk result (λ bytes. bytes.items ≡ play_start play batch name.now hosts) }
{
    let mut out = play_front(alloc, batch, &Val::list(hosts))?;
    put_text(&mut out, "name", name)?;
    put_number(&mut out, "play", play)?;
    end(out)
}

/// The lines of a host that started a task.
fn started(
    alloc: Global,
    plan: &Plan,
    state: &EngineState,
    host: HostNo,
) -> Result<Vec<u8>, AllocError>
    ensures { IfOk result (λ bytes. bytes.items ≡ option_map_or started (site_of plan.now state.now host.0) []) }
{
    match site_of(alloc, plan, state, host)? {
        Some(site) if site.place.task().module.is_meta() => meta_text(Vec::new(alloc), &site),
        Some(site) => {
            let lines = start_text(Vec::with_capacity(alloc, ROOM)?, &site)?;
            end_text(alloc, lines, &site)
        }
        None => Ok(Vec::new(alloc)),
    }
}

/// The lines of a host whose report came.
fn came_back(
    alloc: Global,
    plan: &Plan,
    state: &EngineState,
    host: HostNo,
) -> Result<Vec<u8>, AllocError>
    ensures { IfOk result (λ bytes. bytes.items ≡ option_map_or came_back (site_of plan.now state.now host.0) []) }
{
    match site_of(alloc, plan, state, host)? {
        Some(site) if site.place.task().module.is_meta() => meta_text(Vec::new(alloc), &site),
        Some(site) => end_text(alloc, Vec::with_capacity(alloc, ROOM)?, &site),
        None => Ok(Vec::new(alloc)),
    }
}

/// Adds what came of a task: the items of a loop that ended, the attempt that came back, if another one comes behind it, its end, if it ended, and the
/// handlers that it notified then.
fn end_text(alloc: Global, lines: Vec<u8>, site: &Site) -> Result<Vec<u8>, AllocError>
    ensures { IfOk result (λ bytes. bytes.items ≡ lines.items ++ end_text site.now) }
{
    let lines = item_lines(alloc, lines, site, site.step_result.items.as_slice())?;
    let lines = retried_text(lines, site)?;
    let lines = done_text(lines, site)?;
    notify_text(lines, site)
}

/// The name of the event of a task's start, or of a handler's.
fn start_event(handler: Option<u32>) -> &'static str
    ensures { result.now ≡ start_event handler }
{
    match handler {
        Some(_) => "playbook_on_handler_task_start",
        None => "playbook_on_task_start",
    }
}

/// Adds the lines of a start: the task, if the host is the first to start there, and the host.
fn start_text(lines: Vec<u8>, site: &Site) -> Result<Vec<u8>, AllocError>
    ensures { IfOk result (λ bytes. bytes.items ≡ lines.items ++ start_text site.now) }
{
    let lines = task_if_new(lines, site)?;
    host_start(lines, site)
}

/// Adds the line of a host that starts a task.
fn host_start(lines: Vec<u8>, site: &Site) -> Result<Vec<u8>, AllocError>
    ensures { IfOk result (λ bytes. bytes.items ≡ lines.items ++ host_start site.now.host site.now.path site.now.number) }
{
    let mut out = begin(lines)?;
    put_text(&mut out, "event", "runner_on_start")?;
    put_text(&mut out, "host", site.host)?;
    put_text(&mut out, "place", site.path.as_str())?;
    put_number(&mut out, "play", site.number)?;
    end(out)
}

/// Adds the line of a task that no host had started.
fn task_if_new(lines: Vec<u8>, site: &Site) -> Result<Vec<u8>, AllocError>
    ensures { IfOk result (λ bytes. bytes.items ≡ lines.items ++ (if site.now.step_result.is_new then task_start (start_event site.now.place.handler) site.now.place.task.name site.now.path site.now.number else [])) }
{
    if !site.step_result.is_new {
        return Ok(lines);
    }
    let mut out = begin(lines)?;
    put_text(&mut out, "event", start_event(site.place.handler()))?;
    put_text(&mut out, "name", site.place.task().name.as_str())?;
    put_text(&mut out, "place", site.path.as_str())?;
    put_number(&mut out, "play", site.number)?;
    end(out)
}
