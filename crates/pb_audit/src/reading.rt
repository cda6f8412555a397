//! A trail from its text.

ghost use Rattle.std.specs.Prelude.{◌≡◌, ◌≢◌, ◌+◌, ◌<◌, ◌^◌, length, option_map, IfOk, IfErr, Ok, Err};
ghost use Rattle.serde_json.specs.Data.{object};
ghost use Rattle.serde_json.specs.View.{view, members_view};
ghost use Rattle.pb_value.specs.Bytes.{json_in};
ghost use Rattle.pb_audit.specs.Lines.{lines_of};
ghost use Rattle.pb_audit.specs.Reading.{key_count, small, whole_at, small_at, name_in, start_in, attempt_in, send_in, forks_in, outcome_at, report_in, event_named, event_in, event_at, version_in, version_at, events_in, trail_in};

use crate::fault::TrailFault;
use crate::lines::first_line;
use crate::name::EventName;
use crate::version::Version;
use pb_ids::{HostNo, Ticket};
use pb_outcome::fault::OutcomeFault;
use pb_outcome::job::Report;
use pb_outcome::outcome::Outcome;
use pb_outcome::reading::read_outcome;
use pb_state::{BoxedReport, Event, Trail};
use pb_value::read_json::{JsonFault, read_json};
use pb_value::text::Text;
use serde_json::{Map, Value};
use std::alloc::{AllocError, Global};

/// How many members there are.
fn count_of(members: &Map<String, Value>) -> usize
    ensures { result ≡ key_count (object (members_view members.now.entries)) }
{
    members.len()
}

/// How many keys an object has; a value of another kind has none.
fn key_count(json: &Value) -> usize
    ensures { result ≡ key_count (view json.now) }
{
    match json {
        Value::Object(members) => count_of(members),
        _ => 0,
    }
}

/// A whole number below 2^32.
fn small(number: u64) -> Option<u32>
    ensures { result ≡ small number }
{
    if number <= 0xffff_ffff {
        Some(number as u32)
    } else {
        None
    }
}

/// The whole number that stands at a key.
fn whole_at(json: &Value, key: &str) -> Option<u64>
    ensures { result ≡ whole_at key.now (view json.now) }
{
    match json.get(key) {
        Some(value) => value.as_u64(),
        None => None,
    }
}

/// The whole number below 2^32 that stands at a key.
fn small_at(json: &Value, key: &str) -> Option<u32>
    ensures { result ≡ small_at key.now (view json.now) }
{
    match whole_at(json, key) {
        Some(number) => small(number),
        None => None,
    }
}

/// The name of the event.
fn name_in(json: &Value) -> Option<EventName>
    ensures { result ≡ name_in (view json.now) }
{
    match json.get("e") {
        Some(value) => match value.as_str() {
            Some(word) => EventName::of_word(word),
            None => None,
        },
        None => None,
    }
}

/// The start that an object tells by its keys but `e`.
fn start_in(json: &Value) -> Option<Event>
    ensures { result ≡ start_in (view json.now) }
{
    match small_at(json, "h") {
        Some(host) => Some(Event::Start(HostNo(host))),
        None => None,
    }
}

/// The attempt of a send or of a report: the first one, in the version that has no key for it.
fn attempt_in(json: &Value, version: Version) -> Option<u32>
    ensures { result ≡ attempt_in version (view json.now) }
{
    match version {
        Version::One => Some(1),
        Version::Two => small_at(json, "a"),
    }
}

/// The send that an object tells by its keys but `e`.
fn send_in(json: &Value, version: Version) -> Option<Event>
    ensures { result ≡ send_in version (view json.now) }
{
    match (
        attempt_in(json, version),
        small_at(json, "h"),
        small_at(json, "i"),
        whole_at(json, "t"),
    ) {
        (Some(attempt), Some(host), Some(item), Some(ticket)) => Some(Event::Send {
            host: HostNo(host),
            item,
            attempt,
            ticket: Ticket(ticket),
        }),
        _ => None,
    }
}

/// The forks that an object tells by its keys but `e`.
fn forks_in(json: &Value) -> Option<Event>
    ensures { result ≡ forks_in (view json.now) }
{
    match small_at(json, "n") {
        Some(forks) => Some(Event::Forks(forks)),
        None => None,
    }
}

/// The outcome of a report, if there is one.
fn outcome_at(alloc: Global, json: &Value) -> Result<Option<Outcome>, AllocError>
    ensures { IfOk result (λ o. o ≡ outcome_at (view json.now)) }
{
    match json.get("o") {
        Some(value) => match read_outcome(alloc, &Text::new(alloc), value) {
            Ok(outcome) => Ok(Some(outcome)),
            Err(OutcomeFault::Memory) => Err(AllocError),
            Err(_) => Ok(None),
        },
        None => Ok(None),
    }
}

/// The report that an object tells by its keys but `e`.
fn report_in(alloc: Global, json: &Value, version: Version) -> Result<Option<Event>, AllocError>
    ensures { IfOk result (λ e. e ≡ report_in version (view json.now)) }
{
    let outcome = outcome_at(alloc, json)?;
    match (
        attempt_in(json, version),
        small_at(json, "h"),
        small_at(json, "i"),
        outcome,
        whole_at(json, "t"),
    ) {
        (Some(attempt), Some(host), Some(item), Some(outcome), Some(ticket)) => {
            let report = Report {
                ticket: Ticket(ticket),
                host: HostNo(host),
                item,
                attempt,
                outcome,
            };
            Ok(Some(Event::Report(BoxedReport::new(alloc, report)?)))
        }
        _ => Ok(None),
    }
}

/// The event of this name.
fn event_named(
    alloc: Global,
    json: &Value,
    version: Version,
    name: EventName,
) -> Result<Option<Event>, AllocError>
    ensures { IfOk result (λ e. e ≡ event_named version (view json.now) name) }
{
    match name {
        EventName::Open => Ok(Some(Event::Open)),
        EventName::Start => Ok(start_in(json)),
        EventName::Send => Ok(send_in(json, version)),
        EventName::Report => report_in(alloc, json, version),
        EventName::Turn => Ok(Some(Event::Turn)),
        EventName::Close => Ok(Some(Event::Close)),
        EventName::Stop => Ok(Some(Event::Stop)),
        EventName::Forks => Ok(forks_in(json)),
    }
}

/// The event that a value is: an object with exactly the keys of an event of its name.
#[tactic(auto, unfolding(crate::specs::Reading::event_in))]
fn event_in(alloc: Global, json: &Value, version: Version) -> Result<Option<Event>, AllocError>
    ensures { IfOk result (λ e. e ≡ event_in version (view json.now)) }
{
    match name_in(json) {
        Some(name) if key_count(json) == name.keys(version) => {
            event_named(alloc, json, version, name)
        }
        _ => Ok(None),
    }
}

/// The JSON value that a line is, if it is one.
fn json_at(alloc: Global, line: &[u8]) -> Result<Option<Value>, AllocError>
    ensures { IfOk result (λ json. option_map view json ≡ json_in line.now) }
{
    match read_json(alloc, line) {
        Ok(json) => Ok(Some(json)),
        Err(JsonFault::NotJson) => Ok(None),
        Err(JsonFault::Memory) => Err(AllocError),
    }
}

/// The event that a line is, if it is one.
#[tactic(auto, unfolding(crate::specs::Reading::event_at))]
fn event_at(alloc: Global, line: &[u8], version: Version) -> Result<Option<Event>, AllocError>
    ensures { IfOk result (λ e. e ≡ event_at version line.now) }
{
    match json_at(alloc, line)? {
        Some(json) => event_in(alloc, &json, version),
        None => Ok(None),
    }
}

/// The version that a value tells: an object whose one key has its number.
fn version_in(json: &Value) -> Option<Version>
    ensures { result ≡ version_in (view json.now) }
{
    match whole_at(json, "trail") {
        Some(number) if key_count(json) == 1 => Version::of_number(number),
        _ => None,
    }
}

/// The version that the first line of a trail tells, if it is one.
#[tactic(auto, unfolding(crate::specs::Reading::version_at))]
fn version_at(alloc: Global, line: &[u8]) -> Result<Option<Version>, AllocError>
    ensures { IfOk result (λ version. version ≡ version_at line.now) }
{
    match json_at(alloc, line)? {
        Some(json) => Ok(version_in(&json)),
        None => Ok(None),
    }
}

/// The events of lines in this version; the first of the lines has this number.
fn events_in(
    alloc: Global,
    bytes: &[u8],
    version: Version,
    first: usize,
) -> Result<Trail, TrailFault>
    requires { first + length bytes.now < 2 ^ 64 }
    ensures value { IfOk result (λ trail. events_in version first (lines_of bytes.now) ≡ Ok trail.items) }
    ensures fault { IfErr result (λ e. e ≢ TrailFault.Memory → events_in version first (lines_of bytes.now) ≡ Err e) }
{
    let mut trail = Vec::new(alloc);
    let mut line_number = first;
    let mut rest = bytes;
    while let Some((line, after)) = first_line(rest) {
        match event_at(alloc, line, version)? {
            Some(event) => trail.push(event)?,
            None => return Err(TrailFault::BadLine { line: line_number }),
        }
        line_number += 1;
        rest = after;
    }
    Ok(trail)
}

/// The events that the text of a trail tells, in order. Its first line is `{"trail":1}` or `{"trail":2}`, which tells the version, and
/// each further one is an event: an object with exactly the keys of its form, `e` being its name. The form is this program's own.
///
/// | Line | Version | Event |
/// |---|---|---|
/// | `{"e":"open"}`, `{"e":"turn"}`, `{"e":"close"}`, `{"e":"stop"}` | 1, 2 | the one of that name |
/// | `{"e":"start","h":H}` | 1, 2 | the host H starts the task at its next place |
/// | `{"e":"send","h":H,"i":I,"t":T}` | 1 | the job of its item I goes out under the ticket T, as its first attempt |
/// | `{"a":A,"e":"send","h":H,"i":I,"t":T}` | 2 | the same, as the attempt A |
/// | `{"e":"report","h":H,"i":I,"o":O,"t":T}` | 1 | what came of such a job, which was the first attempt; O is an outcome as `read_outcome` reads it |
/// | `{"a":A,"e":"report","h":H,"i":I,"o":O,"t":T}` | 2 | the same, of the attempt A |
/// | `{"e":"forks","n":N}` | 1, 2 | from now on N hosts may run at once |
///
/// A, H, I and N are whole numbers below 2^32, and T is one below 2^64. Keys may stand in any order, with JSON's white space between;
/// of a key that stands twice the last value counts. Each line ends at an LF, which the last one needn't have; an empty line is
/// no event. Nothing is asked of the order of events: `audit` does that.
///
/// # Errors
/// `BadHeader` where the first line is another one or there is none, else `BadLine` with the number of the first line that is no
/// event, counted from 1, so that the first event stands on line 2; `Memory` where memory was refused.
#[tactic(auto, unfolding(crate::specs::Reading::trail_in))]
pub fn read_trail(alloc: Global, bytes: &[u8]) -> Result<Trail, TrailFault>
    ensures value { IfOk result (λ trail. trail_in bytes.now ≡ Ok trail.items) }
    ensures fault { IfErr result (λ e. e ≢ TrailFault.Memory → trail_in bytes.now ≡ Err e) }
{
    let Some((line, after)) = first_line(bytes) else {
        return Err(TrailFault::BadHeader);
    };
    match version_at(alloc, line)? {
        Some(version) => events_in(alloc, after, version, 2),
        None => Err(TrailFault::BadHeader),
    }
}
