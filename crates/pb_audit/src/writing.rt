//! The text of a trail.

ghost use Rattle.std.specs.Prelude.{◌≡◌, ◌<◌, ◌^◌, IfOk, Ok, codes};
ghost use Rattle.serde_json.specs.Data.{string, member, no_members};
ghost use Rattle.serde_json.specs.View.{view, members_view};
ghost use Rattle.pb_state.specs.declared.event.Event.TheVariants.{Start, Send, Report as Reported, Forks};
ghost use Rattle.pb_audit.specs.Names.{word_of};
ghost use Rattle.pb_audit.specs.Reading.{trail_in};
ghost use Rattle.pb_audit.specs.Writing.{whole, event_json, line, trail_text, IsInRange, IsReadBack};

use crate::name::EventName;
use pb_ids::{HostNo, Ticket};
use pb_outcome::job::Report;
use pb_outcome::writing::outcome_to_json;
use pb_state::Event;
use serde_json::{Map, Value, put};
use std::alloc::{AllocError, Global};

/// A number as JSON. Its clause `range` is for a number that stands behind a reference.
fn number(number: u32) -> Value
    ensures json { view result ≡ whole number }
    ensures range { number < 2 ^ 32 }
{
    Value::from(number)
}

/// An object with the name of an event alone.
fn named(alloc: Global, name: EventName) -> Result<Map<String, Value>, AllocError>
    ensures { IfOk result (λ m. members_view m.entries ≡ member (codes "e") (string (word_of name)) no_members) }
{
    let mut members = Map::new(alloc);
    put(
        &mut members,
        alloc,
        "e",
        Value::try_from_str(alloc, name.word())?,
    )?;
    Ok(members)
}

/// An object with an attempt and the name of an event alone. Its clause `range` is for an attempt that stands behind a reference.
fn attempted(alloc: Global, attempt: u32, name: EventName) -> Result<Map<String, Value>, AllocError>
    ensures members { IfOk result (λ m. members_view m.entries ≡ member (codes "a") (whole attempt) (member (codes "e") (string (word_of name)) no_members)) }
    ensures range { attempt < 2 ^ 32 }
{
    let mut members = Map::new(alloc);
    put(&mut members, alloc, "a", number(attempt))?;
    put(
        &mut members,
        alloc,
        "e",
        Value::try_from_str(alloc, name.word())?,
    )?;
    Ok(members)
}

/// A start as JSON.
fn start_json(alloc: Global, host: HostNo) -> Result<Value, AllocError>
    ensures json { IfOk result (λ j. view j ≡ event_json (Start host)) }
    ensures range { IfOk result (λ _. IsInRange (Start host)) }
{
    let mut members = named(alloc, EventName::Start)?;
    put(&mut members, alloc, "h", number(host.0))?;
    Ok(Value::Object(members))
}

/// A send as JSON.
fn send_json(
    alloc: Global,
    host: HostNo,
    item: u32,
    attempt: u32,
    ticket: Ticket,
) -> Result<Value, AllocError>
    ensures json { IfOk result (λ j. view j ≡ event_json (Send host item attempt ticket)) }
    ensures range { IfOk result (λ _. IsInRange (Send host item attempt ticket)) }
{
    let mut members = attempted(alloc, attempt, EventName::Send)?;
    put(&mut members, alloc, "h", number(host.0))?;
    put(&mut members, alloc, "i", number(item))?;
    put(&mut members, alloc, "t", Value::from(ticket.0))?;
    Ok(Value::Object(members))
}

/// A report as JSON.
fn report_json(alloc: Global, report: &Report) -> Result<Value, AllocError>
    ensures json { IfOk result (λ j. view j ≡ event_json (Reported report.now)) }
    ensures range { IfOk result (λ _. IsInRange (Reported report.now)) }
{
    // Asked for its clauses alone: the texts of an outcome aren't long, and its value isn't deep.
    let _form = report.outcome.form();
    let mut members = attempted(alloc, report.attempt, EventName::Report)?;
    put(&mut members, alloc, "h", number(report.host.0))?;
    put(&mut members, alloc, "i", number(report.item))?;
    put(
        &mut members,
        alloc,
        "o",
        outcome_to_json(alloc, &report.outcome)?,
    )?;
    put(&mut members, alloc, "t", Value::from(report.ticket.0))?;
    Ok(Value::Object(members))
}

/// Other forks as JSON.
fn forks_json(alloc: Global, forks: u32) -> Result<Value, AllocError>
    ensures json { IfOk result (λ j. view j ≡ event_json (Forks forks)) }
    ensures range { IfOk result (λ _. IsInRange (Forks forks)) }
{
    let mut members = named(alloc, EventName::Forks)?;
    put(&mut members, alloc, "n", number(forks))?;
    Ok(Value::Object(members))
}

/// An event as JSON.
fn event_json(alloc: Global, event: &Event) -> Result<Value, AllocError>
    ensures json { IfOk result (λ j. view j ≡ event_json event.now) }
    ensures range { IfOk result (λ _. IsInRange event.now) }
{
    match event {
        Event::Start(host) => start_json(alloc, *host),
        Event::Send {
            host,
            item,
            attempt,
            ticket,
        } => send_json(alloc, *host, *item, *attempt, *ticket),
        Event::Report(report) => report_json(alloc, report),
        Event::Forks(forks) => forks_json(alloc, *forks),
        Event::Open | Event::Turn | Event::Close | Event::Stop => {
            Ok(Value::Object(named(alloc, EventName::of(event))?))
        }
    }
}

/// The line of an event, with the LF that ends it.
#[tactic(auto, unfolding(crate::specs::Writing::line))]
fn line(alloc: Global, event: &Event) -> Result<Vec<u8>, AllocError>
    ensures text { IfOk result (λ bytes. bytes.items ≡ line event.now) }
    ensures read { IfOk result (λ _. IsReadBack event.now) }
{
    let json = event_json(alloc, event)?;
    let mut bytes = json.to_vec(alloc)?;
    bytes.push(b'\n')?;
    Ok(bytes)
}

/// The text of a trail, which `read_trail` reads as the same events: the line `{"trail":2}`, and a line for each event, in order.
/// Each is one compact JSON object with its keys in byte order, and ends in an LF. The form is this program's own; `read_trail`
/// has the table of the lines.
///
/// # Errors
/// `AllocError` where memory was refused.
pub fn trail_text(alloc: Global, trail: &[Event]) -> Result<Vec<u8>, AllocError>
    ensures text { IfOk result (λ text. text.items ≡ trail_text trail.now) }
    ensures reads_back { IfOk result (λ text. trail_in text.items ≡ Ok trail.now) }
{
    let mut text = Vec::from_slice(alloc, b"{\"trail\":2}\n")?;
    for event in trail {
        text.extend_from_slice(line(alloc, event)?.as_slice())?;
    }
    Ok(text)
}
