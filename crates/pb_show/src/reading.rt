//! What stands in the JSON of an event.

ghost use Rattle.std.specs.Prelude.{◌≡◌, ◌-◌, length, map, drop, option_map, IfOk};
ghost use Rattle.serde_json.specs.View.{view, items_view, members_view};
ghost use Rattle.pb_value.specs.Bytes.{json_in};
ghost use Rattle.pb_show.specs.Reading.{kind_in, text_at, whole_at, small, small_at, is_true_at, message_of, message_in, code_in, list_of, texts_of, last_texts, lines_at, errors_in, ending_of, counted_at, item_in, where_in, ended_with, ended_in, len_at, play_in, task_in, notice_in, one_if, values_of, count_in, totals_of, totals_in};

use crate::ended::{Ended, Ending};
use crate::kind::{How, Kind};
use crate::notices::{Notice, Play, Task, Totals};
use pb_value::fault::ValFault;
use pb_value::from_json::from_json;
use pb_value::items::Items;
use pb_value::read_json::{JsonFault, read_json};
use pb_value::text::Text;
use serde_json::{Map, Value};
use std::alloc::{AllocError, Global};

/// How many lines of a program's errors are shown.
const MOST_ERRORS: usize = 10;

/// The JSON value that a line is, if it is one.
pub(crate) fn json_at(alloc: Global, line: &[u8]) -> Result<Option<Value>, AllocError>
    ensures { IfOk result (λ json. option_map view json ≡ json_in line.now) }
{
    match read_json(alloc, line) {
        Ok(json) => Ok(Some(json)),
        Err(JsonFault::NotJson) => Ok(None),
        Err(JsonFault::Memory) => Err(AllocError),
    }
}

/// What the event tells that an object is, if it is one.
pub(crate) fn kind_in(json: &Value) -> Option<Kind>
    ensures { result ≡ kind_in (view json.now) }
{
    match json.get("event") {
        Some(value) => match value.as_str() {
            Some(word) => Kind::of_word(word),
            None => None,
        },
        None => None,
    }
}

/// The text that stands at a key.
pub(crate) fn text_at(alloc: Global, json: &Value, key: &str) -> Result<Option<Text>, AllocError>
    ensures { IfOk result (λ text. text ≡ text_at key.now (view json.now)) }
{
    match json.get(key) {
        Some(value) => match value.as_str() {
            Some(text) => Ok(Some(Text::from_str(alloc, text)?)),
            None => Ok(None),
        },
        None => Ok(None),
    }
}

/// The whole number that stands at a key, which isn't below 0.
pub(crate) fn whole_at(json: &Value, key: &str) -> Option<u64>
    ensures { result ≡ whole_at key.now (view json.now) }
{
    match json.get(key) {
        Some(value) => value.as_u64(),
        None => None,
    }
}

/// A whole number below 2^32.
fn small(number: u64) -> Option<u32>
    ensures { result ≡ small number }
{
    if number <= 0xffff_ffff {
        Some(number as u32)
    } else {
        None
    }
}

/// The whole number below 2^32 that stands at a key.
fn small_at(json: &Value, key: &str) -> Option<u32>
    ensures { result ≡ small_at key.now (view json.now) }
{
    match whole_at(json, key) {
        Some(number) => small(number),
        None => None,
    }
}

/// Whether true stands at a key.
fn is_true_at(json: &Value, key: &str) -> bool
    ensures { result ≡ is_true_at key.now (view json.now) }
{
    match json.get(key) {
        Some(value) => match value.as_bool() {
            Some(is_true) => is_true,
            None => false,
        },
        None => false,
    }
}

/// The text of a value: a text itself, and nothing for what is no value of a playbook, as `1.5`.
fn message_of(alloc: Global, json: &Value) -> Result<Text, AllocError>
    ensures { IfOk result (λ text. text ≡ message_of (view json.now)) }
{
    match from_json(alloc, json) {
        Ok(value) => Ok(Text::from_string(value.text_of(alloc)?)),
        Err(ValFault::Memory) => Err(AllocError),
        Err(_) => Ok(Text::new(alloc)),
    }
}

/// What a result says, or nothing.
fn message_in(alloc: Global, result_json: &Value) -> Result<Text, AllocError>
    ensures { IfOk result (λ text. text ≡ message_in (view result_json.now)) }
{
    match result_json.get("msg") {
        Some(value) => message_of(alloc, value),
        None => Ok(Text::new(alloc)),
    }
}

/// The status of the program, of a failure that tells one.
fn code_in(how: How, result_json: &Value) -> Option<i64>
    ensures { result ≡ code_in how (view result_json.now) }
{
    match (how, result_json.get("rc")) {
        (How::Failed | How::Again, Some(value)) => value.as_i64(),
        _ => None,
    }
}

/// The texts among values, in order.
fn texts_of(alloc: Global, values: &[Value]) -> Result<Items<Text>, AllocError>
    ensures { IfOk result (λ texts. texts ≡ texts_of (map view values.now)) }
{
    let mut texts = Items::new(alloc);
    for value in values {
        if let Some(text) = value.as_str() {
            texts.push(Text::from_str(alloc, text)?)?;
        }
    }
    Ok(texts)
}

/// The last values, at most 10.
fn last_of(values: &[Value]) -> &[Value]
    ensures { result.now ≡ drop (length values.now - 10) values.now }
{
    &values[values.len().saturating_sub(MOST_ERRORS)..]
}

/// The texts among the last values, at most 10.
fn last_texts(alloc: Global, values: &Vec<Value>) -> Result<Items<Text>, AllocError>
    ensures { IfOk result (λ texts. texts ≡ last_texts (list_of (items_view values.now.items))) }
{
    texts_of(alloc, last_of(values.as_slice()))
}

/// The texts among the last values of the list at a key, if one stands there: at most 10.
fn lines_at(alloc: Global, json: &Value, key: &str) -> Result<Items<Text>, AllocError>
    ensures { IfOk result (λ texts. texts ≡ lines_at key.now (view json.now)) }
{
    match json.get(key) {
        Some(value) => match value.as_array() {
            Some(values) => last_texts(alloc, values),
            None => Ok(Items::new(alloc)),
        },
        None => Ok(Items::new(alloc)),
    }
}

/// The last lines of the program's errors, of a failure: at most 10.
fn errors_in(alloc: Global, how: How, result_json: &Value) -> Result<Items<Text>, AllocError>
    ensures { IfOk result (λ texts. texts ≡ errors_in how (view result_json.now)) }
{
    match how {
        How::Failed => lines_at(alloc, result_json, "stderr_lines"),
        How::Ok | How::Skipped | How::Unreachable | How::Again => Ok(Items::new(alloc)),
    }
}

/// How a task ended.
fn ending_of(how: How, is_changed: bool, is_ignored: bool) -> Ending
    ensures { result ≡ ending_of how is_changed is_ignored }
{
    match how {
        How::Ok => {
            if is_changed {
                Ending::Changed
            } else {
                Ending::Well
            }
        }
        How::Failed => {
            if is_ignored {
                Ending::Ignored
            } else {
                Ending::Failed
            }
        }
        How::Skipped => Ending::Skipped,
        How::Unreachable => Ending::Lost,
        How::Again => Ending::Retried,
    }
}

/// Where a task ended, and of which item it was.
#[derive(Drop)]
struct Where {
    host: Text,
    place: Text,
    item: Option<u64>,
}

/// The key of the number that an item's event has, or an attempt's.
fn counted_at(how: How) -> &'static str
    ensures { result.now ≡ counted_at how }
{
    match how {
        How::Ok | How::Failed | How::Skipped | How::Unreachable => "item",
        How::Again => "attempt",
    }
}

/// The number at this key, of an item's event, or of an attempt's.
fn item_in(is_item: bool, key: &str, json: &Value) -> Option<Option<u64>>
    ensures { result ≡ item_in is_item key.now (view json.now) }
{
    if !is_item {
        return Some(None);
    }
    match whole_at(json, key) {
        Some(number) => Some(Some(number)),
        None => None,
    }
}

/// The host and the place of an event.
fn where_in(
    alloc: Global,
    is_item: bool,
    key: &str,
    json: &Value,
) -> Result<Option<Where>, AllocError>
    ensures { IfOk result (λ spot. spot ≡ where_in is_item key.now (view json.now)) }
{
    let host = text_at(alloc, json, "host")?;
    let place = text_at(alloc, json, "place")?;
    match (host, place, item_in(is_item, key, json)) {
        (Some(host), Some(place), Some(item)) => Ok(Some(Where { host, place, item })),
        _ => Ok(None),
    }
}

/// How a task ended that has this result.
fn ended_with(
    alloc: Global,
    how: How,
    spot: Where,
    is_ignored: bool,
    result_json: &Value,
) -> Result<Ended, AllocError>
    ensures { IfOk result (λ ended. ended ≡ ended_with how spot is_ignored (view result_json.now)) }
{
    let message = message_in(alloc, result_json)?;
    let errors = errors_in(alloc, how, result_json)?;
    let Where { host, place, item } = spot;
    Ok(Ended {
        ending: ending_of(how, is_true_at(result_json, "changed"), is_ignored),
        host,
        place,
        item,
        message,
        code: code_in(how, result_json),
        errors,
    })
}

/// How a task, or an item of it, ended, as the event says that an object is.
pub(crate) fn ended_in(
    alloc: Global,
    how: How,
    is_item: bool,
    json: &Value,
) -> Result<Option<Ended>, AllocError>
    ensures { IfOk result (λ ended. ended ≡ ended_in how is_item (view json.now)) }
{
    let Some(result_json) = json.get("result") else {
        return Ok(None);
    };
    let Some(spot) = where_in(alloc, is_item, counted_at(how), json)? else {
        return Ok(None);
    };
    let is_ignored = is_true_at(json, "ignored");
    Ok(Some(ended_with(alloc, how, spot, is_ignored, result_json)?))
}

/// How many values there are.
fn len_of(values: &Vec<Value>) -> u64
    ensures { result ≡ length (list_of (items_view values.now.items)) }
{
    values.len() as u64
}

/// How many values stand in the list at a key; 0 where there is none.
fn len_at(json: &Value, key: &str) -> u64
    ensures { result ≡ len_at key.now (view json.now) }
{
    match json.get(key) {
        Some(value) => match value.as_array() {
            Some(values) => len_of(values),
            None => 0,
        },
        None => 0,
    }
}

/// The batch of a play that starts.
pub(crate) fn play_in(alloc: Global, json: &Value) -> Result<Option<Play>, AllocError>
    ensures { IfOk result (λ play. play ≡ play_in (view json.now)) }
{
    let name = text_at(alloc, json, "name")?;
    match (name, small_at(json, "batch")) {
        (Some(name), Some(batch)) => Ok(Some(Play {
            name,
            batch,
            hosts: len_at(json, "hosts"),
        })),
        _ => Ok(None),
    }
}

/// The task or the handler that starts.
pub(crate) fn task_in(
    alloc: Global,
    is_handler: bool,
    json: &Value,
) -> Result<Option<Task>, AllocError>
    ensures { IfOk result (λ task. task ≡ task_in is_handler (view json.now)) }
{
    let name = text_at(alloc, json, "name")?;
    let place = text_at(alloc, json, "place")?;
    match (place, name) {
        (Some(place), Some(name)) => Ok(Some(Task {
            place,
            name,
            is_handler,
        })),
        _ => Ok(None),
    }
}

/// The handler that was notified.
pub(crate) fn notice_in(alloc: Global, json: &Value) -> Result<Option<Notice>, AllocError>
    ensures { IfOk result (λ notice. notice ≡ notice_in (view json.now)) }
{
    let handler = text_at(alloc, json, "handler")?;
    let host = text_at(alloc, json, "host")?;
    match (handler, host) {
        (Some(handler), Some(host)) => Ok(Some(Notice { handler, host })),
        _ => Ok(None),
    }
}

/// 1 where more than 0 stands at a key of a host's counts, else 0.
fn one_if(json: &Value, key: &str) -> u64
    ensures { result ≡ one_if key.now (view json.now) }
{
    match whole_at(json, key) {
        Some(0) | None => 0,
        Some(_) => 1,
    }
}

/// Of how many hosts more than 0 stands at a key of their counts.
fn count_at(hosts: &Map<String, Value>, key: &str) -> u64
    ensures { result ≡ count_in key.now (values_of (members_view hosts.now.entries)) }
{
    let _most = hosts.len();
    let mut count = 0;
    for (_, counts) in hosts.iter() {
        count += one_if(counts, key);
    }
    count
}

/// The hosts of the statistics, and how many of them failed or were out of reach.
fn totals_of(hosts: &Map<String, Value>) -> Totals
    ensures { result ≡ totals_of (members_view hosts.now.entries) }
{
    Totals {
        hosts: hosts.len() as u64,
        failed: count_at(hosts, "failed"),
        unreachable: count_at(hosts, "unreachable"),
    }
}

/// The hosts of the statistics that an object tells, if it does.
pub(crate) fn totals_in(json: &Value) -> Option<Totals>
    ensures { result ≡ totals_in (view json.now) }
{
    match json.get("stats") {
        Some(value) => match value.as_object() {
            Some(hosts) => Some(totals_of(hosts)),
            None => None,
        },
        None => None,
    }
}
