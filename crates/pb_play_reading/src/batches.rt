ghost use Rattle.std.specs.Prelude.{◌≡◌, ◌==◌, position};
ghost use Rattle.serde_json.specs.View.{view};
ghost use Rattle.pb_play_reading.specs.Batches.{hosts_of, part_of, entry_of, entry_in, entry, serial};

use pb_batches::{Entry, Serial};
use pb_patterns::number::number;
use pb_reading::list::read_each;
use pb_reading::reads::Reads;
use pb_reading::stop::Stop;
use pb_value::text::Text;
use pb_written::fault::LoadFault;
use serde_json::Value;
use std::alloc::Global;

/// Where the first `%` stands.
fn percent_at(bytes: &[u8]) -> Option<usize>
    ensures { result ≡ position (λ b. b == 37) bytes.now }
{
    bytes.iter().position(|byte| *byte == b'%')
}

/// So many hosts, as digits tell them.
fn hosts_of(digits: &[u8]) -> Option<Entry>
    ensures { result ≡ hosts_of digits.now }
{
    match number(digits) {
        Some(hosts) => Some(Entry::Number(i64::from(hosts))),
        None => None,
    }
}

/// So many hundredths of the hosts, as digits tell them.
fn part_of(digits: &[u8]) -> Option<Entry>
    ensures { result ≡ part_of digits.now }
{
    match number(digits) {
        Some(percent) => Some(Entry::Percent(percent)),
        None => None,
    }
}

/// The size of a batch that a text spells: digits, perhaps with `%` behind them.
fn entry_of(bytes: &[u8]) -> Option<Entry>
    ensures { result ≡ entry_of bytes.now }
{
    match percent_at(bytes) {
        Some(at) => match &bytes[at + 1..] {
            [] => part_of(&bytes[..at]),
            _ => None,
        },
        None => hosts_of(bytes),
    }
}

/// The size of a batch, if this is one.
fn entry_in(json: &Value) -> Option<Entry>
    ensures { result ≡ entry_in (view json.now) }
{
    match json {
        Value::Number(number) => match number.as_i64() {
            Some(hosts) => Some(Entry::Number(hosts)),
            None => None,
        },
        Value::String(text) => entry_of(text.as_bytes()),
        _ => None,
    }
}

/// Reads the size of a batch.
struct Size;

impl Reads<LoadFault> for Size {
    type Value = Entry;

    ghost reads = { entry };

    fn read(_alloc: Global, path: &Text, json: &Value) -> Result<Entry, Stop<LoadFault>> {
        match entry_in(json) {
            Some(entry) => Ok(entry),
            None => {
                let path = path.try_clone()?;
                Err(Stop::Fault(LoadFault::BadSerial { path }))
            }
        }
    }
}

/// Reads the sizes of a play's batches: one, or a list of them.
pub(crate) struct Sizes;

impl Reads<LoadFault> for Sizes {
    type Value = Serial;

    ghost reads = { serial };

    fn read(alloc: Global, path: &Text, json: &Value) -> Result<Serial, Stop<LoadFault>> {
        match json {
            Value::Array(items) => {
                let entries = read_each::<LoadFault, Size>(alloc, path, items.as_slice())?;
                Ok(Serial { entries })
            }
            _ => {
                let entry = Size::read(alloc, path, json)?;
                Ok(Serial::of(alloc, entry)?)
            }
        }
    }
}
