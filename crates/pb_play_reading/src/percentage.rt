ghost use Rattle.std.specs.Prelude.{◌≡◌};
ghost use Rattle.pb_play_reading.specs.Percentages.{percentage_of, percentage};

use pb_reading::reads::Reads;
use pb_reading::stop::{Stop, required, wrong};
use pb_value::text::Text;
use pb_written::fault::LoadFault;
use serde_json::Value;
use std::alloc::Global;

/// How many hosts in a hundred a number is.
fn percentage_of(number: i64) -> Option<u32>
    ensures { result ≡ percentage_of number }
{
    match u64::try_from(number) {
        Ok(hosts) if hosts <= 100 => Some(hosts as u32),
        _ => None,
    }
}

/// Reads how many hosts in a hundred may fail: 0 to 100.
pub(crate) struct Percentage;

impl Reads<LoadFault> for Percentage {
    type Value = u32;

    ghost reads = { percentage };

    fn read(_alloc: Global, path: &Text, json: &Value) -> Result<u32, Stop<LoadFault>> {
        match json {
            Value::Number(number) => match number.as_i64() {
                Some(number) => required(path, percentage_of(number)),
                None => wrong(path),
            },
            _ => wrong(path),
        }
    }
}
