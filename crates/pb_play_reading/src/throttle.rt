ghost use Rattle.std.specs.Prelude.{◌≡◌};
ghost use Rattle.pb_play_reading.specs.Throttles.{limit_of, throttle};

use pb_reading::reads::Reads;
use pb_reading::stop::{Stop, required, wrong};
use pb_value::text::Text;
use pb_written::fault::LoadFault;
use serde_json::Value;
use std::alloc::Global;

/// How many hosts a number lets run at once.
fn limit_of(number: i64) -> Option<u32>
    ensures { result ≡ limit_of number }
{
    match u64::try_from(number) {
        Ok(hosts) => Some(hosts.min(0xffff_ffff) as u32),
        Err(_) => None,
    }
}

/// Reads how many hosts may run a task at once; 0 is any number.
pub(crate) struct Throttle;

impl Reads<LoadFault> for Throttle {
    type Value = u32;

    ghost reads = { throttle };

    fn read(_alloc: Global, path: &Text, json: &Value) -> Result<u32, Stop<LoadFault>> {
        match json {
            Value::Number(number) => match number.as_i64() {
                Some(number) => required(path, limit_of(number)),
                None => wrong(path),
            },
            _ => wrong(path),
        }
    }
}
