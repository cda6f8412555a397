ghost use Rattle.serde_json.specs.View.{view};
ghost use Rattle.pb_reading.specs.Reading.{Gives, Own};
ghost use Rattle.pb_play_reading.specs.Strategies.{strategy_of, strategy};
ghost use Rattle.pb_written.specs.declared.fault.LoadFault.TheVariants.{BadStrategy};

use pb_reading::reads::Reads;
use pb_reading::stop::Stop;
use pb_strategies::Strategy;
use pb_value::text::Text;
use pb_written::fault::LoadFault;
use serde_json::Value;
use std::alloc::Global;

/// The strategy of this name.
fn strategy_of(path: &Text, name: &str) -> Result<Strategy, Stop<LoadFault>>
    ensures { Gives result (strategy_of path.now name.now) }
{
    if name == "free" {
        Ok(Strategy::Free)
    } else if name == "host_pinned" {
        Ok(Strategy::HostPinned)
    } else if name == "linear" {
        Ok(Strategy::Linear)
    } else {
        bad_strategy(path)
    }
}

/// What stands at the path is no strategy.
fn bad_strategy(path: &Text) -> Result<Strategy, Stop<LoadFault>>
    ensures { Gives result (Err (Own (BadStrategy path.now))) }
{
    let path = path.try_clone()?;
    Err(Stop::Fault(LoadFault::BadStrategy { path }))
}

/// Reads the name of a strategy.
pub(crate) struct StrategyName;

impl Reads<LoadFault> for StrategyName {
    type Value = Strategy;

    ghost reads = { strategy };

    fn read(_alloc: Global, path: &Text, json: &Value) -> Result<Strategy, Stop<LoadFault>> {
        match json {
            Value::String(name) => strategy_of(path, name.as_str()),
            _ => bad_strategy(path),
        }
    }
}
