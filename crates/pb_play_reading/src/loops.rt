ghost use Rattle.std.specs.Prelude.{◌≡◌};
ghost use Rattle.serde_json.specs.View.{view};
ghost use Rattle.pb_reading.specs.Reading.{Gives};
ghost use Rattle.pb_play_reading.specs.Loops.{over, control, looped};

use crate::other_keys::NoArguments;
use pb_play::loops::Loop;
use pb_prepared::prepared::Prepared;
use pb_reading::keys::Keys;
use pb_reading::reads::Reads;
use pb_reading::stop::{Stop, wrong};
use pb_value::text::Text;
use pb_written::fault::LoadFault;
use pb_written::simple::VariableName;
use pb_written::values::TemplateValue;
use serde_json::Value;
use std::alloc::Global;

/// Reads what a task is repeated over.
pub(crate) struct Over;

impl Reads<LoadFault> for Over {
    type Value = Prepared;

    ghost reads = { over };

    fn read(alloc: Global, path: &Text, json: &Value) -> Result<Prepared, Stop<LoadFault>> {
        match json {
            Value::Array(_) | Value::String(_) => {
                let over = TemplateValue::read(alloc, path, json)?;
                Ok(Prepared::of(alloc, over))
            }
            _ => wrong(path),
        }
    }
}

/// Reads how a task is repeated: the name under which a member of the list is seen.
pub(crate) struct Control;

impl Reads<LoadFault> for Control {
    type Value = Text;

    ghost reads = { control };

    fn read(alloc: Global, path: &Text, json: &Value) -> Result<Text, Stop<LoadFault>> {
        let Value::Object(members) = json else {
            return wrong(path);
        };
        let mut keys = Keys::of(path, members, NoArguments);
        keys.value_at(alloc, "label")?;
        let variable = keys.field::<VariableName>(alloc, "loop_var")?;
        keys.others(alloc)?;
        match variable {
            Some(variable) => Ok(variable),
            None => Ok(Text::from_str(alloc, "item")?),
        }
    }
}

/// The loop over this, if there is one.
pub(crate) fn looped(over: Option<Prepared>, variable: Text) -> Option<Loop>
    ensures { result ≡ looped over variable }
{
    match over {
        Some(over) => Some(Loop { over, variable }),
        None => {
            drop(variable);
            None
        }
    }
}
