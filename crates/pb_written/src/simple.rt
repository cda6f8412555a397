ghost use Rattle.pb_written.specs.Simple.{switched, variable_name};

use pb_reading::reads::Reads;
use pb_reading::stop::{Stop, wrong};
use pb_value::text::Text;
use pb_value::words::{is_name, switch};
use serde_json::Value;
use std::alloc::Global;

/// Reads a switch: whether it is on.
pub struct Switch;

impl<F> Reads<F> for Switch {
    type Value = bool;

    ghost reads = { switched };

    fn read(_alloc: Global, path: &Text, json: &Value) -> Result<bool, Stop<F>> {
        match switch(json) {
            Some(on) => Ok(on),
            None => wrong(path),
        }
    }
}

/// Reads a text that may name a variable.
pub struct VariableName;

impl<F> Reads<F> for VariableName {
    type Value = Text;

    ghost reads = { variable_name };

    fn read(alloc: Global, path: &Text, json: &Value) -> Result<Text, Stop<F>> {
        match json {
            Value::String(text) if is_name(text.as_str()) => {
                Ok(Text::from_str(alloc, text.as_str())?)
            }
            _ => wrong(path),
        }
    }
}
