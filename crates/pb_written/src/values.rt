ghost use Rattle.serde_json.specs.View.{view};
ghost use Rattle.pb_reading.specs.Reading.{Gives};
ghost use Rattle.pb_written.specs.Values.{plain_value, template_value, template_text};

use crate::fault::{LoadFault, no_expression};
use crate::templates::{are_templates, is_template};
use pb_reading::reads::Reads;
use pb_reading::stop::{Stop, wrong};
use pb_value::fault::ValFault;
use pb_value::from_json::from_json;
use pb_value::text::Text;
use pb_value::val::Val;
use serde_json::Value;
use std::alloc::Global;

/// Reads a value, whatever its texts are.
pub struct PlainValue;

impl Reads<LoadFault> for PlainValue {
    type Value = Val;

    ghost reads = { plain_value };

    fn read(alloc: Global, path: &Text, json: &Value) -> Result<Val, Stop<LoadFault>> {
        match from_json(alloc, json) {
            Ok(value) => Ok(value),
            Err(ValFault::Memory) => Err(Stop::Memory),
            Err(_) => wrong(path),
        }
    }
}

/// Reads a value whose texts are templates, as it is written.
pub struct TemplateValue;

impl Reads<LoadFault> for TemplateValue {
    type Value = Val;

    ghost reads = { template_value };

    fn read(alloc: Global, path: &Text, json: &Value) -> Result<Val, Stop<LoadFault>> {
        let value = PlainValue::read(alloc, path, json)?;
        if are_templates(alloc, json)? {
            Ok(value)
        } else {
            no_expression(path)
        }
    }
}

/// Reads a text that is a template, as it is written.
pub struct TemplateText;

impl Reads<LoadFault> for TemplateText {
    type Value = Text;

    ghost reads = { template_text };

    fn read(alloc: Global, path: &Text, json: &Value) -> Result<Text, Stop<LoadFault>> {
        match json {
            Value::String(text) => {
                if is_template(alloc, text.as_str())? {
                    Ok(Text::from_str(alloc, text.as_str())?)
                } else {
                    no_expression(path)
                }
            }
            _ => wrong(path),
        }
    }
}
