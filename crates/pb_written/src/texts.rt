ghost use Rattle.pb_written.specs.Texts.{texts};

use crate::fault::LoadFault;
use pb_reading::list::read_each;
use pb_reading::reads::Reads;
use pb_reading::simple::PlainText;
use pb_reading::stop::{Stop, wrong};
use pb_value::items::Items;
use pb_value::text::Text;
use serde_json::Value;
use std::alloc::Global;

/// Reads a text, or the texts of a list.
pub struct Texts;

impl Reads<LoadFault> for Texts {
    type Value = Items<Text>;

    ghost reads = { texts };

    fn read(alloc: Global, path: &Text, json: &Value) -> Result<Items<Text>, Stop<LoadFault>> {
        match json {
            Value::String(text) => {
                let mut texts = Items::new(alloc);
                texts.push(Text::from_str(alloc, text.as_str())?)?;
                Ok(texts)
            }
            Value::Array(items) => read_each::<LoadFault, PlainText>(alloc, path, items.as_slice()),
            _ => wrong(path),
        }
    }
}
