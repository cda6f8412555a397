ghost use Rattle.serde_json.specs.View.{view};
ghost use Rattle.pb_reading.specs.Reading.{Gives};
ghost use Rattle.pb_play_reading.specs.Facts.{one_more_fact, set_fact, setup};

use crate::other_keys::NoArguments;
use pb_play::modules::Module;
use pb_prepared::dict::PreparedDict;
use pb_reading::keys::{Keys, Others};
use pb_reading::reads::Reads;
use pb_reading::stop::{Stop, wrong};
use pb_value::text::Text;
use pb_value::val::Dict;
use pb_value::words::is_name;
use pb_written::fault::{LoadFault, not_in_profile};
use pb_written::values::TemplateValue;
use serde_json::Value;
use std::alloc::Global;

/// The facts that the arguments of `set_fact` name.
#[derive(Drop)]
struct Facts {
    facts: Dict,
}

impl Others for Facts {
    type Fault = LoadFault;

    ghost tells = { one_more_fact };

    fn tell(
        &mut self,
        alloc: Global,
        path: &Text,
        key: &str,
        json: &Value,
    ) -> Result<(), Stop<LoadFault>> {
        if key == "cacheable" {
            return not_in_profile(alloc, path, key);
        }
        if !is_name(key) {
            return wrong(path);
        }
        let value = TemplateValue::read(alloc, path, json)?;
        self.facts.put(alloc, key, value)?;
        Ok(())
    }
}

/// The module `set_fact` with its arguments.
pub(crate) fn read_set_fact(
    alloc: Global,
    path: &Text,
    json: &Value,
) -> Result<Module, Stop<LoadFault>>
    ensures { Gives result (set_fact path.now (view json.now)) }
{
    let Value::Object(members) = json else {
        return wrong(path);
    };
    let none = Facts {
        facts: Dict::new(alloc),
    };
    let Facts { facts } = Keys::of(path, members, none).others(alloc)?;
    let facts = PreparedDict::of(alloc, facts);
    Ok(Module::SetFact { facts })
}

/// The module `setup`, which has no arguments.
pub(crate) fn read_setup(
    alloc: Global,
    path: &Text,
    json: &Value,
) -> Result<Module, Stop<LoadFault>>
    ensures { Gives result (setup path.now (view json.now)) }
{
    let Value::Object(members) = json else {
        return wrong(path);
    };
    Keys::of(path, members, NoArguments).others(alloc)?;
    Ok(Module::Setup)
}
