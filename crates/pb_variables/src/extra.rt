ghost use Rattle.std.specs.Prelude.{◌≡◌, ◌≢◌, IfOk, IfErr, Ok, Err};
ghost use Rattle.serde_json.specs.View.{view};
ghost use Rattle.pb_variables.specs.Extra.{variable, variables_in, extra_of};

use crate::fault::ExtraFault;
use pb_reading::list::EachNamed;
use pb_reading::reads::Reads;
use pb_reading::stop::{Stop, wrong};
use pb_value::fault::ValFault;
use pb_value::from_json::from_json;
use pb_value::read_json::{JsonFault, read_json};
use pb_value::text::Text;
use pb_value::val::{Dict, Val};
use pb_value::words::is_name;
use serde_json::Value;
use std::alloc::Global;

/// The extra variables that the bytes of a file spell, or the first fault in them: a JSON object
/// whose keys are names of variables, with values that nest at most 64 deep. The keys are looked at
/// in byte order, each before its value. Texts are kept as they stand: whether they are templates is
/// looked at when they are read.
#[tactic(auto, unfolding(crate::specs::Extra::extra_of))]
pub fn read_extra(alloc: Global, bytes: &[u8]) -> Result<Dict, ExtraFault>
    ensures value { IfOk result (λ extra. extra_of bytes.now ≡ Ok extra) }
    ensures fault { IfErr result (λ e. e ≢ ExtraFault.Memory → extra_of bytes.now ≡ Err e) }
{
    match read_json(alloc, bytes) {
        Ok(json) => read_variables(alloc, &json),
        Err(JsonFault::NotJson) => Err(ExtraFault::NotJson),
        Err(JsonFault::Memory) => Err(ExtraFault::Memory),
    }
}

fn read_variables(alloc: Global, json: &Value) -> Result<Dict, ExtraFault>
    ensures value { IfOk result (λ extra. variables_in (view json.now) ≡ Ok extra) }
    ensures fault { IfErr result (λ e. e ≢ ExtraFault.Memory → variables_in (view json.now) ≡ Err e) }
{
    match EachNamed::<Variable>::read(alloc, &Text::new(alloc), json) {
        Ok(extra) => Ok(extra),
        Err(Stop::Memory) => Err(ExtraFault::Memory),
        Err(Stop::WrongShape { path }) => Err(ExtraFault::WrongShape { path }),
        Err(Stop::Fault(fault)) => Err(fault),
    }
}

/// Reads a variable of the whole file, where its key is its path: that has to be a name.
struct Variable;

impl Reads<ExtraFault> for Variable {
    type Value = Val;

    ghost reads = { variable };

    fn read(alloc: Global, path: &Text, json: &Value) -> Result<Val, Stop<ExtraFault>> {
        if !is_name(path.as_str()) {
            return wrong(path);
        }
        match from_json(alloc, json) {
            Ok(value) => Ok(value),
            Err(ValFault::Memory) => Err(Stop::Memory),
            Err(_) => wrong(path),
        }
    }
}
