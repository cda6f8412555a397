ghost use Rattle.std.specs.Prelude.{◌≡◌};
ghost use Rattle.serde_json.specs.View.{view};
ghost use Rattle.pb_reading.specs.Reading.{Gives};
ghost use Rattle.pb_play_reading.specs.Debug.{expression, shown, debug};

use crate::other_keys::NoArguments;
use pb_expr_syntax::tree::Expr;
use pb_play::modules::Module;
use pb_prepared::prepared::Prepared;
use pb_reading::keys::Keys;
use pb_reading::reads::Reads;
use pb_reading::stop::{Stop, wrong};
use pb_value::text::Text;
use pb_value::val::Val;
use pb_written::conditions::read_expression;
use pb_written::fault::LoadFault;
use pb_written::values::TemplateValue;
use serde_json::Value;
use std::alloc::Global;

/// An expression, with the text that spells it.
#[derive(Drop)]
struct Spelt {
    text: Text,
    expr: Expr,
}

impl Reads<LoadFault> for Spelt {
    type Value = Spelt;

    ghost reads = { expression };

    fn read(alloc: Global, path: &Text, json: &Value) -> Result<Spelt, Stop<LoadFault>> {
        match json {
            Value::String(text) => {
                let expr = read_expression(alloc, path, text.as_str())?;
                let text = Text::from_str(alloc, text.as_str())?;
                Ok(Spelt { text, expr })
            }
            _ => wrong(path),
        }
    }
}

fn shown(
    alloc: Global,
    path: &Text,
    msg: Option<Val>,
    var: Option<Spelt>,
) -> Result<Module, Stop<LoadFault>>
    ensures { Gives result (shown path.now msg var) }
{
    match (msg, var) {
        (None, None) => {
            let msg = Val::text(Text::from_str(alloc, "Hello world!")?);
            let msg = Prepared::of(alloc, msg);
            Ok(Module::Debug { msg })
        }
        (Some(msg), None) => {
            let msg = Prepared::of(alloc, msg);
            Ok(Module::Debug { msg })
        }
        (None, Some(spelt)) => {
            let Spelt { text, expr } = spelt;
            Ok(Module::DebugVar { text, expr })
        }
        (Some(_), Some(_)) => wrong(path),
    }
}

/// The module `debug` with its arguments.
pub(crate) fn read_debug(
    alloc: Global,
    path: &Text,
    json: &Value,
) -> Result<Module, Stop<LoadFault>>
    ensures { Gives result (debug path.now (view json.now)) }
{
    let Value::Object(members) = json else {
        return wrong(path);
    };
    let mut keys = Keys::of(path, members, NoArguments);
    let msg = keys.field::<TemplateValue>(alloc, "msg")?;
    let var = keys.field::<Spelt>(alloc, "var")?;
    keys.others(alloc)?;
    shown(alloc, path, msg, var)
}
