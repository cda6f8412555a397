ghost use Rattle.serde_json.specs.View.{view};
ghost use Rattle.pb_reading.specs.Reading.{Gives};
ghost use Rattle.pb_play_reading.specs.Messages.{or_said, message};

use crate::other_keys::NoArguments;
use pb_reading::keys::Keys;
use pb_reading::stop::{Stop, wrong};
use pb_value::text::Text;
use pb_value::val::Val;
use pb_written::fault::LoadFault;
use pb_written::values::TemplateValue;
use serde_json::Value;
use std::alloc::Global;

/// The message that is written, or this text where none is.
pub(crate) fn or_said(
    alloc: Global,
    msg: Option<Val>,
    otherwise: &str,
) -> Result<Val, Stop<LoadFault>>
    ensures { Gives result (or_said msg otherwise.now) }
{
    match msg {
        Some(msg) => Ok(msg),
        None => Ok(Val::text(Text::from_str(alloc, otherwise)?)),
    }
}

/// The message of a module that has no other argument: the value of `msg`, or this text where none is written.
pub(crate) fn read_message(
    alloc: Global,
    path: &Text,
    otherwise: &str,
    json: &Value,
) -> Result<Val, Stop<LoadFault>>
    ensures { Gives result (message otherwise.now path.now (view json.now)) }
{
    let Value::Object(members) = json else {
        return wrong(path);
    };
    let mut keys = Keys::of(path, members, NoArguments);
    let msg = keys.field::<TemplateValue>(alloc, "msg")?;
    keys.others(alloc)?;
    or_said(alloc, msg, otherwise)
}
