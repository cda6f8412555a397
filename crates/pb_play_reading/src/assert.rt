ghost use Rattle.std.specs.Prelude.{◌≡◌};
ghost use Rattle.serde_json.specs.View.{view};
ghost use Rattle.pb_reading.specs.Ahead.{ahead, Takes};
ghost use Rattle.pb_reading.specs.Reading.{Gives};
ghost use Rattle.pb_play_reading.specs.Assert.{at_most_one, asserted, said, assert};

use crate::messages::or_said;
use crate::other_keys::NoArguments;
use pb_expr_syntax::tree::Expr;
use pb_play::modules::Module;
use pb_prepared::prepared::Prepared;
use pb_reading::keys::Keys;
use pb_reading::stop::{Stop, required, wrong};
use pb_value::items::Items;
use pb_value::text::Text;
use pb_value::val::Val;
use pb_written::conditions::Conditions;
use pb_written::fault::LoadFault;
use pb_written::values::TemplateValue;
use serde_json::Value;
use std::alloc::Global;

/// The messages of `assert` that are written.
struct Said {
    fail_msg: Option<Val>,
    msg: Option<Val>,
    success_msg: Option<Val>,
}

impl Drop for Said {
    fn drop(self) {
        let Said {
            fail_msg,
            msg,
            success_msg,
        } = self;
        drop(fail_msg);
        drop(msg);
        drop(success_msg);
    }
}

fn at_most_one(
    path: &Text,
    fail_msg: Option<Val>,
    msg: Option<Val>,
) -> Result<Option<Val>, Stop<LoadFault>>
    ensures { Gives result (at_most_one path.now fail_msg msg) }
{
    match (fail_msg, msg) {
        (Some(_), Some(_)) => wrong(path),
        (Some(said), None) => Ok(Some(said)),
        (None, said) => Ok(said),
    }
}

impl Said {
    /// The module that says this, where these conditions don't hold, and where they do.
    fn of(self, alloc: Global, path: &Text, that: Items<Expr>) -> Result<Module, Stop<LoadFault>>
        ensures { Gives result (asserted path.now self that) }
    {
        let Said {
            fail_msg,
            msg,
            success_msg,
        } = self;
        let fail_msg = at_most_one(path, fail_msg, msg)?;
        let fail_msg = or_said(alloc, fail_msg, "Assertion failed")?;
        let success_msg = or_said(alloc, success_msg, "All assertions passed")?;
        Ok(Module::Assert {
            that,
            fail_msg: Prepared::of(alloc, fail_msg),
            success_msg: Prepared::of(alloc, success_msg),
        })
    }
}

fn read_said(alloc: Global, keys: &mut Keys<'_, NoArguments>) -> Result<Said, Stop<LoadFault>>
    ensures value { Takes (λ v. v) result (ahead keys.new) (said (ahead keys.old)) }
    ensures path { (ahead keys.new).path ≡ (ahead keys.old).path }
{
    let fail_msg = keys.field::<TemplateValue>(alloc, "fail_msg")?;
    let msg = keys.field::<TemplateValue>(alloc, "msg")?;
    let success_msg = keys.field::<TemplateValue>(alloc, "success_msg")?;
    Ok(Said {
        fail_msg,
        msg,
        success_msg,
    })
}

/// The module `assert` with its arguments.
pub(crate) fn read_assert(
    alloc: Global,
    path: &Text,
    json: &Value,
) -> Result<Module, Stop<LoadFault>>
    ensures { Gives result (assert path.now (view json.now)) }
{
    let Value::Object(members) = json else {
        return wrong(path);
    };
    let mut keys = Keys::of(path, members, NoArguments);
    let said = read_said(alloc, &mut keys)?;
    let that = keys.field::<Conditions>(alloc, "that")?;
    keys.others(alloc)?;
    let that = required(path, that)?;
    said.of(alloc, path, that)
}
