ghost use Rattle.std.specs.Prelude.{◌≡◌, ℕ, List, IfOk, OnOk, Ok};
ghost use Rattle.serde_json.specs.Data.{string, object, member, no_members, put as with_member};
ghost use Rattle.serde_json.specs.View.{view, members_view};
ghost use Rattle.pb_outcome.specs.declared.outcome.Form.TheVariants.{Ran};
ghost use Rattle.pb_outcome.specs.Reading.{outcome_of};
ghost use Rattle.pb_outcome.specs.Writing.{outcome_json};

use crate::outcome::{Form, Outcome};
use pb_value::text::Text;
use pb_value::to_json::to_json;
use serde_json::{Map, Value, put};
use std::alloc::{AllocError, Global};

/// The outcome as JSON: an object with the keys of its form. `read_outcome` reads it as the same outcome.
pub fn outcome_to_json(alloc: Global, outcome: &Outcome) -> Result<Value, AllocError>
    ensures json { IfOk result (λ j. view j ≡ outcome_json outcome.now) }
    ensures reads_back { IfOk result (λ j. (path : List ℕ) → outcome_of path (view j) ≡ Ok outcome.now) }
{
    let form = outcome.form();
    form_json(alloc, form)
}

fn form_json(alloc: Global, form: &Form) -> Result<Value, AllocError>
    ensures { IfOk result (λ j. view j ≡ outcome_json form.now) }
{
    match form {
        Form::Ran { rc, out, err } => ran_json(alloc, *rc, out, err),
        Form::Module(value) => one_member(alloc, "facts", to_json(alloc, value)?),
        Form::Unreachable { msg } => one_member(alloc, "unreachable", text_json(alloc, msg)?),
        Form::NotStarted { cause } => {
            one_member(alloc, "not_started", Value::from(cause.number()))
        }
    }
}

fn text_json(alloc: Global, text: &Text) -> Result<Value, AllocError>
    ensures { IfOk result (λ j. view j ≡ string text.now) }
{
    Value::try_from_str(alloc, text.as_str())
}

/// Puts a text under a key.
fn put_text(
    alloc: Global,
    members: &mut Map<String, Value>,
    key: &str,
    text: &Text,
) -> Result<(), AllocError>
    ensures { OnOk result (members_view members.new.entries ≡ with_member key.now (string text.now) (members_view members.old.entries)) }
{
    let value = text_json(alloc, text)?;
    put(members, alloc, key, value)
}

/// The object with a key alone.
fn one_member(alloc: Global, key: &str, value: Value) -> Result<Value, AllocError>
    ensures { IfOk result (λ j. view j ≡ object (member key.now (view value) no_members)) }
{
    let mut members = Map::new(alloc);
    put(&mut members, alloc, key, value)?;
    Ok(Value::Object(members))
}

/// Puts in how a program ended.
fn put_end(
    alloc: Global,
    members: &mut Map<String, Value>,
    rc: i64,
    out: &Text,
    err: &Text,
) -> Result<(), AllocError>
    requires { members_view members.old.entries ≡ no_members }
    ensures { OnOk result (object (members_view members.new.entries) ≡ outcome_json (Ran rc out.now err.now)) }
{
    put_text(alloc, members, "err", err)?;
    put_text(alloc, members, "out", out)?;
    put(members, alloc, "rc", Value::from(rc))
}

/// A program's end as JSON.
fn ran_json(alloc: Global, rc: i64, out: &Text, err: &Text) -> Result<Value, AllocError>
    ensures { IfOk result (λ j. view j ≡ outcome_json (Ran rc out.now err.now)) }
{
    let mut members = Map::new(alloc);
    put_end(alloc, &mut members, rc, out, err)?;
    Ok(Value::Object(members))
}
