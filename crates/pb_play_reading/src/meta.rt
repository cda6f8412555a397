ghost use Rattle.std.specs.Prelude.{◌≡◌, IfOk};
ghost use Rattle.serde_json.specs.Data as json;
ghost use Rattle.serde_json.specs.View.{view, members_view};
ghost use Rattle.pb_reading.specs.Ahead.{ahead, Takes};
ghost use Rattle.pb_reading.specs.Fields.{value_of};
ghost use Rattle.pb_reading.specs.Reading.{Gives};
ghost use Rattle.pb_play_reading.specs.MetaTasks.{said_by, said, one_of, what_is_said, meta_task, no_conditions, rest_of_flush, rest_of_meta_task, rest_of_meta, meta};
ghost use Rattle.pb_play_reading.specs.Returned.{IsRead};

use crate::other_keys::WithoutEffect;
use pb_expr_syntax::tree::Expr;
use pb_play::couplings::Couplings;
use pb_play::modules::{Meta, Module};
use pb_play::node::Node;
use pb_play::task::Task;
use pb_reading::keys::Keys;
use pb_reading::reads::Reads;
use pb_reading::simple::PlainText;
use pb_reading::stop::Stop;
use pb_value::items::Items;
use pb_value::text::Text;
use pb_value::val::Dict;
use pb_written::conditions::Conditions;
use pb_written::fault::{LoadFault, not_in_profile, refused_below};
use serde_json::{Map, Value};
use std::alloc::{AllocError, Global};

/// What a task that steers the run says.
#[derive(Clone, Copy)]
pub(crate) enum Said {
    /// It does this at a place of its own.
    Does(Meta),
    /// The handlers run that are pending.
    Flushes,
}

fn said_by(alloc: Global, path: &Text, word: &str) -> Result<Said, Stop<LoadFault>>
    ensures { Gives result (said_by path.now word.now) }
{
    if word == "end_host" {
        Ok(Said::Does(Meta::EndHost))
    } else if word == "flush_handlers" {
        Ok(Said::Flushes)
    } else if word == "noop" {
        Ok(Said::Does(Meta::Noop))
    } else {
        not_in_profile(alloc, path, "meta")
    }
}

impl Reads<LoadFault> for Said {
    type Value = Said;

    ghost reads = { said };

    fn read(alloc: Global, path: &Text, json: &Value) -> Result<Said, Stop<LoadFault>> {
        match json {
            Value::String(word) => said_by(alloc, path, word.as_str()),
            _ => not_in_profile(alloc, path, "meta"),
        }
    }
}

/// What stands at one of the two keys of the object at the path.
fn one_of(
    alloc: Global,
    path: &Text,
    full: Option<Said>,
    short: Option<Said>,
) -> Result<Said, Stop<LoadFault>>
    ensures { Gives result (one_of path.now full short) }
{
    match (full, short) {
        (Some(said), None) => Ok(said),
        (None, Some(said)) => Ok(said),
        (Some(_), Some(_)) => refused_below(alloc, path, "meta"),
        (None, None) => {
            let path = path.try_clone()?;
            Err(Stop::Fault(LoadFault::NoModule { path }))
        }
    }
}

fn what_is_said(
    alloc: Global,
    path: &Text,
    keys: &mut Keys<'_, WithoutEffect>,
) -> Result<Said, Stop<LoadFault>>
    ensures value { Takes (λ v. v) result (ahead keys.new) (what_is_said path.now (ahead keys.old)) }
    ensures path { (ahead keys.new).path ≡ (ahead keys.old).path }
{
    let full = keys.field::<Said>(alloc, "ansible.builtin.meta")?;
    let short = keys.field::<Said>(alloc, "meta")?;
    one_of(alloc, path, full, short)
}

fn meta_task(
    alloc: Global,
    meta: Meta,
    name: Option<Text>,
    conditions: Option<Items<Expr>>,
) -> Result<Task, AllocError>
    ensures { IfOk result (λ t. t ≡ meta_task meta name conditions) }
{
    let name = match name {
        Some(name) => name,
        None => Text::from_str(alloc, "meta")?,
    };
    Ok(Task {
        name,
        vars: Dict::new(alloc),
        module: Module::Meta(meta),
        conditions: conditions.unwrap_or(Items::new(alloc)),
        looped: None,
        register: None,
        changed_when: None,
        failed_when: None,
        ignore_errors: None,
        throttle: None,
        couplings: Couplings::none(),
        notify: Items::new(alloc),
        retrying: None,
    })
}

/// Reads no conditions: the key `when` is refused, whatever stands there.
struct NoConditions;

impl Reads<LoadFault> for NoConditions {
    type Value = ();

    ghost reads = { no_conditions };

    fn read(alloc: Global, path: &Text, _json: &Value) -> Result<(), Stop<LoadFault>> {
        not_in_profile(alloc, path, "when")
    }
}

/// A node at which the handlers run that are pending.
fn read_flush(alloc: Global, mut keys: Keys<'_, WithoutEffect>) -> Result<Node, Stop<LoadFault>>
    ensures { IsRead result (value_of (rest_of_flush (ahead keys.entry))) }
{
    keys.field::<PlainText>(alloc, "name")?;
    keys.field::<NoConditions>(alloc, "when")?;
    keys.others(alloc)?;
    Ok(Node::Flush)
}

/// A task that does this.
fn read_task(
    alloc: Global,
    mut keys: Keys<'_, WithoutEffect>,
    meta: Meta,
) -> Result<Node, Stop<LoadFault>>
    ensures { IsRead result (value_of (rest_of_meta_task meta (ahead keys.entry))) }
{
    let name = keys.field::<PlainText>(alloc, "name")?;
    let conditions = keys.field::<Conditions>(alloc, "when")?;
    keys.others(alloc)?;
    Ok(Node::Task(meta_task(alloc, meta, name, conditions)?))
}

fn read_rest(
    alloc: Global,
    keys: Keys<'_, WithoutEffect>,
    said: Said,
) -> Result<Node, Stop<LoadFault>>
    ensures { IsRead result (value_of (rest_of_meta said (ahead keys.entry))) }
{
    match said {
        Said::Does(meta) => read_task(alloc, keys, meta),
        Said::Flushes => read_flush(alloc, keys),
    }
}

/// A task that steers the run, as the members of an object spell it.
pub(crate) fn read_meta(
    alloc: Global,
    path: &Text,
    members: &Map<String, Value>,
) -> Result<Node, Stop<LoadFault>>
    ensures { IsRead result (meta path.now (json.object (members_view members.now.entries))) }
{
    let mut keys = Keys::of(path, members, WithoutEffect);
    let said = what_is_said(alloc, path, &mut keys)?;
    read_rest(alloc, keys, said)
}
