ghost use Rattle.std.specs.Prelude.{◌≡◌, IfOk};
ghost use Rattle.serde_json.specs.View.{view};
ghost use Rattle.pb_reading.specs.Reading.{Gives};
ghost use Rattle.pb_play_reading.specs.Commands.{listed, argv, one_of, command, shell};

use crate::other_keys::NoArguments;
use pb_play::commands::CommandWords;
use pb_prepared::prepared::{Prepared, PreparedText};
use pb_reading::keys::Keys;
use pb_reading::reads::Reads;
use pb_reading::stop::{Stop, required, wrong};
use pb_value::items::Items;
use pb_value::text::Text;
use pb_value::val::{Node, Val, ValList};
use pb_written::fault::LoadFault;
use pb_written::values::{TemplateText, TemplateValue};
use serde_json::Value;
use std::alloc::{AllocError, Global};

fn members_of(path: &Text, value: Val) -> Result<ValList, Stop<LoadFault>>
    ensures { Gives result (listed path.now value) }
{
    match value.into_node() {
        Node::List(words) => Ok(words),
        _ => wrong(path),
    }
}

/// Reads the words of a command one by one.
struct Argv;

impl Reads<LoadFault> for Argv {
    type Value = ValList;

    ghost reads = { argv };

    fn read(alloc: Global, path: &Text, json: &Value) -> Result<ValList, Stop<LoadFault>> {
        match json {
            Value::Array(_) => {
                let words = TemplateValue::read(alloc, path, json)?;
                members_of(path, words)
            }
            _ => wrong(path),
        }
    }
}

/// These words, each with its template.
fn prepared(alloc: Global, words: ValList) -> Result<Items<Prepared>, AllocError>
    ensures { IfOk result (λ ws. ws ≡ words) }
{
    let mut all = Vec::with_capacity(alloc, words.len())?;
    for word in words.items {
        all.push(Prepared::of(alloc, word))?;
    }
    Ok(Items::from_vec(all))
}

fn one_of(
    alloc: Global,
    path: &Text,
    cmd: Option<Text>,
    argv: Option<ValList>,
) -> Result<CommandWords, Stop<LoadFault>>
    ensures { Gives result (one_of path.now cmd argv) }
{
    match (cmd, argv) {
        (Some(line), None) => Ok(CommandWords::Line(PreparedText::of(alloc, line))),
        (None, Some(words)) => Ok(CommandWords::Argv(prepared(alloc, words)?)),
        _ => wrong(path),
    }
}

/// The arguments of `command`.
pub(crate) fn read_command(
    alloc: Global,
    path: &Text,
    json: &Value,
) -> Result<CommandWords, Stop<LoadFault>>
    ensures { Gives result (command path.now (view json.now)) }
{
    let Value::Object(members) = json else {
        let line = TemplateText::read(alloc, path, json)?;
        return Ok(CommandWords::Line(PreparedText::of(alloc, line)));
    };
    let mut keys = Keys::of(path, members, NoArguments);
    let argv = keys.field::<Argv>(alloc, "argv")?;
    let cmd = keys.field::<TemplateText>(alloc, "cmd")?;
    keys.others(alloc)?;
    one_of(alloc, path, cmd, argv)
}

/// The arguments of `shell`.
pub(crate) fn read_shell(alloc: Global, path: &Text, json: &Value) -> Result<Text, Stop<LoadFault>>
    ensures { Gives result (shell path.now (view json.now)) }
{
    let Value::Object(members) = json else {
        return TemplateText::read(alloc, path, json);
    };
    let mut keys = Keys::of(path, members, NoArguments);
    let cmd = keys.field::<TemplateText>(alloc, "cmd")?;
    keys.others(alloc)?;
    required(path, cmd)
}
