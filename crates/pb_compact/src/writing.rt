//! Writing values.

ghost use Rattle.std.specs.Prelude.{◌≡◌, ◌++◌, ◌∷◌, OnOk};
ghost use Rattle.json.specs.Token.{begin_array, begin_object};
ghost use Rattle.pb_value.specs.Datum.{items_of, members_of};
ghost use Rattle.pb_compact.specs.Tokens.{tokens_of, item_tokens, member_tokens};

use json::Writer;
use pb_value::val::{Dict, Node, Val, ValList};
use std::alloc::AllocError;

/// Writes a value behind what was written, with the names of dicts in byte order.
#[cycle(write)]
pub fn write(value: &Val, out: &mut Writer) -> Result<(), AllocError>
    ensures tokens { OnOk result (out.new.tokens ≡ out.old.tokens ++ tokens_of value.now) }
    ensures before { out.new.before ≡ out.old.before }
{
    match &value.node {
        Node::Null => out.null(),
        Node::Bool(b) => out.boolean(*b),
        Node::Int(n) => out.i64(*n),
        Node::Text(text) => out.string(text.as_str()),
        Node::List(items) => write_items(items, out),
        Node::Dict(members) => write_members(members, out),
    }
}

/// Writes a list: its values in order, between brackets.
#[cycle(write)]
fn write_items(items: &ValList, out: &mut Writer) -> Result<(), AllocError>
    ensures tokens { OnOk result (out.new.tokens ≡ out.old.tokens ++ begin_array ∷ item_tokens (items_of items.now)) }
    ensures before { out.new.before ≡ out.old.before }
{
    out.begin_array()?;
    for item in &items.items {
        write(item, out)?;
    }
    out.end_array()
}

/// Writes a dict: each name and its value in order, between braces.
#[cycle(write)]
fn write_members(members: &Dict, out: &mut Writer) -> Result<(), AllocError>
    ensures tokens { OnOk result (out.new.tokens ≡ out.old.tokens ++ begin_object ∷ member_tokens (members_of members.now)) }
    ensures before { out.new.before ≡ out.old.before }
{
    out.begin_object()?;
    for (key, value) in members.iter() {
        out.key(key.as_str())?;
        write(value, out)?;
    }
    out.end_object()
}
