ghost use Rattle.std.specs.Prelude.{◌≡◌, decimal};
ghost use Rattle.serde_json.specs.Data as json;
ghost use Rattle.serde_json.specs.View.{view, items_view, members_view};
ghost use Rattle.pb_value.specs.Reading.{below};
ghost use Rattle.pb_reading.specs.Ahead.{ahead, Takes};
ghost use Rattle.pb_reading.specs.Reading.{Gives};
ghost use Rattle.pb_play_reading.specs.Blocks.{early, block};
ghost use Rattle.pb_play_reading.specs.NoEffect.{key_or};
ghost use Rattle.pb_play_reading.specs.NodeLists.{has, names_block, names_meta, node, each_node, inner, nodes, node_list};
ghost use Rattle.pb_play.specs.Nodes.{Nothing};
ghost use Rattle.pb_play_reading.specs.Returned.{IsRead};

use crate::blocks::{BegunBlock, Early, read_middle, read_rest};
use crate::meta::read_meta;
use crate::modules::names;
use crate::other_keys::WithoutEffect;
use crate::task::read_task;
use pb_play::node::{Node, NodeList};
use pb_reading::keys::Keys;
use pb_reading::reads::Reads;
use pb_reading::stop::{Stop, wrong};
use pb_value::path::{child, child_at};
use pb_value::text::Text;
use pb_written::fault::{Limit, LoadFault};
use pb_written::simple::Switch;
use serde_json::{Map, Value};
use std::alloc::Global;

/// How many blocks may stand inside one another.
const MAX_BLOCKS: u32 = 32;

/// A list of nodes, as JSON spells it at this path, or the first fault in it.
/// See Ansible's documentation, "Playbook Keywords" and "Blocks".
pub fn read_nodes_at(alloc: Global, path: &Text, json: &Value) -> Result<NodeList, Stop<LoadFault>>
    ensures { Gives result (node_list path.now (view json.now)) }
{
    read_nodes(alloc, MAX_BLOCKS, path, json)
}

/// Reads a list of nodes.
pub struct TaskList;

impl Reads<LoadFault> for TaskList {
    type Value = NodeList;

    ghost reads = { node_list };

    fn read(alloc: Global, path: &Text, json: &Value) -> Result<NodeList, Stop<LoadFault>> {
        read_nodes_at(alloc, path, json)
    }
}

/// A list without nodes.
pub(crate) fn no_nodes(alloc: Global) -> NodeList
    ensures { result ≡ Nothing }
{
    NodeList {
        nodes: Vec::new(alloc),
    }
}

/// A list of nodes, in which so many blocks may stand inside one another.
#[cycle(nodes)]
#[tactic(auto, unfolding(crate::specs::NodeLists::nodes))]
fn read_nodes(
    alloc: Global,
    left: u32,
    path: &Text,
    json: &Value,
) -> Result<NodeList, Stop<LoadFault>>
    ensures { Gives result (nodes left path.now (view json.now)) }
{
    match json {
        Value::Array(items) => read_each(alloc, left, path, items.as_slice()),
        _ => wrong(path),
    }
}

/// The nodes that the members of a list spell.
#[cycle(nodes)]
fn read_each(
    alloc: Global,
    left: u32,
    path: &Text,
    items: &[Value],
) -> Result<NodeList, Stop<LoadFault>>
    ensures { Gives result (each_node (node (inner left)) path.now 0 (items_view items.now)) }
{
    let mut nodes = Vec::with_capacity(alloc, items.len())?;
    for (i, item) in items.iter().enumerate() {
        nodes.push(read_at(alloc, left, path, i, item)?)?;
    }
    Ok(NodeList { nodes })
}

/// The node with this number in the list at the path.
#[cycle(nodes)]
fn read_at(
    alloc: Global,
    left: u32,
    path: &Text,
    i: usize,
    json: &Value,
) -> Result<Node, Stop<LoadFault>>
    ensures { IsRead result (node (inner left) (below path.now (decimal i)) (view json.now)) }
{
    let here = child_at(alloc, path, i)?;
    match json {
        Value::Object(members) => read_node(alloc, left, &here, members),
        _ => wrong(&here),
    }
}

fn has_block(members: &Map<String, Value>) -> bool
    ensures { result ≡ has names_block (members_view members.now.entries) }
{
    for (name, _json) in members.iter() {
        if name.as_str() == "block" {
            return true;
        }
    }
    false
}

fn has_meta(members: &Map<String, Value>) -> bool
    ensures { result ≡ has names_meta (members_view members.now.entries) }
{
    for (name, _json) in members.iter() {
        if names(name.as_str(), "meta", "ansible.builtin.meta") {
            return true;
        }
    }
    false
}

/// A node, as the members of an object spell it: it is known by its key.
#[cycle(nodes)]
fn read_node(
    alloc: Global,
    left: u32,
    path: &Text,
    members: &Map<String, Value>,
) -> Result<Node, Stop<LoadFault>>
    ensures { IsRead result (node (inner left) path.now (json.object (members_view members.now.entries))) }
{
    if has_block(members) {
        read_inner(alloc, left, path, members)
    } else if has_meta(members) {
        read_meta(alloc, path, members)
    } else {
        Ok(Node::Task(read_task(alloc, path, members)?))
    }
}

/// A block, where one more may stand here.
#[cycle(nodes)]
fn read_inner(
    alloc: Global,
    left: u32,
    path: &Text,
    members: &Map<String, Value>,
) -> Result<Node, Stop<LoadFault>>
    ensures { IsRead result (inner left path.now (json.object (members_view members.now.entries))) }
{
    if left == 0 {
        let path = path.try_clone()?;
        return Err(Stop::Fault(LoadFault::TooLarge {
            which: Limit::Blocks,
            path,
        }));
    }
    read_block(alloc, left - 1, path, members)
}

/// A block, whose lists have room for so many blocks inside one another.
#[cycle(nodes)]
fn read_block(
    alloc: Global,
    left: u32,
    path: &Text,
    members: &Map<String, Value>,
) -> Result<Node, Stop<LoadFault>>
    ensures { IsRead result (block (nodes left) path.now (json.object (members_view members.now.entries))) }
{
    let mut keys = Keys::of(path, members, WithoutEffect);
    let early = read_early(alloc, left, path, &mut keys)?;
    let middle = read_middle(alloc, &mut keys)?;
    let rescue = read_part(alloc, left, path, &mut keys, "rescue")?;
    let begun = BegunBlock {
        early,
        middle,
        rescue,
    };
    read_rest(alloc, keys, begun)
}

#[cycle(nodes)]
fn read_early(
    alloc: Global,
    left: u32,
    path: &Text,
    keys: &mut Keys<'_, WithoutEffect>,
) -> Result<Early, Stop<LoadFault>>
    requires { (ahead keys.old).path ≡ path.now }
    ensures value { Takes (λ v. v) result (ahead keys.new) (early (nodes left) (ahead keys.old)) }
    ensures path { (ahead keys.new).path ≡ path.now }
{
    let always = read_part(alloc, left, path, keys, "always")?;
    let any_errors_fatal = keys.field::<Switch>(alloc, "any_errors_fatal")?;
    let body = read_part(alloc, left, path, keys, "block")?;
    Ok(Early {
        always,
        any_errors_fatal,
        body,
    })
}

/// The nodes at a key of the block at this path.
#[cycle(nodes)]
#[tactic(auto, unfolding(pb_reading::specs::Fields::field_or, pb_reading::specs::Fields::field))]
fn read_part(
    alloc: Global,
    left: u32,
    path: &Text,
    keys: &mut Keys<'_, WithoutEffect>,
    key: &str,
) -> Result<NodeList, Stop<LoadFault>>
    requires { (ahead keys.old).path ≡ path.now }
    ensures value { Takes (λ v. v) result (ahead keys.new) (key_or key.now (nodes left) Nothing (ahead keys.old)) }
    ensures path { (ahead keys.new).path ≡ path.now }
{
    match keys.value_at(alloc, key)? {
        Some(json) => {
            let here = child(alloc, path, key)?;
            read_nodes(alloc, left, &here, json)
        }
        None => Ok(no_nodes(alloc)),
    }
}
