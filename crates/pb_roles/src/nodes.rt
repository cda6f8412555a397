//! The tree of a play, from the nodes that are written in it and in its roles.

ghost use Rattle.std.specs.Prelude.{◌≡◌, ◌<◌, ◌≤◌, ◌+◌, true, false, IfOk, IfSome, IfNone};
ghost use Rattle.pb_play.specs.Nodes.{Nothing};
ghost use Rattle.pb_play.specs.View.{node_of, written_of};
ghost use Rattle.pb_tree.specs.View.{tree_of as code_tree};
ghost use Rattle.pb_roles.specs.Building.{nodes_of, tree_of};
ghost use Rattle.pb_roles.specs.Seen.{IsNode, AddsNodes, AddsPart, alone, places_in, places_in_all, depth_in, depth_in_all};

use crate::collected::Section;
use crate::sections::Sections;
use pb_play::node::Node as Written;
use pb_tree::{Node, PlayTree};
use std::alloc::{AllocError, Global};

/// The tree of a play.
pub(crate) fn tree_of(alloc: Global, play: &Sections) -> Result<PlayTree, AllocError>
    ensures { IfOk result (λ tree. tree ≡ tree_of play.now) }
{
    let handlers = number_of(play.handlers.len())?;
    let nodes = nodes_of(alloc, play)?;
    PlayTree::of(alloc, nodes, handlers, play.force_handlers)
}

/// Its nodes: behind each of the three lists its handlers run.
fn nodes_of(alloc: Global, play: &Sections) -> Result<Vec<Node>, AllocError>
    ensures { IfOk result (λ nodes. code_tree nodes.items ≡ nodes_of play.now) }
{
    let mut nodes = Vec::new(alloc);
    push_part(alloc, &mut nodes, play.pre.as_slice())?;
    push_part(alloc, &mut nodes, play.tasks.as_slice())?;
    push_part(alloc, &mut nodes, play.post.as_slice())?;
    Ok(nodes)
}

/// Adds the nodes of some sections, and a Flush behind them.
fn push_part(alloc: Global, nodes: &mut Vec<Node>, sections: &[Section]) -> Result<(), AllocError>
    ensures { IfOk result (λ _. AddsPart nodes.old.items nodes.new.items sections.now) }
{
    for section in sections {
        push_all(alloc, nodes, nodes_in(section))?;
    }
    nodes.push(Node::Flush)?;
    Ok(())
}

/// The nodes of a section.
pub(crate) fn nodes_in(section: &Section) -> &[Written]
    ensures { written_of result.now ≡ section.now.nodes }
{
    section.nodes.nodes.as_slice()
}

/// A list of nodes.
#[cycle(nodes)]
fn part(alloc: Global, written: &[Written]) -> Result<Vec<Node>, AllocError>
    ensures { IfOk result (λ nodes. code_tree nodes.items ≡ alone (written_of written.now)) }
{
    let mut nodes = Vec::new(alloc);
    push_all(alloc, &mut nodes, written)?;
    Ok(nodes)
}

/// Adds the nodes of a list.
#[cycle(nodes)]
fn push_all(alloc: Global, nodes: &mut Vec<Node>, written: &[Written]) -> Result<(), AllocError>
    ensures { IfOk result (λ _. AddsNodes nodes.old.items nodes.new.items (written_of written.now)) }
{
    for node in written {
        let one = one(alloc, node)?;
        nodes.push(one)?;
    }
    Ok(())
}

/// A node.
#[cycle(nodes)]
fn one(alloc: Global, written: &Written) -> Result<Node, AllocError>
    ensures { IfOk result (λ node. IsNode node (node_of written.now Nothing)) }
{
    match written {
        Written::Task(_) => Ok(Node::Task),
        Written::Block {
            keys: _,
            body,
            rescue,
            always,
        } => {
            let body = part(alloc, body)?;
            let rescue = part(alloc, rescue)?;
            let always = part(alloc, always)?;
            Ok(Node::Block {
                body,
                rescue,
                always,
            })
        }
        Written::Flush => Ok(Node::Flush),
    }
}

/// How many of a number of places are left, if some sections and the Flush behind them have no more, in a play with this many handlers.
#[tactic(auto, using(crate::proofs::Trees::sections_turn))]
pub(crate) fn part_left(sections: &[Section], handlers: u32, places: u32) -> Option<u32>
    ensures some { IfSome result (λ left. left + places_in_all handlers sections.now ≡ places) }
    ensures none { IfNone result (places < places_in_all handlers sections.now) }
{
    let mut left = places;
    for section in sections {
        left = places_left(nodes_in(section), handlers, left)?;
    }
    left.checked_sub(handlers)
}

/// How many of a number of places are left, if some nodes have no more.
#[cycle(count)]
fn places_left(written: &[Written], handlers: u32, places: u32) -> Option<u32>
    ensures some { IfSome result (λ left. left + places_in handlers (written_of written.now) ≡ places) }
    ensures none { IfNone result (places < places_in handlers (written_of written.now)) }
{
    let mut left = places;
    for node in written {
        left = places_behind(node, handlers, left)?;
    }
    Some(left)
}

#[cycle(count)]
fn places_behind(written: &Written, handlers: u32, places: u32) -> Option<u32>
    ensures some { IfSome result (λ left. left + places_in handlers (node_of written.now Nothing) ≡ places) }
    ensures none { IfNone result (places < places_in handlers (node_of written.now Nothing)) }
{
    match written {
        Written::Task(_) => places.checked_sub(1),
        Written::Block {
            keys: _,
            body,
            rescue,
            always,
        } => {
            let behind_body = places_left(body, handlers, places)?;
            let behind_rescue = places_left(rescue, handlers, behind_body)?;
            places_left(always, handlers, behind_rescue)
        }
        Written::Flush => places.checked_sub(handlers),
    }
}

/// Whether always parts of some sections stand in one another, more than this many deep.
pub(crate) fn is_part_deeper(sections: &[Section], levels: u32) -> bool
    ensures deeper { result ≡ true → levels < depth_in_all sections.now }
    ensures within { result ≡ false → depth_in_all sections.now ≤ levels }
{
    for section in sections {
        if are_deeper(nodes_in(section), levels) {
            return true;
        }
    }
    false
}

/// Whether always parts stand in one another, more than this many deep.
#[cycle(depth)]
fn are_deeper(written: &[Written], levels: u32) -> bool
    ensures deeper { result ≡ true → levels < depth_in (written_of written.now) }
    ensures within { result ≡ false → depth_in (written_of written.now) ≤ levels }
{
    for node in written {
        if is_deeper(node, levels) {
            return true;
        }
    }
    false
}

#[cycle(depth)]
fn is_deeper(written: &Written, levels: u32) -> bool
    ensures deeper { result ≡ true → levels < depth_in (node_of written.now Nothing) }
    ensures within { result ≡ false → depth_in (node_of written.now Nothing) ≤ levels }
{
    match written {
        Written::Task(_) => false,
        Written::Block {
            keys: _,
            body,
            rescue,
            always,
        } => {
            levels == 0
                || are_deeper(body, levels)
                || are_deeper(rescue, levels)
                || are_deeper(always, levels - 1)
        }
        Written::Flush => false,
    }
}

/// A number in 32 bits. One that has more counts as too large for memory.
pub(crate) fn number_of(i: usize) -> Result<u32, AllocError>
    ensures { IfOk result (λ number. number ≡ i) }
{
    u32::try_from(i).map_err(|_| AllocError)
}
