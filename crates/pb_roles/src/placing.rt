//! What stands at the places of a play, from the nodes that are written in it and in its roles.

ghost use Rattle.std.specs.Prelude.{◌≡◌, ◌||◌, not, ◌++◌, ◌∷◌, [], false, None, IfOk};
ghost use Rattle.pb_play.specs.Nodes.{Nothing};
ghost use Rattle.pb_play.specs.View.{node_of, written_of};
ghost use Rattle.pb_roles.specs.Building.{is_nothing, part_places, places_of, placed, inherited_of};

use crate::collected::Section;
use crate::flush::push_flush;
use crate::flush_tasks::Flushes;
use crate::inherited::Inherited;
use crate::sections::PlayKeys;
use pb_handlers::Handlers;
use pb_places::Place;
use pb_play::node::Node;
use pb_play::task::Task;
use pb_value::items::Items;
use std::alloc::{AllocError, Global};

/// Adds the places of some sections, and of the Flush behind them.
pub(crate) fn push_part(
    alloc: Global,
    places: &mut Vec<Place>,
    flushes: &Flushes,
    keys: PlayKeys,
    sections: Items<Section>,
) -> Result<(), AllocError>
    ensures { IfOk result (λ _. places.new.items ≡ places.old.items ++ part_places flushes.now keys sections) }
{
    for section in sections.into_vec() {
        push_section(alloc, places, flushes, keys, section)?;
    }
    push_flush(alloc, places, flushes, false)
}

/// Adds the places of a section.
fn push_section(
    alloc: Global,
    places: &mut Vec<Place>,
    flushes: &Flushes,
    keys: PlayKeys,
    section: Section,
) -> Result<(), AllocError>
    ensures { IfOk result (λ _. places.new.items ≡ places.old.items ++ places_of flushes.now (inherited_of keys section.origin) false section.nodes) }
{
    let Section { origin, nodes } = section;
    let inherited = Inherited::of(keys, &origin)?;
    push_all(alloc, places, flushes, &inherited, false, nodes.nodes)
}

/// Adds the places of these nodes.
#[cycle(placing)]
fn push_all(
    alloc: Global,
    places: &mut Vec<Place>,
    flushes: &Flushes,
    inherited: &Inherited,
    is_caught: bool,
    nodes: Vec<Node>,
) -> Result<(), AllocError>
    ensures { IfOk result (λ _. places.new.items ≡ places.old.items ++ places_of flushes.now inherited.now is_caught (written_of nodes.items)) }
{
    for node in nodes {
        push_one(alloc, places, flushes, inherited, is_caught, node)?;
    }
    Ok(())
}

/// Adds the places of a node.
#[cycle(placing)]
fn push_one(
    alloc: Global,
    places: &mut Vec<Place>,
    flushes: &Flushes,
    inherited: &Inherited,
    is_caught: bool,
    node: Node,
) -> Result<(), AllocError>
    ensures { IfOk result (λ _. places.new.items ≡ places.old.items ++ places_of flushes.now inherited.now is_caught (node_of node Nothing)) }
{
    match node {
        Node::Task(task) => push_task(alloc, places, &flushes.names, inherited, is_caught, task),
        Node::Block {
            keys,
            body,
            rescue,
            always,
        } => {
            let inside = inherited.inside(alloc, &keys)?;
            let is_rescued = is_caught_in(is_caught, &rescue);
            push_all(alloc, places, flushes, &inside, is_rescued, body)?;
            push_all(alloc, places, flushes, &inside, is_caught, rescue)?;
            push_all(alloc, places, flushes, &inside, is_caught, always)
        }
        Node::Flush => push_flush(alloc, places, flushes, is_caught),
    }
}

/// Whether a failure in the body of a block is caught, from whether it is round the block, and from the block's rescue.
#[tactic(auto, using(crate::proofs::PlayNodes::is_none))]
fn is_caught_in(is_caught: bool, rescue: &[Node]) -> bool
    ensures { result ≡ (is_caught || not (is_nothing (written_of rescue.now))) }
{
    is_caught || !rescue.is_empty()
}

/// Adds the place of a task.
fn push_task(
    alloc: Global,
    places: &mut Vec<Place>,
    names: &Handlers,
    inherited: &Inherited,
    is_caught: bool,
    task: Task,
) -> Result<(), AllocError>
    ensures { IfOk result (λ _. places.new.items ≡ places.old.items ++ placed names.now inherited.now is_caught None task ∷ []) }
{
    let place = inherited.place(alloc, names, is_caught, task)?;
    places.push(place)?;
    Ok(())
}
