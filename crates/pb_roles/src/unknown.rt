//! Names that are notified and that no handler has.
ghost use Rattle.std.specs.Prelude.{◌≡◌};
ghost use Rattle.std.specs.Option.{option_copied};
ghost use Rattle.pb_play.specs.Nodes.{Nothing};
ghost use Rattle.pb_play.specs.View.{node_of, written_of};
ghost use Rattle.pb_roles.specs.Unknown.{unknown_in, unknown_in_sections, unknown_in_handlers, unknown_with};

use crate::collected::{HandlerIn, Section};
use crate::nodes::nodes_in;
use crate::sections::Sections;
use pb_handlers::Handlers;
use pb_play::node::Node;
use pb_value::text::Text;

/// The first of the names and topics that a play notifies for which no handler of these names stands, if there is one.
pub(crate) fn unknown_with<'a>(names: &Handlers, play: &'a Sections) -> Option<&'a Text>
    ensures { option_copied result ≡ unknown_with names.now play.now }
{
    if let Some(name) = in_sections(names, play.pre.as_slice()) {
        return Some(name);
    }
    if let Some(name) = in_sections(names, play.tasks.as_slice()) {
        return Some(name);
    }
    if let Some(name) = in_sections(names, play.post.as_slice()) {
        return Some(name);
    }
    in_handlers(names, play.handlers.as_slice())
}

#[tactic(auto, using(crate::proofs::Unknowns::section_turn))]
fn in_sections<'a>(names: &Handlers, sections: &'a [Section]) -> Option<&'a Text>
    ensures { option_copied result ≡ unknown_in_sections names.now sections.now }
{
    for section in sections {
        if let Some(name) = in_nodes(names, nodes_in(section)) {
            return Some(name);
        }
    }
    None
}

#[tactic(auto, using(crate::proofs::Unknowns::handler_turn))]
fn in_handlers<'a>(names: &Handlers, handlers: &'a [HandlerIn]) -> Option<&'a Text>
    ensures { option_copied result ≡ unknown_in_handlers names.now handlers.now }
{
    for handler in handlers {
        if let Some(name) = names.unknown(handler.handler.task.notify.as_slice()) {
            return Some(name);
        }
    }
    None
}

/// The same of some nodes.
#[cycle(unknown)]
#[tactic(auto, using(crate::proofs::Unknowns::unknown_turn))]
fn in_nodes<'a>(names: &Handlers, nodes: &'a [Node]) -> Option<&'a Text>
    ensures { option_copied result ≡ unknown_in names.now (written_of nodes.now) }
{
    for node in nodes {
        if let Some(name) = in_node(names, node) {
            return Some(name);
        }
    }
    None
}

#[cycle(unknown)]
fn in_node<'a>(names: &Handlers, node: &'a Node) -> Option<&'a Text>
    ensures { option_copied result ≡ unknown_in names.now (node_of node.now Nothing) }
{
    match node {
        Node::Task(task) => names.unknown(task.notify.as_slice()),
        Node::Block {
            keys: _,
            body,
            rescue,
            always,
        } => {
            if let Some(name) = in_nodes(names, body) {
                return Some(name);
            }
            if let Some(name) = in_nodes(names, rescue) {
                return Some(name);
            }
            in_nodes(names, always)
        }
        Node::Flush => None,
    }
}
