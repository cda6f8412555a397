//! Keys that linear plays alone heed: where they are written.
ghost use Rattle.std.specs.Prelude.{◌≡◌};
ghost use Rattle.std.specs.List.{list_any};
ghost use Rattle.pb_play.specs.Nodes.{Nothing};
ghost use Rattle.pb_play.specs.View.{node_of, written_of};
ghost use Rattle.pb_roles.specs.LinearKeys.{handler_has, has_key, linear_keys_of, role_handler_has, section_has, stands_in, stands_in_play, stands_in_roles};

use crate::collected::{Expansion, HandlerIn, Section};
use crate::nodes::nodes_in;
use crate::sections::LinearKeys;
use pb_play::couplings::Couplings;
use pb_play::node::Node;
use pb_play_reading::handlers::Handler;
use pb_play_reading::play::Play;

/// A key that a play, its blocks and its tasks may have, and that linear plays alone heed.
#[derive(Clone, Copy)]
pub enum CoupledKey {
    AnyErrorsFatal,
    RunOnce,
}

/// Which of the keys that linear plays alone heed are written in a play whose roles brought this.
pub(crate) fn linear_keys_of(play: &Play, met: &Expansion) -> LinearKeys
    ensures { result ≡ linear_keys_of play.now met.now }
{
    LinearKeys {
        any_errors_fatal: play.any_errors_fatal.is_some()
            || stands_in_play(CoupledKey::AnyErrorsFatal, play)
            || stands_in_roles(CoupledKey::AnyErrorsFatal, met),
        max_fail_percentage: play.max_fail_percentage.is_some(),
        run_once: stands_in_play(CoupledKey::RunOnce, play)
            || stands_in_roles(CoupledKey::RunOnce, met),
    }
}

/// Whether a task or a block has the key.
fn has_key(key: CoupledKey, couplings: &Couplings) -> bool
    ensures { result ≡ has_key key couplings.now }
{
    match key {
        CoupledKey::AnyErrorsFatal => couplings.any_errors_fatal.is_some(),
        CoupledKey::RunOnce => couplings.run_once.is_some(),
    }
}

/// Whether it stands in what is written in the play.
fn stands_in_play(key: CoupledKey, play: &Play) -> bool
    ensures { result ≡ stands_in_play key play.now }
{
    stands_in(key, play.pre_tasks.nodes.as_slice())
        || stands_in(key, play.tasks.nodes.as_slice())
        || stands_in(key, play.post_tasks.nodes.as_slice())
        || stands_in_handlers(key, play.handlers.as_slice())
}

/// Whether it stands in what the roles bring.
fn stands_in_roles(key: CoupledKey, met: &Expansion) -> bool
    ensures { result ≡ stands_in_roles key met.now }
{
    stands_in_sections(key, met.sections.as_slice())
        || stands_in_role_handlers(key, met.handlers.as_slice())
}

fn stands_in_sections(key: CoupledKey, sections: &[Section]) -> bool
    ensures { result ≡ list_any (section_has key) sections.now }
{
    for section in sections {
        if stands_in(key, nodes_in(section)) {
            return true;
        }
    }
    false
}

fn stands_in_handlers(key: CoupledKey, handlers: &[Handler]) -> bool
    ensures { result ≡ list_any (handler_has key) handlers.now }
{
    for handler in handlers {
        if has_key(key, &handler.task.couplings) {
            return true;
        }
    }
    false
}

fn stands_in_role_handlers(key: CoupledKey, handlers: &[HandlerIn]) -> bool
    ensures { result ≡ list_any (role_handler_has key) handlers.now }
{
    for it in handlers {
        if has_key(key, &it.handler.task.couplings) {
            return true;
        }
    }
    false
}

/// Whether it stands in these nodes, on a task or a block.
#[cycle(stands)]
fn stands_in(key: CoupledKey, nodes: &[Node]) -> bool
    ensures { result ≡ stands_in key (written_of nodes.now) }
{
    for node in nodes {
        if stands_at(key, node) {
            return true;
        }
    }
    false
}

#[cycle(stands)]
fn stands_at(key: CoupledKey, node: &Node) -> bool
    ensures { result ≡ stands_in key (node_of node.now Nothing) }
{
    match node {
        Node::Task(task) => has_key(key, &task.couplings),
        Node::Block {
            keys,
            body,
            rescue,
            always,
        } => {
            has_key(key, &keys.couplings)
                || stands_in(key, body)
                || stands_in(key, rescue)
                || stands_in(key, always)
        }
        Node::Flush => false,
    }
}
