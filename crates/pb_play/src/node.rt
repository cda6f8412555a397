ghost use Rattle.pb_play.specs.View.{written_of};

use crate::couplings::Couplings;
use crate::task::Task;
use pb_expr_syntax::tree::Expr;
use pb_value::items::Items;
use pb_value::val::Dict;
use std::marker::Model;

/// What a block says of all that stands in it.
pub struct BlockKeys {
    /// What has to hold for a task in it to run: each of these, beside what the task itself asks.
    pub conditions: Items<Expr>,
    /// Variables that its tasks see, each a value under its name, as they are written: their texts are templates.
    pub vars: Dict,
    /// Whether failures in it are ignored, where it says so.
    pub ignore_errors: Option<bool>,
    /// How many hosts may run a task in it at once, where it says so; 0 is any number.
    pub throttle: Option<u32>,
    /// What it says of how the hosts of a task in it are coupled.
    pub couplings: Couplings,
}

impl Drop for BlockKeys {
    fn drop(self) {
        let BlockKeys {
            conditions,
            vars,
            ignore_errors: _,
            throttle: _,
            couplings,
        } = self;
        drop(conditions);
        drop(vars);
        drop(couplings);
    }
}

/// A node of a list of tasks. See Ansible's documentation, "Blocks" and "Handlers: running operations on change".
#[derive(Drop)]
pub enum Node {
    /// A task.
    Task(Task),
    /// A block: its nodes, those that run after a failure of these, and those that run either way.
    Block {
        keys: BlockKeys,
        body: Vec<Node>,
        rescue: Vec<Node>,
        always: Vec<Node>,
    },
    /// Here the handlers run that are pending.
    Flush,
}

/// A list of nodes: they run in this order. Contracts see what is written there (`specs/Nodes.antt`).
#[derive(Drop)]
pub struct NodeList {
    pub nodes: Vec<Node>,
}

impl Model for NodeList {
    ghost use Rattle.pb_play.specs.Nodes.{Written};
    ghost use Rattle.pb_play.specs.View.{written_of};
    ghost use Rattle.pb_play.specs.Code.{coded_written};
    ghost use Rattle.pb_play.specs.contracts.task.Task as task;
    ghost use Rattle.pb_play.specs.contracts.node.BlockKeys as block_keys;

    ghost Value = { Written };

    ghost coded = { coded_written task.the_row.coded block_keys.the_row.coded };

    ghost view = { λ l. written_of l.nodes.items };
}
