ghost use Rattle.std.specs.Prelude.{◌≡◌};
ghost use Rattle.serde_json.specs.Data as json;
ghost use Rattle.serde_json.specs.View.{view, members_view};
ghost use Rattle.pb_reading.specs.Ahead.{ahead, Takes};
ghost use Rattle.pb_reading.specs.Fields.{value_of};
ghost use Rattle.pb_play_reading.specs.Blocks.{keys_in_block, middle_of_block, rest_of_block};
ghost use Rattle.pb_play.specs.Nodes.{Nothing, Block};
ghost use Rattle.pb_play.specs.View.{node_of};
ghost use Rattle.pb_play_reading.specs.Returned.{IsRead};

use crate::couplings::{Delegation, Runs, coupled, read_delegation, read_runs};
use crate::other_keys::WithoutEffect;
use pb_expr_syntax::tree::Expr;
use pb_play::node::{BlockKeys, Node, NodeList};
use pb_reading::keys::Keys;
use pb_reading::list::EachNamed;
use pb_reading::simple::PlainText;
use pb_reading::stop::Stop;
use pb_value::items::Items;
use pb_value::val::Dict;
use pb_written::conditions::Conditions;
use pb_written::fault::LoadFault;
use pb_written::simple::Switch;
use pb_written::values::TemplateValue;
use std::alloc::Global;

/// The parts of a block whose keys come first.
pub(crate) struct Early {
    pub(crate) always: NodeList,
    pub(crate) any_errors_fatal: Option<bool>,
    pub(crate) body: NodeList,
}

// (by hand: it is then dropped by one call, and not part by part at each exit)
impl Drop for Early {
    fn drop(self) {
        let Early {
            always,
            any_errors_fatal: _,
            body,
        } = self;
        drop(always);
        drop(body);
    }
}

/// What a block's keys up to `rescue` say.
pub(crate) struct BegunBlock {
    pub(crate) early: Early,
    pub(crate) middle: MiddleOfBlock,
    pub(crate) rescue: NodeList,
}

impl Drop for BegunBlock {
    fn drop(self) {
        let BegunBlock {
            early,
            middle,
            rescue,
        } = self;
        let MiddleOfBlock {
            delegation,
            ignore_errors: _,
        } = middle;
        let Delegation {
            delegate_facts: _,
            delegate_to,
        } = delegation;
        drop(early);
        drop(delegate_to);
        drop(rescue);
    }
}

/// What a block says of the host that runs its tasks, and whether it ignores failures, where it says so.
#[derive(Drop)]
pub(crate) struct MiddleOfBlock {
    delegation: Delegation,
    ignore_errors: Option<bool>,
}

/// What a block says between its body and its rescue; its name is a text, and isn't kept.
pub(crate) fn read_middle(
    alloc: Global,
    keys: &mut Keys<'_, WithoutEffect>,
) -> Result<MiddleOfBlock, Stop<LoadFault>>
    ensures value { Takes (λ v. v) result (ahead keys.new) (middle_of_block (ahead keys.old)) }
    ensures path { (ahead keys.new).path ≡ (ahead keys.old).path }
{
    let delegation = read_delegation(alloc, keys)?;
    let ignore_errors = keys.field::<Switch>(alloc, "ignore_errors")?;
    keys.field::<PlainText>(alloc, "name")?;
    Ok(MiddleOfBlock {
        delegation,
        ignore_errors,
    })
}

/// The block, whose keys up to `rescue` are these.
pub(crate) fn read_rest(
    alloc: Global,
    mut keys: Keys<'_, WithoutEffect>,
    begun: BegunBlock,
) -> Result<Node, Stop<LoadFault>>
    ensures { IsRead result (value_of (rest_of_block begun.early begun.middle begun.rescue (ahead keys.entry))) }
{
    let runs = read_runs(alloc, &mut keys)?;
    let vars = keys.field_or::<EachNamed<TemplateValue>>(alloc, "vars", Dict::new(alloc))?;
    let conditions = keys.field_or::<Conditions>(alloc, "when", Items::new(alloc))?;
    keys.others(alloc)?;
    Ok(begun.of(runs, vars, conditions))
}

impl BegunBlock {
    /// The block that begins with this.
    fn of(self, runs: Runs, vars: Dict, conditions: Items<Expr>) -> Node
        ensures { node_of result Nothing ≡ Block (keys_in_block self.middle self.early.any_errors_fatal runs vars conditions) self.early.body self.rescue self.early.always Nothing }
    {
        let BegunBlock {
            early,
            middle,
            rescue,
        } = self;
        let keys = middle.of(early.any_errors_fatal, runs, vars, conditions);
        early.of(keys, rescue)
    }
}

impl MiddleOfBlock {
    /// The keys of the block that says this.
    fn of(
        self,
        any_errors_fatal: Option<bool>,
        runs: Runs,
        vars: Dict,
        conditions: Items<Expr>,
    ) -> BlockKeys
        ensures { result ≡ keys_in_block self any_errors_fatal runs vars conditions }
    {
        let MiddleOfBlock {
            delegation,
            ignore_errors,
        } = self;
        let Runs { run_once, throttle } = runs;
        BlockKeys {
            conditions,
            vars,
            ignore_errors,
            throttle,
            couplings: coupled(any_errors_fatal, delegation, run_once),
        }
    }
}

impl Early {
    /// The block of these parts.
    fn of(self, keys: BlockKeys, rescue: NodeList) -> Node
        ensures { node_of result Nothing ≡ Block keys self.body rescue self.always Nothing }
    {
        let Early {
            always,
            any_errors_fatal: _,
            body,
        } = self;
        let NodeList { nodes: always } = always;
        let NodeList { nodes: body } = body;
        let NodeList { nodes: rescue } = rescue;
        Node::Block {
            keys,
            body,
            rescue,
            always,
        }
    }
}
