//! What items are read from.
ghost use Rattle.std.specs.Prelude.{◌≡◌};

use pb_expr_syntax::tree::Expr;
use pb_layers::layers::{Layers, Magic};
use pb_outcome::result_names::ResultNames;
use pb_play::task::Task;
use pb_prepared::prepared::PreparedText;
use std::marker::Model;

/// What the items of a task on a host are read from when it starts there.
#[derive(Drop)]
pub struct Start<'a> {
    pub task: &'a Task,
    /// The conditions that have to hold for it to run: those of the role, of the outer blocks, of the inner blocks, and the task's own.
    pub conditions: &'a [Expr],
    /// The template of the name of the host that runs it in place of the host itself.
    pub delegate_to: Option<&'a PreparedText>,
    /// Whether there is a program that gathers facts.
    pub has_facts_program: bool,
    /// The names of results that are decided at once.
    pub names: &'a ResultNames,
    /// The variables that the task sees on the host.
    pub layers: &'a Layers<'a>,
    pub magic: &'a Magic<'a>,
}

impl<'a> Model for Start<'a> {
    ghost use Rattle.std.specs.Coded.{codes};
    ghost use Rattle.std.specs.Option.{option_copied};
    ghost use Rattle.pb_value.specs.contracts.val.Val as val;
    ghost use Rattle.pb_value.specs.contracts.val.Dict as dict;
    ghost use Rattle.pb_expr_syntax.specs.contracts.tree.Expr as expr;
    ghost use Rattle.pb_items.specs.Items.{StartOf};

    ghost Value = { StartOf };

    ghost coded = { Prim.hlevel (codes, val.the_row.coded, dict.the_row.coded, expr.the_row.coded) };

    ghost view = { λ s. record {
      task = s.task.now;
      conditions = s.conditions.now;
      delegate_to = option_copied s.delegate_to;
      has_facts_program = s.has_facts_program;
      layers = s.layers.now;
      magic = s.magic.now;
    } };
}

impl<'a> Start<'a> {
    /// The same over layers that are the same.
    pub(crate) fn over(&'a self, layers: &'a Layers<'a>) -> Start<'a>
        requires { layers.now ≡ self.now.layers }
        ensures { result ≡ self.now }
    {
        Start {
            task: self.task,
            conditions: self.conditions,
            delegate_to: self.delegate_to,
            has_facts_program: self.has_facts_program,
            names: self.names,
            layers,
            magic: self.magic,
        }
    }
}
