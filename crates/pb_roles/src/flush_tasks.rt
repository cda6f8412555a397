//! Handlers as the places of a Flush need them.
use crate::inherited::Inherited;
use pb_handlers::Handlers;
use pb_places::SearchedTask;
use pb_value::items::Items;
use std::alloc::Global;
use std::marker::Model;
use std::sync::Arc;

/// A handler's task, which its places share, with what stands round it.
pub(crate) struct HandlerTask {
    pub(crate) task: Arc<SearchedTask>,
    pub(crate) inherited: Inherited,
}

impl Drop for HandlerTask {
    fn drop(self) {
        let HandlerTask { task, inherited } = self;
        drop(task);
        drop(inherited);
    }
}

impl Model for HandlerTask {
    ghost use Rattle.std.specs.Coded.{codes};
    ghost use Rattle.std.specs.Arc.{arc_value};
    ghost use Rattle.pb_value.specs.contracts.val.Val as val;
    ghost use Rattle.pb_expr_syntax.specs.contracts.tree.Expr as expr;
    ghost use Rattle.pb_play.specs.contracts.task.Task as the_task;
    ghost use Rattle.pb_roles.specs.Building.{TaskIn};

    ghost Value = { TaskIn };

    ghost coded = { Prim.hlevel (codes, val.the_row.coded, expr.the_row.coded, the_task.the_row.coded) };

    ghost view = { λ h. record { task = arc_value h.task; inherited = h.inherited } };
}

/// The handlers of a play: what they are notified by, and their tasks.
pub(crate) struct Flushes {
    pub(crate) names: Handlers,
    pub(crate) handlers: Items<HandlerTask>,
}

impl Drop for Flushes {
    fn drop(self) {
        let Flushes { names, handlers } = self;
        drop(names);
        drop(handlers);
    }
}

impl Model for Flushes {
    ghost use Rattle.std.specs.Coded.{codes};
    ghost use Rattle.pb_value.specs.contracts.val.Val as val;
    ghost use Rattle.pb_expr_syntax.specs.contracts.tree.Expr as expr;
    ghost use Rattle.pb_play.specs.contracts.task.Task as the_task;
    ghost use Rattle.pb_roles.specs.Building.{Flushed};

    ghost Value = { Flushed };

    ghost coded = { Prim.hlevel (codes, val.the_row.coded, expr.the_row.coded, the_task.the_row.coded) };

    ghost view = { λ f. record { names = f.names; handlers = f.handlers } };
}
