//! Tasks that look nothing up as they start.
ghost use Rattle.std.specs.Prelude.{◌≡◌, true};
ghost use Rattle.std.specs.Option.{option_copied};
ghost use Rattle.pb_value.specs.Datum.{members_of};
ghost use Rattle.pb_template.specs.Plain.{members_plain};
ghost use Rattle.pb_items.specs.Constant.{is_constant_module, has_no_conditions, is_constant, HasOneStart};

use pb_expr_syntax::tree::Expr;
use pb_play::modules::Module;
use pb_play::task::Task;
use pb_prepared::prepared::PreparedText;
use pb_template::plain::is_plain;
use pb_value::val::Dict;

/// Whether no text of these facts has an expression.
fn are_plain(facts: &Dict) -> bool
    ensures { result ≡ members_plain (members_of facts.now) }
{
    for (_name, value) in facts.iter() {
        if !is_plain(value) {
            return false;
        }
    }
    true
}

/// Whether no text that a module is given has an expression; where it starts a program nothing is asked.
fn is_constant_module(called: &Module) -> bool
    ensures { result ≡ is_constant_module called.now }
{
    match called {
        Module::Debug { msg } => is_plain(msg.value()),
        Module::Fail { msg } => is_plain(msg.value()),
        Module::Meta(_) => true,
        Module::SetFact { facts } => are_plain(facts.dict()),
        Module::Setup => true,
        Module::Assert {
            that: _,
            fail_msg: _,
            success_msg: _,
        } => false,
        Module::Command(_) => false,
        Module::DebugVar { text: _, expr: _ } => false,
        Module::Shell { cmd: _ } => false,
    }
}

/// Whether neither the task's start nor what is decided then hangs on a condition.
fn has_no_conditions(task: &Task, conditions: &[Expr]) -> bool
    ensures { result ≡ has_no_conditions task.now conditions.now }
{
    conditions.is_empty() && (task.changed_when.is_none() && task.failed_when.is_none())
}

/// Whether the items of a task, with these conditions and this delegate, are the same whatever variables it sees, since it looks none up: it has
/// neither loop nor conditions nor delegate, and no text of its module has an expression. It may be said of a task that looks nothing up that it isn't
/// one of these.
pub fn is_constant(task: &Task, conditions: &[Expr], delegate_to: Option<&PreparedText>) -> bool
    ensures value { result ≡ is_constant task.now conditions.now (option_copied delegate_to.entry) }

    // Such a task has the same items whatever it sees.
    ensures items { result ≡ true → HasOneStart task.now conditions.now (option_copied delegate_to.entry) }
{
    stands_alone(task, conditions, delegate_to)
}

fn stands_alone(task: &Task, conditions: &[Expr], delegate_to: Option<&PreparedText>) -> bool
    ensures { result ≡ is_constant task.now conditions.now (option_copied delegate_to.entry) }
{
    (task.looped.is_none() && delegate_to.is_none())
        && (has_no_conditions(task, conditions) && is_constant_module(&task.module))
}
