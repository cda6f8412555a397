//! What an item's module does on a host when its task starts.
ghost use Rattle.std.specs.Prelude.{◌≡◌, ◌≢◌, IfOk, IfErr, Ok, Err};
ghost use Rattle.pb_items.specs.Faults.{said};
ghost use Rattle.pb_items.specs.Planning.{or_not_defined, asserted, setup_of, done_by};
ghost use Rattle.pb_items.specs.declared.fault.ItemFault.TheVariants as item;
ghost use Rattle.pb_operators.specs.declared.fault.EvalFault.TheVariants as eval;
ghost use Rattle.pb_outcome.specs.Decided as result_of;
ghost use Rattle.pb_outcome.specs.declared.item.Planned.TheVariants as plan;

use crate::calls::{command_in, shell_in};
use crate::facts::facts_of;
use crate::fault::ItemFault;
use crate::planned::Planned;
use crate::results::{assert_result, meta_result};
use pb_conditions::holds::holds;
use pb_expr_eval::eval::{eval, render_prepared};
use pb_expr_syntax::tree::Expr;
use pb_layers::scope::Scope;
use pb_operators::fault::EvalFault;
use pb_outcome::decided::{debug_result, fail_result, faulty_result, set_result, shown_result};
use pb_outcome::gather::ItemResult;
use pb_outcome::job::Call;
use pb_outcome::result_names::ResultNames;
use pb_play::modules::Module;
use pb_prepared::prepared::Prepared;
use pb_value::text::Text;
use pb_value::val::{Dict, Val};
use std::alloc::{AllocError, Global};

/// An item that fails since it can't be read.
pub(crate) fn unread(alloc: Global, fault: &ItemFault) -> Result<Planned, AllocError>
    ensures { IfOk result (λ p. (fault.now ≢ item.Memory) × (p ≡ plan.Decided (result_of.faulty_result (said fault.now)))) }
{
    let message = fault.message(alloc)?;
    Ok(Planned::Decided(faulty_result(alloc, message.as_str())?))
}

/// What `var` shows of what was read: a text that says so where a name stands for nothing.
fn or_not_defined(alloc: Global, outcome: Result<Val, EvalFault>) -> Result<Val, EvalFault>
    ensures value { IfOk result (λ v. or_not_defined outcome ≡ Ok v) }
    ensures fault { IfErr result (λ e. e ≢ eval.Memory → or_not_defined outcome ≡ Err e) }
{
    match outcome {
        Err(EvalFault::Undefined { name: _name }) => {
            let text = Text::from_str(alloc, "VARIABLE IS NOT DEFINED!")?;
            Ok(Val::text(text))
        }
        outcome => outcome,
    }
}

/// An item of `assert`: its conditions, and both of its messages, whichever is the result's.
fn asserted(
    alloc: Global,
    names: &ResultNames,
    that: &[Expr],
    fail_msg: &Prepared,
    success_msg: &Prepared,
    scope: &Scope,
) -> Result<ItemResult, ItemFault>
    ensures value { IfOk result (λ r. asserted scope.now that.now fail_msg.now success_msg.now ≡ Ok r) }
    ensures fault { IfErr result (λ e. e ≢ item.Memory → asserted scope.now that.now fail_msg.now success_msg.now ≡ Err e) }
{
    let holds = holds(alloc, that, scope)?;
    let fail_msg = render_prepared(alloc, fail_msg, scope)?;
    let success_msg = render_prepared(alloc, success_msg, scope)?;
    Ok(assert_result(alloc, names, holds, fail_msg, success_msg)?)
}

/// What `setup` does: it is sent where there is a program that gathers facts, and else gathers none.
fn setup_of(
    alloc: Global,
    names: &ResultNames,
    has_facts_program: bool,
) -> Result<Planned, AllocError>
    ensures { IfOk result (λ p. p ≡ setup_of has_facts_program) }
{
    if has_facts_program {
        Ok(Planned::Sends(Call::Setup))
    } else {
        let none = Val::dict(Dict::new(alloc));
        Ok(Planned::Decided(set_result(alloc, names, none)?))
    }
}

/// What a module does, or the fault of what it is given.
#[tactic(auto, unfolding(crate::specs::Planning::done_by))]
pub(crate) fn done_by(
    alloc: Global,
    names: &ResultNames,
    has_facts_program: bool,
    called: &Module,
    scope: &Scope,
) -> Result<Planned, ItemFault>
    ensures value { IfOk result (λ p. done_by has_facts_program scope.now called.now ≡ Ok p) }
    ensures fault { IfErr result (λ e. e ≢ item.Memory → done_by has_facts_program scope.now called.now ≡ Err e) }
{
    let result = match called {
        Module::Assert {
            that,
            fail_msg,
            success_msg,
        } => asserted(alloc, names, that.as_slice(), fail_msg, success_msg, scope)?,
        Module::Command(words) => return Ok(Planned::Sends(command_in(alloc, words, scope)?)),
        Module::Debug { msg } => debug_result(alloc, names, render_prepared(alloc, msg, scope)?)?,
        Module::DebugVar { text, expr } => {
            let value = or_not_defined(alloc, eval(alloc, expr, scope))?;
            shown_result(alloc, text.as_str(), value)?
        }
        Module::Fail { msg } => fail_result(alloc, names, render_prepared(alloc, msg, scope)?)?,
        Module::Meta(_) => meta_result(alloc)?,
        Module::SetFact { facts } => set_result(
            alloc,
            names,
            Val::dict(facts_of(alloc, facts, scope)?),
        )?,
        Module::Setup => return Ok(setup_of(alloc, names, has_facts_program)?),
        Module::Shell { cmd } => return Ok(Planned::Sends(shell_in(alloc, cmd, scope)?)),
    };
    Ok(Planned::Decided(result))
}
