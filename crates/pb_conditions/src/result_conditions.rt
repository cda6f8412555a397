//! What a task says itself of an item's result.
ghost use Rattle.std.specs.Prelude.{◌≡◌, ◌≢◌, [], ◌∷◌, IfOk, IfErr, Ok, Err};
ghost use Rattle.pb_operators.specs.declared.fault.EvalFault.TheVariants as fault;
ghost use Rattle.pb_conditions.specs.Conditions.{holds};
ghost use Rattle.pb_conditions.specs.ResultConditions.{with_key, ended_changed, ended_failed, changed_to, failed_to, sees, seen_as, by_condition, by_conditions, or_faulty, with_conditions};

use crate::holds::holds;
use pb_expr_eval::messages::fault_message;
use pb_expr_syntax::tree::Expr;
use pb_layers::layers::{Layers, Magic};
use pb_layers::scope::Scope;
use pb_operators::fault::EvalFault;
use pb_outcome::decided::faulty_result;
use pb_outcome::gather::{Ending, ItemResult};
use pb_value::items::Items;
use pb_value::text::Text;
use pb_value::val::{Dict, Node, Val};
use std::alloc::{AllocError, Global};

/// What the conditions of an item see, and the name under which they see its result.
#[derive(Drop)]
pub struct Sight<'a> {
    pub layers: &'a Layers<'a>,
    pub magic: &'a Magic<'a>,
    /// The loop variable; empty where the task has no loop.
    pub loop_variable: &'a Dict,
    /// The name that the task registers its result under, if it has one.
    pub register: &'a Option<Text>,
}

/// Whether conditions hold where a result is seen under a name, over what was set and registered.
fn holds_named(
    alloc: Global,
    conditions: &[Expr],
    sight: &Sight,
    name: &str,
    shown: &Val,
) -> Result<bool, EvalFault>
    ensures value { IfOk result (λ b. holds (sees sight.now.layers.now sight.now.magic.now sight.now.loop_variable.now ((name.now, shown.now) ∷ [])) conditions.now ≡ Ok b) }
    ensures fault { IfErr result (λ e. e ≢ fault.Memory → holds (sees sight.now.layers.now sight.now.magic.now sight.now.loop_variable.now ((name.now, shown.now) ∷ [])) conditions.now ≡ Err e) }
{
    let scope = Scope::seeing(sight.layers, sight.magic, sight.loop_variable, name, shown);
    holds(alloc, conditions, &scope)
}

/// Whether conditions hold where a result is seen.
pub(crate) fn holds_seeing(
    alloc: Global,
    conditions: &[Expr],
    sight: &Sight,
    shown: &Val,
) -> Result<bool, EvalFault>
    ensures value { IfOk result (λ b. holds (sees sight.now.layers.now sight.now.magic.now sight.now.loop_variable.now (seen_as sight.now.register.now shown.now)) conditions.now ≡ Ok b) }
    ensures fault { IfErr result (λ e. e ≢ fault.Memory → holds (sees sight.now.layers.now sight.now.magic.now sight.now.loop_variable.now (seen_as sight.now.register.now shown.now)) conditions.now ≡ Err e) }
{
    match sight.register {
        Some(name) => holds_named(alloc, conditions, sight, name.as_str(), shown),
        None => {
            let scope = Scope::new(sight.layers, sight.magic, sight.loop_variable);
            holds(alloc, conditions, &scope)
        }
    }
}

/// A result with this under one of its keys.
fn with_key(alloc: Global, key: &str, truth: bool, shown: Val) -> Result<Val, AllocError>
    ensures { IfOk result (λ v. v ≡ with_key key.now truth shown) }
{
    match shown.into_node() {
        Node::Dict(mut members) => {
            members.put(alloc, key, Val::boolean(truth))?;
            Ok(Val::dict(members))
        }
        node => Ok(Val { node }),
    }
}

fn ended_changed(truth: bool, ending: Ending) -> Ending
    ensures { result ≡ ended_changed truth ending }
{
    match ending {
        Ending::Ran { changed: _, failed } => Ending::Ran {
            changed: truth,
            failed,
        },
        ending => ending,
    }
}

fn ended_failed(truth: bool, ending: Ending) -> Ending
    ensures { result ≡ ended_failed truth ending }
{
    match ending {
        Ending::Ran { changed, failed: _ } => Ending::Ran {
            changed,
            failed: truth,
        },
        ending => ending,
    }
}

fn changed_to(alloc: Global, item: ItemResult, truth: bool) -> Result<ItemResult, AllocError>
    ensures { IfOk result (λ new_item. new_item ≡ changed_to item truth) }
{
    let ItemResult {
        ending,
        result: shown,
    } = item;
    Ok(ItemResult {
        ending: ended_changed(truth, ending),
        result: with_key(alloc, "changed", truth, shown)?,
    })
}

pub(crate) fn failed_to(
    alloc: Global,
    item: ItemResult,
    truth: bool,
) -> Result<ItemResult, AllocError>
    ensures { IfOk result (λ new_item. new_item ≡ failed_to item truth) }
{
    let ItemResult {
        ending,
        result: shown,
    } = item;
    Ok(ItemResult {
        ending: ended_failed(truth, ending),
        result: with_key(alloc, "failed", truth, shown)?,
    })
}

/// The item as `changed_when` has it.
fn by_changed_when(
    alloc: Global,
    sight: &Sight,
    changed_when: &Option<Items<Expr>>,
    item: ItemResult,
) -> Result<ItemResult, EvalFault>
    ensures value { IfOk result (λ new_item. by_condition changed_to (sees sight.now.layers.now sight.now.magic.now sight.now.loop_variable.now) sight.now.register.now changed_when.now item ≡ Ok new_item) }
    ensures fault { IfErr result (λ e. e ≢ fault.Memory → by_condition changed_to (sees sight.now.layers.now sight.now.magic.now sight.now.loop_variable.now) sight.now.register.now changed_when.now item ≡ Err e) }
{
    match changed_when {
        Some(conditions) => {
            let truth = holds_seeing(alloc, conditions.as_slice(), sight, &item.result)?;
            Ok(changed_to(alloc, item, truth)?)
        }
        None => Ok(item),
    }
}

/// The item as `failed_when` has it.
fn by_failed_when(
    alloc: Global,
    sight: &Sight,
    failed_when: &Option<Items<Expr>>,
    item: ItemResult,
) -> Result<ItemResult, EvalFault>
    ensures value { IfOk result (λ new_item. by_condition failed_to (sees sight.now.layers.now sight.now.magic.now sight.now.loop_variable.now) sight.now.register.now failed_when.now item ≡ Ok new_item) }
    ensures fault { IfErr result (λ e. e ≢ fault.Memory → by_condition failed_to (sees sight.now.layers.now sight.now.magic.now sight.now.loop_variable.now) sight.now.register.now failed_when.now item ≡ Err e) }
{
    match failed_when {
        Some(conditions) => {
            let truth = holds_seeing(alloc, conditions.as_slice(), sight, &item.result)?;
            Ok(failed_to(alloc, item, truth)?)
        }
        None => Ok(item),
    }
}

/// The item as its task has it, or the first fault.
fn by_conditions(
    alloc: Global,
    sight: &Sight,
    changed_when: &Option<Items<Expr>>,
    failed_when: &Option<Items<Expr>>,
    item: ItemResult,
) -> Result<ItemResult, EvalFault>
    ensures value { IfOk result (λ new_item. by_conditions (sees sight.now.layers.now sight.now.magic.now sight.now.loop_variable.now) sight.now.register.now changed_when.now failed_when.now item ≡ Ok new_item) }
    ensures fault { IfErr result (λ e. e ≢ fault.Memory → by_conditions (sees sight.now.layers.now sight.now.magic.now sight.now.loop_variable.now) sight.now.register.now changed_when.now failed_when.now item ≡ Err e) }
{
    let item = by_changed_when(alloc, sight, changed_when, item)?;
    by_failed_when(alloc, sight, failed_when, item)
}

/// A fault of reading is the item's.
pub(crate) fn or_faulty(
    alloc: Global,
    came: Result<ItemResult, EvalFault>,
) -> Result<ItemResult, AllocError>
    ensures { IfOk result (λ item. (came ≢ Err fault.Memory) × (item ≡ or_faulty came)) }
{
    match came {
        Ok(item) => Ok(item),
        Err(EvalFault::Memory) => Err(AllocError),
        Err(fault) => {
            let message = fault_message(alloc, &fault)?;
            faulty_result(alloc, message.as_str())
        }
    }
}

/// An item whose module ran, as its task says of it: whether it changed something by `changed_when`, and then whether it failed by
/// `failed_when`, each where the task has it. The conditions see the item's result, as it is by then, under the name that the
/// task registers it under. Where one of them can't be read the item is faulty. Every other item stays as it is. The only
/// error is want of memory. See Ansible's documentation, "Error handling in playbooks".
pub fn with_conditions(
    alloc: Global,
    sight: &Sight,
    changed_when: &Option<Items<Expr>>,
    failed_when: &Option<Items<Expr>>,
    item: ItemResult,
) -> Result<ItemResult, AllocError>
    ensures { IfOk result (λ new_item. new_item ≡ with_conditions (sees sight.now.layers.now sight.now.magic.now sight.now.loop_variable.now) sight.now.register.now changed_when.now failed_when.now item) }
{
    match item.ending {
        Ending::Ran {
            changed: _,
            failed: _,
        } => match (changed_when, failed_when) {
            (None, None) => Ok(item),
            _ => or_faulty(
                alloc,
                by_conditions(alloc, sight, changed_when, failed_when, item),
            ),
        },
        _ => Ok(item),
    }
}
