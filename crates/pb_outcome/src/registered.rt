//! What a task shows and registers.
ghost use Rattle.std.specs.Prelude.{◌≡◌, ℕ, List, IfOk, IfSome, OnOk};
ghost use Rattle.std.specs.Option.{option_copied};
ghost use Rattle.pb_value.specs.Datum.{text, list, dict, items_of, members_of};
ghost use Rattle.pb_outcome.specs.Putting.{put_no_items, put_results};
ghost use Rattle.pb_outcome.specs.Items.{ended, lost_in, no_items_result, under_variable, members_in, loop_message, loop_result, only_result, only_then, result_of, shown_then};

use crate::gather::ItemResult;
use crate::item::{Item, Planned};
use crate::items::{are_skipped, has_changed, has_failed, has_unreachable};
use crate::members::{flagged, put_text};
use pb_value::val::{Dict, Node, Val, ValList};
use std::alloc::{AllocError, Global};

/// The result of the first item that found its host out of reach.
fn lost_in(alloc: Global, items: &[Item]) -> Result<Val, AllocError>
    ensures { IfOk result (λ v. v ≡ lost_in (ended items.now)) }
{
    for item in items {
        if let Planned::Decided(result) = &item.step {
            if result.ending.is_unreachable() {
                return result.result.try_clone(alloc);
            }
        }
    }
    Ok(Val::null())
}

/// Puts in that a loop's list was empty.
fn put_no_items(alloc: Global, members: &mut Dict) -> Result<(), AllocError>
    ensures { OnOk result (members.new ≡ put_no_items members.old) }
{
    let results = Val::list(ValList::from_vec(Vec::new(alloc)));
    members.put(alloc, "results", results)?;
    members.put(alloc, "skipped", Val::boolean(true))?;
    put_text(alloc, members, "skipped_reason", "No items in the list")
}

/// The result of a loop over an empty list.
fn no_items_result(alloc: Global) -> Result<Val, AllocError>
    ensures { IfOk result (λ v. v ≡ no_items_result) }
{
    let mut members = flagged(alloc, false, false)?;
    put_no_items(alloc, &mut members)?;
    Ok(Val::dict(members))
}

/// The result of an item that is shown.
fn shown(alloc: Global, step: &Planned) -> Result<Val, AllocError>
    ensures { IfOk result (λ v. v ≡ shown_then step.now) }
{
    match step {
        Planned::Decided(result) => result.result.try_clone(alloc),
        Planned::Sends(_) => Ok(Val::null()),
    }
}

/// An item's result with the loop variable's name as a further key.
fn under_variable(
    alloc: Global,
    variable: &str,
    value: &Option<Val>,
    shown: &Val,
) -> Result<Val, AllocError>
    ensures { IfOk result (λ v. v ≡ under_variable variable.now value.now shown.now) }
{
    match (value, &shown.node) {
        (Some(value), Node::Dict(members)) => {
            let mut members = members.try_clone(alloc)?;
            members.put(alloc, variable, value.try_clone(alloc)?)?;
            Ok(Val::dict(members))
        }
        _ => shown.try_clone(alloc),
    }
}

/// The results of the items of a loop, as far as they have one.
fn members_in(alloc: Global, variable: &str, items: &[Item]) -> Result<ValList, AllocError>
    ensures { IfOk result (λ l. l ≡ members_in variable.now items.now) }
{
    let mut members = ValList::from_vec(Vec::new(alloc));
    for item in items {
        if let Planned::Decided(result) = &item.step {
            members.push(under_variable(alloc, variable, &item.value, &result.result)?)?;
        }
    }
    Ok(members)
}

fn loop_message(items: &[Item]) -> &'static str
    ensures { result.now ≡ loop_message (ended items.now) }
{
    if are_skipped(items) {
        "All items skipped"
    } else if has_failed(items) {
        "One or more items failed"
    } else {
        "All items completed"
    }
}

/// Puts in what the items of a loop came to.
fn put_results(
    alloc: Global,
    members: &mut Dict,
    variable: &str,
    items: &[Item],
) -> Result<(), AllocError>
    ensures { OnOk result (members.new ≡ put_results (ended items.now) (members_in variable.now items.now) members.old) }
{
    put_text(alloc, members, "msg", loop_message(items))?;
    let results = Val::list(members_in(alloc, variable, items)?);
    members.put(alloc, "results", results)
}

/// The result of a loop over items.
fn loop_result(alloc: Global, variable: &str, items: &[Item]) -> Result<Val, AllocError>
    ensures { IfOk result (λ v. v ≡ loop_result (ended items.now) (members_in variable.now items.now)) }
{
    let mut members = flagged(alloc, has_changed(items), has_failed(items))?;
    put_results(alloc, &mut members, variable, items)?;
    if are_skipped(items) {
        members.put(alloc, "skipped", Val::boolean(true))?;
    }
    Ok(Val::dict(members))
}

/// What a task shows and registers, with the name of its loop variable: the result of its item, or that of its loop, in which
/// each item's result has the variable as a further key. Where an item found its host out of reach it is that item's result
/// alone. See Ansible's documentation, "Loops".
pub fn registered(alloc: Global, variable: &str, items: &[Item]) -> Result<Val, AllocError>
    ensures { IfOk result (λ v. v ≡ result_of variable.now items.now) }
{
    if has_unreachable(items) {
        return lost_in(alloc, items);
    }
    match items {
        [] => no_items_result(alloc),
        [item, ..] => {
            if item.value.is_some() {
                loop_result(alloc, variable, items)
            } else {
                shown(alloc, &item.step)
            }
        }
    }
}

/// The result of an item of a task without a loop, if it has one.
fn only_then<'a>(value: &Option<Val>, step: &'a Planned) -> Option<&'a Val>
    ensures { option_copied result ≡ only_then value.now step.now }
{
    match (value, step) {
        (None, Planned::Decided(result)) => Some(&result.result),
        (None, Planned::Sends(_)) => None,
        (Some(_), _) => None,
    }
}

/// The result of the one item of a task without a loop, if it has one: it is what the task shows and registers, and needn't be
/// copied.
pub fn only_result(items: &[Item]) -> Option<&Val>
    ensures value { option_copied result ≡ only_result items.now }
    ensures shown { (variable : List ℕ) → IfSome (only_result items.now) (λ v. v ≡ result_of variable items.now) }
{
    match items {
        [item] => only_then(&item.value, &item.step),
        _ => None,
    }
}

/// An item's result itself, where its task has no loop and it has one.
fn only_of(item: Item) -> Option<Val>
    ensures { result ≡ only_then item.value item.step }
{
    let Item {
        value,
        delegate,
        tried: _,
        step,
    } = item;
    drop(delegate);
    match (value, step) {
        (None, Planned::Decided(ItemResult { ending: _, result })) => Some(result),
        _ => None,
    }
}

/// The result of the one item of a task without a loop, taken out of its items. It takes no memory.
pub fn into_only_result(items: Vec<Item>) -> Option<Val>
    ensures { result ≡ only_result items.items }
{
    let mut items = items;
    if items.len() != 1 {
        return None;
    }
    match items.pop() {
        Some(item) => only_of(item),
        None => None,
    }
}
