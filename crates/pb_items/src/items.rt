//! The items of a task.
ghost use Rattle.std.specs.Prelude.{◌≡◌, ◌≢◌, ◌≤◌, [], ◌∷◌, Some, IfOk, IfErr, Ok, Err, length, map};
ghost use Rattle.std.specs.Option.{option_copied};
ghost use Rattle.pb_items.specs.Items.{seen_by, delegate_in, with_conditions_of, attempted_by, attempted_item, with_conditions_step, step_in, item_in, faulty_item, looped_items, items_of};
ghost use Rattle.pb_items.specs.Loops.{max_items, values_of};
ghost use Rattle.pb_items.specs.declared.fault.ItemFault.TheVariants as item;

use crate::fault::ItemFault;
use crate::loops::{loop_variable, name_over, values_of};
use crate::planning::{done_by, unread};
use crate::results::skipped_result;
use crate::start::Start;
use pb_conditions::attempt::{Back, Terms};
use pb_conditions::holds::holds;
use pb_conditions::result_conditions::{Sight, with_conditions};
use pb_expr_eval::eval::render_prepared;
use pb_layers::scope::Scope;
use pb_outcome::gather::ItemResult;
use pb_outcome::item::{Item, Planned};
use pb_play::loops::Loop;
use pb_play::retrying::Retrying;
use pb_prepared::prepared::PreparedText;
use pb_value::items::Items;
use pb_value::text::Text;
use pb_value::val::{Dict, Node, Val, ValList};
use std::alloc::{AllocError, Global};

/// To whom an item is delegated, if it is: to a text that isn't empty.
fn delegate_in(
    alloc: Global,
    delegate_to: Option<&PreparedText>,
    scope: &Scope,
) -> Result<Option<Text>, ItemFault>
    ensures value { IfOk result (λ d. delegate_in scope.now (option_copied delegate_to.entry) ≡ Ok d) }
    ensures fault { IfErr result (λ e. e ≢ item.Memory → delegate_in scope.now (option_copied delegate_to.entry) ≡ Err e) }
{
    let Some(template) = delegate_to else {
        return Ok(None);
    };
    let name = render_prepared(alloc, template.prepared(), scope)?;
    let Node::Text(name) = name.into_node() else {
        return Err(ItemFault::BadDelegate);
    };
    if name.is_empty() {
        return Err(ItemFault::BadDelegate);
    }
    Ok(Some(name))
}

/// The result of an item with this loop variable, as the task says of it.
fn with_conditions_of(
    alloc: Global,
    start: &Start,
    variable: &Dict,
    item: ItemResult,
) -> Result<ItemResult, AllocError>
    ensures { IfOk result (λ new_item. new_item ≡ with_conditions_of start.now variable.now item) }
{
    let task = start.task;
    let sight = Sight {
        layers: start.layers,
        magic: start.magic,
        loop_variable: variable,
        register: &task.register,
    };
    with_conditions(alloc, &sight, &task.changed_when, &task.failed_when, item)
}

/// What an attempt at an item with this loop variable comes to, where the task may be tried again.
fn retried(
    alloc: Global,
    start: &Start,
    retrying: &Retrying,
    variable: &Dict,
    attempt: u32,
    item: ItemResult,
) -> Result<Back, AllocError>
    ensures { IfOk result (λ back. back ≡ attempted_by (Some retrying.now) start.now variable.now attempt item) }
{
    let task = start.task;
    let sight = Sight {
        layers: start.layers,
        magic: start.magic,
        loop_variable: variable,
        register: &task.register,
    };
    let terms = Terms {
        changed_when: &task.changed_when,
        failed_when: &task.failed_when,
        until: &retrying.until,
    };
    let is_last = retrying.retries < attempt;
    pb_conditions::attempt::attempted(alloc, &sight, &terms, attempt, is_last, item)
}

/// What an attempt at an item comes to whose job came back, with the item's value of the loop variable: as the task says of it, in the scopes
/// that its host has at that moment. Attempts are numbered from 1. An item of a task without retries has its result. The only error is want of
/// memory. See Ansible's documentation, "Error handling in playbooks" and "Retrying a task until a condition is met".
pub fn attempted(
    alloc: Global,
    start: &Start,
    value: &Option<Val>,
    attempt: u32,
    item: ItemResult,
) -> Result<Back, AllocError>
    ensures { IfOk result (λ back. back ≡ attempted_item start.now value.now attempt item) }
{
    let variable = loop_variable(alloc, &start.task.looped, value)?;
    match &start.task.retrying {
        Some(retrying) => retried(alloc, start, retrying, &variable, attempt, item),
        None => Ok(Back::Ends(with_conditions_of(alloc, start, &variable, item)?)),
    }
}

/// What is decided at once, as the task says of it.
fn with_conditions_step(
    alloc: Global,
    start: &Start,
    variable: &Dict,
    step: Planned,
) -> Result<Planned, AllocError>
    ensures { IfOk result (λ s. s ≡ with_conditions_step start.now variable.now step) }
{
    match step {
        Planned::Decided(item) => {
            let item = with_conditions_of(alloc, start, variable, item)?;
            Ok(Planned::Decided(item))
        }
        Planned::Sends(call) => Ok(Planned::Sends(call)),
    }
}

/// What an item with this loop variable does, and the host that it is delegated to: its conditions are read first, then its module, then
/// its delegate.
fn step_in(
    alloc: Global,
    start: &Start,
    variable: &Dict,
) -> Result<(Planned, Option<Text>), ItemFault>
    ensures value { IfOk result (λ s. step_in start.now variable.now ≡ Ok s) }
    ensures fault { IfErr result (λ e. e ≢ item.Memory → step_in start.now variable.now ≡ Err e) }
{
    let scope = Scope::new(start.layers, start.magic, variable);
    if !holds(alloc, start.conditions, &scope)? {
        return Ok((Planned::Decided(skipped_result(alloc, start.names)?), None));
    }
    let done = done_by(
        alloc,
        start.names,
        start.has_facts_program,
        &start.task.module,
        &scope,
    )?;
    let delegate = delegate_in(alloc, start.delegate_to, &scope)?;
    let step = with_conditions_step(alloc, start, variable, done)?;
    Ok((step, delegate))
}

/// An item that can't be read.
fn faulty_item(alloc: Global, value: Option<Val>, fault: &ItemFault) -> Result<Item, AllocError>
    ensures { IfOk result (λ i. (fault.now ≢ item.Memory) × (i ≡ faulty_item value fault.now)) }
{
    let step = unread(alloc, fault)?;
    Ok(Item {
        value,
        delegate: None,
        tried: 0,
        step,
    })
}

/// The item of this value of the loop variable.
#[tactic(auto, unfolding(crate::specs::Items::item_in))]
fn item_in(alloc: Global, start: &Start, value: Option<Val>) -> Result<Item, AllocError>
    ensures { IfOk result (λ i. i ≡ item_in start.now value) }
{
    let variable = loop_variable(alloc, &start.task.looped, &value)?;
    match step_in(alloc, start, &variable) {
        Ok((step, delegate)) => Ok(Item {
            value,
            delegate,
            tried: 0,
            step,
        }),
        Err(fault) => faulty_item(alloc, value, &fault),
    }
}

/// An item for each of these values.
fn item_of_each(alloc: Global, start: &Start, values: ValList) -> Result<Items<Item>, AllocError>
    ensures { IfOk result (λ items. items ≡ map (λ value. item_in start.now (Some value)) values) }
{
    let mut items = Vec::with_capacity(alloc, values.len())?;
    for value in values.items {
        items.push(item_in(alloc, start, Some(value))?)?;
    }
    Ok(Items::from_vec(items))
}

/// The one item of a task.
fn only(alloc: Global, item: Item) -> Result<Items<Item>, AllocError>
    ensures { IfOk result (λ items. items ≡ item ∷ []) }
{
    let mut items = Vec::with_capacity(alloc, 1)?;
    items.push(item)?;
    Ok(Items::from_vec(items))
}

/// The items of a loop over these values, in layers that are marked with the name that its list is found under: a key that names it doesn't look
/// through its texts for each item.
fn items_over(
    alloc: Global,
    start: &Start,
    looped: &Loop,
    values: ValList,
) -> Result<Items<Item>, AllocError>
    ensures { IfOk result (λ items. items ≡ map (λ value. item_in start.now (Some value)) values) }
{
    let Some(name) = name_over(alloc, &looped.over)? else {
        return item_of_each(alloc, start, values);
    };
    let layers = start.layers.marking(alloc, name.as_str());
    let marked = start.over(&layers);
    item_of_each(alloc, &marked, values)
}

/// The items of a loop.
fn items_in_loop(alloc: Global, start: &Start, looped: &Loop) -> Result<Items<Item>, AllocError>
    ensures { IfOk result (λ items. items ≡ looped_items (item_in start.now) (values_of (seen_by start.now []) looped.now.over)) }
{
    let none = Dict::new(alloc);
    let scope = Scope::new(start.layers, start.magic, &none);
    match values_of(alloc, &looped.over, &scope) {
        Ok(values) => items_over(alloc, start, looped, values),
        Err(fault) => only(alloc, faulty_item(alloc, None, &fault)?),
    }
}

/// The items of a task when it starts on a host, one for each value of its loop, or a single one: each has its result at once, or its call
/// is sent as a job. Err is want of memory alone: what can't be read is an item that fails. See Ansible's documentation, "Loops" and
/// "Conditionals".
#[tactic(auto, using(crate::proofs::Few::few), unfolding(crate::specs::Items::items_of))]
pub fn items(alloc: Global, start: &Start) -> Result<Items<Item>, AllocError>
    ensures value { IfOk result (λ items. items ≡ items_of start.now) }
    ensures few { IfOk result (λ items. length items ≤ max_items) }
{
    match &start.task.looped {
        Some(looped) => items_in_loop(alloc, start, looped),
        None => only(alloc, item_in(alloc, start, None)?),
    }
}
