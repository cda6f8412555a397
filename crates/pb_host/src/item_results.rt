//! What the items of a task come to.

ghost use Rattle.std.specs.Prelude.{◌≡◌, ◌≤◌, ◌++◌, [], true, length, IfOk};
ghost use Rattle.std.specs.Option.{option_copied};
ghost use Rattle.pb_outcome.specs.Items.{numbered, numbered_at, numbered_then, result_of};
ghost use Rattle.pb_task_vars.specs.Results.{variable_at};
ghost use Rattle.pb_host.specs.StepResults.{item_results_in};
ghost use Rattle.pb_host.specs.Handlers.{newly_at};
ghost use Rattle.pb_host.specs.Shown.{has_shown, let_go, shown_by};
ghost use Rattle.pb_host.specs.Host.{ignores_at, caught_at, meta_in, meta_at, runs_once_at, task_at};

use crate::handlers::newly_at;
use crate::items::TaskItems;
use crate::step_result::{TaskDone, TaskEnd};
use pb_outcome::gather::ItemResult;
use pb_outcome::item::{Item, Planned};
use pb_outcome::items::gather;
use pb_outcome::registered::{into_only_result, only_result, registered};
use pb_play::modules::{Meta, Module};
use pb_task_vars::PlanPlay;
use pb_value::items::Items;
use pb_value::val::Val;
use std::alloc::{AllocError, Global};

/// An equal result of its own.
fn copy_of(alloc: Global, item: &ItemResult) -> Result<ItemResult, AllocError>
    ensures { IfOk result (λ copy. copy ≡ item.now) }
{
    Ok(ItemResult {
        ending: item.ending,
        result: item.result.try_clone(alloc)?,
    })
}

/// Puts down the result of an item of a loop with its number, where it is there.
fn push_item_result(
    alloc: Global,
    results: &mut Items<(u32, ItemResult)>,
    number: u32,
    item: &Item,
) -> Result<(), AllocError>
    ensures { IfOk result (λ _. results.new ≡ results.old ++ numbered_then number item.now.value item.now.step []) }
{
    match &item.value {
        Some(_) => match &item.step {
            Planned::Decided(result) => {
                let copy = copy_of(alloc, result)?;
                results.push((number, copy))?;
                Ok(())
            }
            Planned::Sends(_) => Ok(()),
        },
        None => Ok(()),
    }
}

fn numbered_in(alloc: Global, items: &[Item]) -> Result<Items<(u32, ItemResult)>, AllocError>
    requires { length items.now ≤ 10000 }
    ensures { IfOk result (λ results. results ≡ numbered 0 items.now) }
{
    let mut results = Items::new(alloc);
    for number in 0..items.len() {
        push_item_result(alloc, &mut results, number as u32, &items[number])?;
    }
    Ok(results)
}

/// The results of the items of a loop that are there, with their numbers.
pub fn numbered(alloc: Global, items: &TaskItems) -> Result<Items<(u32, ItemResult)>, AllocError>
    ensures results { IfOk result (λ results. results ≡ numbered 0 items.now) }
    ensures most { length items.now ≤ 10000 }
{
    numbered_in(alloc, items.as_slice())
}

/// The result of an item with its number, if there is one, where its task has a loop.
fn item_results_at(
    alloc: Global,
    number: u32,
    item: Option<&Item>,
) -> Result<Items<(u32, ItemResult)>, AllocError>
    ensures { IfOk result (λ results. results ≡ numbered_at number (option_copied item.entry)) }
{
    let mut results = Items::new(alloc);
    match item {
        Some(item) => {
            push_item_result(alloc, &mut results, number, item)?;
            Ok(results)
        }
        None => Ok(results),
    }
}

/// The result of the item with this number, if there is one, where its task has a loop.
pub fn item_results_in(
    alloc: Global,
    items: &TaskItems,
    number: Option<u32>,
) -> Result<Items<(u32, ItemResult)>, AllocError>
    ensures { IfOk result (λ results. results ≡ item_results_in items.now number) }
{
    match number {
        Some(number) => {
            let item = items.as_slice().get(number as usize);
            item_results_at(alloc, number, item)
        }
        None => Ok(Items::new(alloc)),
    }
}

/// Whether the task at a place ignores its failure.
fn ignores_at(play: &PlanPlay, place: usize) -> bool
    ensures { result ≡ ignores_at play.now place }
{
    match play.place(place) {
        Some(place) => place.ignore_errors(),
        None => false,
    }
}

/// The name of the loop variable of the task at a place, where it has a loop.
pub fn variable_at(play: &PlanPlay, place: usize) -> &str
    ensures { result.now ≡ variable_at play.now place }
{
    match play.place(place) {
        Some(place) => match &place.task().looped {
            Some(looped) => looped.variable.as_str(),
            None => "",
        },
        None => "",
    }
}

/// Whether a failure of the task at a place is caught.
pub fn caught_at(play: &PlanPlay, place: usize) -> bool
    ensures { result ≡ caught_at play.now place }
{
    match play.place(place) {
        Some(place) => place.is_caught(),
        None => false,
    }
}

/// Whether the first host of a batch runs the task at a place for all.
pub fn runs_once_at(play: &PlanPlay, place: usize) -> bool
    ensures { result ≡ runs_once_at play.now place }
{
    match play.run_once().get(place) {
        Some(once) => *once,
        None => false,
    }
}

/// Which task of `meta` a module is, if it is one.
fn meta_in(called: &Module) -> Option<Meta>
    ensures { result ≡ meta_in called.now }
{
    match called {
        Module::Meta(which) => Some(*which),
        Module::Assert {
            that: _,
            fail_msg: _,
            success_msg: _,
        } => None,
        Module::Command(_) => None,
        Module::Debug { msg: _ } => None,
        Module::DebugVar { text: _, expr: _ } => None,
        Module::Fail { msg: _ } => None,
        Module::SetFact { facts: _ } => None,
        Module::Setup => None,
        Module::Shell { cmd: _ } => None,
    }
}

/// Which task of `meta` stands at a place, if one does.
fn meta_at(play: &PlanPlay, place: usize) -> Option<Meta>
    ensures { result ≡ meta_at play.now place }
{
    match play.place(place) {
        Some(place) => meta_in(&place.task().module),
        None => None,
    }
}

/// How the task at a place ended, by its items.
pub fn task_at(play: &PlanPlay, place: usize, items: &TaskItems) -> TaskEnd
    ensures { result ≡ task_at play.now place items.now }
{
    TaskEnd {
        result: gather(items.as_slice(), ignores_at(play, place)),
        is_caught: caught_at(play, place),
        meta: meta_at(play, place),
    }
}

/// How a task ended on a host, with what is shown of it where that isn't handed on from its items.
pub(crate) struct End {
    /// What is shown, where that isn't the result of its one item.
    made: Option<Val>,
    /// How it ended.
    pub(crate) task: TaskEnd,
    /// The handlers that it notified and that were not pending before.
    notified: Items<u32>,
}

impl Drop for End {
    fn drop(self) {
        let End {
            made,
            task: _,
            notified,
        } = self;
        drop(made);
        drop(notified);
    }
}

impl End {
    /// What is shown of it, where these are its items.
    pub(crate) fn shown<'a>(&'a self, items: &'a [Item]) -> &'a Val
        requires { has_shown self.now.made items.now ≡ true }
        ensures { result.now ≡ shown_by self.now.made items.now }
    {
        match &self.made {
            Some(made) => made,
            None => match only_result(items) {
                Some(shown) => shown,
                None => unreachable!(),
            },
        }
    }

    /// How it ended, and what is shown of it, which is handed on from its items.
    pub(crate) fn done(self, items: TaskItems) -> TaskDone
        ensures { result ≡ record { result = shown_by self.made items; task = self.task; notified = self.notified } }
    {
        let End {
            made,
            task,
            notified,
        } = self;
        TaskDone {
            result: handed_on(made, items),
            task,
            notified,
        }
    }
}

/// What is shown of a task: what was made of its items, or the result of the only one, which is handed on.
fn handed_on(made: Option<Val>, items: TaskItems) -> Val
    ensures { result ≡ shown_by made items }
{
    match made {
        Some(made) => {
            drop(items);
            made
        }
        None => match into_only_result(items.into_vec()) {
            Some(only) => only,
            None => Val::null(),
        },
    }
}

/// What is shown of the task at a place, where that isn't handed on from its items: where these are kept, or it has a loop.
fn made_at(
    alloc: Global,
    play: &PlanPlay,
    place: usize,
    items: &[Item],
) -> Result<Option<Val>, AllocError>
    ensures there { IfOk result (λ made. has_shown made items.now ≡ true) }
    ensures shown { IfOk result (λ made. shown_by made items.now ≡ result_of (variable_at play.now place) items.now) }
    ensures handed { IfOk result (λ made. shown_by made (let_go (runs_once_at play.now place) items.now) ≡ result_of (variable_at play.now place) items.now) }
{
    match only_result(items) {
        Some(_) if !runs_once_at(play, place) => Ok(None),
        _ => {
            let made = registered(alloc, variable_at(play, place), items)?;
            Ok(Some(made))
        }
    }
}

/// How the task at a place ended on a host with these marks.
pub(crate) fn end_at(
    alloc: Global,
    play: &PlanPlay,
    place: usize,
    marks: &[bool],
    items: &TaskItems,
) -> Result<End, AllocError>
    ensures task { IfOk result (λ end. end.task ≡ task_at play.now place items.now) }
    ensures notified { IfOk result (λ end. end.notified ≡ newly_at play.now place marks.now (task_at play.now place items.now)) }
    ensures there { IfOk result (λ end. has_shown end.made items.now ≡ true) }
    ensures shown { IfOk result (λ end. shown_by end.made items.now ≡ result_of (variable_at play.now place) items.now) }
    ensures handed { IfOk result (λ end. shown_by end.made (let_go (runs_once_at play.now place) items.now) ≡ result_of (variable_at play.now place) items.now) }
{
    let task = task_at(play, place, items);
    let notified = newly_at(alloc, play, place, marks, task)?;
    let made = made_at(alloc, play, place, items.as_slice())?;
    Ok(End {
        made,
        task,
        notified,
    })
}
