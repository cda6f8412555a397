//! The handlers of a play, ready for the places of its Flushes.
ghost use Rattle.std.specs.Prelude.{◌≡◌, ◌++◌, map, IfOk, OnOk};
ghost use Rattle.pb_roles.specs.Building.{flush_places, flushed_in, task_of};
ghost use Rattle.pb_roles.specs.Sections.{names_of};

use crate::collected::HandlerIn;
use crate::flush_tasks::{Flushes, HandlerTask};
use crate::inherited::Inherited;
use crate::nodes::number_of;
use crate::sections::PlayKeys;
use pb_handlers::{HandlerNames, Handlers};
use pb_places::{Place, SearchedTask};
use pb_play_reading::handlers::Handler;
use pb_value::items::Items;
use pb_value::text::Text;
use std::alloc::{AllocError, Global};
use std::sync::Arc;

/// A copy of some words.
fn copies(alloc: Global, words: &[Text]) -> Result<Items<Text>, AllocError>
    ensures { IfOk result (λ all. all ≡ words.now) }
{
    let mut all = Items::new(alloc);
    for word in words {
        all.push(word.try_clone()?)?;
    }
    Ok(all)
}

/// What a handler is notified by.
fn names_of(alloc: Global, handler: &HandlerIn) -> Result<HandlerNames, AllocError>
    ensures { IfOk result (λ names. names ≡ names_of handler.now) }
{
    let name = handler.handler.task.name.try_clone()?;
    let listens = copies(alloc, handler.handler.listens.as_slice())?;
    Ok(HandlerNames { name, listens })
}

/// What the handlers are notified by.
pub(crate) fn all_names(
    alloc: Global,
    handlers: &[HandlerIn],
) -> Result<Vec<HandlerNames>, AllocError>
    ensures { IfOk result (λ names. names.items ≡ map names_of handlers.now) }
{
    let mut names = Vec::new(alloc);
    for handler in handlers {
        names.push(names_of(alloc, handler)?)?;
    }
    Ok(names)
}

/// A handler's task with what stands round it.
fn task_of(alloc: Global, keys: PlayKeys, handler: HandlerIn) -> Result<HandlerTask, AllocError>
    ensures { IfOk result (λ task. task ≡ task_of keys handler) }
{
    let HandlerIn { handler, origin } = handler;
    let Handler { task, listens } = handler;
    drop(listens);
    let inherited = Inherited::of(keys, &origin)?;
    let task = Arc::new(alloc, SearchedTask::new(task))?;
    Ok(HandlerTask { task, inherited })
}

/// The handlers of a play that hands this down.
pub(crate) fn all_tasks(
    alloc: Global,
    keys: PlayKeys,
    handlers: Items<HandlerIn>,
) -> Result<Items<HandlerTask>, AllocError>
    ensures { IfOk result (λ tasks. tasks ≡ map (task_of keys) handlers) }
{
    let mut tasks = Items::new(alloc);
    for handler in handlers.into_vec() {
        tasks.push(task_of(alloc, keys, handler)?)?;
    }
    Ok(tasks)
}

/// Adds the places of a Flush: each handler, in order.
pub(crate) fn push_flush(
    alloc: Global,
    places: &mut Vec<Place>,
    flushes: &Flushes,
    is_caught: bool,
) -> Result<(), AllocError>
    ensures { IfOk result (λ _. places.new.items ≡ places.old.items ++ flush_places flushes.now is_caught) }
{
    for (number, handler) in flushes.handlers.as_slice().iter().enumerate() {
        let number = number_of(number)?;
        let place = handler
            .inherited
            .handler_place(alloc, &flushes.names, is_caught, number, &handler.task)?;
        places.push(place)?;
    }
    Ok(())
}
