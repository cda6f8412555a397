//! Whose the facts of delegated items are.

ghost use Rattle.std.specs.Prelude.{◌≡◌, IfOk, filter, option_map};
ghost use Rattle.pb_task_vars.specs.Delegates.{host_number, is_own_name, stays};

use pb_ids::HostNo;
use pb_inventory::inventory::Inventory;
use pb_outcome::gather::ItemResult;
use pb_outcome::item::{Item, Planned};
use pb_value::text::Text;
use pb_value::val::Val;
use std::alloc::{AllocError, Global};

/// Whether the facts of an item that is delegated to this name are those of the host that started it.
fn is_own_name(inventory: &Inventory, starter: Option<HostNo>, name: &str) -> bool
    ensures { result ≡ is_own_name inventory.now (option_map host_number starter) name.now }
{
    match starter {
        Some(host) => match inventory.number(name) {
            Some(delegate) => delegate.0 == host.0,
            None => false,
        },
        None => false,
    }
}

/// Whether the facts of an item stay with the host that started it, or go to one that gets what it did.
fn stays(inventory: &Inventory, starter: Option<HostNo>, item: &Item) -> bool
    ensures { result ≡ stays inventory.now (option_map host_number starter) item.now }
{
    match &item.delegate {
        Some(name) => is_own_name(inventory, starter, name.as_str()),
        None => true,
    }
}

/// An equal value of its own, if there is one.
fn copy_of_value(alloc: Global, value: &Option<Val>) -> Result<Option<Val>, AllocError>
    ensures { IfOk result (λ copy. copy ≡ value.now) }
{
    match value {
        Some(value) => Ok(Some(value.try_clone(alloc)?)),
        None => Ok(None),
    }
}

/// An equal name of its own, if there is one.
fn copy_of_name(name: &Option<Text>) -> Result<Option<Text>, AllocError>
    ensures { IfOk result (λ copy. copy ≡ name.now) }
{
    match name {
        Some(name) => Ok(Some(name.try_clone()?)),
        None => Ok(None),
    }
}

/// An equal step of its own.
fn copy_of_step(alloc: Global, step: &Planned) -> Result<Planned, AllocError>
    ensures { IfOk result (λ copy. copy ≡ step.now) }
{
    match step {
        Planned::Decided(item) => {
            let result = item.result.try_clone(alloc)?;
            Ok(Planned::Decided(ItemResult {
                ending: item.ending,
                result,
            }))
        }
        Planned::Sends(call) => Ok(Planned::Sends(call.try_clone(alloc)?)),
    }
}

/// An equal item of its own.
fn copy_of(alloc: Global, item: &Item) -> Result<Item, AllocError>
    ensures { IfOk result (λ copy. copy ≡ item.now) }
{
    let value = copy_of_value(alloc, &item.value)?;
    let delegate = copy_of_name(&item.delegate)?;
    let step = copy_of_step(alloc, &item.step)?;
    Ok(Item {
        value,
        delegate,
        tried: item.tried,
        step,
    })
}

/// The items whose facts stay with the host that started them, or go to one that gets what it did.
pub(crate) fn staying(
    alloc: Global,
    inventory: &Inventory,
    starter: Option<HostNo>,
    items: &[Item],
) -> Result<Vec<Item>, AllocError>
    ensures { IfOk result (λ all. all.items ≡ filter (stays inventory.now (option_map host_number starter)) items.now) }
{
    let mut all = Vec::new(alloc);
    for item in items {
        if stays(inventory, starter, item) {
            all.push(copy_of(alloc, item)?)?;
        }
    }
    Ok(all)
}
