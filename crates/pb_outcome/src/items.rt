//! The items of a task: whether one found its host out of reach, and what the task came to.
ghost use Rattle.std.specs.Prelude.{◌≡◌};
ghost use Rattle.std.specs.List.{list_any};
ghost use Rattle.pb_outcome.specs.Gathered.{some_unreachable, is_faulty};
ghost use Rattle.pb_outcome.specs.Items.{ended, task_of, all_skipped, some_failed, some_changed};

use crate::gather::TaskResult;
use crate::item::{Item, Planned};

/// Whether an item found its host out of reach.
pub fn has_unreachable(items: &[Item]) -> bool
    ensures { result ≡ some_unreachable (ended items.now) }
{
    for item in items {
        if let Planned::Decided(result) = &item.step {
            if result.ending.is_unreachable() {
                return true;
            }
        }
    }
    false
}

/// Whether an item failed or is faulty.
pub(crate) fn has_failed(items: &[Item]) -> bool
    ensures { result ≡ some_failed (ended items.now) }
{
    for item in items {
        if let Planned::Decided(result) = &item.step {
            if result.ending.is_failed() {
                return true;
            }
        }
    }
    false
}

fn has_faulty(items: &[Item]) -> bool
    ensures { result ≡ list_any (λ item. is_faulty item.ending) (ended items.now) }
{
    for item in items {
        if let Planned::Decided(result) = &item.step {
            if result.ending.is_faulty() {
                return true;
            }
        }
    }
    false
}

/// Whether an item changed something.
pub(crate) fn has_changed(items: &[Item]) -> bool
    ensures { result ≡ some_changed (ended items.now) }
{
    for item in items {
        if let Planned::Decided(result) = &item.step {
            if result.ending.is_changed() {
                return true;
            }
        }
    }
    false
}

/// Whether each item that has a result is skipped.
pub(crate) fn are_skipped(items: &[Item]) -> bool
    ensures { result ≡ all_skipped (ended items.now) }
{
    for item in items {
        if let Planned::Decided(result) = &item.step {
            if !result.ending.is_skipped() {
                return false;
            }
        }
    }
    true
}

/// The task's result from those of its items, as far as they have one. A task of no items, as a loop over an empty list, is skipped. See
/// Ansible's documentation, "Error handling in playbooks".
pub fn gather(items: &[Item], ignore_errors: bool) -> TaskResult
    ensures { result ≡ task_of ignore_errors items.now }
{
    let unreachable = has_unreachable(items);
    let failed = !unreachable && has_failed(items);
    let skipped = !unreachable && !failed && are_skipped(items);
    let changed = has_changed(items);
    let ignored = failed && ignore_errors && !has_faulty(items);
    TaskResult {
        unreachable,
        failed,
        skipped,
        changed,
        ignored,
    }
}
