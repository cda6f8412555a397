//! Results of items that are decided when their task starts.
ghost use Rattle.std.specs.Prelude.{◌≡◌, IfOk};
ghost use Rattle.pb_items.specs.Results.{skipped_result, meta_result, assert_result};

use pb_outcome::decided::{debug_result, fail_result};
use pb_outcome::gather::{Ending, ItemResult};
use pb_outcome::result_names::ResultNames;
use pb_value::text::Text;
use pb_value::val::{Dict, Val};
use std::alloc::{AllocError, Global};

/// The result of an item that its conditions leave out. See Ansible's documentation, "Conditionals".
pub(crate) fn skipped_result(alloc: Global, names: &ResultNames) -> Result<ItemResult, AllocError>
    ensures { IfOk result (λ r. r ≡ skipped_result) }
{
    let reason = Val::text(Text::from_str(alloc, "Conditional result was False")?);
    let values = vec![in alloc;
        Val::boolean(false),
        Val::boolean(false),
        reason,
        Val::boolean(true),
    ]?;
    Ok(ItemResult {
        ending: Ending::Skipped,
        result: Val::dict(Dict::of_names(names.skipped(), values)?),
    })
}

/// The result of an item of `meta`: it has changed nothing and says nothing. See Ansible's documentation of `ansible.builtin.meta`.
pub(crate) fn meta_result(alloc: Global) -> Result<ItemResult, AllocError>
    ensures { IfOk result (λ r. r ≡ meta_result) }
{
    let mut members = Dict::new(alloc);
    members.put(alloc, "changed", Val::boolean(false))?;
    members.put(alloc, "failed", Val::boolean(false))?;
    Ok(ItemResult {
        ending: Ending::Ran {
            changed: false,
            failed: false,
        },
        result: Val::dict(members),
    })
}

/// The result of an item of `assert`, whose conditions hold or not. See Ansible's documentation of `ansible.builtin.assert`.
pub(crate) fn assert_result(
    alloc: Global,
    names: &ResultNames,
    holds: bool,
    fail_msg: Val,
    success_msg: Val,
) -> Result<ItemResult, AllocError>
    ensures { IfOk result (λ r. r ≡ assert_result holds fail_msg success_msg) }
{
    if holds {
        debug_result(alloc, names, success_msg)
    } else {
        fail_result(alloc, names, fail_msg)
    }
}
