ghost use Rattle.std.specs.Prelude.{◌≡◌, IfOk, OnOk, false, codes};
ghost use Rattle.pb_value.specs.Datum.{boolean, put};
ghost use Rattle.pb_outcome.specs.Decided.{said, faulty_result, debug_result, shown_result, fail_result};
ghost use Rattle.pb_outcome.specs.Results.{facts_result};

use crate::gather::{Ending, ItemResult};
use crate::members::{flagged, put_flags};
use crate::result_names::ResultNames;
use pb_value::text::Text;
use pb_value::val::{Dict, Val};
use std::alloc::{AllocError, Global};

fn said(alloc: Global, failed: bool, msg: Val) -> Result<Val, AllocError>
    ensures { IfOk result (λ v. v ≡ said failed msg) }
{
    let mut members = flagged(alloc, false, failed)?;
    members.put(alloc, "msg", msg)?;
    Ok(Val::dict(members))
}

/// The result of an item that can't be read: a fault, which `ignore_errors` doesn't ignore.
pub fn faulty_result(alloc: Global, msg: &str) -> Result<ItemResult, AllocError>
    ensures { IfOk result (λ r. r ≡ faulty_result msg.now) }
{
    let msg = Val::text(Text::from_str(alloc, msg)?);
    Ok(ItemResult {
        ending: Ending::Faulty,
        result: said(alloc, true, msg)?,
    })
}

/// A result that says this, whose names are kept for many.
fn said_by(alloc: Global, names: &ResultNames, failed: bool, msg: Val) -> Result<Val, AllocError>
    ensures { IfOk result (λ v. v ≡ said failed msg) }
{
    let values = vec![in alloc; Val::boolean(false), Val::boolean(failed), msg]?;
    Ok(Val::dict(Dict::of_names(names.said(), values)?))
}

/// The result of an item of `debug`, which shows this value. See Ansible's documentation of `ansible.builtin.debug`.
pub fn debug_result(alloc: Global, names: &ResultNames, msg: Val) -> Result<ItemResult, AllocError>
    ensures { IfOk result (λ r. r ≡ debug_result msg) }
{
    Ok(ItemResult {
        ending: Ending::Ran {
            changed: false,
            failed: false,
        },
        result: said_by(alloc, names, false, msg)?,
    })
}

/// Puts a value under a name, and that nothing was changed and nothing failed.
fn put_shown(alloc: Global, members: &mut Dict, name: &str, value: Val) -> Result<(), AllocError>
    ensures { OnOk result (members.new ≡ put (codes "failed") (boolean false) (put (codes "changed") (boolean false) (put name.now value members.old))) }
{
    members.put(alloc, name, value)?;
    put_flags(alloc, members, false, false)
}

/// The result of an item of `debug` that shows a value under a name, as `var` does: where the name is `changed` or
/// `failed`, the result's own wins. See Ansible's documentation of `ansible.builtin.debug`.
pub fn shown_result(alloc: Global, name: &str, value: Val) -> Result<ItemResult, AllocError>
    ensures { IfOk result (λ r. r ≡ shown_result name.now value) }
{
    let mut members = Dict::new(alloc);
    put_shown(alloc, &mut members, name, value)?;
    Ok(ItemResult {
        ending: Ending::Ran {
            changed: false,
            failed: false,
        },
        result: Val::dict(members),
    })
}

/// The result of an item of `fail`, which fails with this value. See Ansible's documentation of `ansible.builtin.fail`.
pub fn fail_result(alloc: Global, names: &ResultNames, msg: Val) -> Result<ItemResult, AllocError>
    ensures { IfOk result (λ r. r ≡ fail_result msg) }
{
    Ok(ItemResult {
        ending: Ending::Ran {
            changed: false,
            failed: true,
        },
        result: said_by(alloc, names, true, msg)?,
    })
}

/// The result of an item of `set_fact`, which sets these facts. See Ansible's documentation of `ansible.builtin.set_fact`.
pub fn set_result(alloc: Global, names: &ResultNames, facts: Val) -> Result<ItemResult, AllocError>
    ensures { IfOk result (λ r. r ≡ facts_result facts) }
{
    let values = vec![in alloc; facts, Val::boolean(false), Val::boolean(false)]?;
    Ok(ItemResult {
        ending: Ending::Ran {
            changed: false,
            failed: false,
        },
        result: Val::dict(Dict::of_names(names.facts(), values)?),
    })
}
