//! Members of results, put into a dict of the caller's: so no dict is dropped where one of them can't be put.
ghost use Rattle.std.specs.Prelude.{◌≡◌, ◌∷◌, [], IfOk, OnOk, codes};
ghost use Rattle.pb_value.specs.Datum.{boolean, text, put};

use pb_value::text::Text;
use pb_value::val::{Dict, Val};
use std::alloc::{AllocError, Global};

/// Puts a text under a key.
pub(crate) fn put_text(
    alloc: Global,
    members: &mut Dict,
    key: &str,
    words: &str,
) -> Result<(), AllocError>
    ensures { OnOk result (members.new ≡ put key.now (text words.now) members.old) }
{
    let value = Val::text(Text::from_str(alloc, words)?);
    members.put(alloc, key, value)
}

/// Puts in whether something was changed, and whether it failed.
pub(crate) fn put_flags(
    alloc: Global,
    members: &mut Dict,
    changed: bool,
    failed: bool,
) -> Result<(), AllocError>
    ensures { OnOk result (members.new ≡ put (codes "failed") (boolean failed) (put (codes "changed") (boolean changed) members.old)) }
{
    members.put(alloc, "changed", Val::boolean(changed))?;
    members.put(alloc, "failed", Val::boolean(failed))
}

/// The members that say no more than whether something was changed, and whether it failed.
pub(crate) fn flagged(alloc: Global, changed: bool, failed: bool) -> Result<Dict, AllocError>
    ensures { IfOk result (λ d. d ≡ (codes "changed", boolean changed) ∷ (codes "failed", boolean failed) ∷ []) }
{
    let mut members = Dict::new(alloc);
    put_flags(alloc, &mut members, changed, failed)?;
    Ok(members)
}
