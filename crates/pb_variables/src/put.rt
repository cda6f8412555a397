ghost use Rattle.std.specs.Prelude.{◌≡◌, IfOk};
ghost use Rattle.pb_variables.specs.Magic.{texts};

use pb_value::items::Items;
use pb_value::text::Text;
use pb_value::val::{Val, ValList};
use std::alloc::{AllocError, Global};

/// The list of these texts.
pub fn texts(alloc: Global, names: Items<Text>) -> Result<Val, AllocError>
    ensures { IfOk result (λ v. v ≡ texts names) }
{
    let mut values = Vec::with_capacity(alloc, names.len())?;
    for name in names.into_vec() {
        values.push(Val::text(name))?;
    }
    Ok(Val::list(ValList::from_vec(values)))
}
