ghost use Rattle.std.specs.Prelude.{◌≡◌, [], ◌∷◌, ◌++◌, IfOk, OnOk};
ghost use Rattle.pb_inventory.specs.Vars.{priorities_in, vars_under};

use crate::named::Named;
use crate::vars::GroupVars;
use pb_names::NameList;
use pb_value::items::Items;
use pb_value::text::Text;
use std::alloc::{AllocError, Global};

/// The priorities of groups of these names.
pub fn priorities_of(
    alloc: Global,
    names: &NameList,
    vars: &Named<GroupVars>,
) -> Result<Vec<i64>, AllocError>
    ensures { IfOk result (λ v. v.items ≡ priorities_in vars.now names.now) }
{
    let mut priorities = Vec::new(alloc);
    for name in names.names() {
        priorities.push(priority_under(vars, name.as_str()))?;
    }
    Ok(priorities)
}

fn priority_under(vars: &Named<GroupVars>, name: &str) -> i64
    ensures { result ≡ (vars_under name.now vars.now).priority }
{
    match vars.get(name) {
        Some(of) => of.priority,
        None => 1,
    }
}

/// Puts a copy of a text behind others.
pub(crate) fn push_text(alloc: Global, to: &mut Items<Text>, text: &str) -> Result<(), AllocError>
    ensures { OnOk result (to.new ≡ to.old ++ text.now ∷ []) }
{
    to.push(Text::from_str(alloc, text)?)
}
