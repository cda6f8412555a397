use pb_expr_syntax::tree::Expr;
use pb_value::items::Items;
use pb_value::text::Text;
use pb_value::val::{Dict, Val};

/// What stands at keys of an entry, as it is written: two entries of one role are kept apart by it, beside their parameters.
#[derive(Drop)]
pub struct EntryAsWritten {
    pub vars: Option<Val>,
    pub when: Option<Val>,
    pub tags: Option<Val>,
}

/// A role that is to be taken, and what it is given. See Ansible's documentation, "Roles".
pub struct RoleEntry {
    /// The role's name.
    pub name: Text,
    /// Variables that its tasks see over those of its own files, each under its name, as they are written: their texts are templates.
    pub vars: Dict,
    /// What has to hold for each of its tasks to run, and for those of the roles that it depends on.
    pub conditions: Items<Expr>,
    /// Its parameters, as they are written: their texts are templates. They are layer 10 of the variables that its tasks see (`pb_layers`).
    pub params: Dict,
    pub as_written: EntryAsWritten,
}

// (by hand: the crates above then know nothing of what it is made of)
impl Drop for RoleEntry {
    fn drop(self) {
        let RoleEntry {
            name: _name,
            vars: _vars,
            conditions: _conditions,
            params: _params,
            as_written: _as_written,
        } = self;
    }
}
