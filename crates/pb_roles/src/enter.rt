//! The role that an entry names.
ghost use Rattle.std.specs.Prelude.{◌≡◌, ◌++◌, ◌∷◌, ◌&&◌, [], IfOk, IfSome, OnOk, Ok, not};
ghost use Rattle.pb_value.specs.Reading.{and_then};
ghost use Rattle.pb_roles.specs.Answers.{Gives};
ghost use Rattle.pb_roles.specs.Entries.{are_same, are_written_alike, key_of, has_come, is_again};
ghost use Rattle.pb_roles.specs.Expansion.{opened, role_of, origin_of};
ghost use Rattle.pb_roles.specs.Files.{read_of};
ghost use Rattle.pb_roles.specs.Open.{dependencies_of};

use crate::entry_key::EntryKey;
use crate::fault::RoleFault;
use crate::files::{RoleFiles, has_none};
use crate::load::{load_handlers, load_meta, load_nodes, load_variables};
use crate::open_role::OpenRole;
use crate::origin::Origin;
use crate::queue::Queue;
use pb_expr_syntax::tree::Expr;
use pb_facts::put::put_all;
use pb_operators::compare::is_same;
use pb_places::Role;
use pb_places::conditions::joined;
use pb_role_entries::entry::{EntryAsWritten, RoleEntry};
use pb_value::items::Items;
use pb_value::val::{Dict, Val};
use std::alloc::{AllocError, Global};

/// Whether the values of a key are written alike.
fn are_same(a: &Option<Val>, b: &Option<Val>) -> bool
    ensures { result ≡ are_same a.now b.now }
{
    match (a, b) {
        (None, None) => true,
        (Some(a), Some(b)) => is_same(a, b),
        _ => false,
    }
}

/// Whether the keys that tell entries apart are written alike.
fn are_written_alike(a: &EntryAsWritten, b: &EntryAsWritten) -> bool
    ensures { result ≡ are_written_alike a.now b.now }
{
    are_same(&a.vars, &b.vars) && are_same(&a.when, &b.when) && are_same(&a.tags, &b.tags)
}

/// Whether two entries are one and the same.
fn is_again(a: &EntryKey, b: &EntryKey) -> bool
    ensures { result ≡ is_again a.now b.now }
{
    a.name.as_str() == b.name.as_str()
        && is_same(&a.params, &b.params)
        && are_written_alike(&a.as_written, &b.as_written)
}

/// Whether an entry has come.
fn has_come(entry: &EntryKey, came: &[EntryKey]) -> bool
    ensures { result ≡ has_come entry.now came.now }
{
    for other in came {
        if is_again(entry, other) {
            return true;
        }
    }
    false
}

/// Whether an entry is left out, whose role allows that it comes again or not.
fn is_left_out(allow_duplicates: bool, entry: &EntryKey, came: &[EntryKey]) -> bool
    ensures { result ≡ (not allow_duplicates && has_come entry.now came.now) }
{
    !allow_duplicates && has_come(entry, came)
}

/// A copy of a value, if there is one.
fn copy_of(alloc: Global, value: &Option<Val>) -> Result<Option<Val>, AllocError>
    ensures { IfOk result (λ other. other ≡ value.now) }
{
    match value {
        Some(value) => Ok(Some(value.try_clone(alloc)?)),
        None => Ok(None),
    }
}

/// A copy of what an entry has as it is written.
fn written(alloc: Global, keys: &EntryAsWritten) -> Result<EntryAsWritten, AllocError>
    ensures { IfOk result (λ other. other ≡ keys.now) }
{
    let vars = copy_of(alloc, &keys.vars)?;
    let when = copy_of(alloc, &keys.when)?;
    let tags = copy_of(alloc, &keys.tags)?;
    Ok(EntryAsWritten { vars, when, tags })
}

/// What an entry is kept apart by.
fn key_of(alloc: Global, entry: &RoleEntry) -> Result<EntryKey, AllocError>
    ensures { IfOk result (λ came. came ≡ key_of entry.now) }
{
    let name = entry.name.try_clone()?;
    let params = Val::dict(entry.params.try_clone(alloc)?);
    let as_written = written(alloc, &entry.as_written)?;
    Ok(EntryKey {
        name,
        params,
        as_written,
    })
}

/// Where all that a role brings comes from, which has the variables of its files and no parameters yet.
fn origin_of(
    alloc: Global,
    outer: &[Expr],
    entry: &RoleEntry,
    role: Role,
) -> Result<Origin, AllocError>
    ensures { IfOk result (λ origin. origin ≡ origin_of outer.now entry.now role.defaults role.vars) }
{
    let mut role = role;
    put_all(alloc, &mut role.vars, &entry.vars)?;
    role.params = entry.params.try_clone(alloc)?;
    let conditions = joined(alloc, outer, entry.conditions.as_slice())?;
    Origin::of_role(alloc, role, conditions)
}

/// The role that an entry names, open, which comes from there: its other files are read.
fn open_from(
    alloc: Global,
    files: &RoleFiles,
    left: usize,
    entry: &RoleEntry,
    origin: Origin,
) -> Result<OpenRole, RoleFault>
    ensures value { Gives result (and_then (read_of files.now entry.now.name).nodes (λ nodes. and_then (read_of files.now entry.now.name).handlers (λ handlers.
        Ok (record { left = left; name = entry.now.name; origin = origin; nodes = nodes; handlers = handlers; dependencies = [] })))) }
    ensures left { IfOk result (λ role. role.left ≡ left) }
{
    let nodes = load_nodes(alloc, files, &entry.name)?;
    let handlers = load_handlers(alloc, files, &entry.name)?;
    let name = entry.name.try_clone()?;
    Ok(OpenRole {
        left,
        name,
        origin,
        nodes,
        handlers,
        dependencies: Queue::of(Items::new(alloc)),
    })
}

/// The role that an entry names, open: its files are read. What it depends on is still to be known.
fn open_role(
    alloc: Global,
    files: &RoleFiles,
    left: usize,
    outer: &[Expr],
    entry: &RoleEntry,
) -> Result<OpenRole, RoleFault>
    ensures value { Gives result (opened left (read_of files.now entry.now.name) outer.now entry.now []) }
    ensures left { IfOk result (λ role. role.left ≡ left) }
{
    let defaults = load_variables(alloc, files, &entry.name, "defaults")?;
    let vars = load_variables(alloc, files, &entry.name, "vars")?;
    let role = Role {
        defaults,
        vars,
        params: Dict::new(alloc),
    };
    // (at once: what is owned is let go at each exit behind it)
    let origin = origin_of(alloc, outer, entry, role)?;
    open_from(alloc, files, left, entry, origin)
}

/// Whether an entry is left out, whose role allows that it comes again or not. The entry has come then.
fn comes_again(
    alloc: Global,
    entry: &RoleEntry,
    allow_duplicates: bool,
    came: &mut Items<EntryKey>,
) -> Result<bool, AllocError>
    ensures again { IfOk result (λ again. again ≡ (not allow_duplicates && has_come (key_of entry.now) came.old)) }
    ensures came { OnOk result (came.new ≡ came.old ++ key_of entry.now ∷ []) }
{
    let this = key_of(alloc, entry)?;
    let again = is_left_out(allow_duplicates, &this, came.as_slice());
    came.push(this)?;
    Ok(again)
}

/// The role that an entry names, open, unless the entry is left out. The entry has come then.
pub(crate) fn role_of(
    alloc: Global,
    files: &RoleFiles,
    left: usize,
    outer: &[Expr],
    entry: &RoleEntry,
    came: &mut Items<EntryKey>,
) -> Result<Option<OpenRole>, RoleFault>
    ensures value { Gives result (role_of left (read_of files.now) outer.now entry.now came.old) }
    ensures came { OnOk result (came.new ≡ came.old ++ key_of entry.now ∷ []) }
    ensures left { IfOk result (λ found. IfSome found (λ role. role.left ≡ left)) }
    ensures dependencies { IfOk result (λ found. IfSome found (λ role. role.dependencies ≡ dependencies_of (read_of files.now) entry.now.name)) }
{
    let is_missing = has_none(alloc, files, &entry.name)?;
    if is_missing {
        let name = entry.name.try_clone()?;
        return Err(RoleFault::Unknown { name });
    }
    let meta = load_meta(alloc, files, &entry.name)?;
    let out = comes_again(alloc, entry, meta.allow_duplicates, came)?;
    if out {
        return Ok(None);
    }
    let mut role = open_role(alloc, files, left, outer, entry)?;
    role.dependencies = Queue::of(meta.dependencies);
    Ok(Some(role))
}
