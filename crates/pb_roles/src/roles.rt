//! What the roles of a play bring, each after the roles that it depends on.
ghost use Rattle.std.specs.Prelude.{◌≡◌, ◌≤◌, ◌+◌, [], ◌∷◌, ◌++◌, IfOk, IfErr, OnOk, Ok};
ghost use Rattle.pb_value.specs.Reading.{and_then};
ghost use Rattle.pb_roles.specs.Answers.{Faults, Gives};
ghost use Rattle.pb_roles.specs.Expansion.{closed, handlers_in, is_open, meets, most_open, roles_of};
ghost use Rattle.pb_roles.specs.Files.{read_of};
ghost use Rattle.pb_roles.specs.Open.{conditions_in, cost_in, cost_of, left_in, names_of, pushed, rest_of, to_do};

use crate::collected::{Expansion, HandlerIn, Section};
use crate::enter::role_of;
use crate::fault::RoleFault;
use crate::files::RoleFiles;
use crate::open_role::OpenRole;
use crate::origin::Origin;
use pb_expr_syntax::tree::Expr;
use pb_play_reading::handlers::Handler;
use pb_role_entries::entry::RoleEntry;
use pb_value::items::Items;
use pb_value::text::Text;
use std::alloc::{AllocError, Global};
use std::collections::VecDeque;

/// Whether a role of this name is open.
fn is_open(name: &Text, roles: &VecDeque<OpenRole>) -> bool
    ensures { result ≡ is_open name.now (names_of roles.now.items) }
{
    for role in roles.iter() {
        if name.as_str() == role.name.as_str() {
            return true;
        }
    }
    false
}

/// How many roles may be opened inside the open ones.
fn left_in(files: &RoleFiles, roles: &VecDeque<OpenRole>) -> usize
    ensures { result ≡ left_in (most_open files.now) roles.now.items }
{
    match roles.front() {
        Some(role) => role.left,
        None => files.files.as_slice().len() + 1,
    }
}

/// The conditions under which the dependencies of the open roles stand.
fn conditions_in(roles: &VecDeque<OpenRole>) -> &[Expr]
    ensures { result.now ≡ conditions_in roles.now.items }
{
    match roles.front() {
        Some(role) => role.origin.conditions(),
        None => &[],
    }
}

/// A role that was found is open.
fn push_found(roles: &mut VecDeque<OpenRole>, found: Option<OpenRole>) -> Result<(), AllocError>
    ensures { OnOk result (roles.new.items ≡ pushed found roles.old.items) }
{
    if let Some(role) = found {
        roles.push_front(role)?;
    }
    Ok(())
}

/// An entry is met inside the roles that are open.
#[tactic(auto, using(crate::proofs::Stack::entered, crate::proofs::Stack::enter_fault, crate::proofs::Stack::enter_open, crate::proofs::Stack::enter_none, crate::proofs::Stack::cost_entered))]
fn enter(
    alloc: Global,
    files: &RoleFiles,
    roles: &mut VecDeque<OpenRole>,
    entry: &RoleEntry,
    met: &mut Expansion,
) -> Result<(), RoleFault>
    ensures value { OnOk result (rest_of (read_of files.now) roles.new.items met.new ≡ to_do (most_open files.now) (read_of files.now) roles.old.items entry.now met.old) }
    ensures cost { OnOk result (cost_in (read_of files.now) roles.new.items + 1 ≤ cost_in (read_of files.now) roles.old.items + cost_of (left_in (most_open files.now) roles.old.items) (read_of files.now) entry.now) }
    ensures fault { IfErr result (λ e. Faults e (to_do (most_open files.now) (read_of files.now) roles.old.items entry.now met.old)) }
{
    let left = left_in(files, roles);
    if left == 0 {
        return Err(RoleFault::Cycle);
    }
    if is_open(&entry.name, roles) {
        return Err(RoleFault::Cycle);
    }
    let found = role_of(
        alloc,
        files,
        left - 1,
        conditions_in(roles),
        entry,
        &mut met.came,
    )?;
    push_found(roles, found)?;
    Ok(())
}

/// Adds the handlers of a role, or of the play, each with where it comes from.
pub(crate) fn push_handlers(
    origin: &Origin,
    handlers: Items<Handler>,
    all: &mut Items<HandlerIn>,
) -> Result<(), AllocError>
    ensures { OnOk result (all.new ≡ all.old ++ handlers_in origin.now handlers) }
{
    for handler in handlers.into_vec() {
        let origin = origin.share()?;
        all.push(HandlerIn { handler, origin })?;
    }
    Ok(())
}

/// The dependencies of a role are through: what it brings comes behind what they brought.
fn close(role: OpenRole, met: &mut Expansion) -> Result<(), AllocError>
    ensures { OnOk result (met.new ≡ closed role met.old) }
{
    let (origin, nodes, handlers) = role.into_parts();
    push_handlers(&origin, handlers, &mut met.handlers)?;
    met.sections.push(Section { origin, nodes })?;
    Ok(())
}

/// The next step inside the open roles: an entry is met, or the innermost role is closed.
#[tactic(auto, using(crate::proofs::Stack::next_entry, crate::proofs::Stack::cost_next, crate::proofs::Stack::no_entry, crate::proofs::Stack::cost_none))]
fn step(
    alloc: Global,
    files: &RoleFiles,
    roles: &mut VecDeque<OpenRole>,
    role: OpenRole,
    met: &mut Expansion,
) -> Result<(), RoleFault>
    ensures value { OnOk result (rest_of (read_of files.now) roles.new.items met.new ≡ rest_of (read_of files.now) (role ∷ roles.old.items) met.old) }
    ensures cost { OnOk result (cost_in (read_of files.now) roles.new.items + 1 ≤ cost_in (read_of files.now) (role ∷ roles.old.items)) }
    ensures fault { IfErr result (λ e. Faults e (rest_of (read_of files.now) (role ∷ roles.old.items) met.old)) }
{
    let mut role = role;
    match role.dependencies.pop() {
        Some(entry) => {
            // (let go by one call, and not part by part)
            let Ok(()) = roles.push_front(role) else {
                drop(entry);
                return Err(RoleFault::Memory);
            };
            let entered = enter(alloc, files, roles, &entry, met);
            drop(entry);
            entered
        }
        None => {
            close(role, met)?;
            Ok(())
        }
    }
}

/// An entry of a play is met, with all that its role depends on.
fn meet(
    alloc: Global,
    files: &RoleFiles,
    entry: &RoleEntry,
    met: &mut Expansion,
) -> Result<(), RoleFault>
    ensures value { OnOk result (meets (most_open files.now) (read_of files.now) [] [] entry.now met.old ≡ Ok met.new) }
    ensures fault { IfErr result (λ e. Faults e (meets (most_open files.now) (read_of files.now) [] [] entry.now met.old)) }
{
    let mut roles = VecDeque::new(alloc);
    enter(alloc, files, &mut roles, entry, met)?;
    while let Some(role) = roles.pop_front() {
        step(alloc, files, &mut roles, role, met)?;
    }
    Ok(())
}

/// What the roles of a play bring.
pub(crate) fn roles_of(
    alloc: Global,
    files: &RoleFiles,
    entries: &[RoleEntry],
) -> Result<Expansion, RoleFault>
    ensures { Gives result (roles_of files.now entries.now) }
{
    let mut met = Expansion {
        came: Items::new(alloc),
        sections: Items::new(alloc),
        handlers: Items::new(alloc),
    };
    for entry in entries {
        meet(alloc, files, entry, &mut met)?;
    }
    Ok(met)
}
