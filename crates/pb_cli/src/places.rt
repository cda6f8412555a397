//! Where the fault of a bundle stands.

ghost use Rattle.std.specs.Prelude.{◌≡◌, IfOk, option_map};
ghost use Rattle.std.specs.Option.{option_copied};
ghost use Rattle.pb_cli.specs.Places.{in_role, place_of_role, place_in, place_if};

use pb_roles::RoleFault;
use pb_state::BundleFault;
use pb_value::text::Text;
use std::alloc::{AllocError, Global};

/// A place in the file of a role at a path.
fn in_role(alloc: Global, path: &Text, place: &Text) -> Result<Text, AllocError>
    ensures { IfOk result (λ text. text ≡ in_role path.now place.now) }
{
    let mut text = String::from_str(alloc, path.as_str())?;
    text.push(' ')?;
    text.push_str(place.as_str())?;
    Ok(Text::from_string(text))
}

/// A place in the file of a role at a path, if there is one.
fn all_in_role(alloc: Global, path: &Text, place: Option<&Text>) -> Result<Option<Text>, AllocError>
    ensures { IfOk result (λ text. text ≡ option_map (in_role path.now) (option_copied place.entry)) }
{
    match place {
        Some(place) => Ok(Some(in_role(alloc, path, place)?)),
        None => Ok(None),
    }
}

fn place_of_role(alloc: Global, fault: &RoleFault) -> Result<Option<Text>, AllocError>
    ensures { IfOk result (λ place. place ≡ place_of_role fault.now) }
{
    match fault {
        RoleFault::Load { path, fault } => all_in_role(alloc, path, fault.place()),
        RoleFault::Unknown { name: _ } => Ok(None),
        RoleFault::Cycle => Ok(None),
        RoleFault::Memory => Ok(None),
        RoleFault::TooLarge => Ok(None),
    }
}

/// The same place, if there is one.
fn copied(place: Option<&Text>) -> Result<Option<Text>, AllocError>
    ensures { IfOk result (λ text. text ≡ option_copied place.entry) }
{
    match place {
        Some(place) => Ok(Some(place.try_clone()?)),
        None => Ok(None),
    }
}

/// In the playbook, or in a role's file.
fn place_in(alloc: Global, fault: &BundleFault) -> Result<Option<Text>, AllocError>
    ensures { IfOk result (λ place. place ≡ place_in fault.now) }
{
    match fault {
        BundleFault::Playbook(fault) => copied(fault.place()),
        BundleFault::Roles(fault) => place_of_role(alloc, fault),
        BundleFault::Inventory(_) => Ok(None),
        BundleFault::Limit(_) => Ok(None),
        BundleFault::Extra(_) => Ok(None),
        BundleFault::BadForks => Ok(None),
        BundleFault::TooLarge => Ok(None),
        BundleFault::Memory => Ok(None),
    }
}

/// Where the fault stands, where that is asked for and it stands at a place in the playbook or in a role's file.
pub(crate) fn place_if(
    alloc: Global,
    places: bool,
    fault: &BundleFault,
) -> Result<Option<Text>, AllocError>
    ensures { IfOk result (λ place. place ≡ place_if places fault.now) }
{
    if !places {
        return Ok(None);
    }
    place_in(alloc, fault)
}
