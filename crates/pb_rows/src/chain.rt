//! Roles that depend on one another in a long chain.

use pb_roles::{RoleFault, RoleFile, RoleFiles};
use pb_state::{Bundle, BundleFault, Plan};
use pb_value::items::Items;
use pb_value::text::Text;
use std::alloc::{AllocError, Global};
use std::test::Fail;

/// How many roles there are in the chain.
const ROLES: u32 = 2_000;

const PLAYBOOK: &str = "[{\"hosts\":\"all\",\"gather_facts\":false,\"roles\":[\"r0\"]}]";

fn bytes_of(alloc: Global, text: &str) -> Result<Items<u8>, AllocError> {
    Ok(Items::from_vec(text.as_bytes().to_vec(alloc)?))
}

/// The file in which a role says that it depends on another one.
fn depends(alloc: Global, role: u32, other: u32) -> Result<RoleFile, AllocError> {
    let path = format!(in alloc; "r{}/meta/main.json", role)?;
    let says = format!(in alloc; "{{\"dependencies\":[\"r{}\"]}}", other)?;
    Ok(RoleFile {
        path: Text::from_string(path),
        bytes: bytes_of(alloc, says.as_str())?,
    })
}

/// A role for each number below that one, each of which depends on the next, and the last on the role with this number.
fn chain(alloc: Global, behind: u32) -> Result<RoleFiles, AllocError> {
    let mut files = Items::new(alloc);
    for role in 1..ROLES {
        files.push(depends(alloc, role - 1, role)?)?;
    }
    files.push(depends(alloc, ROLES - 1, behind)?)?;
    Ok(RoleFiles { files })
}

/// The plan of a play with these roles, or its fault.
fn plan_of(alloc: Global, roles: RoleFiles) -> Result<Result<Plan, BundleFault>, AllocError> {
    let bundle = Bundle {
        inventory: bytes_of(alloc, "{}")?,
        playbook: bytes_of(alloc, PLAYBOOK)?,
        limit: None,
        extra: None,
        roles,
        forks: 5,
        has_facts_program: false,
    };
    Ok(Plan::of(alloc, &bundle))
}

#[test]
fn leads_back(rt: HostRuntime) -> Result<(), Fail> {
    let alloc = rt.alloc();
    let planned = plan_of(alloc, chain(alloc, 0)?)?;
    let is_cycle = match &planned {
        Err(BundleFault::Roles(RoleFault::Cycle)) => true,
        _ => false,
    };
    assert!(rt; is_cycle);
    Ok(())
}

#[test]
fn ends_nowhere(rt: HostRuntime) -> Result<(), Fail> {
    let alloc = rt.alloc();
    let planned = plan_of(alloc, chain(alloc, ROLES)?)?;
    let is_unknown = match &planned {
        Err(BundleFault::Roles(RoleFault::Unknown { name })) => name.as_str() == "r2000",
        _ => false,
    };
    assert!(rt; is_unknown);
    Ok(())
}

/// The chain without its last role has an end.
#[test]
fn ends_well(rt: HostRuntime) -> Result<(), Fail> {
    let alloc = rt.alloc();
    let mut files = Items::new(alloc);
    for role in 1..ROLES {
        files.push(depends(alloc, role - 1, role)?)?;
    }
    let path = format!(in alloc; "r{}/tasks/main.json", ROLES - 1)?;
    files.push(RoleFile {
        path: Text::from_string(path),
        bytes: bytes_of(alloc, "[{\"debug\":{}}]")?,
    })?;
    let planned = plan_of(alloc, RoleFiles { files })?;
    let has_one_place = match &planned {
        Ok(plan) => match plan.plays() {
            [play] => play.place(0).is_some() && play.place(1).is_none(),
            _ => false,
        },
        Err(_) => false,
    };
    assert!(rt; has_one_place);
    Ok(())
}
