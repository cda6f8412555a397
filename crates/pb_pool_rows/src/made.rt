//! Plans for the tests.

use pb_roles::RoleFiles;
use pb_state::{Bundle, Plan};
use pb_value::items::Items;
use std::alloc::{AllocError, Global};
use std::test::Fail;

fn bytes_of(alloc: Global, text: &str) -> Result<Items<u8>, AllocError> {
    Ok(Items::from_vec(text.as_bytes().to_vec(alloc)?))
}

/// An inventory of so many hosts.
fn hosts(alloc: Global, count: u32) -> Result<String, AllocError> {
    let mut text = String::new(alloc);
    text.push_str("{\"all\":{\"hosts\":[")?;
    for host in 0..count {
        if host > 0 {
            text.push_str(",")?;
        }
        write!(text, "\"h{host}\"")?;
    }
    text.push_str("]}}")?;
    Ok(text)
}

fn bundle_of(alloc: Global, hosts: &str, playbook: &str, forks: u32) -> Result<Bundle, AllocError> {
    let inventory = bytes_of(alloc, hosts)?;
    let playbook = bytes_of(alloc, playbook)?;
    Ok(Bundle {
        inventory,
        playbook,
        limit: None,
        extra: None,
        roles: RoleFiles {
            files: Items::new(alloc),
        },
        forks,
        has_facts_program: false,
    })
}

/// The plan of a playbook for so many hosts.
pub fn plan_of(alloc: Global, count: u32, playbook: &str, forks: u32) -> Result<Plan, Fail> {
    let hosts = hosts(alloc, count)?;
    let bundle = bundle_of(alloc, hosts.as_str(), playbook, forks)?;
    match Plan::of(alloc, &bundle) {
        Ok(plan) => Ok(plan),
        Err(_) => Err(Fail::new("a plan")),
    }
}
