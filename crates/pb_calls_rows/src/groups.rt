//! Groups that get a child after they were made.

use pb_groups::{ChildLink, GroupFault, Groups, OwnHost};
use pb_ids::{GroupNo, HostNo};
use std::alloc::Global;
use std::test::Fail;

/// Three groups without links, of which the last has the only host.
fn apart(alloc: Global) -> Result<Groups, Fail> {
    let mut own = Vec::new(alloc);
    own.push(OwnHost {
        group: GroupNo(2),
        host: HostNo(0),
    })?;
    let links: Vec<ChildLink> = Vec::new(alloc);
    match Groups::new(alloc, 1, 3, own, links) {
        Ok(groups) => Ok(groups),
        Err(_) => Err(Fail::new("three groups")),
    }
}

/// Makes one group a child of another. Whether that was taken, or refused as a cycle.
fn is_joined(alloc: Global, groups: &mut Groups, parent: u32, child: u32) -> Result<bool, Fail> {
    let count = groups.groups();
    if parent >= count || child >= count {
        return Err(Fail::new("a group"));
    }
    match groups.add_child(alloc, GroupNo(parent), GroupNo(child)) {
        Ok(()) => Ok(true),
        Err(GroupFault::Cycle) => Ok(false),
        Err(_) => Err(Fail::new("a link")),
    }
}

/// The numbers of the groups that have host 0, in the order in which their variables merge, each behind a space.
fn merged(alloc: Global, groups: &Groups) -> Result<String, Fail> {
    let priorities = [1, 1, 1];
    if groups.groups() != 3 || groups.hosts() != 1 {
        return Err(Fail::new("three groups and a host"));
    }
    let mut text = String::new(alloc);
    for group in groups
        .merge_order(alloc, priorities.as_slice(), HostNo(0))?
        .iter()
    {
        text.push_str(format!(in alloc; " {}", group.0)?.as_str())?;
    }
    Ok(text)
}

/// Group 2 has the host, and becomes a child of group 1, which becomes one of group 0. A parent merges before its child.
#[test]
fn children_of_groups(rt: HostRuntime) -> Result<(), Fail> {
    let alloc = rt.alloc();
    let mut groups = apart(alloc)?;
    assert_eq!(rt; merged(alloc, &groups)?.as_str(), " 2");
    assert!(rt; is_joined(alloc, &mut groups, 0, 1)?);
    assert!(rt; is_joined(alloc, &mut groups, 1, 2)?);
    assert_eq!(rt; merged(alloc, &groups)?.as_str(), " 0 1 2");
    assert!(rt; !is_joined(alloc, &mut groups, 2, 0)?);
    assert_eq!(rt; merged(alloc, &groups)?.as_str(), " 0 1 2");
    Ok(())
}
