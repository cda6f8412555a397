ghost use Rattle.std.specs.Prelude.{◌≡◌, [], ◌<◌, ◌^◌, ◌++◌, length, map, filter, IfOk, OnOk};
ghost use Rattle.std.specs.List.{range_with_len};
ghost use Rattle.pb_groups.specs.Ways.{link};
ghost use Rattle.pb_groups.specs.Members.{own_of as own};
ghost use Rattle.pb_inventory.specs.Names.{with_names, in_place};
ghost use Rattle.pb_inventory.specs.Graph.{host_names, group_names, numbers_of, own_listed, links_listed, listed_hosts, own_under, links_under, group_number, number_first, missing, is_unmarked, own_of, links_of, all, ungrouped};

use crate::listed::Listed;
use crate::sorted::SortedNames;
use pb_groups::{ChildLink, OwnHost};
use pb_ids::{GroupNo, HostNo};
use pb_names::NameList;
use pb_value::text::Text;
use std::alloc::{AllocError, Global};

fn add_names(alloc: Global, known: &mut NameList, names: &[Text]) -> Result<(), AllocError>
    ensures { OnOk result (known.new ≡ with_names names.now known.old) }
{
    for name in names {
        known.put(alloc, name.as_str())?;
    }
    Ok(())
}

/// The hosts that the groups mention, each once.
pub fn host_names_of(alloc: Global, listed: &[Listed]) -> Result<NameList, AllocError>
    ensures { IfOk result (λ names. names ≡ host_names listed.now) }
{
    let mut names = NameList::new(alloc);
    for group in listed {
        add_names(alloc, &mut names, group.hosts.as_slice())?;
    }
    Ok(names)
}

/// The groups `all` and `ungrouped`, and those that are listed or are children, each once, in byte
/// order.
pub fn group_names_of(alloc: Global, listed: &[Listed]) -> Result<NameList, AllocError>
    ensures { IfOk result (λ names. names ≡ group_names listed.now) }
{
    let mut names = first_groups(alloc)?;
    for group in listed {
        names.put(alloc, group.name.as_str())?;
        names.insert_all(alloc, group.children.as_slice())?;
    }
    names.to_list(alloc)
}

fn first_groups(alloc: Global) -> Result<SortedNames, AllocError>
    ensures { IfOk result (λ names. names ≡ in_place ungrouped (in_place all [])) }
{
    let mut names = SortedNames::new(alloc);
    names.put(alloc, "all")?;
    names.put(alloc, "ungrouped")?;
    Ok(names)
}

/// The numbers of the names.
fn numbers_in(alloc: Global, known: &NameList, names: &[Text]) -> Result<Vec<u32>, AllocError>
    requires { length known.now < 2 ^ 32 }
    ensures { IfOk result (λ numbers. numbers.items ≡ numbers_of known.now names.now) }
{
    let mut numbers = Vec::new(alloc);
    for name in names {
        if let Some(number) = known.number(name.as_str()) {
            numbers.push(number as u32)?;
        }
    }
    Ok(numbers)
}

/// The hosts under the groups other than `all` and `ungrouped`.
fn own_listed_of(
    alloc: Global,
    groups: &NameList,
    hosts: &NameList,
    listed: &[Listed],
) -> Result<Vec<OwnHost>, AllocError>
    requires groups { length groups.now < 2 ^ 32 }
    requires hosts { length hosts.now < 2 ^ 32 }
    ensures { IfOk result (λ v. v.items ≡ own_listed groups.now hosts.now listed.now) }
{
    let mut own = Vec::new(alloc);
    for group in listed {
        let numbers = numbers_in(alloc, hosts, own_list(group))?;
        push_own_of(&mut own, groups, group.name.as_str(), numbers.as_slice())?;
    }
    Ok(own)
}

/// The hosts that are listed under a group other than `all` and `ungrouped`.
fn own_list(group: &Listed) -> &[Text]
    ensures { result.now ≡ listed_hosts group.now }
{
    let name = group.name.as_str();
    if name != "all" && name != "ungrouped" {
        group.hosts.as_slice()
    } else {
        &[]
    }
}

/// Adds hosts as own hosts of the group of a name.
fn push_own_of(
    to: &mut Vec<OwnHost>,
    groups: &NameList,
    name: &str,
    hosts: &[u32],
) -> Result<(), AllocError>
    requires { length groups.now < 2 ^ 32 }
    ensures { OnOk result (to.new.items ≡ to.old.items ++ own_under (group_number groups.now name.now) hosts.now) }
{
    if let Some(group) = groups.number(name) {
        push_own(to, group as u32, hosts)?;
    }
    Ok(())
}

fn push_own(to: &mut Vec<OwnHost>, group: u32, hosts: &[u32]) -> Result<(), AllocError>
    ensures { OnOk result (to.new.items ≡ to.old.items ++ map (own group) hosts.now) }
{
    for host in hosts {
        to.push(OwnHost {
            group: GroupNo(group),
            host: HostNo(*host),
        })?;
    }
    Ok(())
}

/// The links from groups to the children under them.
fn links_listed_of(
    alloc: Global,
    groups: &NameList,
    listed: &[Listed],
) -> Result<Vec<ChildLink>, AllocError>
    requires { length groups.now < 2 ^ 32 }
    ensures { IfOk result (λ v. v.items ≡ links_listed groups.now listed.now) }
{
    let mut links = Vec::new(alloc);
    for group in listed {
        let numbers = numbers_in(alloc, groups, group.children.as_slice())?;
        push_links_of(&mut links, groups, group.name.as_str(), numbers.as_slice())?;
    }
    Ok(links)
}

/// Adds groups as children of the group of a name.
fn push_links_of(
    to: &mut Vec<ChildLink>,
    groups: &NameList,
    name: &str,
    children: &[u32],
) -> Result<(), AllocError>
    requires { length groups.now < 2 ^ 32 }
    ensures { OnOk result (to.new.items ≡ to.old.items ++ links_under (group_number groups.now name.now) children.now) }
{
    if let Some(parent) = groups.number(name) {
        push_links(to, parent as u32, children)?;
    }
    Ok(())
}

fn push_links(to: &mut Vec<ChildLink>, parent: u32, children: &[u32]) -> Result<(), AllocError>
    ensures { OnOk result (to.new.items ≡ to.old.items ++ map (link parent) children.now) }
{
    for child in children {
        to.push(ChildLink {
            parent: GroupNo(parent),
            child: GroupNo(*child),
        })?;
    }
    Ok(())
}

/// The numbers below a limit that aren't in the list.
fn missing_of(alloc: Global, numbers: &[u32], limit: u32) -> Result<Vec<u32>, AllocError>
    ensures { IfOk result (λ v. v.items ≡ missing numbers.now limit) }
{
    let mut marks = vec![in alloc; false; limit as usize]?;
    for number in numbers {
        if *number < limit {
            marks[*number as usize] = true;
        }
    }
    unmarked(alloc, marks.as_slice())
}

fn unmarked(alloc: Global, marks: &[bool]) -> Result<Vec<u32>, AllocError>
    requires { length marks.now < 2 ^ 32 }
    ensures { IfOk result (λ v. v.items ≡ filter (is_unmarked marks.now) (range_with_len 0 (length marks.now))) }
{
    let mut numbers = Vec::new(alloc);
    for n in 0..marks.len() {
        if !marks[n] {
            numbers.push(n as u32)?;
        }
    }
    Ok(numbers)
}

/// The own hosts of the groups.
pub fn own_of(
    alloc: Global,
    groups: &NameList,
    hosts: &NameList,
    listed: &[Listed],
) -> Result<Vec<OwnHost>, AllocError>
    requires groups { length groups.now < 2 ^ 32 }
    requires hosts { length hosts.now < 2 ^ 32 }
    ensures { IfOk result (λ v. v.items ≡ own_of groups.now hosts.now listed.now) }
{
    let mut own = own_listed_of(alloc, groups, hosts, listed)?;
    let ungrouped = ungrouped_of(alloc, own.as_slice(), hosts.len() as u32)?;
    push_all(alloc, &mut own, groups, hosts.len() as u32)?;
    push_own_of(&mut own, groups, "ungrouped", ungrouped.as_slice())?;
    Ok(own)
}

/// The hosts that have no group.
fn ungrouped_of(alloc: Global, own: &[OwnHost], hosts: u32) -> Result<Vec<u32>, AllocError>
    ensures { IfOk result (λ v. v.items ≡ missing (map (λ o. o.host.0) own.now) hosts) }
{
    let grouped = hosts_of(alloc, own)?;
    missing_of(alloc, grouped.as_slice(), hosts)
}

/// Adds all hosts as own hosts of the group `all`.
fn push_all(
    alloc: Global,
    to: &mut Vec<OwnHost>,
    groups: &NameList,
    hosts: u32,
) -> Result<(), AllocError>
    requires { length groups.now < 2 ^ 32 }
    ensures { OnOk result (to.new.items ≡ to.old.items ++ own_under (group_number groups.now all) (range_with_len 0 hosts)) }
{
    let numbers = numbers_below(alloc, hosts)?;
    push_own_of(to, groups, "all", numbers.as_slice())
}

fn hosts_of(alloc: Global, own: &[OwnHost]) -> Result<Vec<u32>, AllocError>
    ensures { IfOk result (λ v. v.items ≡ map (λ o. o.host.0) own.now) }
{
    let mut hosts = Vec::new(alloc);
    for own_host in own {
        hosts.push(own_host.host.0)?;
    }
    Ok(hosts)
}

/// The links from groups to their children.
pub fn links_of(
    alloc: Global,
    groups: &NameList,
    listed: &[Listed],
) -> Result<Vec<ChildLink>, AllocError>
    requires { length groups.now < 2 ^ 32 }
    ensures { IfOk result (λ v. v.items ≡ links_of groups.now listed.now) }
{
    let mut links = links_listed_of(alloc, groups, listed)?;
    let tops = tops_of(alloc, groups, links.as_slice())?;
    push_links_of(&mut links, groups, "all", tops.as_slice())?;
    Ok(links)
}

/// The groups other than `all` that are nobody's child.
fn tops_of(alloc: Global, groups: &NameList, links: &[ChildLink]) -> Result<Vec<u32>, AllocError>
    requires { length groups.now < 2 ^ 32 }
    ensures { IfOk result (λ v. v.items ≡ missing (number_first (group_number groups.now all) (map (λ l. l.child.0) links.now)) (length groups.now)) }
{
    let children = children_of(alloc, groups, links)?;
    missing_of(alloc, children.as_slice(), groups.len() as u32)
}

/// The group `all` and the children of the links.
fn children_of(
    alloc: Global,
    groups: &NameList,
    links: &[ChildLink],
) -> Result<Vec<u32>, AllocError>
    requires { length groups.now < 2 ^ 32 }
    ensures { IfOk result (λ v. v.items ≡ number_first (group_number groups.now all) (map (λ l. l.child.0) links.now)) }
{
    let mut children = first_child(alloc, groups)?;
    for link in links {
        children.push(link.child.0)?;
    }
    Ok(children)
}

/// The number of the group `all`.
fn first_child(alloc: Global, groups: &NameList) -> Result<Vec<u32>, AllocError>
    requires { length groups.now < 2 ^ 32 }
    ensures { IfOk result (λ v. v.items ≡ number_first (group_number groups.now all) []) }
{
    let mut children = Vec::new(alloc);
    if let Some(number) = groups.number("all") {
        children.push(number as u32)?;
    }
    Ok(children)
}

/// All numbers below a limit.
fn numbers_below(alloc: Global, limit: u32) -> Result<Vec<u32>, AllocError>
    ensures { IfOk result (λ v. v.items ≡ range_with_len 0 limit) }
{
    let mut numbers = Vec::new(alloc);
    for n in 0..limit {
        numbers.push(n)?;
    }
    Ok(numbers)
}
