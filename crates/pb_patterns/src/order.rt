ghost use Rattle.std.specs.Prelude.{◌≡◌, ◌<◌, ◌&&◌, ℕ, true, false, not, [], ◌∷◌, ◌++◌, length, take, drop, filter, slice_set, option_map, IfOk, OnOk, IfSome, if◌then◌else◌};
ghost use Rattle.std.specs.List.{range_with_len};
ghost use Rattle.pb_planes.specs.Set.{is_in};
ghost use Rattle.pb_groups.specs.Members.{group_at, host_at};
ghost use Rattle.pb_patterns.specs.Sets.{once, own_hosts, contains, in_order, listed, picked, ordered, each_host};

use crate::element::Subscript;
use crate::sets::{listing, set_of_hosts, term_set};
use pb_groups::OwnHost;
use pb_ids::{GroupNo, HostNo};
use pb_inventory::inventory::Inventory;
use pb_planes::HostSet;
use std::alloc::{AllocError, Global};

fn put_new(host: HostNo, seen: &mut HostSet, order: &mut Vec<u32>) -> Result<(), AllocError>
    requires { host.0 < length seen.old }
    ensures seen { seen.new ≡ slice_set seen.old host.0 true }
    ensures order { OnOk result (order.new.items ≡ (if is_in seen.old host.0 then order.old.items else order.old.items ++ host.0 ∷ [])) }
{
    let is_known = seen.has(host);
    seen.insert(host);
    if !is_known {
        order.push(host.0)?;
    }
    Ok(())
}

/// A group's own hosts in the order of its list, each once.
fn own_order(
    alloc: Global,
    own: &[OwnHost],
    group: GroupNo,
    seen: &mut HostSet,
) -> Result<Vec<u32>, AllocError>
    requires within { (k : ℕ) → k < length own.now → group_at own.now k ≡ group.0 → host_at own.now k < length seen.old }
    requires none { (h : ℕ) → is_in seen.old h ≡ false }
    ensures order { IfOk result (λ order. order.items ≡ once (own_hosts own.now group.0)) }
    ensures width { OnOk result (length seen.new ≡ length seen.old) }
    ensures seen { OnOk result ((h : ℕ) → is_in seen.new h ≡ contains (own_hosts own.now group.0) h) }
{
    let mut order = Vec::new(alloc);
    for entry in own {
        if entry.group.0 == group.0 {
            put_new(entry.host, seen, &mut order)?;
        }
    }
    Ok(order)
}

fn is_new(set: &HostSet, seen: &HostSet, host: HostNo) -> bool
    requires set { host.0 < length set.now }
    requires seen { host.0 < length seen.now }
    ensures { result ≡ (is_in set.now host.0 && not (is_in seen.now host.0)) }
{
    set.has(host) && !seen.has(host)
}

/// Adds the hosts of the set that weren't seen, in their order.
fn push_rest(set: &HostSet, seen: &HostSet, order: &mut Vec<u32>) -> Result<(), AllocError>
    requires { length set.now ≡ length seen.now }
    ensures { OnOk result (order.new.items ≡ order.old.items ++ filter (λ h. is_in set.now h && not (is_in seen.now h)) (range_with_len 0 (length set.now))) }
{
    for host in 0..set.width() {
        if is_new(set, seen, HostNo(host)) {
            order.push(host)?;
        }
    }
    Ok(())
}

fn listed(
    alloc: Global,
    inventory: &Inventory,
    group: GroupNo,
    seen: &mut HostSet,
) -> Result<Vec<u32>, AllocError>
    requires group { group.0 < length inventory.now.groups }
    requires width { length seen.old ≡ length inventory.now.hosts }
    requires none { (h : ℕ) → is_in seen.old h ≡ false }
    ensures order { IfOk result (λ order. order.items ≡ once (own_hosts inventory.now.own group.0)) }
    ensures width { OnOk result (length seen.new ≡ length seen.old) }
    ensures seen { OnOk result ((h : ℕ) → is_in seen.new h ≡ contains (own_hosts inventory.now.own group.0) h) }
{
    // (what the call promises of the group's hosts is known to the proof once it is made)
    let _members = inventory.members(group);
    own_order(alloc, inventory.own(), group, seen)
}

/// The hosts of a set in the order in which a subscript counts them.
fn in_order(
    alloc: Global,
    inventory: &Inventory,
    listing: Option<GroupNo>,
    set: &HostSet,
) -> Result<Vec<u32>, AllocError>
    requires group { IfSome listing (λ g. g.0 < length inventory.now.groups) }
    requires width { length set.now ≡ length inventory.now.hosts }
    ensures { IfOk result (λ order. order.items ≡ in_order (listed inventory.now (option_map (λ g. g.0) listing)) set.now) }
{
    let mut seen = HostSet::empty(alloc, set.width())?;
    match listing {
        Some(group) => {
            let mut order = listed(alloc, inventory, group, &mut seen)?;
            push_rest(set, &seen, &mut order)?;
            Ok(order)
        }
        None => {
            let mut order = Vec::new(alloc);
            push_rest(set, &seen, &mut order)?;
            Ok(order)
        }
    }
}

fn part(hosts: &[u32], from: usize, count: usize) -> &[u32]
    ensures { result.now ≡ take count (drop from hosts.now) }
{
    let rest = &hosts[from.min(hosts.len())..];
    &rest[..count.min(rest.len())]
}

fn picked(hosts: &[u32], subscript: Subscript) -> &[u32]
    ensures { result.now ≡ picked subscript hosts.now }
{
    match subscript {
        Subscript::At(i) => part(hosts, i as usize, 1),
        Subscript::FromEnd(i) => {
            let back = i as usize;
            if 1 <= back && back <= hosts.len() {
                part(hosts, hosts.len() - back, 1)
            } else {
                &hosts[..0]
            }
        }
        Subscript::Between(i, j) => part(
            hosts,
            i as usize,
            (j as usize + 1).saturating_sub(i as usize),
        ),
        Subscript::From(i) => part(hosts, i as usize, hosts.len()),
    }
}

/// The hosts that a subscript on a term means.
pub fn subscripted(
    alloc: Global,
    inventory: &Inventory,
    term: &str,
    subscript: Subscript,
) -> Result<HostSet, AllocError>
    ensures width { IfOk result (λ set. length set ≡ length inventory.now.hosts) }
    ensures set { IfOk result (λ set. set ≡ each_host (length inventory.now.hosts) (contains (picked subscript (ordered inventory.now term.now)))) }
{
    let set = term_set(alloc, inventory, term)?;
    let order = in_order(alloc, inventory, listing(inventory, term), &set)?;
    let counted = order.as_slice();
    let hosts = picked(counted, subscript);
    let width = inventory.hosts();
    set_of_hosts(alloc, hosts, width)
}
