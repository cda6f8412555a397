//! Places and hosts in whose variables `hostvars` doesn't stand. All variables are searched, and each of them once: those that places or hosts share with what
//! they share.

ghost use Rattle.std.specs.Prelude.{◌≡◌, ◌<◌, true, length, slice_get, Some, IfOk};
ghost use Rattle.pb_inventory.specs.Vars.{vars_from_groups, vars_of_host};
ghost use Rattle.pb_variables.specs.Shared.{AreKept};
ghost use Rattle.pb_plan.specs.Hostvars.{IsFree, IsFreeGroup, AreFreePlaces, AreFreeGroups, AreMarked, AreFreeHosts};

use pb_ids::{GroupNo, HostNo};
use pb_inventory::inventory::Inventory;
use pb_inventory::vars::Variable;
use pb_mentions::is_free_of_hostvars;
use pb_mentions::values::mentions;
use pb_places::Place;
use pb_value::val::Dict;
use pb_variables::shared::GroupShares;
use std::alloc::{AllocError, Global};

/// Marks the places in whose variables it doesn't stand, in a play without it in its own.
fn mark_places(alloc: Global, vars: &Dict, places: &[Place]) -> Result<Vec<bool>, AllocError>
    requires { IsFree vars.now }
    ensures { IfOk result (λ marked. AreFreePlaces vars.now places.now marked.items) }
{
    // (what only the clauses speak of)
    let _vars = vars;
    let mut marked = Vec::with_capacity(alloc, places.len())?;
    for place in places {
        let is = place.is_free_of_hostvars();
        marked.push(is)?;
    }
    Ok(marked)
}

/// Marks the places of a play in whose variables `hostvars` doesn't stand: none where it stands in the play's own. The only error is want of memory.
#[tactic(auto, using(crate::proofs::Marks::none_placed))]
pub fn free_places(alloc: Global, vars: &Dict, places: &[Place]) -> Result<Vec<bool>, AllocError>
    ensures { IfOk result (λ marked. AreFreePlaces vars.now places.now marked.items) }
{
    if is_free_of_hostvars(vars) {
        mark_places(alloc, vars, places)
    } else {
        Ok(Vec::new(alloc))
    }
}

/// Whether the word stands in no text of the variables of a group itself.
fn is_free_group(vars: &[Variable]) -> bool
    ensures { result ≡ true → IsFreeGroup vars.now }
{
    for variable in vars {
        if mentions("hostvars", &variable.value) {
            return false;
        }
    }
    true
}

/// Marks the groups in whose variables it doesn't stand.
fn mark_groups(alloc: Global, inventory: &Inventory) -> Result<Vec<bool>, AllocError>
    ensures { IfOk result (λ marked. AreFreeGroups inventory.now marked.items) }
{
    let mut marked = Vec::with_capacity(alloc, inventory.groups() as usize)?;
    for n in 0..inventory.groups() {
        let is = is_free_group(inventory.vars_of_group(GroupNo(n)));
        marked.push(is)?;
    }
    Ok(marked)
}

fn is_marked(group: GroupNo, marked: &[bool]) -> bool
    ensures { result ≡ true → slice_get marked.now group.0 ≡ Some true }
{
    match marked.get(group.0 as usize) {
        Some(is) => *is,
        None => false,
    }
}

/// Whether all of these groups are marked.
fn are_marked(groups: &[GroupNo], marked: &[bool]) -> bool
    ensures { result ≡ true → AreMarked marked.now groups.now }
{
    for group in groups {
        if !is_marked(*group, marked) {
            return false;
        }
    }
    true
}

/// Whether it stands in no variable that a host has from its groups, where these are kept.
#[tactic(auto, using(crate::proofs::Marks::free_merged))]
fn is_free_merged(inventory: &Inventory, shares: &GroupShares, host: HostNo) -> bool
    requires { AreKept inventory.now shares.now }
    ensures { result ≡ true → IsFree (vars_from_groups inventory.now host.0) }
{
    // (what only the clauses speak of)
    let _inventory = inventory;
    match shares.kept(host) {
        Some(groups) => groups.is_free_of_hostvars(),
        None => false,
    }
}

/// Whether it stands in no variable that a host has from its groups: in none of these groups, or at least in none that is left where they are merged.
fn has_free_groups(
    alloc: Global,
    inventory: &Inventory,
    shares: &GroupShares,
    marked: &[bool],
    host: HostNo,
) -> Result<bool, AllocError>
    requires kept { AreKept inventory.now shares.now }
    requires marked { AreFreeGroups inventory.now marked.now }
    requires host { host.0 < length inventory.now.hosts }
    ensures { IfOk result (λ is. is ≡ true → IsFree (vars_from_groups inventory.now host.0)) }
{
    let groups = inventory.groups_of_host(alloc, host)?;
    if are_marked(groups.as_slice(), marked) {
        return Ok(true);
    }
    Ok(is_free_merged(inventory, shares, host))
}

/// Whether it stands in no variable of a host, and in none from its groups.
fn is_free_host(
    alloc: Global,
    inventory: &Inventory,
    shares: &GroupShares,
    marked: &[bool],
    host: HostNo,
) -> Result<bool, AllocError>
    requires kept { AreKept inventory.now shares.now }
    requires marked { AreFreeGroups inventory.now marked.now }
    requires host { host.0 < length inventory.now.hosts }
    ensures groups { IfOk result (λ is. is ≡ true → IsFree (vars_from_groups inventory.now host.0)) }
    ensures own { IfOk result (λ is. is ≡ true → IsFree (vars_of_host inventory.now host.0)) }
{
    if !is_free_of_hostvars(inventory.host_vars(host)) {
        return Ok(false);
    }
    has_free_groups(alloc, inventory, shares, marked, host)
}

/// Marks the hosts of which that is so, where it stands in no extra variable.
fn mark_hosts(
    alloc: Global,
    inventory: &Inventory,
    shares: &GroupShares,
    extra: &Dict,
    groups: &[bool],
) -> Result<Vec<bool>, AllocError>
    requires extra { IsFree extra.now }
    requires kept { AreKept inventory.now shares.now }
    requires groups { AreFreeGroups inventory.now groups.now }
    ensures { IfOk result (λ marked. AreFreeHosts inventory.now extra.now marked.items) }
{
    // (what only the clauses speak of)
    let _extra = extra;
    let mut marked = Vec::with_capacity(alloc, inventory.hosts() as usize)?;
    for n in 0..inventory.hosts() {
        let free = is_free_host(alloc, inventory, shares, groups, HostNo(n))?;
        marked.push(free)?;
    }
    Ok(marked)
}

/// Marks the hosts in whose variables, and in those of whose groups, `hostvars` doesn't stand: none where it stands in an extra one. The only error is
/// want of memory.
#[tactic(auto, using(crate::proofs::Marks::none_hosted))]
pub fn free_hosts(
    alloc: Global,
    inventory: &Inventory,
    shares: &GroupShares,
    extra: &Dict,
) -> Result<Vec<bool>, AllocError>
    requires { AreKept inventory.now shares.now }
    ensures { IfOk result (λ marked. AreFreeHosts inventory.now extra.now marked.items) }
{
    if !is_free_of_hostvars(extra) {
        return Ok(Vec::new(alloc));
    }
    let groups = mark_groups(alloc, inventory)?;
    mark_hosts(alloc, inventory, shares, extra, groups.as_slice())
}
