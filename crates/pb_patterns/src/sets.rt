ghost use Rattle.std.specs.Prelude.{◌≡◌, ◌<◌, ◌==◌, ◌||◌, ◌&&◌, ℕ, Bool, false, List, length, map, position, slice_index_or, option_map, IfOk, Option, Some, None};
ghost use Rattle.std.specs.List.{list_any, range_with_len};
ghost use Rattle.std.specs.Str.{bytes_eq, chars};
ghost use Rattle.regex.specs.Strings.{regex_source};
ghost use Rattle.pb_planes.specs.Set.{is_in};
ghost use Rattle.pb_inventory.specs.MemberSets.{members_in};
ghost use Rattle.pb_patterns.specs.Sets.{each_host, meant, one_host, named, term_set, listing, begins_as, contains};
ghost use Rattle.pb_patterns.specs.Built.{IsRegexOf};
ghost use Rattle.pb_patterns.specs.Globs.{fits, glob};

use crate::glob::{chars_of, is_wild};
use crate::hits::{groups_that_fit, groups_that_match, hosts_that_fit, hosts_that_match};
use pb_ids::{GroupNo, HostNo};
use pb_inventory::inventory::Inventory;
use pb_planes::HostSet;
use regex::Regex;
use std::alloc::{AllocError, Global};

fn set_of_bits(alloc: Global, width: u32, bits: &[bool]) -> Result<HostSet, AllocError>
    requires { width ≡ length bits.now }
    ensures { IfOk result (λ set. set ≡ bits.now) }
{
    let mut set = HostSet::empty(alloc, width)?;
    for at in 0..width {
        set.put(HostNo(at), bits[at as usize]);
    }
    Ok(set)
}

/// Adds the members of the groups that are hit.
fn add_groups(inventory: &Inventory, groups: &[bool], set: &mut HostSet)
    requires groups { length groups.now ≡ length inventory.now.groups }
    requires hosts { length set.old ≡ length inventory.now.hosts }
    ensures width { length set.new ≡ length set.old }
    ensures added { (h : ℕ) → is_in set.new h ≡ (is_in set.old h || list_any (λ g. slice_index_or groups.now g false && is_in (members_in inventory.now g) h) (range_with_len 0 (length inventory.now.groups))) }
{
    for group in 0..inventory.groups() {
        if groups[group as usize] {
            set.or_with(inventory.members(GroupNo(group)));
        }
    }
}

/// The hosts that are hit, and the members of the groups that are hit.
fn meant(
    alloc: Global,
    inventory: &Inventory,
    groups: &[bool],
    hosts: &[bool],
) -> Result<HostSet, AllocError>
    requires groups { length groups.now ≡ length inventory.now.groups }
    requires hosts { length hosts.now ≡ length inventory.now.hosts }
    ensures width { IfOk result (λ set. length set ≡ length inventory.now.hosts) }
    ensures set { IfOk result (λ set. (test : List ℕ → Bool) → groups.now ≡ map test inventory.now.groups → hosts.now ≡ map test inventory.now.hosts → set ≡ meant inventory.now test) }
{
    let mut set = set_of_bits(alloc, inventory.hosts(), hosts)?;
    add_groups(inventory, groups, &mut set);
    Ok(set)
}

/// The hosts that a regular expression means.
pub fn matched(alloc: Global, inventory: &Inventory, regex: &Regex) -> Result<HostSet, AllocError>
    requires { IsRegexOf (regex_source regex.now) regex.now }
    ensures width { IfOk result (λ set. length set ≡ length inventory.now.hosts) }
    ensures set { IfOk result (λ set. set ≡ meant inventory.now (begins_as (regex_source regex.now))) }
{
    let hosts = hosts_that_match(alloc, inventory, regex)?;
    let groups = groups_that_match(alloc, inventory, regex)?;
    let host_hits = hosts.as_slice();
    let group_hits = groups.as_slice();
    meant(alloc, inventory, group_hits, host_hits)
}

/// The hosts that a term means with these characters.
fn fitting(alloc: Global, inventory: &Inventory, signs: &[char]) -> Result<HostSet, AllocError>
    ensures width { IfOk result (λ set. length set ≡ length inventory.now.hosts) }
    ensures set { IfOk result (λ set. set ≡ meant inventory.now (λ name. fits signs.now (chars name))) }
{
    let hosts = hosts_that_fit(alloc, inventory, signs)?;
    let groups = groups_that_fit(alloc, inventory, signs)?;
    let host_hits = hosts.as_slice();
    let group_hits = groups.as_slice();
    meant(alloc, inventory, group_hits, host_hits)
}

fn fitted(alloc: Global, inventory: &Inventory, term: &str) -> Result<HostSet, AllocError>
    ensures width { IfOk result (λ set. length set ≡ length inventory.now.hosts) }
    ensures set { IfOk result (λ set. set ≡ meant inventory.now (glob term.now)) }
{
    let signs = chars_of(alloc, term)?;
    fitting(alloc, inventory, signs.as_slice())
}

fn one_host(alloc: Global, inventory: &Inventory, name: &str) -> Result<HostSet, AllocError>
    ensures width { IfOk result (λ set. length set ≡ length inventory.now.hosts) }
    ensures set { IfOk result (λ set. set ≡ one_host (length inventory.now.hosts) (position (bytes_eq name.now) inventory.now.hosts)) }
{
    let mut set = HostSet::empty(alloc, inventory.hosts())?;
    match inventory.number(name) {
        Some(host) => {
            set.insert(host);
            Ok(set)
        }
        None => Ok(set),
    }
}

fn named(alloc: Global, inventory: &Inventory, name: &str) -> Result<HostSet, AllocError>
    ensures width { IfOk result (λ set. length set ≡ length inventory.now.hosts) }
    ensures set { IfOk result (λ set. set ≡ named inventory.now name.now) }
{
    match inventory.group(name) {
        Some(group) => inventory.members(group).try_clone(alloc),
        None => one_host(alloc, inventory, name),
    }
}

/// The hosts that a term means.
pub fn term_set(alloc: Global, inventory: &Inventory, term: &str) -> Result<HostSet, AllocError>
    ensures width { IfOk result (λ set. length set ≡ length inventory.now.hosts) }
    ensures set { IfOk result (λ set. set ≡ term_set inventory.now term.now) }
{
    if is_wild(term.as_bytes()) {
        fitted(alloc, inventory, term)
    } else {
        named(alloc, inventory, term)
    }
}

/// The hosts of a list, as a set.
pub fn set_of_hosts(alloc: Global, hosts: &[u32], width: u32) -> Result<HostSet, AllocError>
    ensures width { IfOk result (λ set. length set ≡ width) }
    ensures set { IfOk result (λ set. set ≡ each_host width (contains hosts.now)) }
{
    let mut set = HostSet::empty(alloc, width)?;
    for host in hosts {
        if *host < width {
            set.insert(HostNo(*host));
        }
    }
    Ok(set)
}

/// The group whose own list a subscript on the term counts first.
pub fn listing(inventory: &Inventory, term: &str) -> Option<GroupNo>
    ensures { option_map (λ g. g.0) result ≡ listing inventory.now term.now }
{
    if is_wild(term.as_bytes()) || term == "all" || term == "ungrouped" {
        None
    } else {
        inventory.group(term)
    }
}
