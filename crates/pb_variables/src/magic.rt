ghost use Rattle.std.specs.Prelude.{◌≡◌, ◌<◌, ℕ, List, [], ◌∷◌, ◌++◌, Some, length, codes, if◌then◌else◌, IfOk, OnOk};
ghost use Rattle.pb_planes.specs.Set.{is_in};
ghost use Rattle.pb_value.specs.Datum.{put, value_at};
ghost use Rattle.pb_layers.specs.Host.{host_map};
ghost use Rattle.pb_inventory.specs.Vars.{group_name, host_name, names_of_hosts};
ghost use Rattle.pb_variables.specs.Magic.{texts, groups_map, names_in, plan_magic, play_magic, magic_with};
ghost use Rattle.pb_variables.specs.ByName.{value_in, hosts_under};

use crate::put::texts;
use pb_ids::{GroupNo, HostNo};
use pb_inventory::inventory::Inventory;
use pb_layers::host::HostMagic;
use pb_planes::HostSet;
use pb_value::items::Items;
use pb_value::text::Text;
use pb_value::val::{Dict, Val};
use std::alloc::{AllocError, Global};

/// The magic variable that is the same wherever a plan is run: `groups`, a dict from each group's name to the list of its hosts' names in
/// the order of their numbers (Ansible's documentation, "Special variables"). The only error is want of memory.
pub fn plan_magic(alloc: Global, inventory: &Inventory) -> Result<Dict, AllocError>
    ensures value { IfOk result (λ known. known ≡ plan_magic inventory.now) }

    // Under each group's name stand its hosts, and under no other name anything.
    ensures groups { IfOk result (λ known. (name : List ℕ) → value_in name (value_at (codes "groups") known) ≡ hosts_under inventory.now name) }
{
    plan_maps(alloc, inventory)
}

#[tactic(auto, unfolding(crate::specs::Magic::plan_magic))]
fn plan_maps(alloc: Global, inventory: &Inventory) -> Result<Dict, AllocError>
    ensures { IfOk result (λ known. known ≡ plan_magic inventory.now) }
{
    let groups = groups_map(alloc, inventory)?;
    let mut known = Dict::new(alloc);
    known.put(alloc, "groups", Val::dict(groups))?;
    Ok(known)
}

fn groups_map(alloc: Global, inventory: &Inventory) -> Result<Dict, AllocError>
    ensures { IfOk result (λ known. known ≡ groups_map inventory.now) }
{
    let mut known = Dict::new(alloc);
    for n in 0..inventory.groups() {
        put_group(alloc, &mut known, inventory, GroupNo(n))?;
    }
    Ok(known)
}

/// Puts the names of a group's hosts under the group's name.
fn put_group(
    alloc: Global,
    known: &mut Dict,
    inventory: &Inventory,
    group: GroupNo,
) -> Result<(), AllocError>
    requires { group.0 < length inventory.now.groups }
    ensures { OnOk result (known.new ≡ put (group_name inventory.now group.0) (texts (names_of_hosts inventory.now group.0)) known.old) }
{
    let names = inventory.host_names(alloc, group)?;
    let value = texts(alloc, names)?;
    known.put(alloc, inventory.group_name(group), value)
}

/// The magic variable of a play: `ansible_play_hosts_all`, the names of the play's hosts in the
/// order of their numbers. The set says of each host of the inventory whether it is one of them.
/// The only error is want of memory.
#[tactic(auto, unfolding(crate::specs::Magic::play_magic))]
pub fn play_magic(alloc: Global, inventory: &Inventory, hosts: &HostSet) -> Result<Dict, AllocError>
    requires { length hosts.now ≡ length inventory.now.hosts }
    ensures { IfOk result (λ known. known ≡ play_magic inventory.now hosts.now) }
{
    let names = names_in(alloc, inventory, hosts)?;
    let value = texts(alloc, names)?;
    let mut known = Dict::new(alloc);
    known.put(alloc, "ansible_play_hosts_all", value)?;
    Ok(known)
}

fn names_in(
    alloc: Global,
    inventory: &Inventory,
    hosts: &HostSet,
) -> Result<Items<Text>, AllocError>
    requires { length hosts.now ≡ length inventory.now.hosts }
    ensures { IfOk result (λ names. names ≡ names_in inventory.now hosts.now) }
{
    let mut names = Items::new(alloc);
    for n in 0..inventory.hosts() {
        push_name(alloc, &mut names, inventory, hosts, HostNo(n))?;
    }
    Ok(names)
}

/// Pushes the name of a host that is in the set.
fn push_name(
    alloc: Global,
    names: &mut Items<Text>,
    inventory: &Inventory,
    hosts: &HostSet,
    host: HostNo,
) -> Result<(), AllocError>
    requires host { host.0 < length inventory.now.hosts }
    requires width { length hosts.now ≡ length inventory.now.hosts }
    ensures { OnOk result (names.new ≡ names.old ++ (if is_in hosts.now host.0 then host_name inventory.now host.0 ∷ [] else [])) }
{
    if is_listed(hosts, host) {
        names.push(Text::from_str(alloc, inventory.name(host))?)?;
    }
    Ok(())
}

fn is_listed(hosts: &HostSet, host: HostNo) -> bool
    requires { host.0 < length hosts.now }
    ensures { result ≡ is_in hosts.now host.0 }
{
    hosts.has(host)
}

/// The magic variables of a host: `group_names`, the list of the names of its groups, all but `all`, in byte order, and
/// `inventory_hostname`, its own name. Both are given, and lent.
pub fn host_magic<'a>(names: &'a Val, name: &'a Val) -> HostMagic<'a>
    ensures { host_map (Some result) ≡ magic_with names.now name.now }
{
    HostMagic {
        group_names: names,
        inventory_hostname: name,
    }
}
