ghost use Rattle.std.specs.Prelude.{◌≡◌, ◌≢◌, ◌<◌, ◌≤◌, ◌↔◌, ℕ, IfOk, IfErr, Ok, Err, Some, true, length, position, slice_get};
ghost use Rattle.std.specs.Option.{option_map};
ghost use Rattle.std.specs.Str.{bytes_eq};
ghost use Rattle.pb_planes.specs.Set.{is_in};
ghost use Rattle.pb_groups.specs.Members.{IsMember};
ghost use Rattle.pb_groups.specs.MemberSets.{members_of};
ghost use Rattle.pb_inventory.specs.Graph.{max_groups, group_names, host_names, own_of};
ghost use Rattle.std.specs.List.{All};
ghost use Rattle.pb_groups.specs.Merging.{in_order, with_host, has_member};
ghost use Rattle.pb_inventory.specs.GraphOf.{numbered};
ghost use Rattle.pb_inventory.specs.Reading.{max_hosts, graph_in};
ghost use Rattle.pb_inventory.specs.Vars.{priorities_in};

use crate::fault::InvFault;
use crate::listed::Listed;
use crate::named::Named;
use crate::names::priorities_of;
use crate::numbering::{group_names_of, host_names_of, links_of, own_of};
use crate::vars::GroupVars;
use pb_groups::{GroupFault, Groups, OwnHost};
use pb_ids::{GroupNo, HostNo};
use pb_names::NameList;
use pb_planes::HostSet;
use std::alloc::{AllocError, Global};
use std::marker::Model;

const MAX_HOSTS: usize = 1048576;

const MAX_GROUPS: usize = 4096;

/// The hosts and the groups, by their numbers, without their variables.
pub struct Graph {
    hosts: NameList,
    names: NameList,
    own: Vec<OwnHost>,
    groups: Groups,
}

impl Drop for Graph {
    fn drop(self) {
        let Graph {
            hosts,
            names,
            own,
            groups,
        } = self;
        drop(hosts);
        drop(names);
        drop(own);
        drop(groups);
    }
}

impl Model for Graph {
    ghost use Rattle.std.specs.Prelude.{◌≡◌, ◌≤◌, length};
    ghost use Rattle.pb_inventory.specs.GraphOf.{GraphOf};

    ghost Value = { GraphOf };

    ghost view = { λ i. record { hosts = i.hosts; groups = i.names; own = i.own.items; links = i.groups.links } };

    ghost invariant = { λ i. (length i.hosts ≤ 1048576) × (length i.names ≤ 4096)
        × (i.groups ≡ record { hosts = length i.hosts; groups = length i.names; own = i.own.items; links = i.groups.links }) };
}

/// The names of the groups, if they aren't too many.
fn few_groups(alloc: Global, listed: &[Listed]) -> Result<NameList, InvFault>
    ensures names { IfOk result (λ names. names ≡ group_names listed.now) }
    ensures few { IfOk result (λ names. length names ≤ 4096) }
    ensures fault { IfErr result (λ e. e ≢ InvFault.Memory → graph_in listed.now ≡ Err e) }
{
    let names = group_names_of(alloc, listed)?;
    if names.len() > MAX_GROUPS {
        return Err(InvFault::TooManyGroups);
    }
    Ok(names)
}

/// The names of the hosts, if they aren't too many.
fn few_hosts(alloc: Global, listed: &[Listed]) -> Result<NameList, InvFault>
    requires { length (group_names listed.now) ≤ 4096 }
    ensures names { IfOk result (λ names. names ≡ host_names listed.now) }
    ensures few { IfOk result (λ names. length names ≤ 1048576) }
    ensures fault { IfErr result (λ e. e ≢ InvFault.Memory → graph_in listed.now ≡ Err e) }
{
    let hosts = host_names_of(alloc, listed)?;
    if hosts.len() > MAX_HOSTS {
        return Err(InvFault::TooManyHosts);
    }
    Ok(hosts)
}

/// The groups by their numbers, or the fault that a group is below itself.
fn linked(
    alloc: Global,
    names: &NameList,
    hosts: &NameList,
    own: &[OwnHost],
    listed: &[Listed],
) -> Result<Groups, InvFault>
    requires names { names.now ≡ group_names listed.now }
    requires hosts { hosts.now ≡ host_names listed.now }
    requires own { own.now ≡ own_of names.now hosts.now listed.now }
    requires few_groups { length names.now ≤ 4096 }
    requires few_hosts { length hosts.now ≤ 1048576 }
    ensures groups { IfOk result (λ g. g ≡ record { hosts = length hosts.now; groups = length names.now; own = own.now; links = g.links }) }
    ensures graph { IfOk result (λ g. graph_in listed.now ≡ Ok (record { hosts = hosts.now; groups = names.now; own = own.now; links = g.links })) }
    ensures fault { IfErr result (λ e. e ≢ InvFault.Memory → graph_in listed.now ≡ Err e) }
{
    let links = links_of(alloc, names, listed)?;
    let kept = Vec::from_slice(alloc, own)?;
    match Groups::new(alloc, hosts.len() as u32, names.len() as u32, kept, links) {
        Ok(groups) => Ok(groups),
        Err(GroupFault::Memory) => Err(InvFault::Memory),
        Err(GroupFault::Cycle) => Err(InvFault::Cycle),
        Err(GroupFault::TooMany) => Err(InvFault::TooManyGroups),
    }
}

impl Graph {
    /// The hosts and groups that are listed, or the first fault: too many groups, too many hosts,
    /// a cycle.
    pub fn of(alloc: Global, listed: &[Listed]) -> Result<Graph, InvFault>
        ensures value { IfOk result (λ graph. graph_in listed.now ≡ Ok graph) }
        ensures fault { IfErr result (λ e. e ≢ InvFault.Memory → graph_in listed.now ≡ Err e) }
    {
        let names = few_groups(alloc, listed)?;
        let hosts = few_hosts(alloc, listed)?;
        let own = own_of(alloc, &names, &hosts, listed)?;
        match linked(alloc, &names, &hosts, own.as_slice(), listed) {
            Ok(groups) => Ok(Graph {
                hosts,
                names,
                own,
                groups,
            }),
            Err(fault) => Err(fault),
        }
    }

    /// The number of hosts.
    pub fn hosts(&self) -> u32
        ensures count { result ≡ length self.now.hosts }
        ensures limit { length self.now.hosts ≤ max_hosts }
    {
        self.hosts.len() as u32
    }

    /// The name of a host.
    pub fn name(&self, host: HostNo) -> &str
        requires { host.0 < length self.now.hosts }
        ensures { slice_get self.now.hosts host.0 ≡ Some result.now }
    {
        match self.hosts.get(host.0 as usize) {
            Some(name) => name,
            None => "",
        }
    }

    /// The host of a name.
    pub fn number(&self, name: &str) -> Option<HostNo>
        ensures { option_map (λ h. h.0) result ≡ position (bytes_eq name.now) self.now.hosts }
    {
        match self.hosts.number(name) {
            Some(number) => Some(HostNo(number as u32)),
            None => None,
        }
    }

    /// The number of groups.
    pub fn groups(&self) -> u32
        ensures count { result ≡ length self.now.groups }
        ensures limit { length self.now.groups ≤ max_groups }
    {
        self.names.len() as u32
    }

    /// The name of a group.
    pub fn group_name(&self, group: GroupNo) -> &str
        requires { group.0 < length self.now.groups }
        ensures { slice_get self.now.groups group.0 ≡ Some result.now }
    {
        match self.names.get(group.0 as usize) {
            Some(name) => name,
            None => "",
        }
    }

    /// The group of a name.
    pub fn group(&self, name: &str) -> Option<GroupNo>
        ensures { option_map (λ g. g.0) result ≡ position (bytes_eq name.now) self.now.groups }
    {
        match self.names.number(name) {
            Some(number) => Some(GroupNo(number as u32)),
            None => None,
        }
    }

    /// The own hosts of all groups, those of one group in the order of its list.
    pub fn own(&self) -> &[OwnHost]
        ensures { result.now ≡ self.now.own }
    {
        self.own.as_slice()
    }

    /// The hosts that belong to a group.
    pub fn members(&self, group: GroupNo) -> &HostSet
        requires { group.0 < length self.now.groups }
        ensures width { length result.now ≡ length self.now.hosts }
        ensures members { (host : ℕ) → (is_in result.now host ≡ true) ↔ IsMember self.now.links self.now.own group.0 host }
        ensures set { result.now ≡ members_of (numbered self.now) group.0 }
    {
        self.groups.members(group)
    }

    /// Whether a host belongs to a group.
    pub fn has(&self, group: GroupNo, host: HostNo) -> bool
        requires group { group.0 < length self.now.groups }
        requires host { host.0 < length self.now.hosts }
        ensures { result ≡ has_member (numbered self.now) group.0 host.0 }
    {
        self.groups.has(group, host)
    }

    /// All groups in the order in which their variables merge.
    pub fn in_order(
        &self,
        alloc: Global,
        vars: &Named<GroupVars>,
    ) -> Result<Vec<GroupNo>, AllocError>
        ensures value { IfOk result (λ order. order.items ≡ in_order (numbered self.now) (priorities_in vars.now self.now.groups)) }
        ensures below { IfOk result (λ order. All (λ g. g.0 < length self.now.groups) order.items) }
    {
        let priorities = priorities_of(alloc, &self.names, vars)?;
        self.groups.in_order(alloc, priorities.as_slice())
    }

    /// Those of the groups that have the host.
    pub fn with_host(
        &self,
        alloc: Global,
        order: &[GroupNo],
        host: HostNo,
    ) -> Result<Vec<GroupNo>, AllocError>
        requires groups { All (λ g. g.0 < length self.now.groups) order.now }
        requires host { host.0 < length self.now.hosts }
        ensures { IfOk result (λ groups. groups.items ≡ with_host (numbered self.now) host.0 order.now) }
    {
        self.groups.with_host(alloc, order, host)
    }
}
