ghost use Rattle.std.specs.Prelude.{◌≡◌, ◌≢◌, ◌<◌, ◌≤◌, ◌+◌, ℕ, suc, [], ◌∷◌, ◌++◌, length, true, IfOk, IfErr, OnOk, OnErr, ◌↔◌};
ghost use Rattle.pb_planes.specs.Set.{is_in};
ghost use Rattle.pb_groups.specs.GroupsOf.{GroupsOf, max_groups};
ghost use Rattle.pb_groups.specs.Ways.{Way, IsChild, AreLinksBelow, link};
ghost use Rattle.pb_groups.specs.Depths.{IsEndless};
ghost use Rattle.pb_groups.specs.Members.{AreOwnBelow, IsMember};
ghost use Rattle.pb_groups.specs.Merging.{has_member, in_order, with_host, merge_order, IsInOrder, AreGroupsOf};
ghost use Rattle.pb_groups.specs.MemberSets.{members_of};
ghost use Rattle.pb_groups.specs.Refused.{IsRefused};
ghost use Rattle.std.specs.List.{All};

use crate::depths::depths_of;
use crate::fault::GroupFault;
use crate::links::{ChildLink, OwnHost};
use crate::merging::{groups_of, has, having, keys_of};
use crate::planes::members_of;
use pb_ids::{GroupNo, HostNo};
use pb_planes::HostSet;
use std::alloc::{AllocError, Global};
use std::marker::Model;

const MAX_GROUPS: u32 = 4096;

/// Groups of hosts, by their numbers.
pub struct Groups {
    hosts: u32,
    own: Vec<OwnHost>,
    links: Vec<ChildLink>,
    depths: Vec<u32>,
    members: Vec<HostSet>,
}

impl Drop for Groups {
    fn drop(self) {
        let Groups {
            hosts: _,
            own,
            links,
            depths,
            members,
        } = self;
        drop(own);
        drop(links);
        drop(depths);
        drop(members);
    }
}

impl Model for Groups {
    ghost use Rattle.std.specs.Prelude.{length};
    ghost use Rattle.pb_groups.specs.GroupsOf.{GroupsOf};
    ghost use Rattle.pb_groups.specs.Kept.{IsKept};

    ghost Value = { GroupsOf };

    ghost view = { λ g. record { hosts = g.hosts; groups = length g.depths.items; own = g.own.items; links = g.links.items } };

    ghost invariant = { λ g. IsKept g.hosts g.own.items g.links.items g.depths.items g.members.items };
}

impl Groups {
    /// So many groups over so many hosts, with the groups' own hosts and the links from groups to their
    /// children. There are at most 4,096 groups.
    pub fn new(
        alloc: Global,
        hosts: u32,
        groups: u32,
        own: Vec<OwnHost>,
        links: Vec<ChildLink>,
    ) -> Result<Groups, GroupFault>
        requires some_group { 0 < groups }
        requires own { AreOwnBelow own.items groups hosts }
        requires links { AreLinksBelow links.items groups }
        ensures value { IfOk result (λ g. g ≡ record { hosts = hosts; groups = groups; own = own.items; links = links.items }) }
        ensures limit { IfOk result (λ g. groups ≤ max_groups) }
        ensures no_cycle { IfOk result (λ g. (steps group : ℕ) → Way links.items (suc steps) group group → ⊥) }
        ensures not_endless { IfOk result (λ g. IsEndless links.items groups → ⊥) }
        ensures fault { IfErr result (λ e. IsRefused e groups links.items) }
    {
        if groups > MAX_GROUPS {
            return Err(GroupFault::TooMany);
        }
        match depths_of(alloc, links.as_slice(), groups)? {
            Some(depths) => {
                let members = members_of(
                    alloc,
                    links.as_slice(),
                    own.as_slice(),
                    depths.as_slice(),
                    hosts,
                )?;
                Ok(Groups {
                    hosts,
                    own,
                    links,
                    depths,
                    members,
                })
            }
            None => Err(GroupFault::Cycle),
        }
    }

    /// Makes one group a child of another, and finds depths and members anew.
    pub fn add_child(
        &mut self,
        alloc: Global,
        parent: GroupNo,
        child: GroupNo,
    ) -> Result<(), GroupFault>
        requires parent { parent.0 < self.old.groups }
        requires child { child.0 < self.old.groups }
        ensures ok { OnOk result (self.new ≡ record self.old { links = self.old.links ++ link parent.0 child.0 ∷ [] }) }
        ensures err { OnErr result (self.new ≡ self.old) }
        ensures no_cycle { OnOk result (IsEndless self.new.links self.new.groups → ⊥) }
        ensures limit { self.old.groups ≤ max_groups }
        ensures fault { IfErr result (λ e. IsRefused e self.old.groups (self.old.links ++ link parent.0 child.0 ∷ [])) }
    {
        let own = Vec::from_slice(alloc, self.own.as_slice())?;
        let mut links = Vec::from_slice(alloc, self.links.as_slice())?;
        links.push(ChildLink { parent, child })?;
        *self = Groups::new(alloc, self.hosts, self.depths.len() as u32, own, links)?;
        Ok(())
    }

    /// How many groups there are.
    pub fn groups(&self) -> u32
        ensures count { result ≡ self.now.groups }
        ensures limit { self.now.groups ≤ max_groups }
    {
        self.depths.len() as u32
    }

    /// How many hosts there are, in groups or not.
    pub fn hosts(&self) -> u32
        ensures { result ≡ self.now.hosts }
    {
        self.hosts
    }

    /// The hosts that belong to the group: its own, and the members of its children.
    pub fn members(&self, group: GroupNo) -> &HostSet
        requires { group.0 < self.now.groups }
        ensures width { length result.now ≡ self.now.hosts }
        ensures members { (host : ℕ) → (is_in result.now host ≡ true) ↔ IsMember self.now.links self.now.own group.0 host }
        ensures set { result.now ≡ members_of self.now group.0 }
    {
        &self.members[group.0 as usize]
    }

    /// How many steps from parent to child the longest way to the group has.
    pub fn depth(&self, group: GroupNo) -> u32
        requires { group.0 < self.now.groups }
        ensures reached { (from : ℕ) × Way self.now.links result from group.0 }
        ensures longest { (steps from : ℕ) → Way self.now.links steps from group.0 → steps ≤ result }
        ensures from_top { (top : ℕ) → ((g : ℕ) → g < self.now.groups → g ≢ top → (parent : ℕ) × IsChild self.now.links parent g) → Way self.now.links result top group.0 }
    {
        self.depths[group.0 as usize]
    }

    /// Whether the host belongs to the group.
    pub fn has(&self, group: GroupNo, host: HostNo) -> bool
        requires group { group.0 < self.now.groups }
        requires host { host.0 < self.now.hosts }
        ensures { result ≡ has_member self.now group.0 host.0 }
    {
        has(self.members.as_slice(), group, host)
    }

    /// All groups in the order in which their variables merge: by depth, then by priority, then by
    /// number. There is a priority for each group.
    pub fn in_order(&self, alloc: Global, priorities: &[i64]) -> Result<Vec<GroupNo>, AllocError>
        requires { length priorities.now ≡ self.now.groups }
        ensures value { IfOk result (λ order. order.items ≡ in_order self.now priorities.now) }
        ensures rising { IfOk result (λ order. IsInOrder self.now priorities.now order.items) }
        ensures below { IfOk result (λ order. All (λ g. g.0 < self.now.groups) order.items) }
    {
        let keys = keys_of(alloc, self.depths.as_slice(), priorities)?;
        Ok(groups_of(alloc, &keys)?)
    }

    /// Those of the groups, in their order, that have the host among their members.
    pub fn with_host(
        &self,
        alloc: Global,
        order: &[GroupNo],
        host: HostNo,
    ) -> Result<Vec<GroupNo>, AllocError>
        requires groups { All (λ g. g.0 < self.now.groups) order.now }
        requires host { host.0 < self.now.hosts }
        ensures { IfOk result (λ groups. groups.items ≡ with_host self.now host.0 order.now) }
    {
        having(alloc, self.members.as_slice(), order, host)
    }

    /// The groups that have the host among their members, in the order in which their variables
    /// merge.
    pub fn merge_order(
        &self,
        alloc: Global,
        priorities: &[i64],
        host: HostNo,
    ) -> Result<Vec<GroupNo>, AllocError>
        requires priorities { length priorities.now ≡ self.now.groups }
        requires host { host.0 < self.now.hosts }
        ensures value { IfOk result (λ order. order.items ≡ merge_order self.now priorities.now host.0) }
        ensures rising { IfOk result (λ order. IsInOrder self.now priorities.now order.items) }
        ensures groups { IfOk result (λ order. AreGroupsOf self.now host.0 order.items) }
    {
        // (the invariant is known to the proof once a field is read)
        let _own = &self.own;
        let order = self.in_order(alloc, priorities)?;
        self.with_host(alloc, order.as_slice(), host)
    }
}
