ghost use Rattle.std.specs.Prelude.{◌≡◌, ◌<◌, [], ◌∷◌, ◌++◌, ℕ, List, not, if◌then◌else◌, length, filter, IfOk, OnOk};
ghost use Rattle.std.specs.List.{All};
ghost use Rattle.pb_value.specs.Datum.{value_at};
ghost use Rattle.pb_inventory.specs.Vars.{groups_of_host, vars_from_groups, last_given, vars_of_host, vars_of_group, group_name, put_vars, put_groups, strangers, is_host, is_named, names_of_groups, names_of_hosts};

use crate::inventory::Inventory;
use crate::names::push_text;
use crate::vars::{Variable, put_vars};
use pb_ids::{GroupNo, HostNo};
use pb_value::items::Items;
use pb_value::text::Text;
use pb_value::val::Dict;
use std::alloc::{AllocError, Global};

impl Inventory {
    /// The variables that the file has for the host itself.
    pub fn host_vars(&self, host: HostNo) -> &Dict
        requires { host.0 < length self.now.hosts }
        ensures { result.now ≡ vars_of_host self.now host.0 }
    {
        match self.vars.host_vars.get(self.name(host)) {
            Some(vars) => vars,
            None => &self.vars.no_vars,
        }
    }

    /// The groups that have the host, in the order in which their variables merge: by depth, which
    /// is the length of the longest way from `all`, then by priority, then by name.
    pub fn groups_of_host(&self, alloc: Global, host: HostNo) -> Result<Vec<GroupNo>, AllocError>
        requires { host.0 < length self.now.hosts }
        ensures value { IfOk result (λ order. order.items ≡ groups_of_host self.now host.0) }
        ensures below { IfOk result (λ order. All (λ g. g.0 < length self.now.groups) order.items) }
    {
        let block = &self.vars.blocks[host.0 as usize / 64];
        Ok(self.graph.with_host(alloc, block.as_slice(), host)?)
    }

    /// The variables that a host has from its groups: of each name the value of the last group, in
    /// the order in which they merge, that has it.
    pub fn group_vars(&self, alloc: Global, host: HostNo) -> Result<Dict, AllocError>
        requires { host.0 < length self.now.hosts }
        ensures value { IfOk result (λ vars. vars ≡ vars_from_groups self.now host.0) }
        ensures last { IfOk result (λ vars. (name : List ℕ) → value_at name vars ≡ last_given self.now name (groups_of_host self.now host.0)) }
    {
        self.joined(alloc, host)
    }

    fn joined(&self, alloc: Global, host: HostNo) -> Result<Dict, AllocError>
        requires { host.0 < length self.now.hosts }
        ensures { IfOk result (λ vars. vars ≡ vars_from_groups self.now host.0) }
    {
        let order = self.groups_of_host(alloc, host)?;
        let mut vars = Dict::new(alloc);
        self.put_groups(alloc, order.as_slice(), &mut vars)?;
        Ok(vars)
    }

    fn put_groups(
        &self,
        alloc: Global,
        order: &[GroupNo],
        known: &mut Dict,
    ) -> Result<(), AllocError>
        requires { All (λ g. g.0 < length self.now.groups) order.now }
        ensures { OnOk result (known.new ≡ put_groups self.now order.now known.old) }
    {
        for group in order {
            self.put_group(alloc, *group, known)?;
        }
        Ok(())
    }

    fn put_group(&self, alloc: Global, group: GroupNo, known: &mut Dict) -> Result<(), AllocError>
        requires { group.0 < length self.now.groups }
        ensures { OnOk result (known.new ≡ put_vars (vars_of_group self.now group.0) known.old) }
    {
        put_vars(alloc, self.vars_of_group(group), known)
    }

    /// The variables that the file has for a group itself, in byte order of their names.
    pub fn vars_of_group(&self, group: GroupNo) -> &[Variable]
        requires { group.0 < length self.now.groups }
        ensures { result.now ≡ vars_of_group self.now group.0 }
    {
        match self.vars.group_vars.get(self.group_name(group)) {
            Some(of) => of.vars.as_slice(),
            None => &[],
        }
    }

    /// The names that have variables in the file and are no hosts, in byte order.
    pub fn strangers(&self, alloc: Global) -> Result<Items<Text>, AllocError>
        ensures { IfOk result (λ names. names ≡ strangers self.now) }
    {
        let names = self.vars.host_vars.names(alloc)?;
        self.no_hosts(alloc, names.as_slice())
    }

    fn no_hosts(&self, alloc: Global, names: &[Text]) -> Result<Items<Text>, AllocError>
        ensures { IfOk result (λ v. v ≡ filter (λ name. not (is_host self.now name)) names.now) }
    {
        let mut strangers = Items::new(alloc);
        for name in names {
            if !self.is_host(name.as_str()) {
                strangers.push(name.try_clone()?)?;
            }
        }
        Ok(strangers)
    }

    /// Whether there is a host of this name.
    pub fn is_host(&self, name: &str) -> bool
        ensures { result ≡ is_host self.now name.now }
    {
        match self.number(name) {
            Some(_) => true,
            None => false,
        }
    }

    /// The names of the groups that have the host, all but `all`, in byte order.
    pub fn group_names(&self, alloc: Global, host: HostNo) -> Result<Items<Text>, AllocError>
        requires { host.0 < length self.now.hosts }
        ensures { IfOk result (λ names. names ≡ names_of_groups self.now host.0) }
    {
        let mut names = Items::new(alloc);
        for n in 0..self.groups() {
            self.push_group_name(alloc, &mut names, GroupNo(n), host)?;
        }
        Ok(names)
    }

    fn push_group_name(
        &self,
        alloc: Global,
        names: &mut Items<Text>,
        group: GroupNo,
        host: HostNo,
    ) -> Result<(), AllocError>
        requires group { group.0 < length self.now.groups }
        requires host { host.0 < length self.now.hosts }
        ensures { OnOk result (names.new ≡ names.old ++ (if is_named self.now host.0 group.0 then group_name self.now group.0 ∷ [] else [])) }
    {
        if self.is_named(group, host) {
            push_text(alloc, names, self.group_name(group))?;
        }
        Ok(())
    }

    fn is_named(&self, group: GroupNo, host: HostNo) -> bool
        requires group { group.0 < length self.now.groups }
        requires host { host.0 < length self.now.hosts }
        ensures { result ≡ is_named self.now host.0 group.0 }
    {
        self.graph.has(group, host) && self.group_name(group) != "all"
    }

    /// The names of a group's hosts, in the order of their numbers.
    pub fn host_names(&self, alloc: Global, group: GroupNo) -> Result<Items<Text>, AllocError>
        requires { group.0 < length self.now.groups }
        ensures { IfOk result (λ names. names ≡ names_of_hosts self.now group.0) }
    {
        // (how many hosts there may be is known to the proof once they are counted)
        let _hosts = self.hosts();
        let members = self.members(group);
        let mut names = Items::new(alloc);
        let mut from = 0;
        while let Some(host) = members.next_at(from) {
            push_text(alloc, &mut names, self.name(host))?;
            from = host.0 + 1;
        }
        Ok(names)
    }
}
