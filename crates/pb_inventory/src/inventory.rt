ghost use Rattle.std.specs.Prelude.{◌≡◌, ◌≢◌, [], ◌<◌, ◌≤◌, ◌↔◌, ℕ, IfOk, IfErr, Ok, Err, Some, true, length, position, slice_get};
ghost use Rattle.std.specs.Option.{option_map};
ghost use Rattle.std.specs.Str.{bytes_eq};
ghost use Rattle.pb_planes.specs.Set.{is_in};
ghost use Rattle.pb_groups.specs.Members.{IsMember};
ghost use Rattle.pb_inventory.specs.Graph.{max_groups};
ghost use Rattle.pb_inventory.specs.Reading.{inventory_of, file_in, max_hosts, limited, with_vars};
ghost use Rattle.pb_value.specs.Reading.{and_then};
ghost use Rattle.serde_json.specs.View.{view};
ghost use Rattle.pb_inventory.specs.MemberSets.{members_in};
ghost use Rattle.pb_inventory.specs.Mentioned.{AreGroupsIn};

use crate::blocks::ordered_blocks;
use crate::fault::InvFault;
use crate::graph::Graph;
use crate::listed::FileEntries;
use crate::named::Named;
use crate::reading::read_file;
use crate::vars::GroupVars;
use pb_groups::OwnHost;
use pb_ids::{GroupNo, HostNo};
use pb_planes::HostSet;
use pb_value::items::Items;
use pb_value::read_json::{JsonFault, read_json};
use pb_value::val::Dict;
use serde_json::Value;
use std::alloc::{AllocError, Global};
use std::marker::Model;

/// The hosts and the groups, by their numbers: hosts are numbered by first mention, groups in byte
/// order of their names; and the variables that both have.
#[derive(Drop)]
pub struct Inventory {
    pub(crate) graph: Box<Graph>,
    pub(crate) vars: Box<AllVars>,
}

/// The variables of an inventory.
pub struct AllVars {
    pub group_vars: Named<GroupVars>,
    pub host_vars: Named<Dict>,
    /// Of each 64 hosts the groups that have one of them, in the order in which their variables merge.
    pub blocks: Vec<Items<GroupNo>>,
    /// What is lent for a host without variables.
    pub no_vars: Dict,
}

impl Drop for AllVars {
    fn drop(self) {
        let AllVars {
            group_vars,
            host_vars,
            blocks,
            no_vars,
        } = self;
        drop(group_vars);
        drop(host_vars);
        drop(blocks);
        drop(no_vars);
    }
}

impl AllVars {
    fn of(alloc: Global, file: FileEntries, blocks: Vec<Items<GroupNo>>) -> AllVars
        ensures groups { result.group_vars ≡ file.group_vars }
        ensures hosts { result.host_vars ≡ file.host_vars }
        ensures blocks { result.blocks ≡ blocks }
        ensures no_vars { result.no_vars ≡ [] }
    {
        let (group_vars, host_vars) = file.into_vars();
        AllVars {
            group_vars,
            host_vars,
            blocks,
            no_vars: Dict::new(alloc),
        }
    }
}

impl Model for Inventory {
    ghost use Rattle.std.specs.Prelude.{◌≡◌, []};
    ghost use Rattle.std.specs.Coded.{codes};
    ghost use Rattle.pb_value.specs.contracts.val.Val as val;
    ghost use Rattle.pb_groups.specs.Merging.{in_order};
    ghost use Rattle.pb_inventory.specs.ByBlock.{AreBlocks};
    ghost use Rattle.pb_inventory.specs.GraphOf.{numbered};
    ghost use Rattle.pb_inventory.specs.InventoryOf.{InventoryOf};
    ghost use Rattle.pb_inventory.specs.Vars.{priorities_in};

    ghost Value = { InventoryOf };

    ghost coded = { Prim.hlevel (codes, val.the_row.coded) };

    ghost view = { λ i. record { hosts = i.graph.value.hosts; groups = i.graph.value.groups; own = i.graph.value.own; links = i.graph.value.links; group_vars = i.vars.value.group_vars; host_vars = i.vars.value.host_vars } };

    ghost invariant = { λ i. AreBlocks (numbered i.graph.value) (in_order (numbered i.graph.value) (priorities_in i.vars.value.group_vars i.graph.value.groups)) i.vars.value.blocks.items
        × (i.vars.value.no_vars ≡ []) };
}

impl Inventory {
    /// The inventory that the bytes of a file spell, or the first fault in them. The file is a
    /// JSON object whose keys are groups: lists of hosts, or objects with `hosts`, `vars` and
    /// `children`. The key `_meta` is no group: its `hostvars` has the variables of hosts. There
    /// are at most 1,048,576 hosts and 4,096 groups.
    #[tactic(auto, using(crate::proofs::Mentioned::groups_exactly))]
    pub fn read(alloc: Global, bytes: &[u8]) -> Result<Inventory, InvFault>
        ensures value { IfOk result (λ inventory. inventory_of bytes.now ≡ Ok inventory) }
        ensures fault { IfErr result (λ e. e ≢ InvFault.Memory → inventory_of bytes.now ≡ Err e) }
        ensures groups { IfOk result (λ inventory. AreGroupsIn bytes.now inventory.groups) }
    {
        Inventory::spelt(alloc, bytes)
    }

    fn spelt(alloc: Global, bytes: &[u8]) -> Result<Inventory, InvFault>
        ensures value { IfOk result (λ inventory. inventory_of bytes.now ≡ Ok inventory) }
        ensures fault { IfErr result (λ e. e ≢ InvFault.Memory → inventory_of bytes.now ≡ Err e) }
    {
        match read_json(alloc, bytes) {
            Ok(json) => Inventory::told(alloc, &json),
            Err(JsonFault::NotJson) => Err(InvFault::NotJson),
            Err(JsonFault::Memory) => Err(InvFault::Memory),
        }
    }

    fn told(alloc: Global, json: &Value) -> Result<Inventory, InvFault>
        ensures value { IfOk result (λ inventory. and_then (file_in (view json.now)) limited ≡ Ok inventory) }
        ensures fault { IfErr result (λ e. e ≢ InvFault.Memory → and_then (file_in (view json.now)) limited ≡ Err e) }
    {
        match read_file(alloc, json) {
            Ok(file) => Inventory::of(alloc, file),
            Err(fault) => Err(fault),
        }
    }

    fn of(alloc: Global, file: FileEntries) -> Result<Inventory, InvFault>
        ensures value { IfOk result (λ inventory. limited file ≡ Ok inventory) }
        ensures fault { IfErr result (λ e. e ≢ InvFault.Memory → limited file ≡ Err e) }
    {
        let graph = Graph::of(alloc, file.groups.as_slice())?;
        Ok(Inventory::with_vars(alloc, graph, file)?)
    }

    fn with_vars(alloc: Global, graph: Graph, file: FileEntries) -> Result<Inventory, AllocError>
        ensures { IfOk result (λ inventory. inventory ≡ with_vars graph file.group_vars file.host_vars) }
    {
        let blocks = ordered_blocks(alloc, &graph, &file.group_vars)?;
        let vars = AllVars::of(alloc, file, blocks);
        Ok(Inventory {
            graph: Box::new(alloc, graph)?,
            vars: Box::new(alloc, vars)?,
        })
    }

    /// The number of hosts.
    pub fn hosts(&self) -> u32
        ensures count { result ≡ length self.now.hosts }
        ensures limit { length self.now.hosts ≤ max_hosts }
    {
        self.graph.hosts()
    }

    /// The name of a host.
    pub fn name(&self, host: HostNo) -> &str
        requires { host.0 < length self.now.hosts }
        ensures { slice_get self.now.hosts host.0 ≡ Some result.now }
    {
        self.graph.name(host)
    }

    /// The host of a name.
    pub fn number(&self, name: &str) -> Option<HostNo>
        ensures { option_map (λ h. h.0) result ≡ position (bytes_eq name.now) self.now.hosts }
    {
        self.graph.number(name)
    }

    /// The number of groups.
    pub fn groups(&self) -> u32
        ensures count { result ≡ length self.now.groups }
        ensures limit { length self.now.groups ≤ max_groups }
    {
        self.graph.groups()
    }

    /// The name of a group.
    pub fn group_name(&self, group: GroupNo) -> &str
        requires { group.0 < length self.now.groups }
        ensures { slice_get self.now.groups group.0 ≡ Some result.now }
    {
        self.graph.group_name(group)
    }

    /// The group of a name.
    pub fn group(&self, name: &str) -> Option<GroupNo>
        ensures { option_map (λ g. g.0) result ≡ position (bytes_eq name.now) self.now.groups }
    {
        self.graph.group(name)
    }

    /// The own hosts of all groups, those of one group in the order of its list.
    pub fn own(&self) -> &[OwnHost]
        ensures { result.now ≡ self.now.own }
    {
        self.graph.own()
    }

    /// The hosts that belong to a group.
    pub fn members(&self, group: GroupNo) -> &HostSet
        requires { group.0 < length self.now.groups }
        ensures width { length result.now ≡ length self.now.hosts }
        ensures members { (host : ℕ) → (is_in result.now host ≡ true) ↔ IsMember self.now.links self.now.own group.0 host }
        ensures set { result.now ≡ members_in self.now group.0 }
    {
        self.graph.members(group)
    }
}
