//! A plan as tasks see it.

ghost use Rattle.std.specs.Prelude.{◌≡◌, ◌<◌, ◌≤◌, ◌++◌, false, Some, length, IfOk};
ghost use Rattle.pb_layers.specs.Host.{host_map};
ghost use Rattle.pb_plan.specs.Hostvars.{IsFreeHost};
ghost use Rattle.pb_variables.specs.Shared.{from_groups};
ghost use Rattle.pb_task_vars.specs.WithHostvars.{with_hosts};

use pb_ids::HostNo;
use pb_inventory::inventory::Inventory;
use pb_layers::host::HostMagic;
use pb_layers::layers::Magic;
use pb_plan::Plan;
use pb_value::val::Dict;
use pb_variables::host_groups::HostGroups;
use std::alloc::{AllocError, Global};
use std::marker::Model;

/// A plan with magic variables behind its own: `hostvars`, which tells of what hosts have learnt.
#[derive(Drop)]
pub struct PlanWithHostvars<'a> {
    plan: &'a Plan,
    hosts: &'a Dict,
}

impl<'a> Model for PlanWithHostvars<'a> {
    ghost use Rattle.std.specs.Coded.{codes};
    ghost use Rattle.pb_value.specs.contracts.val.Dict as dict;
    ghost use Rattle.pb_plan.specs.contracts.plan.Plan as the_plan;
    ghost use Rattle.pb_plan.specs.Plan.{PlanOf};
    ghost use Rattle.pb_task_vars.specs.WithHostvars.{with_hosts};

    ghost Value = { PlanOf };

    ghost coded = { Prim.hlevel (codes, dict.the_row.coded, the_plan.the_row.coded) };

    ghost view = { λ s. with_hosts s.plan.now s.hosts.now };
}

impl<'a> PlanWithHostvars<'a> {
    /// A plan with these magic variables behind its own.
    pub fn new(plan: &'a Plan, hosts: &'a Dict) -> PlanWithHostvars<'a>
        ensures { result ≡ with_hosts plan.now hosts.now }
    {
        PlanWithHostvars { plan, hosts }
    }

    /// How many hosts there are.
    pub fn host_count(&self) -> u32
        ensures value { result ≡ length self.now.inventory.hosts }
        ensures bound { length self.now.inventory.hosts ≤ 1048576 }
    {
        self.plan.host_count()
    }

    /// Whether there is a program that gathers the facts of hosts.
    pub fn has_facts_program(&self) -> bool
        ensures { result ≡ self.now.has_facts_program }
    {
        self.plan.has_facts_program()
    }

    /// The inventory, with its variables.
    pub fn inventory(&self) -> &'a Inventory
        ensures { result.now ≡ self.now.inventory }
    {
        self.plan.inventory()
    }

    /// What a host has from its groups.
    pub fn of_groups(&self, alloc: Global, host: HostNo) -> Result<HostGroups<'a>, AllocError>
        requires { host.0 < length self.now.inventory.hosts }
        ensures { IfOk result (λ of. of ≡ from_groups self.now.inventory host.0) }
    {
        self.plan.of_groups(alloc, host)
    }

    /// Whether `hostvars` may stand in a text of the variables of a host, of its groups, or of the extra ones.
    pub fn may_read_hosts(&self, host: HostNo) -> bool
        ensures { result ≡ false → IsFreeHost self.now.inventory self.now.extra host.0 }
    {
        self.plan.may_read_hosts(host)
    }

    /// The extra variables, as they are given.
    pub fn extra(&self) -> &'a Dict
        ensures { result.now ≡ self.now.extra }
    {
        self.plan.extra()
    }

    /// The magic variables, behind those of a host and of a play.
    pub fn magic(&self, host: HostMagic<'a>, play: &'a Dict) -> Magic<'a>
        ensures { result ≡ host_map (Some host.entry) ++ play.now ++ self.now.magic }
    {
        Magic {
            host: Some(host),
            play,
            plan: self.plan.magic(),
            hosts: self.hosts,
        }
    }
}
