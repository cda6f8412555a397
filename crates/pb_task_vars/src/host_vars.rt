//! What a host has of its own beside what it learns.

ghost use Rattle.std.specs.Prelude.{◌≡◌, ◌<◌, Some, length, IfOk};
ghost use Rattle.pb_layers.specs.Host.{host_map};
ghost use Rattle.pb_variables.specs.Magic.{magic_with};
ghost use Rattle.pb_task_vars.specs.HostVars.{host_vars_of};

use crate::with_hostvars::PlanWithHostvars;
use pb_ids::HostNo;
use pb_layers::host::HostMagic;
use pb_places::Role;
use pb_value::text::Text;
use pb_value::val::{Dict, Val};
use pb_variables::host_groups::HostGroups;
use pb_variables::magic::host_magic;
use std::alloc::{AllocError, Global};

/// What a host has of its own, and what stands for a role and for variables where there are none.
#[derive(Drop)]
pub struct HostVars<'a> {
    /// What it has from its groups, which the plan has made for all hosts of these, or lends.
    pub groups: HostGroups<'a>,
    /// Its name.
    pub name: Val,
    pub no_role: Role,
    pub none: Dict,
}

impl<'a> HostVars<'a> {
    pub fn of(
        alloc: Global,
        plan: &PlanWithHostvars<'a>,
        host: HostNo,
    ) -> Result<HostVars<'a>, AllocError>
        requires { host.0 < length plan.now.inventory.hosts }
        ensures { IfOk result (λ own. own ≡ host_vars_of plan.now host.0) }
    {
        let groups = plan.of_groups(alloc, host)?;
        let name = Text::from_str(alloc, plan.inventory().name(host))?;
        Ok(HostVars {
            groups,
            name: Val::text(name),
            no_role: Role::none(alloc),
            none: Dict::new(alloc),
        })
    }

    /// The magic variables that it has by itself.
    pub fn magic(&self) -> HostMagic<'_>
        ensures { host_map (Some result) ≡ magic_with self.now.groups.names self.now.name }
    {
        host_magic(self.groups.names(), &self.name)
    }
}
