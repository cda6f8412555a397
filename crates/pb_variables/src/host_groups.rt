//! What a host has from its groups.
ghost use Rattle.std.specs.Prelude.{◌≡◌, ◌<◌, length, IfOk, OnOk};
ghost use Rattle.std.specs.List.{All};
ghost use Rattle.pb_inventory.specs.Vars.{vars_from_groups, put_vars, put_groups};
ghost use Rattle.pb_layers.specs.Merged.{merged};
ghost use Rattle.pb_variables.specs.Shared.{from_groups};

use crate::put::texts;
use crate::shared::SharedGroups;
use pb_ids::{GroupNo, HostNo};
use pb_inventory::inventory::Inventory;
use pb_inventory::vars::Variable;
use pb_layers::lent::{Lending, Lent, Merged};
use pb_value::val::Val;
use std::alloc::{AllocError, Global};
use std::marker::Model;

/// What a host has from its groups, which contracts see as `OfGroups`.
pub struct HostGroups<'a> {
    held: Held<'a>,
}

/// What hosts of the same groups share, or variables that are lent from where they stand, and the list of the groups' names.
#[derive(Drop)]
enum Held<'a> {
    Shared(SharedGroups),
    Lent(Lent<'a>, Val),
}

impl<'a> Drop for HostGroups<'a> {
    fn drop(self) {
        let HostGroups { held } = self;
        drop(held);
    }
}

impl<'a> Model for HostGroups<'a> {
    ghost use Rattle.std.specs.Coded.{codes};
    ghost use Rattle.pb_value.specs.contracts.val.Val as val;
    ghost use Rattle.pb_variables.specs.declared.shared.OfGroups.{OfGroups};
    ghost use Rattle.pb_variables.specs.Held.{of_held};

    ghost Value = { OfGroups };

    ghost coded = { Prim.hlevel (codes, val.the_row.coded) };

    ghost view = { λ g. of_held g.held };
}

/// Puts each variable under its name, in place of one that stands there. None is copied.
fn lend_vars<'a>(vars: &'a [Variable], lending: &mut Lending<'a>) -> Result<(), AllocError>
    ensures { OnOk result (lending.new ≡ put_vars vars.now lending.old) }
{
    for variable in vars {
        lending.put(variable.name.as_str(), &variable.value)?;
    }
    Ok(())
}

/// Puts the variables of each group in turn.
fn lend_groups<'a>(
    inventory: &'a Inventory,
    order: &[GroupNo],
    lending: &mut Lending<'a>,
) -> Result<(), AllocError>
    requires { All (λ g. g.0 < length inventory.now.groups) order.now }
    ensures { OnOk result (lending.new ≡ put_groups inventory.now order.now lending.old) }
{
    for group in order {
        lend_vars(inventory.vars_of_group(*group), lending)?;
    }
    Ok(())
}

/// The variables that a host has from its groups, as `Inventory::group_vars` has them, but lent.
fn lent_vars<'a>(
    alloc: Global,
    inventory: &'a Inventory,
    host: HostNo,
) -> Result<Lent<'a>, AllocError>
    requires { host.0 < length inventory.now.hosts }
    ensures { IfOk result (λ vars. vars ≡ vars_from_groups inventory.now host.0) }
{
    let order = inventory.groups_of_host(alloc, host)?;
    let mut lending = Lending::new(alloc);
    lend_groups(inventory, order.as_slice(), &mut lending)?;
    lending.lent(alloc)
}

impl<'a> HostGroups<'a> {
    /// What hosts of the same groups share.
    pub(crate) fn shared(of: SharedGroups) -> HostGroups<'a>
        ensures { result ≡ of }
    {
        HostGroups {
            held: Held::Shared(of),
        }
    }

    /// What a host has from its groups, where the variables are lent from the inventory: whatever stands under their names, it takes the time of these.
    pub fn lent(
        alloc: Global,
        inventory: &'a Inventory,
        host: HostNo,
    ) -> Result<HostGroups<'a>, AllocError>
        requires { host.0 < length inventory.now.hosts }
        ensures { IfOk result (λ of. of ≡ from_groups inventory.now host.0) }
    {
        let variables = lent_vars(alloc, inventory, host)?;
        let listed = inventory.group_names(alloc, host)?;
        let names = texts(alloc, listed)?;
        Ok(HostGroups {
            held: Held::Lent(variables, names),
        })
    }

    /// The variables of the groups, merged.
    pub fn variables(&self) -> Merged<'_>
        ensures { merged result ≡ self.now.variables }
    {
        match &self.held {
            Held::Shared(shared) => Merged::Kept(shared.variables()),
            Held::Lent(variables, _) => Merged::Lent(variables),
        }
    }

    /// The list of the groups' names, all but `all`, in byte order.
    pub fn names(&self) -> &Val
        ensures { result.now ≡ self.now.names }
    {
        match &self.held {
            Held::Shared(shared) => shared.names(),
            Held::Lent(_, names) => names,
        }
    }
}
