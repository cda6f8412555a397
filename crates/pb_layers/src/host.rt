//! The magic variables that a host has by itself.
ghost use Rattle.std.specs.Prelude.{◌≡◌};
ghost use Rattle.std.specs.Option.{option_copied};
ghost use Rattle.pb_value.specs.Datum.{value_at};
ghost use Rattle.pb_layers.specs.Host.{host_map};

use pb_value::val::Val;

/// The magic variables that a host has by itself, lent from where their values stand, so that no map is made for them (Ansible's "Special variables").
#[derive(Clone, Copy)]
pub struct HostMagic<'a> {
    /// The list of the names of its groups, all but `all`, in byte order.
    pub group_names: &'a Val,
    /// Its name.
    pub inventory_hostname: &'a Val,
}

/// The value of a name among those of a host, where there is one.
#[tactic(auto, using(crate::proofs::Hosts::here, crate::proofs::Hosts::further))]
pub(crate) fn value_of_host<'a>(host: Option<HostMagic<'a>>, name: &str) -> Option<&'a Val>
    ensures { option_copied result ≡ value_at name.now (host_map host.entry) }
{
    match host {
        Some(host) => {
            if name == "group_names" {
                Some(host.group_names)
            } else if name == "inventory_hostname" {
                Some(host.inventory_hostname)
            } else {
                None
            }
        }
        None => None,
    }
}
