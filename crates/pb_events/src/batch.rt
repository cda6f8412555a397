//! The hosts of a batch.

ghost use Rattle.std.specs.Prelude.{◌≡◌, ◌+◌, ◌++◌, ◌∷◌, [], map, true, IfOk};
ghost use Rattle.std.specs.Option.{option_copied, option_map_or};
ghost use Rattle.pb_planes.specs.Set.{is_in};
ghost use Rattle.pb_value.specs.Datum.{text};
ghost use Rattle.pb_events.specs.Batch.{batch_names};

use crate::site::name_of;
use pb_ids::HostNo;
use pb_planes::HostSet;
use pb_state::{EngineState, Plan};
use pb_value::text::Text;
use pb_value::val::{Val, ValList};
use std::alloc::{AllocError, Global};

/// The names of the hosts in the batch, in the order of hosts. Only these are looked at.
pub fn batch_names(alloc: Global, plan: &Plan, state: &EngineState) -> Result<ValList, AllocError>
    ensures { IfOk result (λ names. names ≡ map text (batch_names plan.now.inventory.hosts state.now.rows)) }
{
    let hosts = state.batch_hosts();
    let mut names = ValList::from_vec(Vec::new(alloc));
    let mut from = 0;
    while let Some(host) = hosts.next_at(from) {
        push_name(alloc, &mut names, name_of(plan, host))?;
        from = behind(hosts, host);
    }
    Ok(names)
}

/// The number behind that of a host of a set.
#[tactic(auto, using(crate::proofs::Names::member_below))]
fn behind(set: &HostSet, host: HostNo) -> u32
    requires { is_in set.now host.0 ≡ true }
    ensures { result ≡ host.0 + 1 }
{
    // (a set's width is a host number too)
    let _width = set.width();
    host.0 + 1
}

/// Adds a name, if there is one.
fn push_name(alloc: Global, names: &mut ValList, name: Option<&str>) -> Result<(), AllocError>
    ensures { IfOk result (λ _. names.new ≡ names.old ++ map text (option_map_or (λ n. n ∷ []) (option_copied name.entry) [])) }
{
    match name {
        Some(name) => names.push(Val::text(Text::from_str(alloc, name)?)),
        None => Ok(()),
    }
}
