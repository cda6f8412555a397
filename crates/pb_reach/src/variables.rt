//! Names among variables.
ghost use Rattle.std.specs.Prelude.{◌≡◌, ◌≤◌, length, drop};
ghost use Rattle.pb_layers.specs.Found.{maps_in};
ghost use Rattle.pb_layers.specs.Merged.{merged};
ghost use Rattle.pb_reach.specs.Reached.{leads_on, each_leads, layers_lead};

use pb_layers::layers::Layers;
use pb_layers::lent::Merged;
use pb_mentions::values::mentions;
use pb_value::val::Dict;

/// Whether a name stands in a map for a value in whose texts an expression begins.
fn leads_on(name: &str, map: &Dict) -> bool
    ensures { result ≡ leads_on name.now map.now }
{
    match map.get(name) {
        Some(value) => mentions("{{", value),
        None => false,
    }
}

/// The same of the variables of a host's groups.
fn merged_lead(name: &str, variables: Merged) -> bool
    ensures { result ≡ leads_on name.now (merged variables.entry) }
{
    match variables.get(name) {
        Some(found) => mentions("{{", found),
        None => false,
    }
}

/// Whether it does in one of some maps.
fn some_lead(maps: &[&Dict], name: &str) -> bool
    requires { length maps.now ≤ 7 }
    ensures { result ≡ each_leads (maps_in maps.now) name.now }
{
    match maps {
        [] => false,
        [map, below @ ..] => leads_on(name, *map) || some_lead(below, name),
    }
}

/// Whether it does in one of the lowest two layers.
fn lowest_lead(layers: &Layers, name: &str) -> bool
    ensures { result ≡ each_leads (drop 9 layers.now) name.now }
{
    merged_lead(name, layers.group_variables) || leads_on(name, layers.role_defaults)
}

/// Whether it does in a layer whose texts are templates: in one of all but the facts of the host, and what was set or registered.
pub(crate) fn layers_lead(layers: &Layers, name: &str) -> bool
    ensures { result ≡ layers_lead layers.now name.now }
{
    let maps = [
        layers.extra_variables,
        layers.role_parameters,
        layers.task_variables,
        layers.block_variables,
        layers.role_variables,
        layers.play_variables,
        layers.host_variables,
    ];
    some_lead(&maps, name) || lowest_lead(layers, name)
}
