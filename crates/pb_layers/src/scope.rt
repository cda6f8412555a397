ghost use Rattle.std.specs.Prelude.{◌≡◌, ◌≤◌, true, IsTrue, Some, drop, length, map};
ghost use Rattle.std.specs.Option.{option_copied};
ghost use Rattle.pb_value.specs.Datum.{value_at};
ghost use Rattle.pb_layers.specs.Scope.{scope, with_put, with_seen, found, value_of, layer_of, has_templates};
ghost use Rattle.pb_layers.specs.Found.{found_in, maps_in, seen_in};
ghost use Rattle.pb_layers.specs.Marked.{is_read_as_stored};

use crate::layers::{Layers, Magic};
use pb_value::val::{Dict, Val};
use std::marker::Model;

/// The variables that a task sees on a host: the layers, above them the magic variables and,
/// highest, the loop variable.
#[derive(Drop)]
pub struct Scope<'a> {
    layers: &'a Layers<'a>,
    magic: &'a Magic<'a>,
    loop_variable: &'a Dict,
    /// A value that is seen over what was set or registered, and its name.
    seen: Option<(&'a str, &'a Val)>,
}

impl<'a> Model for Scope<'a> {
    ghost use Rattle.std.specs.Prelude.{List};
    ghost use Rattle.std.specs.Coded.{codes};
    ghost use Rattle.pb_value.specs.contracts.val.Dict as dict;
    ghost use Rattle.std.specs.Prelude.{option_map};
    ghost use Rattle.pb_layers.specs.Scope as scope;

    ghost Value = { List scope.Map };

    ghost coded = { Prim.hlevel (codes, dict.the_row.coded) };

    ghost view = { λ s. scope.scope (scope.with_seen (option_map (λ seen. (seen.0.now, seen.1.now)) s.seen) s.layers.now) s.magic.now s.loop_variable.now };
}

/// A stored value, and the number of the layer that gives it.
#[derive(Drop)]
pub struct Found<'a> {
    pub layer: u8,
    pub value: &'a Val,
}

impl<'a> Scope<'a> {
    /// The layers with the magic variables and the loop variable above them; without a loop the
    /// last map is empty.
    #[tactic(auto, using(crate::proofs::Seen::with_none_seen))]
    pub fn new(layers: &'a Layers<'a>, magic: &'a Magic<'a>, loop_variable: &'a Dict) -> Scope<'a>
        ensures { result ≡ scope layers.now magic.now loop_variable.now }
    {
        Scope {
            layers,
            magic,
            loop_variable,
            seen: None,
        }
    }

    /// The same where a value is seen under a name beside what was set or registered, in layer 9: it takes no memory.
    pub fn seeing(
        layers: &'a Layers<'a>,
        magic: &'a Magic<'a>,
        loop_variable: &'a Dict,
        name: &'a str,
        value: &'a Val,
    ) -> Scope<'a>
        ensures { result ≡ scope (with_seen (Some (name.now, value.now)) layers.now) magic.now loop_variable.now }
    {
        Scope {
            layers,
            magic,
            loop_variable,
            seen: Some((name, value)),
        }
    }

    /// The value of the highest map that has the name, as it is stored, and the number of that map:
    /// 1 to 11 are the layers, 12 are the magic variables, 13 is the loop variable.
    pub fn find(&self, name: &str) -> Option<Found<'a>>
        ensures { found_in result ≡ found name.now self.now }
    {
        let layers = self.layers;
        // (how many layers there are is known to the proof once one of them is taken)
        let extra_variables = layers.extra_variables;
        if let Some(value) = self.loop_variable.get(name) {
            return Some(Found { layer: 13, value });
        }
        if let Some(value) = self.magic.get(name) {
            return Some(Found { layer: 12, value });
        }
        if let Some(value) = extra_variables.get(name) {
            return Some(Found { layer: 11, value });
        }
        if let Some(value) = layers.role_parameters.get(name) {
            return Some(Found { layer: 10, value });
        }
        match set_or_seen(layers.set_facts, self.seen, name) {
            Some(value) => Some(Found { layer: 9, value }),
            None => find_below(layers, name),
        }
    }

    /// The stored value of a name.
    pub fn value(&self, name: &str) -> Option<&'a Val>
        ensures { option_copied result ≡ value_of name.now self.now }
    {
        match self.find(name) {
            Some(found) => Some(found.value),
            None => None,
        }
    }

    /// Whether the layers are marked with a name: its value is then read as it is stored, whichever
    /// layer gives it.
    pub fn knows_plain(&self, name: &str) -> bool
        ensures { IsTrue result → is_read_as_stored (found name.now self.now) ≡ true }
    {
        self.layers.is_marked(name)
    }

    /// The number of the layer that gives the name its value.
    pub fn layer_of(&self, name: &str) -> Option<u8>
        ensures { result ≡ layer_of name.now self.now }
    {
        match self.find(name) {
            Some(found) => Some(found.layer),
            None => None,
        }
    }
}

/// The value of a name in what was set or registered, or the value that is seen over it.
#[tactic(auto, using(crate::proofs::Seen::put_same, crate::proofs::Seen::put_other))]
fn set_or_seen<'a>(
    set_facts: &'a Dict,
    seen: Option<(&'a str, &'a Val)>,
    name: &str,
) -> Option<&'a Val>
    ensures { option_copied result ≡ value_at name.now (with_put (seen_in seen.entry) set_facts.now) }
{
    match seen {
        Some((seen, value)) => {
            if name == seen {
                Some(value)
            } else {
                set_facts.get(name)
            }
        }
        None => set_facts.get(name),
    }
}

/// The value of a name in the layers below what was set or registered, and the number of the layer.
fn find_below<'a>(layers: &'a Layers<'a>, name: &str) -> Option<Found<'a>>
    ensures { found_in result ≡ found name.now (drop 3 layers.now) }
{
    if let Some(value) = layers.task_variables.get(name) {
        return Some(Found { layer: 8, value });
    }
    if let Some(value) = layers.block_variables.get(name) {
        return Some(Found { layer: 7, value });
    }
    if let Some(value) = layers.role_variables.get(name) {
        return Some(Found { layer: 6, value });
    }
    if let Some(value) = layers.play_variables.get(name) {
        return Some(Found { layer: 5, value });
    }
    if let Some(value) = layers.host_facts.get(name) {
        return Some(Found { layer: 4, value });
    }
    if let Some(value) = layers.host_variables.get(name) {
        return Some(Found { layer: 3, value });
    }
    if let Some(value) = layers.group_variables.get(name) {
        return Some(Found { layer: 2, value });
    }
    match layers.role_defaults.get(name) {
        Some(value) => Some(Found { layer: 1, value }),
        None => None,
    }
}

/// Whether texts in the layer of that number are templates, to be rendered when an expression looks
/// a name up: all but the facts of a host (4), what was set or registered (9), the magic variables
/// (12) and the loop variable (13).
pub fn has_templates(layer: u8) -> bool
    ensures { result ≡ has_templates layer }
{
    layer <= 11 && layer != 4 && layer != 9
}
