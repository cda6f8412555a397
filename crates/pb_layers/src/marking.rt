//! Names whose values have no expression in their texts.
ghost use Rattle.std.specs.Prelude.{◌≡◌, true, IsTrue};
ghost use Rattle.pb_layers.specs.Marked.{is_mark, is_marked, IsKnown};

use crate::layers::{Layers, Magic};
use crate::scope::Scope;
use pb_template::plain::is_plain;
use pb_value::val::Dict;
use std::alloc::Global;

/// The name, if the layers have a value for it that has no expression in its texts, or the empty text.
#[tactic(auto, using(crate::proofs::Marks::found_plain))]
fn plain_name<'a>(alloc: Global, layers: &Layers, name: &'a str) -> &'a str
    ensures { is_mark layers.now result.now ≡ true }
{
    let none = Dict::new(alloc);
    let magic = Magic {
        host: None,
        play: &none,
        plan: &none,
        hosts: &none,
    };
    let scope = Scope::new(layers, &magic, &none);
    let Some(found) = scope.find(name) else {
        return "";
    };
    if !is_plain(found.value) {
        return "";
    }
    name
}

/// Whether a name is the one that is marked.
fn is_marked(mark: &str, name: &str) -> bool
    ensures { result ≡ is_marked mark.now name.now }
{
    mark.len() > 0 && mark == name
}

impl<'a> Layers<'a> {
    /// Whether the layers are marked with a name.
    pub(crate) fn is_marked(&self, name: &str) -> bool
        ensures { IsTrue result → IsKnown self.now name.now }
    {
        is_marked(self.plain, name)
    }

    /// The same layers, which are marked with a name if its value has no expression in its texts: the
    /// value is looked through once, and needn't be again where the name is read. It takes no memory.
    pub fn marking(&'a self, alloc: Global, name: &'a str) -> Layers<'a>
        ensures { result ≡ self.now }
    {
        let plain = plain_name(alloc, self, name);
        Layers {
            role_defaults: self.role_defaults,
            group_variables: self.group_variables,
            host_variables: self.host_variables,
            host_facts: self.host_facts,
            play_variables: self.play_variables,
            role_variables: self.role_variables,
            block_variables: self.block_variables,
            task_variables: self.task_variables,
            set_facts: self.set_facts,
            role_parameters: self.role_parameters,
            extra_variables: self.extra_variables,
            plain,
        }
    }
}
