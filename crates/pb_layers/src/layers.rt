ghost use Rattle.std.specs.Prelude.{◌≡◌, option_copied};
ghost use Rattle.pb_value.specs.Datum.{value_at};

use crate::host::{HostMagic, value_of_host};
use crate::lent::Merged;
use pb_value::val::{Dict, Val};
use std::marker::Model;

/// The layers of variables that a task sees on a host, least first: where two have a name, the
/// later one gives its value whole (Ansible's "Using variables", "Variable precedence").
#[derive(Drop)]
pub struct Layers<'a> {
    /// Layer 1: defaults of the role that the task comes from.
    pub role_defaults: &'a Dict,
    /// Layer 2: variables of the host's groups in the inventory, merged.
    pub group_variables: Merged<'a>,
    /// Layer 3: variables of the host in the inventory.
    pub host_variables: &'a Dict,
    /// Layer 4: what was gathered from the host. Its texts are no templates.
    pub host_facts: &'a Dict,
    /// Layer 5: variables of the play.
    pub play_variables: &'a Dict,
    /// Layer 6: variables of the role that the task comes from.
    pub role_variables: &'a Dict,
    /// Layer 7: variables of the blocks that the task stands in, those of an inner over an outer one.
    pub block_variables: &'a Dict,
    /// Layer 8: variables of the task.
    pub task_variables: &'a Dict,
    /// Layer 9: what `set_fact` set and what was registered. Its texts are no templates.
    pub set_facts: &'a Dict,
    /// Layer 10: parameters of the role that the task comes from.
    pub role_parameters: &'a Dict,
    /// Layer 11: extra variables of the command line.
    pub extra_variables: &'a Dict,
    /// A name that is marked, since its value in these layers has no expression in its texts; empty where none is.
    pub plain: &'a str,
}

impl<'a> Model for Layers<'a> {
    ghost use Rattle.std.specs.Prelude.{List};
    ghost use Rattle.std.specs.Coded.{codes};
    ghost use Rattle.pb_value.specs.contracts.val.Dict as dict;
    ghost use Rattle.pb_layers.specs.Scope as scope;
    ghost use Rattle.pb_layers.specs.Merged.{merged};

    ghost Value = { List scope.Map };

    ghost coded = { Prim.hlevel (codes, dict.the_row.coded) };

    ghost view = { λ l. scope.layers l.role_defaults.now (merged l.group_variables) l.host_variables.now l.host_facts.now
        l.play_variables.now l.role_variables.now l.block_variables.now l.task_variables.now l.set_facts.now
        l.role_parameters.now l.extra_variables.now };

    ghost use Rattle.std.specs.Prelude.{◌≡◌, true};
    ghost use Rattle.pb_layers.specs.Marked as marked;

    ghost invariant = { λ l. marked.is_mark (scope.layers l.role_defaults.now (merged l.group_variables) l.host_variables.now l.host_facts.now
        l.play_variables.now l.role_variables.now l.block_variables.now l.task_variables.now l.set_facts.now
        l.role_parameters.now l.extra_variables.now) l.plain.now ≡ true };
}

/// The magic variables, which the engine gives itself: where two have a name, the earlier one
/// gives its value (Ansible's "Special variables").
#[derive(Drop)]
pub struct Magic<'a> {
    /// Those of the host, where there is one.
    pub host: Option<HostMagic<'a>>,
    /// Those that all hosts of the play share.
    pub play: &'a Dict,
    /// Those that all plays share.
    pub plan: &'a Dict,
    /// What tells of the variables of all hosts.
    pub hosts: &'a Dict,
}

impl<'a> Model for Magic<'a> {
    ghost use Rattle.std.specs.Prelude.{◌++◌};
    ghost use Rattle.std.specs.Coded.{codes};
    ghost use Rattle.pb_value.specs.contracts.val.Dict as dict;
    ghost use Rattle.pb_layers.specs.Scope as scope;
    ghost use Rattle.pb_layers.specs.Host.{host_map};

    ghost Value = { scope.Map };

    ghost coded = { Prim.hlevel (codes, dict.the_row.coded) };

    ghost view = { λ m. host_map m.host ++ m.play.now ++ (m.plan.now ++ m.hosts.now) };
}

impl<'a> Magic<'a> {
    /// The value of a name, from the first that has it.
    #[tactic(auto, using(crate::proofs::Joined::value_in_four))]
    pub fn get(&self, name: &str) -> Option<&'a Val>
        ensures { option_copied result ≡ value_at name.now self.now }
    {
        if let Some(value) = value_of_host(self.host, name) {
            return Some(value);
        }
        if let Some(value) = self.play.get(name) {
            return Some(value);
        }
        match self.plan.get(name) {
            Some(value) => Some(value),
            None => self.hosts.get(name),
        }
    }
}
