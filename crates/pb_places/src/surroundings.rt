//! What a place has beside its task.

ghost use Rattle.std.specs.Prelude.{◌≡◌};
ghost use Rattle.pb_places.specs.Place.{no_role};

use crate::searched::{SearchedRole, SearchedVars};
use pb_expr_syntax::tree::Expr;
use pb_play::PreparedText;
use pb_value::items::Items;
use pb_value::val::Dict;
use std::alloc::Global;
use std::sync::Arc;

/// The variables of the role that a task comes from, as they are written (Ansible's documentation, "Roles").
pub struct Role {
    /// Its defaults: layer 1 of those that a task sees (`pb_layers`).
    pub defaults: Dict,
    /// Its own variables: layer 6.
    pub vars: Dict,
    /// The parameters that it was given: layer 10.
    pub params: Dict,
}

impl Drop for Role {
    fn drop(self) {
        let Role {
            defaults,
            vars,
            params,
        } = self;
        drop(defaults);
        drop(vars);
        drop(params);
    }
}

impl Role {
    /// A role without variables, which takes no memory: that of a task that comes from no role.
    pub fn none(alloc: Global) -> Role
        ensures { result ≡ no_role }
    {
        Role {
            defaults: Dict::new(alloc),
            vars: Dict::new(alloc),
            params: Dict::new(alloc),
        }
    }
}

/// What a place has beside its task: from the task's own keys, the blocks round it, its role and its play
/// (Ansible's documentation, "Playbook keywords").
pub struct Surroundings {
    /// The conditions that have to hold for it to run: those of the role, of the outer blocks, of the inner blocks, and the task's own. None where
    /// the task's own are all; where it has none itself, all such places of a block share them.
    pub conditions: Option<Arc<Items<Expr>>>,
    /// The variables of the blocks, the inner over the outer, which all places of the innermost block share.
    pub block_vars: Option<Arc<SearchedVars>>,
    /// The variables of its role, which all places of the role share.
    pub role: Option<Arc<SearchedRole>>,
    pub ignore_errors: bool,
    pub any_errors_fatal: bool,
    /// How many hosts may run the task at once; 0 is any number.
    pub throttle: u32,
    pub run_once: bool,
    /// The template of the name of the host that runs it in place of the host itself.
    pub delegate_to: Option<PreparedText>,
    pub delegate_facts: bool,
    /// Whether a block round the place has it in its body and has a rescue.
    pub is_caught: bool,
    /// The numbers of the play's handlers that the task notifies, by name or by topic, in order.
    pub notifies: Items<u32>,
    /// In a Flush, the number of the handler whose place it is.
    pub handler: Option<u32>,
}

impl Drop for Surroundings {
    fn drop(self) {
        let Surroundings {
            conditions,
            block_vars,
            role,
            ignore_errors: _,
            any_errors_fatal: _,
            throttle: _,
            run_once: _,
            delegate_to,
            delegate_facts: _,
            is_caught: _,
            notifies,
            handler: _,
        } = self;
        drop(conditions);
        drop(block_vars);
        drop(role);
        drop(delegate_to);
        drop(notifies);
    }
}
