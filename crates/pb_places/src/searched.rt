//! What several places share, searched once for `hostvars`, when it is made.

ghost use Rattle.std.specs.Prelude.{◌≡◌, true};
ghost use Rattle.pb_mentions.specs.Hostvars.{IsFree};
ghost use Rattle.pb_places.specs.Hostvars.{IsFreeRole};

use crate::surroundings::Role;
use pb_mentions::is_free_of_hostvars;
use pb_play::task::Task;
use pb_value::val::Dict;
use std::marker::Model;

/// Whether `hostvars` stands in no variable of a role.
#[tactic(auto, using(crate::proofs::Free::free_role))]
fn is_free_role(role: &Role) -> bool
    ensures { result ≡ true → IsFreeRole role.now }
{
    is_free_of_hostvars(&role.defaults)
        && is_free_of_hostvars(&role.vars)
        && is_free_of_hostvars(&role.params)
}

/// The variables of blocks, which contracts see as these.
pub struct SearchedVars {
    vars: Dict,
    is_free: bool,
}

impl Drop for SearchedVars {
    fn drop(self) {
        let SearchedVars { vars, is_free: _ } = self;
        drop(vars);
    }
}

impl Model for SearchedVars {
    ghost use Rattle.std.specs.Coded.{codes};
    ghost use Rattle.std.specs.Prelude.{◌≡◌, true};
    ghost use Rattle.pb_value.specs.contracts.val.Val as val;
    ghost use Rattle.pb_layers.specs.Scope.{Map};
    ghost use Rattle.pb_mentions.specs.Hostvars.{IsFree};

    ghost Value = { Map };

    ghost coded = { Prim.hlevel (codes, val.the_row.coded) };

    ghost view = { λ s. s.vars };

    ghost invariant = { λ s. s.is_free ≡ true → IsFree s.vars };
}

impl SearchedVars {
    /// These variables.
    pub fn new(vars: Dict) -> SearchedVars
        ensures { result ≡ vars }
    {
        let is_free = is_free_of_hostvars(&vars);
        SearchedVars { vars, is_free }
    }

    /// The variables.
    pub fn vars(&self) -> &Dict
        ensures { result.now ≡ self.now }
    {
        &self.vars
    }

    /// Whether `hostvars` stands in none of them, as was found when they were searched.
    pub fn is_free_of_hostvars(&self) -> bool
        ensures { result ≡ true → IsFree self.now }
    {
        self.is_free
    }
}

/// The variables of a role, which contracts see as the role.
pub struct SearchedRole {
    role: Role,
    is_free: bool,
}

impl Drop for SearchedRole {
    fn drop(self) {
        let SearchedRole { role, is_free: _ } = self;
        drop(role);
    }
}

impl Model for SearchedRole {
    ghost use Rattle.std.specs.Coded.{codes};
    ghost use Rattle.std.specs.Prelude.{◌≡◌, true};
    ghost use Rattle.pb_value.specs.contracts.val.Val as val;
    ghost use Rattle.pb_places.specs.Hostvars.{IsFreeRole};
    ghost use Rattle.pb_places.specs.declared.surroundings.Role.{Role};

    ghost Value = { Role };

    ghost coded = { Prim.hlevel (codes, val.the_row.coded) };

    ghost view = { λ s. s.role };

    ghost invariant = { λ s. s.is_free ≡ true → IsFreeRole s.role };
}

impl SearchedRole {
    /// This role.
    pub fn new(role: Role) -> SearchedRole
        ensures { result ≡ role }
    {
        let is_free = is_free_role(&role);
        SearchedRole { role, is_free }
    }

    /// The role.
    pub fn role(&self) -> &Role
        ensures { result.now ≡ self.now }
    {
        &self.role
    }

    /// Whether `hostvars` stands in none of its variables, as was found when they were searched.
    pub fn is_free_of_hostvars(&self) -> bool
        ensures { result ≡ true → IsFreeRole self.now }
    {
        self.is_free
    }
}

/// A task that several places share, as those of a handler do, which contracts see as the task.
pub struct SearchedTask {
    task: Task,
    is_free: bool,
}

impl Drop for SearchedTask {
    fn drop(self) {
        let SearchedTask { task, is_free: _ } = self;
        drop(task);
    }
}

impl Model for SearchedTask {
    ghost use Rattle.std.specs.Coded.{codes};
    ghost use Rattle.std.specs.Prelude.{◌≡◌, true};
    ghost use Rattle.pb_value.specs.contracts.val.Val as val;
    ghost use Rattle.pb_expr_syntax.specs.contracts.tree.Expr as expr;
    ghost use Rattle.pb_play.specs.contracts.task.Task as the_task;
    ghost use Rattle.pb_mentions.specs.Hostvars.{IsFree};
    ghost use Rattle.pb_play.specs.declared.task.Task.{Task};

    ghost Value = { Task };

    ghost coded = { Prim.hlevel (codes, val.the_row.coded, expr.the_row.coded, the_task.the_row.coded) };

    ghost view = { λ s. s.task };

    ghost invariant = { λ s. s.is_free ≡ true → IsFree s.task.vars };
}

impl SearchedTask {
    /// This task.
    pub fn new(task: Task) -> SearchedTask
        ensures { result ≡ task }
    {
        let is_free = is_free_of_hostvars(&task.vars);
        SearchedTask { task, is_free }
    }

    /// The task.
    pub fn task(&self) -> &Task
        ensures { result.now ≡ self.now }
    {
        &self.task
    }

    /// Whether `hostvars` stands in none of its own variables, as was found when they were searched.
    pub fn is_free_of_hostvars(&self) -> bool
        ensures { result ≡ true → IsFree self.now.vars }
    {
        self.is_free
    }
}
