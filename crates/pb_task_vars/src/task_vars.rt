//! What tasks see.

ghost use Rattle.std.specs.Prelude.{◌≡◌, ◌<◌, ◌≤◌, ℕ, true, false, codes, length, Option, IfOk};
ghost use Rattle.pb_value.specs.Datum.{Datum};
ghost use Rattle.pb_layers.specs.Scope.{Map};
ghost use Rattle.pb_outcome.specs.declared.gather.ItemResult.{ItemResult};
ghost use Rattle.pb_items.specs.Items.{attempted_item, items_of};
ghost use Rattle.pb_items.specs.Loops.{max_items};
ghost use Rattle.pb_reach.specs.Apart.{SameBut};
ghost use Rattle.pb_reach.specs.Reach.{layers_mention, with_magic};
ghost use Rattle.pb_task_vars.specs.HostVars.{host_vars_of};
ghost use Rattle.pb_task_vars.specs.Results.{start_of};

use crate::host_vars::HostVars;
use crate::with_hostvars::PlanWithHostvars;
use pb_facts::facts::Facts;
use pb_ids::HostNo;
use pb_items::Back;
use pb_items::items::{attempted, items};
use pb_items::start::Start;
use pb_layers::layers::{Layers, Magic};
use pb_outcome::gather::ItemResult;
use pb_outcome::item::Item;
use pb_outcome::result_names::ResultNames;
use pb_places::Place;
use pb_plan::PlanPlay;
use pb_reach::reach::{may_read, may_read_by_itself, may_read_of_result};
use pb_value::items::Items;
use pb_value::val::Val;
use std::alloc::{AllocError, Global};
use std::marker::Model;

/// What a task sees.
#[derive(Drop)]
pub(crate) struct TaskVars<'a> {
    has_facts_program: bool,
    names: &'a ResultNames,
    place: &'a Place,
    layers: Layers<'a>,
    magic: Magic<'a>,
}

impl<'a> Model for TaskVars<'a> {
    ghost use Rattle.std.specs.Coded.{codes};
    ghost use Rattle.pb_value.specs.contracts.val.Val as val;
    ghost use Rattle.pb_value.specs.contracts.val.Dict as dict;
    ghost use Rattle.pb_expr_syntax.specs.contracts.tree.Expr as expr;
    ghost use Rattle.pb_places.specs.contracts.place.Place as the_place;
    ghost use Rattle.pb_items.specs.Items.{StartOf};
    ghost use Rattle.pb_task_vars.specs.Results.{start_with};

    ghost Value = { StartOf };

    ghost coded = { Prim.hlevel (codes, val.the_row.coded, dict.the_row.coded, expr.the_row.coded, the_place.the_row.coded) };

    ghost view = { λ s. start_with s.has_facts_program s.place.now s.layers s.magic };
}

impl<'a> TaskVars<'a> {
    /// What the task at a place sees on a host that has this of its own: beside the variables of the host and its own those of its role and of its blocks, and
    /// what the host has learnt.
    pub(crate) fn of(
        plan: &'a PlanWithHostvars<'a>,
        play: &'a PlanPlay,
        host: HostNo,
        facts: &'a Facts,
        place: &'a Place,
        own: &'a HostVars<'_>,
    ) -> TaskVars<'a>
        requires there { host.0 < length plan.now.inventory.hosts }
        requires own { own.now ≡ host_vars_of plan.now host.0 }
        ensures { result ≡ start_of plan.now play.now host.0 facts.now place.now }
    {
        let inventory = plan.inventory();
        let role = place.role(&own.no_role);
        let block_variables = place.block_vars(&own.none);
        let task = place.task();
        let layers = Layers {
            role_defaults: &role.defaults,
            group_variables: own.groups.variables(),
            host_variables: inventory.host_vars(host),
            host_facts: facts.gathered_layer(),
            play_variables: play.vars(),
            role_variables: &role.vars,
            block_variables,
            task_variables: &task.vars,
            set_facts: facts.set_layer(),
            role_parameters: &role.params,
            extra_variables: plan.extra(),
            plain: "",
        };
        TaskVars {
            has_facts_program: plan.has_facts_program(),
            names: play.names(),
            place,
            layers,
            magic: plan.magic(own.magic(), play.magic()),
        }
    }

    /// What the task's items are read from.
    #[tactic(auto, unfolding(crate::specs::Results::start_with))]
    fn start(&'a self) -> Start<'a>
        ensures { result ≡ self.now }
    {
        Start {
            task: self.place.task(),
            conditions: self.place.conditions(),
            delegate_to: self.place.delegate_to(),
            has_facts_program: self.has_facts_program,
            names: self.names,
            layers: &self.layers,
            magic: &self.magic,
        }
    }

    /// The task's items as it starts.
    pub(crate) fn items(&self, alloc: Global) -> Result<Items<Item>, AllocError>
        ensures value { IfOk result (λ items. items ≡ items_of self.now) }
        ensures few { IfOk result (λ items. length items ≤ max_items) }
    {
        items(alloc, &self.start())
    }

    /// What an attempt at an item comes to whose job came back.
    pub(crate) fn attempted(
        &self,
        alloc: Global,
        value: &Option<Val>,
        attempt: u32,
        item: ItemResult,
    ) -> Result<Back, AllocError>
        ensures { IfOk result (λ back. back ≡ attempted_item self.now value.now attempt item) }
    {
        attempted(alloc, &self.start(), value, attempt, item)
    }

    /// Whether the task's items may look `hostvars` up. Where it is known that it stands in none of the variables these aren't searched.
    pub(crate) fn is_read_at_start(&self, is_free: bool) -> bool
        requires { is_free ≡ true → layers_mention (codes "hostvars") self.now.layers ≡ false }
        ensures { result ≡ false → (one other : Map) → SameBut (codes "hostvars") one other → items_of (with_magic self.now one) ≡ items_of (with_magic self.now other) }
    {
        let task = self.place.task();
        let conditions = self.place.conditions();
        let delegate_to = self.place.delegate_to();
        if is_free {
            return may_read_by_itself("hostvars", task, conditions, delegate_to);
        }
        may_read("hostvars", task, conditions, delegate_to, &self.layers)
    }

    /// Whether the task may look `hostvars` up where it says something of a result.
    pub(crate) fn is_read_of_result(&self) -> bool
        ensures { result ≡ false → (one other : Map) (value : Option Datum) (attempt : ℕ) (item : ItemResult) → SameBut (codes "hostvars") one other →
            attempted_item (with_magic self.now one) value attempt item ≡ attempted_item (with_magic self.now other) value attempt item }
    {
        may_read_of_result("hostvars", self.place.task(), &self.layers)
    }
}
