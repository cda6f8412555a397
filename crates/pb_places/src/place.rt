//! What stands at a place of a play's tree.

ghost use Rattle.std.specs.Prelude.{◌≡◌, [], true, IfOk, option_copied};
ghost use Rattle.pb_mentions.specs.Hostvars.{IsFree};
ghost use Rattle.pb_places.specs.Hostvars.{IsFreeRole, IsFreePlace};
ghost use Rattle.pb_places.specs.Place.{place_of, no_role, delegate_for};
ghost use Rattle.std.specs.Arc.{arc_value};
ghost use Rattle.pb_places.specs.Held.{task_held};
ghost use Rattle.pb_places.specs.Within.{placed};

use crate::held::Held;
use crate::searched::SearchedTask;
use crate::surroundings::{Role, Surroundings};
use pb_expr_syntax::tree::Expr;
use pb_mentions::is_free_of_hostvars;
use pb_play::PreparedText;
use pb_play::task::Task;
use pb_value::val::Dict;
use std::alloc::{AllocError, Global};
use std::marker::Model;
use std::sync::Arc;

/// What stands at a place: a task, with all that it has from its own keys, the blocks round it, its role and its play.
pub struct Place {
    task: Held,
    /// None where the task stands alone.
    surroundings: Option<Box<Surroundings>>,
}

impl Drop for Place {
    fn drop(self) {
        let Place { task, surroundings } = self;
        drop(task);
        drop(surroundings);
    }
}

impl Model for Place {
    ghost use Rattle.std.specs.Coded.{codes};
    ghost use Rattle.pb_value.specs.contracts.val.Val as val;
    ghost use Rattle.pb_expr_syntax.specs.contracts.tree.Expr as expr;
    ghost use Rattle.pb_places.specs.Place.{PlaceOf};
    ghost use Rattle.pb_places.specs.Within.{placed_in};
    ghost use Rattle.pb_places.specs.Held.{task_held};

    ghost Value = { PlaceOf };

    ghost coded = { Prim.hlevel (codes, val.the_row.coded, expr.the_row.coded) };

    ghost view = { λ p. placed_in (task_held p.task) p.surroundings };
}

impl Place {
    /// The place of a plain task, which has nothing beside the task and its keys. It takes no memory.
    pub fn of(task: Task) -> Place
        ensures { result ≡ place_of task }
    {
        Place {
            task: Held::Own(task),
            surroundings: None,
        }
    }

    /// The place of a task in its surroundings. The only error is want of memory.
    pub fn within(
        alloc: Global,
        task: Task,
        surroundings: Surroundings,
    ) -> Result<Place, AllocError>
        ensures { IfOk result (λ place. place ≡ placed task surroundings) }
    {
        let surroundings = Box::new(alloc, surroundings)?;
        Ok(Place {
            task: Held::Own(task),
            surroundings: Some(surroundings),
        })
    }

    /// The place of a task that several places share, as the places of a handler do, in its surroundings. The only error is want of memory.
    pub fn sharing(
        alloc: Global,
        task: Arc<SearchedTask>,
        surroundings: Surroundings,
    ) -> Result<Place, AllocError>
        ensures { IfOk result (λ place. place ≡ placed (arc_value task) surroundings) }
    {
        let surroundings = Some(Box::new(alloc, surroundings)?);
        Ok(Place {
            task: Held::Shared(task),
            surroundings,
        })
    }

    /// The task.
    pub fn task(&self) -> &Task
        ensures { result.now ≡ self.now.task }
    {
        task_of(&self.task)
    }

    /// The conditions that have to hold for it to run: those of the role, of the outer blocks, of the inner blocks, and the task's own.
    pub fn conditions(&self) -> &[Expr]
        ensures { result.now ≡ self.now.conditions }
    {
        match &self.surroundings {
            Some(given) => match &given.conditions {
                Some(conditions) => conditions.as_ref().as_slice(),
                None => task_of(&self.task).conditions.as_slice(),
            },
            None => task_of(&self.task).conditions.as_slice(),
        }
    }

    /// The variables of the blocks round it, the inner over the outer: layer 7 of those that a task sees (`pb_layers`). Where the place has
    /// none, `none` stands for them, a dict without names.
    pub fn block_vars<'a>(&'a self, none: &'a Dict) -> &'a Dict
        ensures { none.now ≡ [] → result.now ≡ self.now.block_vars }
    {
        match &self.surroundings {
            Some(given) => match &given.block_vars {
                Some(vars) => vars.as_ref().vars(),
                None => none,
            },
            None => none,
        }
    }

    /// The variables of the role that the task comes from: layers 1, 6 and 10. Where it comes from none, `none` stands for it, a role without
    /// variables.
    pub fn role<'a>(&'a self, none: &'a Role) -> &'a Role
        ensures { none.now ≡ no_role → result.now ≡ self.now.role }
    {
        match &self.surroundings {
            Some(given) => match &given.role {
                Some(role) => role.as_ref().role(),
                None => none,
            },
            None => none,
        }
    }

    /// Whether a failure of the task is ignored.
    pub fn ignore_errors(&self) -> bool
        ensures { result ≡ self.now.ignore_errors }
    {
        match &self.surroundings {
            Some(given) => given.ignore_errors,
            None => task_of(&self.task).ignore_errors.unwrap_or(false),
        }
    }

    /// Whether a failure on one host ends the play for all.
    pub fn any_errors_fatal(&self) -> bool
        ensures { result ≡ self.now.any_errors_fatal }
    {
        match &self.surroundings {
            Some(given) => given.any_errors_fatal,
            None => task_of(&self.task)
                .couplings
                .any_errors_fatal
                .unwrap_or(false),
        }
    }

    /// How many hosts may run the task at once; 0 is any number.
    pub fn throttle(&self) -> u32
        ensures { result ≡ self.now.throttle }
    {
        match &self.surroundings {
            Some(given) => given.throttle,
            None => task_of(&self.task).throttle.unwrap_or(0),
        }
    }

    /// Whether the first host of a batch runs the task for all.
    pub fn run_once(&self) -> bool
        ensures { result ≡ self.now.run_once }
    {
        match &self.surroundings {
            Some(given) => given.run_once,
            None => task_of(&self.task).couplings.run_once.unwrap_or(false),
        }
    }

    /// The template of the name of the host that runs the task in place of the host itself.
    pub fn delegate_to(&self) -> Option<&PreparedText>
        ensures { option_copied result ≡ self.now.delegate_to }
    {
        match &self.surroundings {
            Some(given) => given.delegate_to.as_ref(),
            None => delegate_of(task_of(&self.task)),
        }
    }

    /// Whether the facts of a delegated task are those of the host that it is delegated to.
    pub fn delegate_facts(&self) -> bool
        ensures { result ≡ self.now.delegate_facts }
    {
        match &self.surroundings {
            Some(given) => given.delegate_facts,
            None => task_of(&self.task)
                .couplings
                .delegate_facts
                .unwrap_or(false),
        }
    }

    /// Whether a block round the place has it in its body and has a rescue.
    pub fn is_caught(&self) -> bool
        ensures { result ≡ self.now.is_caught }
    {
        match &self.surroundings {
            Some(given) => given.is_caught,
            None => false,
        }
    }

    /// The numbers of the play's handlers that the task notifies, in order.
    pub fn notifies(&self) -> &[u32]
        ensures { result.now ≡ self.now.notifies }
    {
        match &self.surroundings {
            Some(given) => given.notifies.as_slice(),
            None => &[],
        }
    }

    /// In a Flush, the number of the handler whose place it is.
    pub fn handler(&self) -> Option<u32>
        ensures { result ≡ self.now.handler }
    {
        match &self.surroundings {
            Some(given) => given.handler,
            None => None,
        }
    }

    /// Whether `hostvars` stands in none of the variables that the task has here: its own, those of its role, and those of the blocks round it. Its own
    /// are searched where the place shares them with none; what places share was searched when it was made.
    #[tactic(auto, using(crate::proofs::Free::free_place))]
    pub fn is_free_of_hostvars(&self) -> bool
        ensures { result ≡ true → IsFreePlace self.now }
    {
        self.has_free_role() && self.has_free_blocks() && self.has_free_task()
    }

    /// Whether it stands in no variable of the role.
    #[tactic(auto, using(crate::proofs::Free::free_same, crate::proofs::Free::free_none))]
    fn has_free_role(&self) -> bool
        ensures { result ≡ true → IsFreeRole self.now.role }
    {
        match &self.surroundings {
            Some(given) => match &given.role {
                Some(role) => role.as_ref().is_free_of_hostvars(),
                None => true,
            },
            None => true,
        }
    }

    /// Whether it stands in none of the blocks.
    #[tactic(auto, using(crate::proofs::Free::free_empty))]
    fn has_free_blocks(&self) -> bool
        ensures { result ≡ true → IsFree self.now.block_vars }
    {
        match &self.surroundings {
            Some(given) => match &given.block_vars {
                Some(vars) => vars.as_ref().is_free_of_hostvars(),
                None => true,
            },
            None => true,
        }
    }

    /// Whether it stands in none of the task's own.
    #[tactic(auto, using(crate::proofs::Free::free_own))]
    fn has_free_task(&self) -> bool
        ensures { result ≡ true → IsFree self.now.task.vars }
    {
        is_task_free(&self.task)
    }
}

/// The host that a task says runs it in place of the host itself.
fn delegate_of(task: &Task) -> Option<&PreparedText>
    ensures { option_copied result ≡ delegate_for task.now.«module» task.now.couplings.delegate_to }
{
    if task.module.is_meta() {
        None
    } else {
        task.couplings.delegate_to.as_ref()
    }
}

/// The task that a place holds.
fn task_of(held: &Held) -> &Task
    ensures { result.now ≡ task_held held.now }
{
    match held {
        Held::Own(task) => task,
        Held::Shared(task) => task.as_ref().task(),
    }
}

/// Whether `hostvars` stands in no variable of the task that a place holds.
fn is_task_free(held: &Held) -> bool
    ensures { result ≡ true → IsFree (task_held held.now).vars }
{
    match held {
        Held::Own(task) => is_free_of_hostvars(&task.vars),
        Held::Shared(task) => task.as_ref().is_free_of_hostvars(),
    }
}
