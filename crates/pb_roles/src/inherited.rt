//! What is handed down to the tasks of a play, by the play, by roles and by blocks.

ghost use Rattle.std.specs.Arc.{arc_value};
ghost use Rattle.std.specs.Prelude.{◌≡◌, ◌++◌, List, [], true, false, Some, None, option_map, unwrap_or, IfOk};
ghost use Rattle.pb_layers.specs.Scope.{or_else};
ghost use Rattle.pb_facts.specs.Facts.{put_all};
ghost use Rattle.pb_places.specs.Within.{placed as stands_in};
ghost use Rattle.pb_play.specs.Couplings.{uncoupled};
ghost use Rattle.pb_places.specs.Place.{delegate_for, no_role};
ghost use Rattle.pb_roles.specs.Building.{inside, inner_couplings, placed, inherited_of};
ghost use Rattle.pb_handlers.specs.Naming.{notified_from};
ghost use Rattle.pb_handlers.specs.declared.naming.HandlerNames.{HandlerNames};
ghost use Rattle.pb_roles.specs.Origins.{listed};

use crate::origin::Origin;
use crate::sections::PlayKeys;
use pb_expr_syntax::tree::Expr;
use pb_facts::put::put_all;
use pb_handlers::Handlers;
use pb_places::conditions::joined;
use pb_places::{Place, SearchedRole, SearchedTask, SearchedVars, Surroundings};
use pb_play::couplings::Couplings;
use pb_play::modules::Module;
use pb_play::node::BlockKeys;
use pb_play::task::Task;
use pb_prepared::prepared::PreparedText;
use pb_value::items::Items;
use pb_value::val::Dict;
use std::alloc::{AllocError, Global};
use std::marker::Model;
use std::sync::Arc;

/// What stands round some nodes: what their role, their blocks and their play hand down to the tasks, the variables of the blocks, and those of the role.
pub(crate) struct Inherited {
    /// None where there is no condition.
    conditions: Option<Arc<Items<Expr>>>,
    ignore_errors: Option<bool>,
    throttle: Option<u32>,
    couplings: Couplings,
    /// None where there is no variable.
    block_vars: Option<Arc<SearchedVars>>,
    /// None outside of roles.
    role: Option<Arc<SearchedRole>>,
}

impl Drop for Inherited {
    fn drop(self) {
        let Inherited {
            conditions,
            ignore_errors: _,
            throttle: _,
            couplings,
            block_vars,
            role,
        } = self;
        drop(conditions);
        drop(couplings);
        drop(block_vars);
        drop(role);
    }
}

impl Model for Inherited {
    ghost use Rattle.std.specs.Coded.{codes};
    ghost use Rattle.pb_value.specs.contracts.val.Val as val;
    ghost use Rattle.pb_expr_syntax.specs.contracts.tree.Expr as expr;
    ghost use Rattle.pb_roles.specs.Building.{InheritedOf};
    ghost use Rattle.std.specs.Prelude.{option_map, unwrap_or};
    ghost use Rattle.std.specs.Arc.{arc_value};
    ghost use Rattle.pb_places.specs.Place.{no_role};
    ghost use Rattle.pb_roles.specs.Origins.{listed};

    ghost Value = { InheritedOf };

    ghost coded = { Prim.hlevel (codes, val.the_row.coded, expr.the_row.coded) };

    ghost view = { λ r. record { keys = record { conditions = listed r.conditions; ignore_errors = r.ignore_errors; throttle = r.throttle; couplings = r.couplings }; block_vars = listed r.block_vars; role = unwrap_or (option_map arc_value r.role) no_role } };
}

impl Inherited {
    /// What stands round all that comes from there, in a play that hands this down.
    pub(crate) fn of(keys: PlayKeys, origin: &Origin) -> Result<Inherited, AllocError>
        ensures { IfOk result (λ inherited. inherited ≡ inherited_of keys origin.now) }
    {
        let conditions = sharing(&origin.conditions)?;
        let role = sharing(&origin.role)?;
        Ok(Inherited {
            conditions,
            ignore_errors: Some(keys.ignore_errors),
            throttle: None,
            couplings: Couplings {
                any_errors_fatal: keys.any_errors_fatal,
                delegate_facts: None,
                delegate_to: None,
                run_once: None,
            },
            block_vars: None,
            role,
        })
    }

    /// What stands round the nodes of a block.
    pub(crate) fn inside(&self, alloc: Global, keys: &BlockKeys) -> Result<Inherited, AllocError>
        ensures { IfOk result (λ inherited. inherited ≡ inside self.now keys.now) }
    {
        let couplings = inner_couplings(alloc, &self.couplings, &keys.couplings)?;
        let conditions = conditions_inside(alloc, &self.conditions, &keys.conditions)?;
        let block_vars = vars_inside(alloc, &self.block_vars, &keys.vars)?;
        let role = sharing(&self.role)?;
        Ok(Inherited {
            conditions,
            ignore_errors: inner(keys.ignore_errors, self.ignore_errors),
            throttle: inner(keys.throttle, self.throttle),
            couplings,
            block_vars,
            role,
        })
    }

    /// What stands at a task's place, in a play with these handlers.
    #[tactic(auto, using(crate::proofs::Notified::none_notified, crate::proofs::Plain::plain_place))]
    pub(crate) fn place(
        &self,
        alloc: Global,
        names: &Handlers,
        is_caught: bool,
        task: Task,
    ) -> Result<Place, AllocError>
        ensures { IfOk result (λ place. place ≡ placed names.now self.now is_caught None task) }
    {
        if self.is_plain(is_caught) && task.notify.is_empty() {
            return Ok(Place::of(task));
        }
        let surroundings = self.surroundings(alloc, names, is_caught, None, &task)?;
        Place::within(alloc, task, surroundings)
    }

    /// What stands at the place of the handler with this number, in a Flush.
    pub(crate) fn handler_place(
        &self,
        alloc: Global,
        names: &Handlers,
        is_caught: bool,
        number: u32,
        task: &Arc<SearchedTask>,
    ) -> Result<Place, AllocError>
        ensures { IfOk result (λ place. place ≡ placed names.now self.now is_caught (Some number) (arc_value task.now)) }
    {
        let surroundings = self.surroundings(
            alloc,
            names,
            is_caught,
            Some(number),
            task.as_ref().task(),
        )?;
        Place::sharing(alloc, task.clone()?, surroundings)
    }

    /// Whether nothing is handed down to a task: then it stands alone, if it notifies nothing.
    fn is_plain(&self, is_caught: bool) -> bool
        ensures conditions { result ≡ true → self.now.keys.conditions ≡ [] }
        ensures vars { result ≡ true → self.now.block_vars ≡ [] }
        ensures role { result ≡ true → self.now.role ≡ no_role }
        ensures caught { result ≡ true → is_caught ≡ false }
        ensures ignores { result ≡ true → unwrap_or self.now.keys.ignore_errors false ≡ false }
        ensures throttle { result ≡ true → unwrap_or self.now.keys.throttle 0 ≡ 0 }
        ensures couplings { result ≡ true → self.now.keys.couplings ≡ uncoupled }
    {
        self.conditions.is_none()
            && self.block_vars.is_none()
            && self.role.is_none()
            && !is_caught
            && !self.ignore_errors.unwrap_or(false)
            && self.throttle.unwrap_or(0) == 0
            && is_uncoupled(&self.couplings)
    }

    /// What a task's place has beside the task.
    fn surroundings(
        &self,
        alloc: Global,
        names: &Handlers,
        is_caught: bool,
        handler: Option<u32>,
        task: &Task,
    ) -> Result<Surroundings, AllocError>
        ensures { IfOk result (λ given. stands_in task.now given ≡ placed names.now self.now is_caught handler task.now) }
    {
        let shared = self.shared(alloc, &task.conditions)?;
        let notifies = notified(alloc, names, task)?;
        let delegate_to = inner_delegate(
            alloc,
            &task.couplings.delegate_to,
            &self.couplings.delegate_to,
        )?;
        Ok(shared.with(self, task, delegate_to, notifies, is_caught, handler))
    }

    /// What the place of a task with these conditions shares.
    fn shared(&self, alloc: Global, own: &Items<Expr>) -> Result<Shared, AllocError>
        ensures conditions { IfOk result (λ s. unwrap_or (option_map arc_value s.conditions) own.now ≡ self.now.keys.conditions ++ own.now) }
        ensures vars { IfOk result (λ s. listed s.block_vars ≡ self.now.block_vars) }
        ensures role { IfOk result (λ s. unwrap_or (option_map arc_value s.role) no_role ≡ self.now.role) }
    {
        let conditions = conditions_at(alloc, &self.conditions, own)?;
        let block_vars = sharing(&self.block_vars)?;
        let role = sharing(&self.role)?;
        Ok(Shared {
            conditions,
            block_vars,
            role,
        })
    }
}

/// What a task's place shares with others: its conditions, where they aren't the task's own, and the variables of its blocks and of its role.
struct Shared {
    conditions: Option<Arc<Items<Expr>>>,
    block_vars: Option<Arc<SearchedVars>>,
    role: Option<Arc<SearchedRole>>,
}

impl Drop for Shared {
    fn drop(self) {
        let Shared {
            conditions,
            block_vars,
            role,
        } = self;
        drop(conditions);
        drop(block_vars);
        drop(role);
    }
}

impl Shared {
    /// What the task's place has beside the task, whose delegate is this, and which notifies these handlers.
    fn with(
        self,
        outer: &Inherited,
        task: &Task,
        delegate_to: Option<PreparedText>,
        notifies: Items<u32>,
        is_caught: bool,
        handler: Option<u32>,
    ) -> Surroundings
        requires conditions { unwrap_or (option_map arc_value self.conditions) task.now.conditions ≡ outer.now.keys.conditions ++ task.now.conditions }
        requires vars { listed self.block_vars ≡ outer.now.block_vars }
        requires role { unwrap_or (option_map arc_value self.role) no_role ≡ outer.now.role }
        requires delegate { delegate_to ≡ or_else task.now.couplings.delegate_to outer.now.keys.couplings.delegate_to }
        ensures { (names : List HandlerNames) → notifies ≡ notified_from task.now.notify 0 names → stands_in task.now result ≡ placed names outer.now is_caught handler task.now }
    {
        let Shared {
            conditions,
            block_vars,
            role,
        } = self;
        let own = &task.couplings;
        let given = &outer.couplings;
        Surroundings {
            conditions,
            block_vars,
            role,
            ignore_errors: inner(task.ignore_errors, outer.ignore_errors).unwrap_or(false),
            any_errors_fatal: inner(own.any_errors_fatal, given.any_errors_fatal).unwrap_or(false),
            throttle: inner(task.throttle, outer.throttle).unwrap_or(0),
            run_once: inner(own.run_once, given.run_once).unwrap_or(false),
            delegate_to: delegate_for(&task.module, delegate_to),
            delegate_facts: inner(own.delegate_facts, given.delegate_facts).unwrap_or(false),
            is_caught,
            notifies,
            handler,
        }
    }
}

/// The numbers of the handlers that a task notifies.
#[tactic(auto, using(crate::proofs::Notified::none_notified))]
fn notified(alloc: Global, names: &Handlers, task: &Task) -> Result<Items<u32>, AllocError>
    ensures { IfOk result (λ numbers. numbers ≡ notified_from task.now.notify 0 names.now) }
{
    if task.notify.is_empty() {
        return Ok(Items::new(alloc));
    }
    let numbers = names.notified(alloc, task.notify.as_slice())?;
    Ok(Items::from_vec(numbers))
}

/// Of a key, the inner value counts, where it is written.
fn inner<T: Copy + Drop>(own: Option<T>, outer: Option<T>) -> Option<T>
    ensures { result ≡ or_else own outer }
{
    match own {
        Some(own) => Some(own),
        None => outer,
    }
}

/// Whether nothing is said of how hosts are coupled.
fn is_uncoupled(couplings: &Couplings) -> bool
    ensures { result ≡ true → couplings.now ≡ uncoupled }
{
    couplings.any_errors_fatal.is_none()
        && couplings.delegate_facts.is_none()
        && couplings.delegate_to.is_none()
        && couplings.run_once.is_none()
}

/// The template of the inner delegate, where one is written, or else of the outer one.
fn inner_delegate(
    alloc: Global,
    own: &Option<PreparedText>,
    outer: &Option<PreparedText>,
) -> Result<Option<PreparedText>, AllocError>
    ensures { IfOk result (λ to. to ≡ or_else own.now outer.now) }
{
    match (own, outer) {
        (Some(own), _) => Ok(Some(own.try_clone(alloc)?)),
        (None, Some(outer)) => Ok(Some(outer.try_clone(alloc)?)),
        (None, None) => Ok(None),
    }
}

/// How hosts are coupled in what says this, within what says that.
fn inner_couplings(
    alloc: Global,
    outer: &Couplings,
    own: &Couplings,
) -> Result<Couplings, AllocError>
    ensures { IfOk result (λ couplings. couplings ≡ inner_couplings outer.now own.now) }
{
    let delegate_to = inner_delegate(alloc, &own.delegate_to, &outer.delegate_to)?;
    Ok(Couplings {
        any_errors_fatal: inner(own.any_errors_fatal, outer.any_errors_fatal),
        delegate_facts: inner(own.delegate_facts, outer.delegate_facts),
        delegate_to,
        run_once: inner(own.run_once, outer.run_once),
    })
}

/// The template of the delegate of a task with this module: a task of `meta` runs on no host in place of another.
fn delegate_for(called: &Module, to: Option<PreparedText>) -> Option<PreparedText>
    ensures { result ≡ delegate_for called.now to }
{
    if called.is_meta() {
        drop(to);
        None
    } else {
        to
    }
}

/// Another owner of what is listed.
fn sharing<T: Drop>(given: &Option<Arc<T>>) -> Result<Option<Arc<T>>, AllocError>
    ensures { IfOk result (λ other. option_map arc_value other ≡ option_map arc_value given.now) }
{
    match given {
        Some(given) => Ok(Some(given.clone()?)),
        None => Ok(None),
    }
}

/// The conditions in a block: the outer ones, and its own behind them.
fn conditions_inside(
    alloc: Global,
    outer: &Option<Arc<Items<Expr>>>,
    own: &Items<Expr>,
) -> Result<Option<Arc<Items<Expr>>>, AllocError>
    ensures { IfOk result (λ all. listed all ≡ listed outer.now ++ own.now) }
{
    if own.is_empty() {
        return sharing(outer);
    }
    let all = joined(alloc, conditions_of(outer), own.as_slice())?;
    Ok(Some(Arc::new(alloc, all)?))
}

/// The conditions that are handed down.
fn conditions_of(given: &Option<Arc<Items<Expr>>>) -> &[Expr]
    ensures { result.now ≡ listed given.now }
{
    match given {
        Some(given) => given.as_ref().as_slice(),
        None => &[],
    }
}

/// The conditions at a task's place, unless they are the task's own.
fn conditions_at(
    alloc: Global,
    outer: &Option<Arc<Items<Expr>>>,
    own: &Items<Expr>,
) -> Result<Option<Arc<Items<Expr>>>, AllocError>
    ensures { IfOk result (λ all. unwrap_or (option_map arc_value all) own.now ≡ listed outer.now ++ own.now) }
{
    match outer {
        Some(outer) => Ok(Some(behind(alloc, outer, own)?)),
        None => Ok(None),
    }
}

/// A task's conditions behind those that are handed down to it; all tasks without conditions share these.
fn behind(
    alloc: Global,
    outer: &Arc<Items<Expr>>,
    own: &Items<Expr>,
) -> Result<Arc<Items<Expr>>, AllocError>
    ensures { IfOk result (λ all. arc_value all ≡ arc_value outer.now ++ own.now) }
{
    if own.is_empty() {
        return Ok(outer.clone()?);
    }
    let all = joined(alloc, outer.as_ref().as_slice(), own.as_slice())?;
    Ok(Arc::new(alloc, all)?)
}

/// The variables of a block over those of the blocks round it; a block without variables shares these.
fn vars_inside(
    alloc: Global,
    outer: &Option<Arc<SearchedVars>>,
    own: &Dict,
) -> Result<Option<Arc<SearchedVars>>, AllocError>
    ensures { IfOk result (λ vars. listed vars ≡ put_all own.now (listed outer.now)) }
{
    if own.is_empty() {
        return sharing(outer);
    }
    let mut known = copied(alloc, outer)?;
    put_all(alloc, &mut known, own)?;
    Ok(Some(Arc::new(alloc, SearchedVars::new(known))?))
}

/// A copy of the variables of the blocks round a block.
fn copied(alloc: Global, outer: &Option<Arc<SearchedVars>>) -> Result<Dict, AllocError>
    ensures { IfOk result (λ known. known ≡ listed outer.now) }
{
    match outer {
        Some(outer) => outer.as_ref().vars().try_clone(alloc),
        None => Ok(Dict::new(alloc)),
    }
}
