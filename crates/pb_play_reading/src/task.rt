ghost use Rattle.std.specs.Prelude.{◌≡◌, true, false, Ok, IfOk, unwrap_or};
ghost use Rattle.serde_json.specs.Data as json;
ghost use Rattle.serde_json.specs.View.{view, members_view};
ghost use Rattle.pb_reading.specs.Ahead.{ahead, Takes};
ghost use Rattle.pb_reading.specs.Fields.{value_of};
ghost use Rattle.pb_reading.specs.Reading.{Gives};
ghost use Rattle.pb_play_reading.specs.Tasks.{one_more, tells_of_task, the_module, first_keys, failing, task_of_head, said_beside, begun_task, head, looping, middle, module_at, last_of_task, rest_of_task, task};
ghost use Rattle.pb_play.specs.Modules.{module_name};

use crate::couplings::{Delegation, Runs, coupled, read_delegation};
use crate::loops::{Control, Over, looped};
use crate::modules::ModuleKey;
use crate::no_effect::check_without_effect;
use crate::retrying::{Delay, Tries, read_tries, retrying_of};
use crate::short::Short;
use pb_expr_syntax::tree::Expr;
use pb_play::loops::Loop;
use pb_play::modules::Module;
use pb_play::task::Task;
use pb_reading::keys::{Keys, Others};
use pb_reading::list::EachNamed;
use pb_reading::simple::PlainText;
use pb_reading::stop::Stop;
use pb_value::items::Items;
use pb_value::text::Text;
use pb_value::val::Dict;
use pb_written::conditions::Conditions;
use pb_written::fault::LoadFault;
use pb_written::simple::{Switch, VariableName};
use pb_written::texts::Texts;
use pb_written::values::TemplateValue;
use serde_json::{Map, Value};
use std::alloc::{AllocError, Global};
use std::mem;

/// The modules that a task names.
pub(crate) enum Modules {
    Nothing,
    One(Module),
    Several,
}

// (by hand, as below: it is then dropped by one call, and not part by part at each exit)
impl Drop for Modules {
    fn drop(self) {
        match self {
            Modules::Nothing | Modules::Several => {}
            Modules::One(module) => drop(module),
        }
    }
}

impl Modules {
    fn and(self, module: Module) -> Modules
        ensures { result ≡ one_more self «module» }
    {
        match self {
            Modules::Nothing => Modules::One(module),
            others => {
                drop(others);
                drop(module);
                Modules::Several
            }
        }
    }

    /// The module of the task at the path.
    fn the_one(self, path: &Text) -> Result<Module, Stop<LoadFault>>
        ensures { Gives result (the_module path.now self) }
    {
        match self {
            Modules::Nothing => {
                let path = path.try_clone()?;
                Err(Stop::Fault(LoadFault::NoModule { path }))
            }
            Modules::One(module) => Ok(module),
            Modules::Several => {
                let path = path.try_clone()?;
                Err(Stop::Fault(LoadFault::TwoModules { path }))
            }
        }
    }
}

impl Others for Modules {
    type Fault = LoadFault;

    ghost tells = { tells_of_task };

    #[tactic(auto, unfolding(crate::specs::Tasks::tells_of_task))]
    fn tell(
        &mut self,
        alloc: Global,
        path: &Text,
        key: &str,
        json: &Value,
    ) -> Result<(), Stop<LoadFault>> {
        match ModuleKey::of(key) {
            Some(named) => {
                let module = named.read(alloc, path, json)?;
                let before = mem::replace(self, Modules::Nothing);
                *self = before.and(module);
                Ok(())
            }
            None => check_without_effect(alloc, path, key, json),
        }
    }
}

/// Whether a task's failure ends the play for all hosts, when the task has changed something, and how many seconds lie between two attempts at it.
#[derive(Drop)]
pub(crate) struct FirstKeys {
    any_errors_fatal: Option<bool>,
    changed_when: Option<Items<Expr>>,
    delay: Option<u32>,
}

/// When a task has failed, and whether its failure is ignored.
#[derive(Drop)]
pub(crate) struct Failing {
    failed_when: Option<Items<Expr>>,
    ignore_errors: Option<bool>,
}

/// What a task says of the result of its module, and of the host that runs it.
pub(crate) struct Head {
    first: FirstKeys,
    delegation: Delegation,
    failing: Failing,
}

impl Drop for Head {
    fn drop(self) {
        let Head {
            first,
            delegation,
            failing,
        } = self;
        let FirstKeys {
            any_errors_fatal: _,
            changed_when,
            delay: _,
        } = first;
        let Delegation {
            delegate_facts: _,
            delegate_to,
        } = delegation;
        let Failing {
            failed_when,
            ignore_errors: _,
        } = failing;
        drop(changed_when);
        drop(delegate_to);
        drop(failed_when);
    }
}

/// What a task's keys between `loop_control` and `vars` say.
pub(crate) struct Middle {
    name: Option<Text>,
    notify: Items<Text>,
    register: Option<Text>,
    tries: Tries,
}

impl Drop for Middle {
    fn drop(self) {
        let Middle {
            name,
            notify,
            register,
            tries,
        } = self;
        let Tries {
            retries: _,
            runs: _,
            until,
        } = tries;
        drop(name);
        drop(notify);
        drop(register);
        drop(until);
    }
}

/// What a task's keys up to `until` say.
pub(crate) struct Begun {
    head: Head,
    looped: Option<Loop>,
    middle: Middle,
}

impl Drop for Begun {
    fn drop(self) {
        let Begun {
            head,
            looped,
            middle,
        } = self;
        drop(head);
        drop(looped);
        drop(middle);
    }
}

/// What a task says beside its head, its loop and its module.
struct Rest {
    name: Text,
    notify: Items<Text>,
    register: Option<Text>,
    tries: Tries,
    vars: Dict,
    conditions: Items<Expr>,
}

impl Middle {
    /// What is said beside the head of the task, which calls this module.
    fn with(
        self,
        alloc: Global,
        called: &Module,
        vars: Dict,
        conditions: Items<Expr>,
    ) -> Result<Rest, AllocError>
        ensures { IfOk result (λ rest. rest ≡ said_beside self called.now vars conditions) }
    {
        let Middle {
            name,
            notify,
            register,
            tries,
        } = self;
        Ok(Rest {
            name: named(alloc, name, called)?,
            notify,
            register,
            tries,
            vars,
            conditions,
        })
    }
}

impl Begun {
    /// The task that begins with this.
    fn of(
        self,
        alloc: Global,
        vars: Dict,
        module: Module,
        conditions: Items<Expr>,
    ) -> Result<Task, Stop<LoadFault>>
        ensures { Gives result (Ok (begun_task self vars «module» conditions)) }
    {
        let Begun {
            head,
            looped,
            middle,
        } = self;
        let rest = middle.with(alloc, &module, vars, conditions)?;
        Ok(head.of(rest, looped, module))
    }
}

impl Head {
    /// The task that begins with this.
    fn of(self, rest: Rest, looped: Option<Loop>, module: Module) -> Task
        ensures { result ≡ task_of_head self rest looped «module» }
    {
        let Rest {
            name,
            notify,
            register,
            tries,
            vars,
            conditions,
        } = rest;
        let Head {
            first,
            delegation,
            failing,
        } = self;
        let FirstKeys {
            any_errors_fatal,
            changed_when,
            delay,
        } = first;
        let Failing {
            failed_when,
            ignore_errors,
        } = failing;
        let Tries {
            retries,
            runs,
            until,
        } = tries;
        let Runs { run_once, throttle } = runs;
        Task {
            name,
            vars,
            module,
            conditions,
            looped,
            register,
            changed_when,
            failed_when,
            ignore_errors,
            throttle,
            couplings: coupled(any_errors_fatal, delegation, run_once),
            notify,
            retrying: retrying_of(until, retries, delay),
        }
    }
}

fn read_first_keys(
    alloc: Global,
    keys: &mut Keys<'_, Modules>,
) -> Result<FirstKeys, Stop<LoadFault>>
    ensures value { Takes (λ v. v) result (ahead keys.new) (first_keys (ahead keys.old)) }
    ensures path { (ahead keys.new).path ≡ (ahead keys.old).path }
{
    let any_errors_fatal = keys.field::<Switch>(alloc, "any_errors_fatal")?;
    let changed_when = keys.field::<Conditions>(alloc, "changed_when")?;
    let delay = keys.field::<Delay>(alloc, "delay")?;
    Ok(FirstKeys {
        any_errors_fatal,
        changed_when,
        delay,
    })
}

fn read_failing(alloc: Global, keys: &mut Keys<'_, Modules>) -> Result<Failing, Stop<LoadFault>>
    ensures value { Takes (λ v. v) result (ahead keys.new) (failing (ahead keys.old)) }
    ensures path { (ahead keys.new).path ≡ (ahead keys.old).path }
{
    let failed_when = keys.field::<Conditions>(alloc, "failed_when")?;
    let ignore_errors = keys.field::<Switch>(alloc, "ignore_errors")?;
    Ok(Failing {
        failed_when,
        ignore_errors,
    })
}

pub(crate) fn read_head(
    alloc: Global,
    keys: &mut Keys<'_, Modules>,
) -> Result<Head, Stop<LoadFault>>
    ensures value { Takes (λ v. v) result (ahead keys.new) (head (ahead keys.old)) }
    ensures path { (ahead keys.new).path ≡ (ahead keys.old).path }
{
    let first = read_first_keys(alloc, keys)?;
    let delegation = read_delegation(alloc, keys)?;
    let failing = read_failing(alloc, keys)?;
    Ok(Head {
        first,
        delegation,
        failing,
    })
}

pub(crate) fn read_loop(
    alloc: Global,
    keys: &mut Keys<'_, Modules>,
) -> Result<Option<Loop>, Stop<LoadFault>>
    ensures value { Takes (λ v. v) result (ahead keys.new) (looping (ahead keys.old)) }
    ensures path { (ahead keys.new).path ≡ (ahead keys.old).path }
{
    let over = keys.field::<Over>(alloc, "loop")?;
    let item = Text::from_str(alloc, "item")?;
    let variable = keys.field_or::<Control>(alloc, "loop_control", item)?;
    Ok(looped(over, variable))
}

/// The task, whose keys up to `loop_control` are these.
pub(crate) fn read_rest(
    alloc: Global,
    mut keys: Keys<'_, Modules>,
    path: &Text,
    head: Head,
    looped: Option<Loop>,
) -> Result<Task, Stop<LoadFault>>
    ensures { Gives result (value_of (rest_of_task path.now head looped (ahead keys.entry))) }
{
    let middle = read_middle(alloc, &mut keys)?;
    let begun = Begun {
        head,
        looped,
        middle,
    };
    read_last(alloc, keys, path, begun)
}

fn read_middle(alloc: Global, keys: &mut Keys<'_, Modules>) -> Result<Middle, Stop<LoadFault>>
    ensures value { Takes (λ v. v) result (ahead keys.new) (middle (ahead keys.old)) }
    ensures path { (ahead keys.new).path ≡ (ahead keys.old).path }
{
    let name = keys.field::<PlainText>(alloc, "name")?;
    let notify = keys.field_or::<Texts>(alloc, "notify", Items::new(alloc))?;
    let register = keys.field::<VariableName>(alloc, "register")?;
    let tries = read_tries(alloc, keys)?;
    Ok(Middle {
        name,
        notify,
        register,
        tries,
    })
}

/// The task, whose keys up to `until` are these.
fn read_last(
    alloc: Global,
    mut keys: Keys<'_, Modules>,
    path: &Text,
    begun: Begun,
) -> Result<Task, Stop<LoadFault>>
    ensures { Gives result (value_of (last_of_task path.now begun (ahead keys.entry))) }
{
    let vars = keys.field_or::<EachNamed<TemplateValue>>(alloc, "vars", Dict::new(alloc))?;
    let conditions = keys.field_or::<Conditions>(alloc, "when", Items::new(alloc))?;
    let module = read_module(alloc, keys, path, &begun.middle.tries)?;
    begun.of(alloc, vars, module, conditions)
}

/// The module that the task at the path calls, as its other keys tell.
fn read_module(
    alloc: Global,
    keys: Keys<'_, Modules>,
    path: &Text,
    tries: &Tries,
) -> Result<Module, Stop<LoadFault>>
    ensures { Gives result (value_of (module_at path.now tries.now (ahead keys.entry))) }
{
    let modules = keys.others(alloc)?;
    let module = modules.the_one(path)?;
    tries.check(alloc, path, &module)?;
    Ok(module)
}

/// The name of a task: that of its module where it has none.
pub(crate) fn named(alloc: Global, name: Option<Text>, called: &Module) -> Result<Text, AllocError>
    ensures { IfOk result (λ t. t ≡ unwrap_or name (module_name called.now)) }
{
    match name {
        Some(name) => Ok(name),
        None => Text::from_str(alloc, called.name()),
    }
}

/// A task, as the members of an object spell it.
pub(crate) fn read_task(
    alloc: Global,
    path: &Text,
    members: &Map<String, Value>,
) -> Result<Task, Stop<LoadFault>>
    ensures { Gives result (task path.now (json.object (members_view members.now.entries))) }
{
    match Short::of(members) {
        Some(short) => short.read(alloc, path),
        None => read_by_key(alloc, path, members),
    }
}

/// A task, by a look for each key that a task may have.
#[tactic(auto, unfolding(crate::specs::Tasks::task))]
fn read_by_key(
    alloc: Global,
    path: &Text,
    members: &Map<String, Value>,
) -> Result<Task, Stop<LoadFault>>
    ensures { Gives result (task path.now (json.object (members_view members.now.entries))) }
{
    let mut keys = Keys::of(path, members, Modules::Nothing);
    let head = read_head(alloc, &mut keys)?;
    let looped = read_loop(alloc, &mut keys)?;
    read_rest(alloc, keys, path, head, looped)
}
