//! Tasks that say no more than their module, and maybe their name, as most tasks do. They are read without a look for each key that a task may have.
ghost use Rattle.std.specs.Prelude.{◌≡◌, []};
ghost use Rattle.serde_json.specs.View.{view, members_view};
ghost use Rattle.pb_reading.specs.Reading.{Gives};
ghost use Rattle.pb_play.specs.Tasks.{plain_task};
ghost use Rattle.pb_play_reading.specs.ShortTasks.{IsCall, IsBoth, IsShort, called, name_at, short_task};

use crate::modules::ModuleKey;
use crate::task::named;
use pb_play::couplings::Couplings;
use pb_play::modules::Module;
use pb_play::task::Task;
use pb_reading::reads::Reads;
use pb_reading::simple::PlainText;
use pb_reading::stop::Stop;
use pb_value::items::Items;
use pb_value::path::child;
use pb_value::text::Text;
use pb_value::val::Dict;
use pb_written::fault::LoadFault;
use serde_json::{Map, Value};
use std::alloc::Global;
use std::cmp::Ordering;

/// The member of a task that calls its module: a key that names one, and the arguments that stand at it.
#[derive(Clone, Copy)]
pub(crate) struct Call<'a> {
    key: &'a str,
    named: ModuleKey,
    json: &'a Value,
}

/// A task of one or two members: its module's, and its name's where it has one, in the order of their keys.
#[derive(Clone, Copy)]
pub(crate) enum Short<'a> {
    Nameless(Call<'a>),
    NameFirst(&'a Value, Call<'a>),
    NameLast(Call<'a>, &'a Value),
}

impl<'a> Call<'a> {
    /// The call that this member is, if its key names a module.
    fn of(key: &'a str, json: &'a Value) -> Option<Call<'a>>
        ensures { IsCall result key.now (view json.now) }
    {
        let named = ModuleKey::of(key)?;
        Some(Call { key, named, json })
    }

    /// The module of the task at the path.
    fn read(self, alloc: Global, path: &Text) -> Result<Module, Stop<LoadFault>>
        ensures { Gives result (called path.now self.entry) }
    {
        let here = child(alloc, path, self.key)?;
        self.named.read(alloc, &here, self.json)
    }
}

impl<'a> Short<'a> {
    /// The short task that these members are, if they are one.
    pub(crate) fn of(members: &'a Map<String, Value>) -> Option<Short<'a>>
        ensures { IsShort result (members_view members.now.entries) }
    {
        let mut left = members.iter();
        let (key, json) = left.next()?;
        let second = left.next();
        if left.next().is_some() {
            return None;
        }
        match second {
            None => Some(Short::Nameless(Call::of(key.as_str(), json)?)),
            Some((other, value)) => Short::of_both(key.as_str(), json, other.as_str(), value),
        }
    }

    /// The short task of these two members, if one is a name and the other calls a module.
    fn of_both(key: &'a str, json: &'a Value, other: &'a str, value: &'a Value) -> Option<Short<'a>>
        ensures { IsBoth result key.now (view json.now) other.now (view value.now) }
    {
        if key == "name" {
            return Some(Short::NameFirst(json, Call::of(other, value)?));
        }
        if other != "name" {
            return None;
        }
        match key.cmp("name") {
            Ordering::Less => Some(Short::NameLast(Call::of(key, json)?, value)),
            _ => None,
        }
    }

    /// The task at the path.
    pub(crate) fn read(self, alloc: Global, path: &Text) -> Result<Task, Stop<LoadFault>>
        ensures { Gives result (short_task path.now self.entry) }
    {
        match self {
            Short::Nameless(call) => {
                let module = call.read(alloc, path)?;
                let name = named(alloc, None, &module)?;
                Ok(plain(alloc, name, module))
            }
            Short::NameFirst(json, call) => {
                let name = read_name(alloc, path, json)?;
                let module = call.read(alloc, path)?;
                Ok(plain(alloc, name, module))
            }
            Short::NameLast(call, json) => {
                let module = call.read(alloc, path)?;
                let name = read_name(alloc, path, json)?;
                Ok(plain(alloc, name, module))
            }
        }
    }
}

/// The name of the task at the path.
fn read_name(alloc: Global, path: &Text, json: &Value) -> Result<Text, Stop<LoadFault>>
    ensures { Gives result (name_at path.now (view json.now)) }
{
    let here = child(alloc, path, "name")?;
    PlainText::read(alloc, &here, json)
}

/// A task of this name that calls this module, and says nothing else.
pub(crate) fn plain(alloc: Global, name: Text, module: Module) -> Task
    ensures { result ≡ plain_task name [] «module» }
{
    Task {
        name,
        vars: Dict::new(alloc),
        module,
        conditions: Items::new(alloc),
        looped: None,
        register: None,
        changed_when: None,
        failed_when: None,
        ignore_errors: None,
        throttle: None,
        couplings: Couplings::none(),
        notify: Items::new(alloc),
        retrying: None,
    }
}
