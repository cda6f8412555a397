ghost use Rattle.std.specs.Prelude.{◌≡◌, ◌<◌, ℕ, length, take, OnOk, OnErr};
ghost use Rattle.pb_inventory.specs.Values.{variable_value, with_variable, with_value, group_vars};
ghost use Rattle.pb_inventory.specs.Vars.{priority_in, no_vars, put_vars};

use crate::fault::InvFault;
use pb_reading::keys::{Keys, Others};
use pb_reading::reads::Reads;
use pb_reading::stop::{Stop, wrong};
use pb_value::fault::ValFault;
use pb_value::from_json::from_json;
use pb_value::items::Items;
use pb_value::text::Text;
use pb_value::val::{Dict, Node, Val};
use serde_json::Value;
use std::alloc::{AllocError, Global};
use std::marker::Model;

/// A variable: its name and its value.
#[derive(Drop)]
pub struct Variable {
    pub name: Text,
    pub value: Val,
}

/// What a file says under `vars` of a group: the variables, in byte order of their names, and the
/// priority of the group (`ansible_group_priority`), which isn't a variable there.
pub struct GroupVars {
    pub priority: i64,
    pub vars: Items<Variable>,
}

impl Drop for GroupVars {
    fn drop(self) {
        let GroupVars { priority: _, vars } = self;
        drop(vars);
    }
}

impl GroupVars {
    /// No variables, and the usual priority, which is 1.
    pub fn none(alloc: Global) -> GroupVars
        ensures { result ≡ no_vars }
    {
        GroupVars {
            priority: 1,
            vars: Items::new(alloc),
        }
    }

    /// Takes a variable in, or the priority.
    fn add(&mut self, alloc: Global, name: &str, value: Val) -> Result<(), AllocError>
        ensures { OnOk result (self.new ≡ with_variable name.now value self.old) }
    {
        if name == "ansible_group_priority" {
            self.priority = priority_of(&value);
        } else {
            let name = Text::from_str(alloc, name)?;
            self.vars.push(Variable { name, value })?;
        }
        Ok(())
    }
}

fn priority_of(value: &Val) -> i64
    ensures { result ≡ priority_in value.now }
{
    match &value.node {
        Node::Int(n) => *n,
        _ => 1,
    }
}

/// Reads the value of a variable.
pub struct VariableValue;

impl Reads<InvFault> for VariableValue {
    type Value = Val;

    ghost reads = { variable_value };

    fn read(alloc: Global, _path: &Text, json: &Value) -> Result<Val, Stop<InvFault>> {
        match from_json(alloc, json) {
            Ok(value) => Ok(value),
            Err(ValFault::Memory) => Err(Stop::Memory),
            Err(_) => Err(Stop::Fault(InvFault::Value)),
        }
    }
}

/// The variables of a group as they are read. (A type of its own, so that crates that name `GroupVars` don't load what JSON needs.)
#[derive(Drop)]
struct VarsRead {
    vars: GroupVars,
}

impl Model for VarsRead {
    ghost use Rattle.std.specs.Coded.{codes};
    ghost use Rattle.pb_value.specs.contracts.val.Val as val;
    ghost use Rattle.pb_inventory.specs.declared.vars.GroupVars.{GroupVars};

    ghost Value = { GroupVars };

    ghost coded = { Prim.hlevel (codes, val.the_row.coded) };

    ghost view = { λ read. read.vars };
}

/// They stand under their names.
impl Others for VarsRead {
    type Fault = InvFault;

    ghost tells = { with_value };

    fn tell(
        &mut self,
        alloc: Global,
        path: &Text,
        key: &str,
        json: &Value,
    ) -> Result<(), Stop<InvFault>> {
        let value = VariableValue::read(alloc, path, json)?;
        self.vars.add(alloc, key, value)?;
        Ok(())
    }
}

/// Reads the variables of a group.
pub struct VarsOfGroup;

impl Reads<InvFault> for VarsOfGroup {
    type Value = GroupVars;

    ghost reads = { group_vars };

    fn read(alloc: Global, path: &Text, json: &Value) -> Result<GroupVars, Stop<InvFault>> {
        let Value::Object(members) = json else {
            return wrong(path);
        };
        let vars = GroupVars::none(alloc);
        let VarsRead { vars } = Keys::of(path, members, VarsRead { vars }).others(alloc)?;
        Ok(vars)
    }
}

/// Puts each variable under its name, in place of one that stands there. The only error is want of memory: the first few of them are put then.
pub fn put_vars(alloc: Global, vars: &[Variable], known: &mut Dict) -> Result<(), AllocError>
    ensures ok { OnOk result (known.new ≡ put_vars vars.now known.old) }
    ensures err { OnErr result ((n : ℕ) × (n < length vars.now) × (known.new ≡ put_vars (take n vars.now) known.old)) }
{
    for variable in vars {
        let value = variable.value.try_clone(alloc)?;
        known.put(alloc, variable.name.as_str(), value)?;
    }
    Ok(())
}
