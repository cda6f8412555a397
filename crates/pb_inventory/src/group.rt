ghost use Rattle.std.specs.Prelude.{◌≡◌};
ghost use Rattle.serde_json.specs.Data as json;
ghost use Rattle.serde_json.specs.View.{view, members_view};
ghost use Rattle.pb_reading.specs.Fields.{no_other};
ghost use Rattle.pb_reading.specs.Reading.{Gives};
ghost use Rattle.pb_inventory.specs.Group.{name, child, no_child, entry, entry_of};

use crate::fault::InvFault;
use crate::listed::Listed;
use crate::vars::{GroupVars, VarsOfGroup};
use pb_reading::keys::{Keys, Others};
use pb_reading::list::{Each, read_each};
use pb_reading::reads::Reads;
use pb_reading::stop::{Stop, wrong};
use pb_value::items::Items;
use pb_value::text::Text;
use serde_json::{Map, Value};
use std::alloc::Global;
use std::marker::PhantomData;

/// What the file says under the name of a group.
pub struct GroupEntry {
    pub children: Items<Text>,
    pub hosts: Items<Text>,
    pub vars: GroupVars,
}

impl Drop for GroupEntry {
    fn drop(self) {
        let GroupEntry {
            children,
            hosts,
            vars,
        } = self;
        drop(children);
        drop(hosts);
        drop(vars);
    }
}

impl GroupEntry {
    /// The group of this name, as the file lists it, and its variables.
    pub fn under(self, name: Text) -> (Listed, GroupVars)
        ensures listed { result.0 ≡ record { name = name; hosts = self.hosts; children = self.children } }
        ensures vars { result.1 ≡ self.vars }
    {
        let GroupEntry {
            children,
            hosts,
            vars,
        } = self;
        let listed = Listed {
            name,
            hosts,
            children,
        };
        (listed, vars)
    }
}

/// Every key of a group's object is a field.
#[derive(Drop)]
pub struct NoOtherKey;

impl Others for NoOtherKey {
    type Fault = InvFault;

    ghost tells = { no_other };

    fn tell(
        &mut self,
        _alloc: Global,
        path: &Text,
        _key: &str,
        _json: &Value,
    ) -> Result<(), Stop<InvFault>> {
        wrong(path)
    }
}

/// Reads the name of a host or a group, a text that isn't empty.
struct Name;

impl Reads<InvFault> for Name {
    type Value = Text;

    ghost reads = { name };

    fn read(alloc: Global, path: &Text, json: &Value) -> Result<Text, Stop<InvFault>> {
        match json {
            Value::String(name) => {
                if name.as_str().is_empty() {
                    return wrong(path);
                }
                Ok(Text::from_str(alloc, name.as_str())?)
            }
            _ => wrong(path),
        }
    }
}

/// Reads a child of a group other than `all` and `ungrouped`: it isn't `ungrouped`.
struct Child;

impl Reads<InvFault> for Child {
    type Value = Text;

    ghost reads = { child };

    fn read(alloc: Global, path: &Text, json: &Value) -> Result<Text, Stop<InvFault>> {
        let name = Name::read(alloc, path, json)?;
        if name.as_str() == "ungrouped" {
            return wrong(path);
        }
        Ok(name)
    }
}

/// Reads a child of `ungrouped`, which has none.
struct NoChild;

impl Reads<InvFault> for NoChild {
    type Value = Text;

    ghost reads = { no_child };

    fn read(_alloc: Global, path: &Text, _json: &Value) -> Result<Text, Stop<InvFault>> {
        wrong(path)
    }
}

/// Reads what stands under the name of a group, whose children are read by C.
struct EntryOf<C> {
    of: PhantomData<C>,
}

impl<C: Reads<InvFault, Value = Text>> Reads<InvFault> for EntryOf<C> {
    type Value = GroupEntry;

    ghost reads = { entry C.reads };

    fn read(alloc: Global, path: &Text, json: &Value) -> Result<GroupEntry, Stop<InvFault>> {
        match json {
            Value::Array(items) => Ok(GroupEntry {
                children: Items::new(alloc),
                hosts: read_each::<InvFault, Name>(alloc, path, items.as_slice())?,
                vars: GroupVars::none(alloc),
            }),
            Value::Object(members) => read_fields::<C>(alloc, path, members),
            _ => wrong(path),
        }
    }
}

#[tactic(auto, unfolding(crate::specs::Group::fields))]
fn read_fields<C: Reads<InvFault, Value = Text>>(
    alloc: Global,
    path: &Text,
    members: &Map<String, Value>,
) -> Result<GroupEntry, Stop<InvFault>>
    ensures { Gives result (entry C.Reads.reads path.now (json.object (members_view members.now.entries))) }
{
    let mut keys = Keys::of(path, members, NoOtherKey);
    let children = keys.field_or::<Each<C>>(alloc, "children", Items::new(alloc))?;
    let hosts = keys.field_or::<Each<Name>>(alloc, "hosts", Items::new(alloc))?;
    let vars = keys.field_or::<VarsOfGroup>(alloc, "vars", GroupVars::none(alloc))?;
    keys.others(alloc)?;
    Ok(GroupEntry {
        children,
        hosts,
        vars,
    })
}

/// What stands under the name of a group: a list of its hosts, or an object with `children`,
/// `hosts` and `vars`.
pub fn read_entry(
    alloc: Global,
    group: &str,
    path: &Text,
    json: &Value,
) -> Result<GroupEntry, Stop<InvFault>>
    ensures { Gives result (entry_of group.now path.now (view json.now)) }
{
    if group == "all" {
        EntryOf::<Name>::read(alloc, path, json)
    } else if group == "ungrouped" {
        EntryOf::<NoChild>::read(alloc, path, json)
    } else {
        EntryOf::<Child>::read(alloc, path, json)
    }
}
