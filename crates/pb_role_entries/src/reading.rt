ghost use Rattle.std.specs.Prelude.{◌≡◌, IfOk, option_map};
ghost use Rattle.serde_json.specs.Data as json;
ghost use Rattle.serde_json.specs.View.{view, members_view};
ghost use Rattle.pb_value.specs.Datum.{dict, members_of};
ghost use Rattle.pb_reading.specs.Ahead.{ahead, Takes};
ghost use Rattle.pb_reading.specs.Fields.{value_of};
ghost use Rattle.pb_reading.specs.Reading.{Gives};
ghost use Rattle.pb_role_entries.specs.RoleEntries.{one_name, conditions_in, written_in, entry_of, given, rest_of_entry, entry_in, named_alone, role_entry};

use crate::entry::{EntryAsWritten, RoleEntry};
use crate::keys::{Asked, Params, Tags};
use pb_expr_syntax::tree::Expr;
use pb_reading::keys::Keys;
use pb_reading::list::EachNamed;
use pb_reading::reads::Reads;
use pb_reading::simple::PlainText;
use pb_reading::stop::{Stop, wrong};
use pb_value::items::Items;
use pb_value::text::Text;
use pb_value::val::{Dict, Val};
use pb_written::fault::LoadFault;
use pb_written::values::TemplateValue;
use serde_json::{Map, Value};
use std::alloc::{AllocError, Global};

/// What stands at the two keys for the role.
struct Named {
    name: Option<Text>,
    role: Option<Text>,
}

// (by hand, as below: it is then dropped by one call, and not part by part at each exit)
impl Drop for Named {
    fn drop(self) {
        let Named {
            name: _name,
            role: _role,
        } = self;
    }
}

impl Named {
    /// The role of the entry at the path.
    fn the_one(self, path: &Text) -> Result<Text, Stop<LoadFault>>
        ensures { Gives result (one_name path.now self.name self.role) }
    {
        let Named { name, role } = self;
        one_name(path, name, role)
    }
}

/// What an entry gives its role beside parameters.
pub(crate) struct Given {
    tags: Option<Val>,
    vars: Option<Dict>,
    asked: Option<Asked>,
}

impl Drop for Given {
    fn drop(self) {
        let Given {
            tags: _tags,
            vars: _vars,
            asked: _asked,
        } = self;
    }
}

impl Given {
    /// The entry that names this role, and gives it these parameters too.
    fn of(self, alloc: Global, name: Text, params: Dict) -> Result<RoleEntry, AllocError>
        ensures { IfOk result (λ entry. entry ≡ entry_of name self.tags self.vars self.asked params) }
    {
        let Given { tags, vars, asked } = self;
        entry_of(alloc, name, tags, vars, asked, params)
    }
}

fn read_given(alloc: Global, keys: &mut Keys<'_, Params>) -> Result<Given, Stop<LoadFault>>
    ensures value { Takes (λ v. v) result (ahead keys.new) (given (ahead keys.old)) }
    ensures path { (ahead keys.new).path ≡ (ahead keys.old).path }
{
    let tags = keys.field::<Tags>(alloc, "tags")?;
    let vars = keys.field::<EachNamed<TemplateValue>>(alloc, "vars")?;
    let asked = keys.field::<Asked>(alloc, "when")?;
    Ok(Given { tags, vars, asked })
}

/// The role, which stands at one of two keys.
fn one_name(path: &Text, name: Option<Text>, role: Option<Text>) -> Result<Text, Stop<LoadFault>>
    ensures { Gives result (one_name path.now name role) }
{
    match (name, role) {
        (Some(name), None) => Ok(name),
        (None, Some(role)) => Ok(role),
        _ => wrong(path),
    }
}

/// Variables as they are written, if there are any.
fn as_value(alloc: Global, vars: &Option<Dict>) -> Result<Option<Val>, AllocError>
    ensures { IfOk result (λ v. v ≡ option_map (λ ms. dict (members_of ms)) vars.now) }
{
    match vars {
        Some(vars) => Ok(Some(Val::dict(vars.try_clone(alloc)?))),
        None => Ok(None),
    }
}

/// Conditions, and what is written there.
fn parts_of(alloc: Global, asked: Option<Asked>) -> (Items<Expr>, Option<Val>)
    ensures conditions { result.0 ≡ conditions_in asked }
    ensures as_written { result.1 ≡ written_in asked }
{
    match asked {
        Some(asked) => {
            let Asked {
                conditions,
                as_written,
            } = asked;
            (conditions, Some(as_written))
        }
        None => (Items::new(alloc), None),
    }
}

/// An entry of these parts.
fn entry_of(
    alloc: Global,
    name: Text,
    tags: Option<Val>,
    vars: Option<Dict>,
    asked: Option<Asked>,
    params: Dict,
) -> Result<RoleEntry, AllocError>
    ensures { IfOk result (λ entry. entry ≡ entry_of name tags vars asked params) }
{
    let vars_as_written = as_value(alloc, &vars)?;
    let (conditions, when) = parts_of(alloc, asked);
    Ok(RoleEntry {
        name,
        vars: vars.unwrap_or(Dict::new(alloc)),
        conditions,
        params,
        as_written: EntryAsWritten {
            vars: vars_as_written,
            when,
            tags,
        },
    })
}

/// The entry, whose keys up to `role` are these.
fn read_rest(
    alloc: Global,
    mut keys: Keys<'_, Params>,
    path: &Text,
    named: Named,
) -> Result<RoleEntry, Stop<LoadFault>>
    ensures { Gives result (value_of (rest_of_entry path.now named.name named.role (ahead keys.entry))) }
{
    let given = read_given(alloc, &mut keys)?;
    let Params { params } = keys.others(alloc)?;
    let name = named.the_one(path)?;
    Ok(given.of(alloc, name, params)?)
}

/// An entry, as the members of an object spell it.
fn read_members(
    alloc: Global,
    path: &Text,
    members: &Map<String, Value>,
) -> Result<RoleEntry, Stop<LoadFault>>
    ensures { Gives result (entry_in path.now (json.object (members_view members.now.entries))) }
{
    let none = Params {
        params: Dict::new(alloc),
    };
    let mut keys = Keys::of(path, members, none);
    let name = keys.field::<PlainText>(alloc, "name")?;
    let role = keys.field::<PlainText>(alloc, "role")?;
    read_rest(alloc, keys, path, Named { name, role })
}

/// The entry that names this role and gives it nothing.
fn named_alone(alloc: Global, name: &str) -> Result<RoleEntry, AllocError>
    ensures { IfOk result (λ entry. entry ≡ named_alone name.now) }
{
    let name = Text::from_str(alloc, name)?;
    entry_of(alloc, name, None, None, None, Dict::new(alloc))
}

/// Reads a role entry. (A type of its own, so that crates that name `RoleEntry` don't load what JSON needs.)
pub struct OneRoleEntry;

impl Reads<LoadFault> for OneRoleEntry {
    type Value = RoleEntry;

    ghost reads = { role_entry };

    #[tactic(auto, unfolding(crate::specs::RoleEntries::role_entry))]
    fn read(alloc: Global, path: &Text, json: &Value) -> Result<RoleEntry, Stop<LoadFault>> {
        match json {
            Value::String(name) => Ok(named_alone(alloc, name.as_str())?),
            Value::Object(members) => read_members(alloc, path, members),
            _ => wrong(path),
        }
    }
}
