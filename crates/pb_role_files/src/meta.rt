ghost use Rattle.std.specs.Prelude.{◌≡◌};
ghost use Rattle.serde_json.specs.View.{view};
ghost use Rattle.pb_reading.specs.Ahead.{ahead, Takes};
ghost use Rattle.pb_reading.specs.Reading.{Gives};
ghost use Rattle.pb_role_files.specs.Meta.{refuses, own_keys, role_meta};

use pb_reading::keys::{Keys, Others};
use pb_reading::list::Each;
use pb_reading::reads::Reads;
use pb_reading::stop::{Stop, wrong};
use pb_role_entries::entry::RoleEntry;
use pb_role_entries::reading::OneRoleEntry;
use pb_value::items::Items;
use pb_value::text::Text;
use pb_written::fault::{LoadFault, not_in_profile};
use pb_written::simple::Switch;
use serde_json::Value;
use std::alloc::Global;

/// What a role says of itself. See Ansible's documentation, "Roles", Using role dependencies.
#[derive(Drop)]
pub struct RoleMeta {
    /// The roles that it depends on: they come before it, in this order.
    pub dependencies: Items<RoleEntry>,
    /// Whether it may come again in a play in one and the same way.
    pub allow_duplicates: bool,
}

/// The keys that are no fields: there is none.
#[derive(Drop)]
struct NoOthers;

impl Others for NoOthers {
    type Fault = LoadFault;

    ghost tells = { refuses };

    fn tell(
        &mut self,
        alloc: Global,
        path: &Text,
        key: &str,
        _json: &Value,
    ) -> Result<(), Stop<LoadFault>> {
        not_in_profile(alloc, path, key)
    }
}

/// What it says of the roles that it depends on, and of coming again.
fn read_own_keys(alloc: Global, keys: &mut Keys<'_, NoOthers>) -> Result<RoleMeta, Stop<LoadFault>>
    ensures value { Takes (λ v. v) result (ahead keys.new) (own_keys (ahead keys.old)) }
    ensures path { (ahead keys.new).path ≡ (ahead keys.old).path }
{
    let allow_duplicates = keys.field_or::<Switch>(alloc, "allow_duplicates", false)?;
    let dependencies = keys.field_or::<Each<OneRoleEntry>>(
        alloc,
        "dependencies",
        Items::new(alloc),
    )?;
    Ok(RoleMeta {
        dependencies,
        allow_duplicates,
    })
}

/// Reads what a role says of itself.
pub struct MetaOfRole;

impl Reads<LoadFault> for MetaOfRole {
    type Value = RoleMeta;

    ghost reads = { role_meta };

    fn read(alloc: Global, path: &Text, json: &Value) -> Result<RoleMeta, Stop<LoadFault>> {
        let Value::Object(members) = json else {
            return wrong(path);
        };
        let mut keys = Keys::of(path, members, NoOthers);
        let own_keys = read_own_keys(alloc, &mut keys)?;
        keys.value_at(alloc, "galaxy_info")?;
        keys.others(alloc)?;
        Ok(own_keys)
    }
}
