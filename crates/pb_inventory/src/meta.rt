ghost use Rattle.pb_inventory.specs.Meta.{passed, with_host, host_entries, meta};

use crate::fault::InvFault;
use crate::named::Named;
use crate::vars::VariableValue;
use pb_reading::keys::{Keys, Others};
use pb_reading::list::EachNamed;
use pb_reading::reads::Reads;
use pb_reading::stop::{Stop, wrong};
use pb_value::text::Text;
use pb_value::val::Dict;
use serde_json::Value;
use std::alloc::Global;
use std::marker::Model;

/// The variables of hosts as they are read. (A type of its own, so that crates that name `Named` don't load what JSON needs.)
#[derive(Drop)]
struct HostVarsRead {
    vars: Named<Dict>,
}

impl Model for HostVarsRead {
    ghost use Rattle.std.specs.Coded.{coded×, coded_ℕ, coded_list};
    ghost use Rattle.pb_value.specs.Code.{coded_datum};
    ghost use Rattle.pb_inventory.specs.Meta.{MetaVars};

    ghost Value = { MetaVars };

    ghost coded = { coded_list (coded× (coded_list coded_ℕ) (coded_list (coded× (coded_list coded_ℕ) coded_datum))) };

    ghost view = { λ read. read.vars };
}

/// They stand under their names.
impl Others for HostVarsRead {
    type Fault = InvFault;

    ghost tells = { with_host };

    fn tell(
        &mut self,
        alloc: Global,
        path: &Text,
        key: &str,
        json: &Value,
    ) -> Result<(), Stop<InvFault>> {
        if key.is_empty() {
            return wrong(path);
        }
        let vars = EachNamed::<VariableValue>::read(alloc, path, json)?;
        self.vars.insert(String::from_str(alloc, key)?, vars)?;
        Ok(())
    }
}

/// Reads the variables of hosts.
struct VarsOfHosts;

impl Reads<InvFault> for VarsOfHosts {
    type Value = Named<Dict>;

    ghost reads = { host_entries };

    fn read(alloc: Global, path: &Text, json: &Value) -> Result<Named<Dict>, Stop<InvFault>> {
        let Value::Object(members) = json else {
            return wrong(path);
        };
        let vars = Named::new(alloc);
        let HostVarsRead { vars } = Keys::of(path, members, HostVarsRead { vars }).others(alloc)?;
        Ok(vars)
    }
}

/// The keys that don't count.
#[derive(Drop)]
pub struct PassedOver;

impl Others for PassedOver {
    type Fault = InvFault;

    ghost tells = { passed };

    fn tell(
        &mut self,
        _alloc: Global,
        _path: &Text,
        _key: &str,
        _json: &Value,
    ) -> Result<(), Stop<InvFault>> {
        Ok(())
    }
}

/// Reads `_meta`: the variables of hosts that it has under `hostvars`. Its other keys don't count.
pub struct Meta;

impl Reads<InvFault> for Meta {
    type Value = Named<Dict>;

    ghost reads = { meta };

    #[tactic(auto, unfolding(crate::specs::Meta::meta))]
    fn read(alloc: Global, path: &Text, json: &Value) -> Result<Named<Dict>, Stop<InvFault>> {
        let Value::Object(members) = json else {
            return wrong(path);
        };
        let mut keys = Keys::of(path, members, PassedOver);
        let host_vars = keys.field_or::<VarsOfHosts>(alloc, "hostvars", Named::new(alloc))?;
        keys.others(alloc)?;
        Ok(host_vars)
    }
}
