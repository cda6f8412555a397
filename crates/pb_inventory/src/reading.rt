ghost use Rattle.std.specs.Prelude.{◌≡◌, ◌≢◌, IfOk, IfErr, OnOk, Ok, Err};
ghost use Rattle.serde_json.specs.View.{view};
ghost use Rattle.pb_inventory.specs.Reading.{no_groups, with_entry_of, with_group, file, file_in};

use crate::fault::InvFault;
use crate::group::{GroupEntry, read_entry};
use crate::listed::{FileEntries, Listed};
use crate::meta::Meta;
use crate::named::Named;
use crate::vars::GroupVars;
use pb_reading::keys::{Keys, Others};
use pb_reading::reads::Reads;
use pb_reading::stop::{Stop, wrong};
use pb_value::items::Items;
use pb_value::text::Text;
use pb_value::val::Dict;
use serde_json::Value;
use std::alloc::{AllocError, Global};

/// What the file's keys say of groups.
pub struct FileGroups {
    pub listed: Items<Listed>,
    pub vars: Named<GroupVars>,
}

impl Drop for FileGroups {
    fn drop(self) {
        let FileGroups { listed, vars } = self;
        drop(listed);
        drop(vars);
    }
}

impl FileGroups {
    fn none(alloc: Global) -> FileGroups
        ensures { result ≡ no_groups }
    {
        FileGroups {
            listed: Items::new(alloc),
            vars: Named::new(alloc),
        }
    }

    /// Takes in what stands under the name of a group.
    fn add(&mut self, alloc: Global, name: &str, entry: GroupEntry) -> Result<(), AllocError>
        ensures { OnOk result (self.new ≡ with_group name.now entry self.old) }
    {
        let (listed, vars) = entry.under(Text::from_str(alloc, name)?);
        self.listed.push(listed)?;
        self.vars.insert(String::from_str(alloc, name)?, vars)
    }

    fn with_host_vars(self, host_vars: Named<Dict>) -> FileEntries
        ensures { result ≡ record { groups = self.listed; group_vars = self.vars; host_vars = host_vars } }
    {
        let FileGroups { listed, vars } = self;
        FileEntries {
            groups: listed,
            group_vars: vars,
            host_vars,
        }
    }
}

impl Others for FileGroups {
    type Fault = InvFault;

    ghost tells = { with_entry_of };

    fn tell(
        &mut self,
        alloc: Global,
        path: &Text,
        key: &str,
        json: &Value,
    ) -> Result<(), Stop<InvFault>> {
        if key.is_empty() {
            return wrong(path);
        }
        let entry = read_entry(alloc, key, path, json)?;
        self.add(alloc, key, entry)?;
        Ok(())
    }
}

impl Reads<InvFault> for FileEntries {
    type Value = FileEntries;

    ghost reads = { file };

    #[tactic(auto, unfolding(crate::specs::Reading::file))]
    fn read(alloc: Global, path: &Text, json: &Value) -> Result<FileEntries, Stop<InvFault>> {
        let Value::Object(members) = json else {
            return wrong(path);
        };
        let mut keys = Keys::of(path, members, FileGroups::none(alloc));
        let host_vars = keys.field_or::<Meta>(alloc, "_meta", Named::new(alloc))?;
        let groups = keys.others(alloc)?;
        Ok(groups.with_host_vars(host_vars))
    }
}

/// All that a file says.
pub fn read_file(alloc: Global, json: &Value) -> Result<FileEntries, InvFault>
    ensures value { IfOk result (λ file. file_in (view json.now) ≡ Ok file) }
    ensures fault { IfErr result (λ e. e ≢ InvFault.Memory → file_in (view json.now) ≡ Err e) }
{
    match FileEntries::read(alloc, &Text::new(alloc), json) {
        Ok(file) => Ok(file),
        Err(Stop::Memory) => Err(InvFault::Memory),
        Err(Stop::WrongShape { path }) => Err(InvFault::WrongShape { path }),
        Err(Stop::Fault(fault)) => Err(fault),
    }
}
