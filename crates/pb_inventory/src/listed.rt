ghost use Rattle.std.specs.Prelude.{◌≡◌};

use crate::named::Named;
use crate::vars::GroupVars;
use pb_value::items::Items;
use pb_value::text::Text;
use pb_value::val::Dict;

/// A group as the file lists it: its name, and the names of the hosts and of the groups under it.
pub struct Listed {
    pub name: Text,
    pub hosts: Items<Text>,
    pub children: Items<Text>,
}

impl Drop for Listed {
    fn drop(self) {
        let Listed {
            name,
            hosts,
            children,
        } = self;
        drop(name);
        drop(hosts);
        drop(children);
    }
}

/// All that the file says: its groups, and what is said of the variables of groups and of hosts,
/// by name.
pub struct FileEntries {
    pub groups: Items<Listed>,
    pub group_vars: Named<GroupVars>,
    pub host_vars: Named<Dict>,
}

impl Drop for FileEntries {
    fn drop(self) {
        let FileEntries {
            groups,
            group_vars,
            host_vars,
        } = self;
        drop(groups);
        drop(group_vars);
        drop(host_vars);
    }
}

impl FileEntries {
    /// What is said of the variables of groups, and of hosts.
    pub fn into_vars(self) -> (Named<GroupVars>, Named<Dict>)
        ensures groups { result.0 ≡ self.group_vars }
        ensures hosts { result.1 ≡ self.host_vars }
    {
        let FileEntries {
            groups,
            group_vars,
            host_vars,
        } = self;
        drop(groups);
        (group_vars, host_vars)
    }
}
