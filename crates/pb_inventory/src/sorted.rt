ghost use Rattle.std.specs.Prelude.{◌≡◌, [], string_bytes, IfOk, OnOk, OnErr};
ghost use Rattle.pb_inventory.specs.Names.{texts, in_place, all_in_place};

use pb_names::NameList;
use pb_value::text::Text;
use std::alloc::{AllocError, Global};
use std::collections::BTreeSet;
use std::marker::Model;

/// Names in byte order, each once.
pub struct SortedNames {
    set: BTreeSet<String>,
}

impl Drop for SortedNames {
    fn drop(self) {
        let SortedNames { set } = self;
        drop(set);
    }
}

impl Model for SortedNames {
    ghost use Rattle.std.specs.Prelude.{ℕ, List};
    ghost use Rattle.pb_inventory.specs.Names.{texts};

    ghost Value = { List (List ℕ) };

    ghost view = { λ n. texts n.set.keys };
}

impl SortedNames {
    pub fn new(alloc: Global) -> SortedNames
        ensures { result ≡ [] }
    {
        SortedNames {
            set: BTreeSet::new(alloc),
        }
    }

    /// Puts a name at its place.
    pub fn insert(&mut self, name: String) -> Result<(), AllocError>
        ensures ok { OnOk result (self.new ≡ in_place (string_bytes name) self.old) }
        ensures err { OnErr result (self.new ≡ self.old) }
    {
        self.set.insert(name)?;
        Ok(())
    }

    /// Puts a copy of a name at its place.
    pub fn put(&mut self, alloc: Global, name: &str) -> Result<(), AllocError>
        ensures { OnOk result (self.new ≡ in_place name.now self.old) }
    {
        self.insert(String::from_str(alloc, name)?)
    }

    /// Puts each of the names at its place.
    pub fn insert_all(&mut self, alloc: Global, names: &[Text]) -> Result<(), AllocError>
        ensures { OnOk result (self.new ≡ all_in_place names.now self.old) }
    {
        for name in names {
            self.put(alloc, name.as_str())?;
        }
        Ok(())
    }

    /// The names by their numbers.
    pub fn to_list(&self, alloc: Global) -> Result<NameList, AllocError>
        ensures { IfOk result (λ names. names ≡ self.now) }
    {
        list_of(alloc, &self.set)
    }
}

fn list_of(alloc: Global, names: &BTreeSet<String>) -> Result<NameList, AllocError>
    ensures { IfOk result (λ list. list ≡ texts names.now.keys) }
{
    let mut list = NameList::new(alloc);
    for name in names.iter() {
        list.put(alloc, name.as_str())?;
    }
    Ok(list)
}
