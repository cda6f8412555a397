ghost use Rattle.std.specs.Prelude.{◌≡◌, [], ◌∷◌, ◌++◌, None, slice_get, string_bytes, IfOk, OnOk, OnErr};
ghost use Rattle.std.specs.Map.{keys_of};
ghost use Rattle.std.specs.Option.{option_copied};
ghost use Rattle.pb_inventory.specs.Named.{under, with_entry};

use crate::names::push_text;
use pb_names::NameList;
use pb_value::items::Items;
use pb_value::text::Text;
use std::alloc::{AllocError, Global};
use std::marker::Model;

/// Things under names, in the order in which they came. A name is found without a look at the
/// others.
pub struct Named<T> {
    names: NameList,
    values: Vec<T>,
}

impl<T: Drop> Drop for Named<T> {
    fn drop(self) {
        let Named { names, values } = self;
        drop(names);
        drop(values);
    }
}

impl<T> Model for Named<T> {
    ghost use Rattle.std.specs.Prelude.{◌≡◌, ℕ, List, length, zip};
    ghost use Rattle.std.specs.Coded.{coded×, coded_ℕ, coded_list};

    ghost Value = { List (List ℕ × T) };

    ghost coded = { coded_list (coded× (coded_list coded_ℕ) T.code) };

    ghost view = { λ n. zip n.names n.values.items };

    ghost invariant = { λ n. length n.names ≡ length n.values.items };
}

impl<T> Named<T> {
    /// Nothing under any name.
    pub fn new(alloc: Global) -> Named<T>
        ensures { result ≡ [] }
    {
        Named {
            names: NameList::new(alloc),
            values: Vec::new(alloc),
        }
    }

    /// What stands under a name.
    pub fn get(&self, name: &str) -> Option<&T>
        ensures { option_copied result ≡ under name.now self.now }
    {
        match self.names.number(name) {
            Some(number) => nth(self.values.as_slice(), number),
            None => None,
        }
    }

    /// The names.
    pub fn names(&self, alloc: Global) -> Result<Items<Text>, AllocError>
        ensures { IfOk result (λ names. names ≡ keys_of self.now) }
    {
        names_of(alloc, &self.names)
    }
}

/// The value of a number.
fn nth<T>(values: &[T], number: usize) -> Option<&T>
    ensures { option_copied result ≡ slice_get values.now number }
{
    values.get(number)
}

fn names_of(alloc: Global, list: &NameList) -> Result<Items<Text>, AllocError>
    ensures { IfOk result (λ names. names ≡ list.now) }
{
    let mut names = Items::new(alloc);
    for name in list.names() {
        push_text(alloc, &mut names, name.as_str())?;
    }
    Ok(names)
}

impl<T: Drop> Named<T> {
    /// Puts something under a name, in place of what stood there.
    pub fn insert(&mut self, name: String, value: T) -> Result<(), AllocError>
        ensures ok { OnOk result (self.new ≡ with_entry (string_bytes name) value self.old) }
        ensures err { OnErr result (self.new ≡ self.old) }
    {
        match self.names.number(name.as_str()) {
            Some(number) => {
                self.values[number] = value;
                Ok(())
            }
            None => {
                self.add(name, value)?;
                Ok(())
            }
        }
    }

    /// Puts something under a name under which nothing stands.
    fn add(&mut self, name: String, value: T) -> Result<(), AllocError>
        requires { under (string_bytes name) self.old ≡ None }
        ensures ok { OnOk result (self.new ≡ self.old ++ (string_bytes name, value) ∷ []) }
        ensures err { OnErr result (self.new ≡ self.old) }
    {
        self.values.push(value)?;
        match self.names.insert(name) {
            Ok(()) => Ok(()),
            Err(e) => {
                drop(self.values.pop());
                Err(e)
            }
        }
    }
}
