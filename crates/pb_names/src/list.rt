ghost use Rattle.std.specs.Prelude.{◌≡◌, [], ◌∷◌, ◌++◌, None, length, position, slice_get, string_bytes, IfOk, OnOk, OnErr};
ghost use Rattle.std.specs.Rc.{rc_str_bytes};
ghost use Rattle.std.specs.Option.{option_map};
ghost use Rattle.std.specs.Str.{bytes_eq};
ghost use Rattle.pb_names.specs.Kept.{texts};
ghost use Rattle.pb_names.specs.Names.{with_name};

use std::alloc::{AllocError, Global};
use std::collections::BTreeMap;
use std::marker::Model;
use std::rc::RcStr;

/// Names in the order of their first mention, each once. A name is found without a look at the
/// others. (Both fields share one copy of each name.)
pub struct NameList {
    names: Vec<RcStr>,
    numbers: BTreeMap<RcStr, u32>,
}

impl Drop for NameList {
    fn drop(self) {
        let NameList { names, numbers } = self;
        drop(names);
        drop(numbers);
    }
}

impl Model for NameList {
    ghost use Rattle.std.specs.Prelude.{ℕ, List};
    ghost use Rattle.pb_names.specs.Kept.{texts, FindsEach};

    ghost Value = { List (List ℕ) };

    ghost view = { λ n. texts n.names.items };

    ghost invariant = { λ n. FindsEach n.names.items n.numbers };
}

/// The number that comes behind so many.
fn next_number(count: usize) -> Result<u32, AllocError>
    ensures { IfOk result (λ number. number ≡ count) }
{
    u32::try_from(count).map_err(|_| AllocError)
}

impl NameList {
    /// No name.
    pub fn new(alloc: Global) -> NameList
        ensures { result ≡ [] }
    {
        NameList {
            names: Vec::new(alloc),
            numbers: BTreeMap::new(alloc),
        }
    }

    /// The number of names.
    pub fn len(&self) -> usize
        ensures { result ≡ length self.now }
    {
        self.names.len()
    }

    /// The names in the order of their numbers.
    pub fn names(&self) -> &[RcStr]
        ensures { texts result.now ≡ self.now }
    {
        self.names.as_slice()
    }

    /// The name of a number.
    pub fn get(&self, at: usize) -> Option<&str>
        ensures { option_map (λ s. s.now) result ≡ slice_get self.now at }
    {
        match self.names.get(at) {
            Some(name) => Some(name.as_str()),
            None => None,
        }
    }

    /// The number of a name.
    pub fn number(&self, name: &str) -> Option<usize>
        ensures { result ≡ position (bytes_eq name.now) self.now }
    {
        match self.numbers.get(name) {
            Some(number) => Some(*number as usize),
            None => None,
        }
    }

    /// Gives a new name the next number.
    pub fn insert(&mut self, name: String) -> Result<(), AllocError>
        ensures ok { OnOk result (self.new ≡ with_name (string_bytes name) self.old) }
        ensures err { OnErr result (self.new ≡ self.old) }
    {
        if self.number(name.as_str()).is_some() {
            return Ok(());
        }
        self.add(RcStr::from_string(name)?)?;
        Ok(())
    }

    /// Gives a new name the next number; a copy is made of it.
    pub fn put(&mut self, alloc: Global, name: &str) -> Result<(), AllocError>
        ensures ok { OnOk result (self.new ≡ with_name name.now self.old) }
        ensures err { OnErr result (self.new ≡ self.old) }
    {
        if self.number(name).is_some() {
            return Ok(());
        }
        self.add(RcStr::from_str(alloc, name)?)?;
        Ok(())
    }

    /// Gives the next number to a name that has none.
    fn add(&mut self, name: RcStr) -> Result<(), AllocError>
        requires { position (bytes_eq (rc_str_bytes name)) self.old ≡ None }
        ensures ok { OnOk result (self.new ≡ self.old ++ rc_str_bytes name ∷ []) }
        ensures err { OnErr result (self.new ≡ self.old) }
    {
        let number = next_number(self.names.len())?;
        self.names.push(name.clone()?)?;
        match self.numbers.insert(name, number) {
            Ok(_) => Ok(()),
            Err(_) => {
                drop(self.names.pop());
                Err(AllocError)
            }
        }
    }
}
