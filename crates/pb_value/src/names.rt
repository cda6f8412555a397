//! Names in byte order, kept once for all the dicts that have them.
ghost use Rattle.std.specs.Prelude.{◌≡◌, ◌≤◌, ◌<◌, IfOk, length};
ghost use Rattle.std.specs.List.Sorted.{IsStrictlySortedBy};
ghost use Rattle.std.specs.Map.{keys_of};
ghost use Rattle.std.specs.String.{string_cmp};
ghost use Rattle.pb_value.specs.Datum.{named};
ghost use Rattle.pb_value.specs.Names.{paired, spelled, names_of};
ghost use Rattle.pb_value.specs.Place.{place_of};

use crate::val::Dict;
use std::alloc::{AllocError, Global};
use std::cmp::Ordering;
use std::marker::Model;
use std::sync::Arc;

/// How many names can be kept for many dicts: each dict has a bit for each of them.
pub(crate) const MOST: usize = 64;

/// The names themselves, which contracts see as strings.
pub struct Kept {
    shared: Arc<Vec<String>>,
}

impl Drop for Kept {
    fn drop(self) {
        let Kept { shared } = self;
        drop(shared);
    }
}

impl Model for Kept {
    ghost use Rattle.std.specs.Prelude.{◌≤◌, List, String, length};
    ghost use Rattle.std.specs.declared.alloc.Global.{Global};
    ghost use Rattle.std.specs.Arc.{arc_value};
    ghost use Rattle.std.specs.List.Sorted.{IsStrictlySortedBy};
    ghost use Rattle.std.specs.String.{string_cmp};

    ghost Value = { List (String Global) };

    ghost view = { λ k. (arc_value k.shared).items };

    ghost invariant = { λ k. IsStrictlySortedBy string_cmp (arc_value k.shared).items × (length (arc_value k.shared).items ≤ 64) };
}

/// Names in byte order, which contracts see as the list of their bytes. Dicts that share them hold no names of their own.
pub struct Names {
    pub(crate) kept: Kept,
}

impl Drop for Names {
    fn drop(self) {
        let Names { kept } = self;
        drop(kept);
    }
}

impl Model for Names {
    ghost use Rattle.std.specs.Prelude.{ℕ, List};
    ghost use Rattle.pb_value.specs.Names.{spelled};

    ghost Value = { List (List ℕ) };

    ghost view = { λ n. spelled n.kept };
}

impl Kept {
    /// Names in byte order, kept for many.
    pub(crate) fn from_vec(alloc: Global, names: Vec<String>) -> Result<Kept, AllocError>
        requires ordered { IsStrictlySortedBy string_cmp names.items }
        requires few { length names.items ≤ 64 }
        ensures { IfOk result (λ k. k ≡ names.items) }
    {
        Ok(Kept {
            shared: Arc::new(alloc, names)?,
        })
    }

    /// The names, from the first on.
    pub(crate) fn as_slice(&self) -> &[String]
        ensures value { result.now ≡ self.now }
        ensures ordered { IsStrictlySortedBy string_cmp self.now }
        ensures few { length self.now ≤ 64 }
    {
        self.shared.as_slice()
    }

    /// Where a name stands among these: its index, or else the one at which it would have to be put.
    pub(crate) fn place(&self, name: &str) -> Result<usize, usize>
        ensures value { result ≡ place_of name.now (named (paired self.now)) }
        ensures ordered { IsStrictlySortedBy string_cmp self.now }
        ensures few { IfOk result (λ at. at < 64) }
    {
        place_among(self.as_slice(), name)
    }

    /// The same names for one more.
    pub(crate) fn try_clone(&self) -> Result<Kept, AllocError>
        ensures { IfOk result (λ k. k ≡ self.now) }
    {
        Ok(Kept {
            shared: Arc::try_clone(&self.shared)?,
        })
    }
}

impl Names {
    /// The names of a dict, if it has no more than 64.
    pub fn of(alloc: Global, dict: &Dict) -> Result<Option<Names>, AllocError>
        ensures { IfOk result (λ names. names ≡ names_of dict.now) }
    {
        if dict.len() > MOST {
            return Ok(None);
        }
        Ok(Some(Names {
            kept: Kept::from_vec(alloc, copied_names(alloc, dict)?)?,
        }))
    }

    /// The same names for one more.
    pub fn try_clone(&self) -> Result<Names, AllocError>
        ensures { IfOk result (λ n. n ≡ self.now) }
    {
        Ok(Names {
            kept: self.kept.try_clone()?,
        })
    }
}

/// Where a name stands among names: its index, or else the one at which it would have to be put.
fn place_among(names: &[String], name: &str) -> Result<usize, usize>
    requires { IsStrictlySortedBy string_cmp names.now }
    ensures { result ≡ place_of name.now (named (paired names.now)) }
{
    let mut low = 0;
    let mut high = names.len();
    while low < high {
        let middle = low + (high - low) / 2;
        match name.cmp(names[middle].as_str()) {
            Ordering::Less => high = middle,
            Ordering::Equal => return Ok(middle),
            Ordering::Greater => low = middle + 1,
        }
    }
    Err(low)
}

/// Copies of the names of a dict.
fn copied_names(alloc: Global, dict: &Dict) -> Result<Vec<String>, AllocError>
    ensures names { IfOk result (λ names. spelled names.items ≡ keys_of dict.now) }
    ensures ordered { IfOk result (λ names. IsStrictlySortedBy string_cmp names.items) }
    ensures few { IfOk result (λ names. length names.items ≡ length dict.now) }
{
    let mut names = Vec::with_capacity(alloc, dict.len())?;
    for (name, _value) in dict.iter() {
        names.push(name.clone()?)?;
    }
    Ok(names)
}
