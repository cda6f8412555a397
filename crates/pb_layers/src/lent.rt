//! Values that stand elsewhere, lent under their names.
ghost use Rattle.std.specs.Prelude.{◌≡◌, [], IfOk, OnOk, OnErr};
ghost use Rattle.std.specs.Option.{option_copied};
ghost use Rattle.std.specs.Cmp.Lexicographic.{slice_cmp};
ghost use Rattle.std.specs.List.Sorted.{IsStrictlySortedBy};
ghost use Rattle.std.specs.Map.{keys_of};
ghost use Rattle.std.specs.Ordering.{nat_cmp};
ghost use Rattle.pb_value.specs.Datum.{value_at, put};
ghost use Rattle.pb_layers.specs.Lent.{lent_map};
ghost use Rattle.pb_layers.specs.Merged.{merged};

use pb_value::val::{Dict, Val};
use std::alloc::{AllocError, Global};
use std::cmp::Ordering;
use std::collections::BTreeMap;
use std::marker::Model;

/// Values that stand elsewhere, as they are put under their names: none of them is copied. Contracts see them as they see a `Dict`, as the list of
/// names and values in byte order.
#[derive(Drop)]
pub struct Lending<'a> {
    entries: BTreeMap<&'a str, &'a Val>,
}

impl<'a> Model for Lending<'a> {
    ghost use Rattle.std.specs.Coded.{codes};
    ghost use Rattle.pb_value.specs.contracts.val.Dict as dict;
    ghost use Rattle.pb_layers.specs.Scope as scope;
    ghost use Rattle.pb_layers.specs.Lent.{lent_map};

    ghost Value = { scope.Map };

    ghost coded = { Prim.hlevel (codes, dict.the_row.coded) };

    ghost view = { λ l. lent_map l.entries.entries };
}

impl<'a> Lending<'a> {
    /// No values.
    pub fn new(alloc: Global) -> Lending<'a>
        ensures { result ≡ [] }
    {
        Lending {
            entries: BTreeMap::new(alloc),
        }
    }

    /// Puts a value under a name, in place of the one that stood there.
    #[tactic(auto, using(crate::proofs::LentMaps::lent_put))]
    pub fn put(&mut self, name: &'a str, value: &'a Val) -> Result<(), AllocError>
        ensures ok { OnOk result (self.new ≡ put name.now value.now self.old) }
        ensures err { OnErr result (self.new ≡ self.old) }
    {
        self.entries.insert(name, value)?;
        Ok(())
    }

    /// The values as they were put, to be looked up.
    pub fn lent(self, alloc: Global) -> Result<Lent<'a>, AllocError>
        ensures { IfOk result (λ lent. lent ≡ self.entry) }
    {
        let Lending { entries } = self;
        let entries = listed(alloc, entries)?;
        Ok(Lent { entries })
    }
}

/// The entries of a map, in byte order.
fn listed<'a>(
    alloc: Global,
    map: BTreeMap<&'a str, &'a Val>,
) -> Result<Vec<(&'a str, &'a Val)>, AllocError>
    ensures entries { IfOk result (λ entries. entries.items ≡ map.entry.entries) }
    ensures ordered { IfOk result (λ entries. IsStrictlySortedBy (slice_cmp nat_cmp) (keys_of (lent_map entries.items))) }
{
    let mut entries = Vec::with_capacity(alloc, map.len())?;
    for (name, value) in map {
        entries.push((name, value))?;
    }
    Ok(entries)
}

/// Values that stand elsewhere, under their names, which contracts see as the list of names and values in byte order.
#[derive(Drop)]
pub struct Lent<'a> {
    entries: Vec<(&'a str, &'a Val)>,
}

impl<'a> Model for Lent<'a> {
    ghost use Rattle.std.specs.Coded.{codes};
    ghost use Rattle.std.specs.Cmp.Lexicographic.{slice_cmp};
    ghost use Rattle.std.specs.List.Sorted.{IsStrictlySortedBy};
    ghost use Rattle.std.specs.Map.{keys_of};
    ghost use Rattle.std.specs.Ordering.{nat_cmp};
    ghost use Rattle.pb_value.specs.contracts.val.Dict as dict;
    ghost use Rattle.pb_layers.specs.Scope as scope;
    ghost use Rattle.pb_layers.specs.Lent.{lent_map};

    ghost Value = { scope.Map };

    ghost coded = { Prim.hlevel (codes, dict.the_row.coded) };

    ghost view = { λ l. lent_map l.entries.items };

    ghost invariant = { λ l. IsStrictlySortedBy (slice_cmp nat_cmp) (keys_of (lent_map l.entries.items)) };
}

impl<'a> Lent<'a> {
    /// The names with their values, in byte order.
    pub fn entries(&self) -> &[(&'a str, &'a Val)]
        ensures { lent_map result.now ≡ self.now }
    {
        self.entries.as_slice()
    }

    /// The value under a name.
    pub fn get(&self, name: &str) -> Option<&'a Val>
        ensures { option_copied result ≡ value_at name.now self.now }
    {
        find(self.entries.as_slice(), name)
    }
}

/// The value under a name among entries in byte order.
fn find<'a>(entries: &[(&'a str, &'a Val)], name: &str) -> Option<&'a Val>
    requires { IsStrictlySortedBy (slice_cmp nat_cmp) (keys_of (lent_map entries.now)) }
    ensures { option_copied result ≡ value_at name.now (lent_map entries.now) }
{
    let mut low = 0;
    let mut high = entries.len();
    while low < high {
        let middle = low + (high - low) / 2;
        let entry = entries[middle];
        match name.cmp(entry.0) {
            Ordering::Less => high = middle,
            Ordering::Equal => return Some(entry.1),
            Ordering::Greater => low = middle + 1,
        }
    }
    None
}

/// The variables of a host's groups, merged: those that are kept in a dict, or those that are lent from where they stand.
#[derive(Clone, Copy)]
pub enum Merged<'a> {
    Kept(&'a Dict),
    Lent(&'a Lent<'a>),
}

impl<'a> Merged<'a> {
    /// The value under a name.
    pub fn get(self, name: &str) -> Option<&'a Val>
        ensures { option_copied result ≡ value_at name.now (merged self.entry) }
    {
        match self {
            Merged::Kept(variables) => variables.get(name),
            Merged::Lent(variables) => variables.get(name),
        }
    }
}
