//! Values whose names are kept for many dicts.
ghost use Rattle.std.specs.Prelude.{◌≡◌, ◌≤◌, ◌<◌, ◌+◌, ◌^◌, ℕ, None, IsTrue, IsSome, IfOk, IfSome, OnOk, OnErr, [], ◌∷◌, ◌++◌, zip, length, slice_get, string_bytes};
ghost use Rattle.std.specs.BTreeMap.{insert_entry, is_at};
ghost use Rattle.std.specs.Cmp.Lexicographic.{slice_cmp};
ghost use Rattle.std.specs.List.Sorted.{IsStrictlySortedBy};
ghost use Rattle.std.specs.Map.{keys_of, values_of, remove_entry};
ghost use Rattle.std.specs.Option.{option_copied};
ghost use Rattle.std.specs.Ordering.{nat_cmp};
ghost use Rattle.std.specs.String.{string_cmp};
ghost use Rattle.pb_value.specs.Datum.{named, value_at};
ghost use Rattle.std.specs.Vec.{vec_len, vec_capacity};
ghost use Rattle.pb_value.specs.Held.{held, values_in};
ghost use Rattle.pb_value.specs.Names.{kept, spot, spelled};

use crate::compare::same_text;
use crate::names::{Kept, Names};
use crate::val::{Dict, Node, Store, Val};
use std::alloc::AllocError;
use std::mem::replace;

/// The index of a name's value, if the name has one: it comes behind as many values as names before it have one.
fn spot(gone: u64, at: usize) -> Option<usize>
    ensures value { result ≡ spot gone at }
    ensures within { IfSome result (λ i. i ≤ at) }
{
    if gone == 0 {
        return Some(at);
    }
    let is_gone = gone % 2 == 1;
    if at == 0 {
        return if is_gone { None } else { Some(0) };
    }
    let index = spot(gone / 2, at - 1)?;
    if is_gone {
        Some(index)
    } else {
        Some(index + 1)
    }
}

/// The value of an index.
fn nth(values: &[Val], index: usize) -> Option<&Val>
    ensures { option_copied result ≡ slice_get values.now index }
{
    values.get(index)
}

/// The value under a name.
pub(crate) fn find_kept<'a>(
    names: &Kept,
    values: &'a [Val],
    gone: u64,
    name: &str,
) -> Option<&'a Val>
    ensures { option_copied result ≡ value_at name.now (named (kept gone names.now values.now)) }
{
    match names.place(name) {
        Ok(at) => match spot(gone, at) {
            Some(index) => nth(values, index),
            None => None,
        },
        Err(_) => None,
    }
}

/// Puts a value in place of the one under a name. (Way was made for the name before; so there is one.)
pub(crate) fn put_kept(
    names: &Kept,
    values: &mut Vec<Val>,
    gone: u64,
    name: String,
    value: Val,
) -> Result<Option<Val>, AllocError>
    ensures entries { OnOk result (kept gone names.now values.new.items ≡ insert_entry string_cmp (kept gone names.now values.old.items) name value) }
    ensures before { IfOk result (λ before. before ≡ value_at (string_bytes name) (named (kept gone names.now values.old.items))) }
    ensures absent { OnErr result (value_at (string_bytes name) (named (kept gone names.now values.old.items)) ≡ None) }
    ensures err { OnErr result (values.new.items ≡ values.old.items) }
    ensures stays { length (kept gone names.now values.new.items) ≡ length (kept gone names.now values.old.items) }
    ensures all { length values.new.items ≡ length values.old.items }
    ensures ordered { IsStrictlySortedBy string_cmp (keys_of (kept gone names.now values.new.items)) }
{
    let Ok(at) = names.place(name.as_str()) else {
        return Err(AllocError);
    };
    let Some(index) = spot(gone, at) else {
        return Err(AllocError);
    };
    if index >= values.len() {
        return Err(AllocError);
    }
    Ok(Some(replace(&mut values[index], value)))
}

/// The bits with one more.
fn with_bit(bits: u64, at: usize) -> u64
    requires few { at < 64 }
    requires free { IsSome (spot bits at) }
    ensures { result ≡ bits + 2 ^ at }
{
    bits + (1 << at)
}

/// Takes a name and its value out.
pub(crate) fn strike(names: &Kept, values: &mut Vec<Val>, gone: &mut u64, name: &str)
    requires { length values.old.items ≡ length (kept gone.old names.now values.old.items) }
    ensures entries { kept gone.new names.now values.new.items ≡ remove_entry (is_at (λ k. slice_cmp nat_cmp name.now (string_bytes k))) (kept gone.old names.now values.old.items) }
    ensures all { length values.new.items ≡ length (kept gone.new names.now values.new.items) }
{
    let Ok(at) = names.place(name) else {
        return;
    };
    let bits = *gone;
    let index = match spot(bits, at) {
        Some(index) => index,
        None => return,
    };
    if index >= values.len() {
        return;
    }
    drop(values.remove(index));
    *gone = with_bit(bits, at);
}

/// Whether the entries of a row have these names.
fn are_named(row: &[(String, Val)], names: &[String]) -> bool
    ensures { IsTrue result → spelled (keys_of row.now) ≡ spelled names.now }
{
    if row.len() != names.len() {
        return false;
    }
    for at in 0..row.len() {
        if !same_text(row[at].0.as_str(), names[at].as_str()) {
            return false;
        }
    }
    true
}

/// A value goes to the end of values that have room for it.
fn put_behind(values: &mut Vec<Val>, value: Val)
    requires { vec_len values.old < vec_capacity values.old }
    ensures items { values.new.items ≡ values.old.items ++ value ∷ [] }
    ensures room { vec_capacity values.old ≤ vec_capacity values.new }
{
    match values.push(value) {
        Ok(()) => {}
        Err(_) => unreachable!(),
    }
}

/// The values of a row, in a vector that has room for them.
fn moved(row: Vec<(String, Val)>, values: Vec<Val>) -> Vec<Val>
    requires none { values.items ≡ [] }
    requires room { length row.items ≤ vec_capacity values }
    ensures { result.items ≡ values_of row.items }
{
    let mut values = values;
    for (name, value) in row {
        drop(name);
        put_behind(&mut values, value);
    }
    values
}

/// The entries of a row under names that are kept for many, or in the row where there is no memory for it.
fn rest_on(row: Vec<(String, Val)>, names: &Kept) -> Store
    requires ordered { IsStrictlySortedBy string_cmp (keys_of row.items) }
    requires names { spelled (keys_of row.items) ≡ spelled names.now }
    ensures value { named (held result) ≡ named row.items }
    ensures ordered { IsStrictlySortedBy string_cmp (keys_of (held result)) }
    ensures all { values_in result ≡ length (held result) }
{
    let alloc = *row.allocator();
    let Ok(names) = names.try_clone() else {
        return Store::Few(row);
    };
    let Ok(mut values) = Box::new(alloc, Vec::new(alloc)) else {
        return Store::Few(row);
    };
    let Ok(room) = Vec::with_capacity(alloc, row.len()) else {
        return Store::Few(row);
    };
    drop(Box::replace(&mut values, moved(row, room)));
    Store::Named(names, values, 0)
}

impl Val {
    /// Where this is a dict whose names are just these, it has none of its own from now on, as far as there is memory for it.
    pub fn share(&mut self, names: &Names)
        ensures { self.new ≡ self.old }
    {
        if let Node::Dict(dict) = &mut self.node {
            dict.share(names);
        }
    }
}

impl Dict {
    /// Where the names of the dict are just these, it has none of its own from now on, as far as there is memory for it.
    pub fn share(&mut self, names: &Names)
        ensures { self.new ≡ self.old }
    {
        if let Store::Few(row) = &mut self.store {
            if are_named(row.as_slice(), names.kept.as_slice()) {
                let none = Vec::new(*row.allocator());
                let all = replace(row, none);
                self.store = rest_on(all, &names.kept);
            }
        }
    }

    /// The dict of names with their values, one after the other. A name that no value is left for isn't in it, and a
    /// value that no name is left for is let go.
    pub fn of_names(names: &Names, values: Vec<Val>) -> Result<Dict, AllocError>
        ensures { IfOk result (λ d. d ≡ zip names.now values.items) }
    {
        let mut values = values;
        values.truncate(names.kept.as_slice().len());
        let alloc = *values.allocator();
        Ok(Dict {
            store: Store::Named(names.kept.try_clone()?, Box::new(alloc, values)?, 0),
        })
    }
}
