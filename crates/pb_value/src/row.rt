//! Entries in a row, in byte order of their names.
ghost use Rattle.std.specs.Prelude.{◌≡◌, None, IsSome, IfOk, OnOk, OnErr, length, string_bytes};
ghost use Rattle.std.specs.BTreeMap.{insert_entry, is_at};
ghost use Rattle.std.specs.Cmp.Lexicographic.{slice_cmp};
ghost use Rattle.std.specs.List.Sorted.{IsStrictlySortedBy};
ghost use Rattle.std.specs.Map.{keys_of, remove_entry};
ghost use Rattle.std.specs.Option.{option_copied};
ghost use Rattle.std.specs.Ordering.{nat_cmp};
ghost use Rattle.std.specs.String.{string_cmp};
ghost use Rattle.pb_value.specs.Datum.{named, value_at};
ghost use Rattle.pb_value.specs.Place.{place_of};

use crate::val::Val;
use std::alloc::AllocError;
use std::cmp::Ordering;
use std::mem::replace;

/// By how many entries a row grows. Most dicts have few, and keep what they have no use for as long as they stand.
const STEP: usize = 4;

/// Where a name stands in a row: the index of its entry, or else the one at which it would have to be put.
fn place(row: &[(String, Val)], name: &str) -> Result<usize, usize>
    requires { IsStrictlySortedBy string_cmp (keys_of row.now) }
    ensures { result ≡ place_of name.now (named row.now) }
{
    let mut low = 0;
    let mut high = row.len();
    while low < high {
        let middle = low + (high - low) / 2;
        match name.cmp(row[middle].0.as_str()) {
            Ordering::Less => high = middle,
            Ordering::Equal => return Ok(middle),
            Ordering::Greater => low = middle + 1,
        }
    }
    Err(low)
}

/// The value under a name of a row.
#[tactic(auto, using(crate::proofs::Placed::within_ok))]
pub(crate) fn find<'a>(row: &'a [(String, Val)], name: &str) -> Option<&'a Val>
    requires { IsStrictlySortedBy string_cmp (keys_of row.now) }
    ensures { option_copied result ≡ value_at name.now (named row.now) }
{
    match place(row, name) {
        Ok(at) => Some(&row[at].1),
        Err(_) => None,
    }
}

/// Room for one entry more.
fn make_room(row: &mut Vec<(String, Val)>) -> Result<(), AllocError>
    ensures { row.new.items ≡ row.old.items }
{
    if row.len() == row.capacity() {
        row.reserve_exact(STEP)?;
    }
    Ok(())
}

/// Puts a value into a row, in place of the entry under its name or among the others.
fn put_entry(
    row: &mut Vec<(String, Val)>,
    name: String,
    value: Val,
) -> Result<Option<Val>, AllocError>
    requires { IsStrictlySortedBy string_cmp (keys_of row.old.items) }
    ensures entries { OnOk result (row.new.items ≡ insert_entry string_cmp row.old.items name value) }
    ensures before { IfOk result (λ before. before ≡ value_at (string_bytes name) (named row.old.items)) }
    ensures stays { IfOk result (λ before. IsSome before → length row.new.items ≡ length row.old.items) }
    ensures absent { OnErr result (value_at (string_bytes name) (named row.old.items) ≡ None) }
    ensures err { OnErr result (row.new.items ≡ row.old.items) }
{
    match place(row.as_slice(), name.as_str()) {
        Ok(at) => Ok(Some(replace(&mut row[at].1, value))),
        Err(at) => {
            make_room(row)?;
            row.insert(at, (name, value))?;
            Ok(None)
        }
    }
}

/// Puts a value under a name of a row, and hands back the one that stood there. Only a name that is new can be refused memory.
pub(crate) fn put_in(
    row: &mut Vec<(String, Val)>,
    name: String,
    value: Val,
) -> Result<Option<Val>, AllocError>
    requires { IsStrictlySortedBy string_cmp (keys_of row.old.items) }
    ensures entries { OnOk result (row.new.items ≡ insert_entry string_cmp row.old.items name value) }
    ensures before { IfOk result (λ before. before ≡ value_at (string_bytes name) (named row.old.items)) }
    ensures stays { IfOk result (λ before. IsSome before → length row.new.items ≡ length row.old.items) }
    ensures absent { OnErr result (value_at (string_bytes name) (named row.old.items) ≡ None) }
    ensures err { OnErr result (row.new.items ≡ row.old.items) }
    ensures ordered { IsStrictlySortedBy string_cmp (keys_of row.new.items) }
{
    put_entry(row, name, value)
}

/// Takes a name out of a row.
pub(crate) fn take_out(row: &mut Vec<(String, Val)>, name: &str)
    requires { IsStrictlySortedBy string_cmp (keys_of row.old.items) }
    ensures entries { row.new.items ≡ remove_entry (is_at (λ k. slice_cmp nat_cmp name.now (string_bytes k))) row.old.items }
    ensures ordered { IsStrictlySortedBy string_cmp (keys_of row.new.items) }
{
    if let Ok(at) = place(row.as_slice(), name) {
        drop(row.remove(at));
    }
}
