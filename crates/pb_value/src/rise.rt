//! A row of entries becomes a tree, and what is put into it.
ghost use Rattle.std.specs.Prelude.{◌≡◌, ◌≤◌, ◌<◌, [], ◌∷◌, ◌++◌, None, IsTrue, IsSome, IfOk, OnOk, OnErr, length, string_bytes};
ghost use Rattle.std.specs.BTreeMap.{insert_entry};
ghost use Rattle.std.specs.List.Sorted.{IsStrictlySortedBy};
ghost use Rattle.std.specs.Map.{keys_of};
ghost use Rattle.std.specs.String.{string_cmp};
ghost use Rattle.std.specs.Vec.{vec_len, vec_capacity};
ghost use Rattle.pb_value.specs.Datum.{named, value_at};
ghost use Rattle.pb_value.specs.Held.{held, values_in};

use crate::val::{Store, Val};
use std::alloc::AllocError;
use std::collections::BTreeMap;

/// An entry that was taken from the end of a row stands there again, where there still is room for it.
fn put_back(row: &mut Vec<(String, Val)>, entry: (String, Val))
    requires { vec_len row.old < vec_capacity row.old }
    ensures items { row.new.items ≡ row.old.items ++ entry ∷ [] }
    ensures room { vec_capacity row.old ≤ vec_capacity row.new }
{
    match row.push(entry) {
        Ok(()) => {}
        Err(_) => unreachable!(),
    }
}

/// The entries of a row go to a tree, from the last on, as far as there is memory for it: whether all went.
#[tactic(auto, using(crate::proofs::Ordered::moved_up))]
fn move_up(row: &mut Vec<(String, Val)>, tree: &mut BTreeMap<String, Val>) -> bool
    requires ordered { IsStrictlySortedBy string_cmp (keys_of (row.old.items ++ tree.old.entries)) }
    requires room { length (row.old.items ++ tree.old.entries) ≤ vec_capacity row.old }
    ensures entries { row.new.items ++ tree.new.entries ≡ row.old.items ++ tree.old.entries }
    ensures room { vec_capacity row.old ≤ vec_capacity row.new }
    ensures all { IsTrue result → row.new.items ≡ [] }
{
    while let Some((name, value)) = row.pop() {
        match tree.insert(name, value) {
            Ok(before) => drop(before),
            Err(refused) => {
                put_back(row, refused.value);
                return false;
            }
        }
    }
    true
}

/// The entries of a tree go to the end of a row that has room for them.
fn move_down(row: &mut Vec<(String, Val)>, tree: &mut BTreeMap<String, Val>)
    requires { length (row.old.items ++ tree.old.entries) ≤ vec_capacity row.old }
    ensures { row.new.items ≡ row.old.items ++ tree.old.entries }
{
    while let Some(entry) = tree.pop_first() {
        put_back(row, entry);
    }
}

/// The entries of a row in a tree, or in the row where there is no memory for it.
pub(crate) fn risen(row: Vec<(String, Val)>) -> Store
    requires { IsStrictlySortedBy string_cmp (keys_of row.items) }
    ensures entries { held result ≡ row.items }
    ensures all { values_in result ≡ length (held result) }
{
    let mut row = row;
    // (it has that room; so the entries can go back)
    if row.reserve(0).is_err() {
        return Store::Few(row);
    }
    let mut tree = BTreeMap::new(*row.allocator());
    if move_up(&mut row, &mut tree) {
        return Store::Many(tree);
    }
    move_down(&mut row, &mut tree);
    Store::Few(row)
}

/// Puts a value under a name of a tree, and hands back the one that stood there. Only a name that is new can be refused memory.
pub(crate) fn plant(
    tree: &mut BTreeMap<String, Val>,
    name: String,
    value: Val,
) -> Result<Option<Val>, AllocError>
    ensures entries { OnOk result (tree.new.entries ≡ insert_entry string_cmp tree.old.entries name value) }
    ensures before { IfOk result (λ before. before ≡ value_at (string_bytes name) (named tree.old.entries)) }
    ensures stays { IfOk result (λ before. IsSome before → length tree.new.entries ≡ length tree.old.entries) }
    ensures absent { OnErr result (value_at (string_bytes name) (named tree.old.entries) ≡ None) }
    ensures err { OnErr result (tree.new.entries ≡ tree.old.entries) }
    ensures ordered { IsStrictlySortedBy string_cmp (keys_of tree.new.entries) }
{
    let before = tree.insert(name, value)?;
    Ok(before)
}
