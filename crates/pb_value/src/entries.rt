//! The entries of a dict, one after another.
ghost use Rattle.std.specs.Prelude.{◌≡◌, length};
ghost use Rattle.std.specs.Iterator.{at_most};
ghost use Rattle.std.specs.List.Sorted.{IsStrictlySortedBy};
ghost use Rattle.std.specs.Map.{keys_of};
ghost use Rattle.std.specs.Map.Iter.{TakesFirst, deref_pair};
ghost use Rattle.std.specs.String.{string_cmp};
ghost use Rattle.pb_value.specs.Datum.{named};
ghost use Rattle.pb_value.specs.Left.{shared_left};

use crate::val::{Dict, Store, Val};
use std::collections::btree_map;
use std::marker::Model;
use std::slice;

/// Entries that are left, of a row or of a tree, which contracts see as their list.
#[derive(Drop)]
pub struct Entries<'a, K, V> {
    left: Left<'a, K, V>,
}

#[derive(Drop)]
enum Left<'a, K, V> {
    Few(slice::Iter<'a, (K, V)>),
    Many(btree_map::Iter<'a, K, V>),
    Named(Shared<'a, K, V>),
}

/// Names that are kept for many, the values of those that have one, and a bit for each that has none.
#[derive(Drop)]
struct Shared<'a, K, V> {
    names: slice::Iter<'a, K>,
    values: slice::Iter<'a, V>,
    gone: u64,
}

impl<'a, K, V> Model for Entries<'a, K, V> {
    ghost use Rattle.std.specs.Prelude.{List};
    ghost use Rattle.pb_value.specs.Left.{entries_left};

    ghost Value = { List (K × V) };

    ghost view = { λ e. entries_left e.left };
}

/// The next of the names that has a value, with that value.
#[tactic(auto, using(crate::proofs::KeptNames::skip_gone, crate::proofs::KeptNames::next_here, crate::proofs::KeptNames::none_kept_left))]
fn next_kept<'a, K, V>(left: &mut Shared<'a, K, V>) -> Option<(&'a K, &'a V)>
    ensures { TakesFirst deref_pair (shared_left left.old) result (shared_left left.new) }
{
    while left.gone % 2 == 1 {
        let _ = left.names.next();
        left.gone /= 2;
    }
    left.gone /= 2;
    match left.names.next() {
        Some(name) => match left.values.next() {
            Some(value) => Some((name, value)),
            None => None,
        },
        None => None,
    }
}

impl<'a, K, V> Iterator for Entries<'a, K, V> {
    type Item = (&'a K, &'a V);

    ghost next_gives = { TakesFirst deref_pair };

    ghost remaining = { λ s. at_most (length s) };

    fn next(&mut self) -> Option<(&'a K, &'a V)> {
        match &mut self.left {
            Left::Few(row) => match row.next() {
                Some((key, value)) => Some((key, value)),
                None => None,
            },
            Left::Many(tree) => tree.next(),
            Left::Named(left) => next_kept(left),
        }
    }
}

impl Dict {
    /// The names with their values, in byte order.
    pub fn iter(&self) -> Entries<'_, String, Val>
        ensures entries { named result ≡ self.now }
        ensures ordered { IsStrictlySortedBy string_cmp (keys_of result) }
    {
        match &self.store {
            Store::Few(row) => Entries {
                left: Left::Few(row.iter()),
            },
            Store::Many(tree) => Entries {
                left: Left::Many(tree.iter()),
            },
            Store::Named(names, values, gone) => Entries {
                left: Left::Named(Shared {
                    names: names.as_slice().iter(),
                    values: values.as_slice().iter(),
                    gone: *gone,
                }),
            },
        }
    }
}
