//! The batches that are left of a play.

ghost use Rattle.std.specs.Prelude.{◌≡◌, [], drop, slice_get};
ghost use Rattle.pb_hosts.specs.Batches.{has_batch_left};

use std::alloc::Global;
use std::marker::Model;

/// The sizes of the batches that are left of a play.
#[derive(Drop)]
pub struct SizesLeft {
    sizes: Vec<u32>,
    /// How many of them are left no more.
    opened: usize,
}

impl Model for SizesLeft {
    ghost use Rattle.std.specs.Prelude.{ℕ, List, drop};

    ghost Value = { List ℕ };

    ghost view = { λ l. drop l.opened l.sizes.items };
}

/// The first of these sizes.
pub fn first_of(sizes: &[u32]) -> Option<u32>
    ensures { result ≡ slice_get sizes.now 0 }
{
    match sizes.first() {
        Some(size) => Some(*size),
        None => None,
    }
}

impl SizesLeft {
    /// None is left.
    pub fn none(alloc: Global) -> SizesLeft
        ensures { result ≡ [] }
    {
        SizesLeft {
            sizes: Vec::new(alloc),
            opened: 0,
        }
    }

    /// Those behind the first of these.
    pub fn behind(sizes: Vec<u32>) -> SizesLeft
        ensures { result ≡ drop 1 sizes.items }
    {
        SizesLeft { sizes, opened: 1 }
    }

    /// Whether one is left.
    #[tactic(auto, using(crate::proofs::SizesLeft::some_left, crate::proofs::SizesLeft::none_left))]
    pub fn has_some(&self) -> bool
        ensures { result ≡ has_batch_left self.now }
    {
        self.opened < self.sizes.len()
    }

    /// The size of the next one.
    #[tactic(auto, using(crate::proofs::SizesLeft::first_left))]
    pub fn first(&self) -> Option<u32>
        ensures { result ≡ slice_get self.now 0 }
    {
        match self.sizes.get(self.opened) {
            Some(size) => Some(*size),
            None => None,
        }
    }

    /// The next one opens.
    #[tactic(auto, using(crate::proofs::SizesLeft::next_left, crate::proofs::SizesLeft::none_more))]
    pub fn pass(&mut self)
        ensures { self.new ≡ drop 1 self.old }
    {
        if self.opened < self.sizes.len() {
            self.opened += 1;
        }
    }
}
