ghost use Rattle.std.specs.Prelude.{◌≡◌, ◌≢◌, ℕ, ◌<◌, ◌≤◌, ◌+◌, ◌*◌, ◌/◌, ◌==◌, ◌&&◌, ◌||◌, length, replicate, false, true, not, slice_get, slice_set, Some, IfOk, IfSome, IfNone, count_by, vec_len, nat_lt};
ghost use Rattle.std.specs.Int.{bit_at};
ghost use Rattle.std.specs.Simd.Lanes.{zip2};
ghost use Rattle.pb_planes.specs.Words.{bools, combined_bits, has_at};
ghost use Rattle.pb_planes.specs.Set.{has_some, is_in, IsNextFrom, HasNoneFrom, IsMemberAfter};

use crate::span::{Span, begin, of_both, tightened, with_word};
use crate::words::{self, Combine};
use pb_ids::HostNo;
use std::alloc::{AllocError, Global};
use std::marker::Model;

/// A set of host numbers below a width.
#[derive(Debug, Drop)]
pub struct HostSet {
    words: Vec<u64>,
    width: u32,
    /// The words outside of it have no host, so that a walk needn't look at them.
    span: Span,
}

impl Model for HostSet {
    ghost use Rattle.std.specs.Prelude.{ℕ, List, Bool, ◌≡◌, ◌≤◌, ◌<◌, ◌^◌, ◌+◌, ◌/◌, false, vec_len};
    ghost use Rattle.pb_planes.specs.Words.{bools, has_at, AreBetween};

    ghost Value = { List Bool };

    ghost view = { λ s. bools s.words.items s.width };

    ghost invariant = { λ s. (s.width < 2 ^ 32) × (vec_len s.words ≡ (s.width + 63) / 64)
        × ((i : ℕ) → s.width ≤ i → has_at s.words.items i ≡ false)
        × (s.span.high ≤ vec_len s.words)
        × AreBetween s.words.items s.span.low s.span.high };
}

/// How many words of 64 bits hold so many bits.
fn words_for(width: u32) -> usize
    ensures { result ≡ (width + 63) / 64 }
{
    (width as usize + 63) / 64
}

/// Words in which just the bits below the width are set.
fn full_words(alloc: Global, width: u32) -> Result<Vec<u64>, AllocError>
    ensures { IfOk result (λ words. (length words.items ≡ (width + 63) / 64)
        × ((i : ℕ) → i < 64 * length words.items → has_at words.items i ≡ nat_lt i width)) }
{
    let mut words = vec![in alloc; 0; words_for(width)]?;
    words::fill(words.as_mut_slice(), width);
    Ok(words)
}

impl HostSet {
    /// The set of these bits; none past the width is set.
    fn of(words: Vec<u64>, width: u32) -> HostSet
        requires long { vec_len words ≡ (width + 63) / 64 }
        requires past { (i : ℕ) → width ≤ i → has_at words.items i ≡ false }
        ensures { result ≡ bools words.items width }
    {
        let all = Span {
            low: 0,
            high: words.len(),
        };
        let span = tightened(words.as_slice(), all);
        HostSet { words, width, span }
    }

    /// No host, of this many.
    pub fn empty(alloc: Global, width: u32) -> Result<HostSet, AllocError>
        ensures { IfOk result (λ set. set ≡ replicate width false) }
    {
        let words = vec![in alloc; 0; words_for(width)]?;
        Ok(HostSet::of(words, width))
    }

    /// All of this many hosts.
    pub fn full(alloc: Global, width: u32) -> Result<HostSet, AllocError>
        ensures { IfOk result (λ set. set ≡ replicate width true) }
    {
        let words = full_words(alloc, width)?;
        Ok(HostSet::of(words, width))
    }

    /// A copy of the set.
    pub fn try_clone(&self, alloc: Global) -> Result<HostSet, AllocError>
        ensures { IfOk result (λ set. set ≡ self.now) }
    {
        let words = Vec::from_slice(alloc, self.words.as_slice())?;
        let width = self.width;
        let span = self.span;
        Ok(HostSet { words, width, span })
    }

    /// How many hosts there are, in the set or not.
    pub fn width(&self) -> u32
        ensures { result ≡ length self.now }
    {
        self.width
    }

    /// Whether the host is in the set.
    pub fn has(&self, host: HostNo) -> bool
        requires { host.0 < length self.now }
        ensures { slice_get self.now host.0 ≡ Some result }
    {
        words::bit_in(self.words.as_slice(), host.0)
    }

    /// Whether the host is in the set, with any number: none is beyond the width.
    pub fn contains(&self, host: HostNo) -> bool
        ensures { result ≡ is_in self.now host.0 }
    {
        host.0 < self.width() && self.has(host)
    }

    /// Adds a host.
    pub fn insert(&mut self, host: HostNo)
        requires { host.0 < length self.old }
        ensures { self.new ≡ slice_set self.old host.0 true }
    {
        words::put_bit(self.words.as_mut_slice(), host.0, true);
        self.span = with_word(self.span, host.0 as usize / 64);
    }

    /// Takes a host out.
    pub fn remove(&mut self, host: HostNo)
        requires { host.0 < length self.old }
        ensures { self.new ≡ slice_set self.old host.0 false }
    {
        words::put_bit(self.words.as_mut_slice(), host.0, false);
        self.span = tightened(self.words.as_slice(), self.span);
    }

    /// Adds a host or takes it out.
    pub fn put(&mut self, host: HostNo, is_in: bool)
        requires { host.0 < length self.old }
        ensures { self.new ≡ slice_set self.old host.0 is_in }
    {
        if is_in {
            self.insert(host);
        } else {
            self.remove(host);
        }
    }

    /// The 64 hosts from 64 times this number on, all of which lie below the width, are those whose bits are set in the word.
    pub fn put_word(&mut self, index: u32, word: u64)
        requires { 64 * index + 64 ≤ length self.old }
        ensures width { length self.new ≡ length self.old }
        ensures inside { (j : ℕ) → j < 64 → is_in self.new (64 * index + j) ≡ (bit_at word j == 1) }
        ensures others { (i : ℕ) → i / 64 ≢ index → is_in self.new i ≡ is_in self.old i }
    {
        words::put_word(self.words.as_mut_slice(), index as usize, word);
        let span = with_word(self.span, index as usize);
        self.span = tightened(self.words.as_slice(), span);
    }

    /// Adds the hosts of the other set.
    pub fn or_with(&mut self, other: &HostSet)
        requires { length self.old ≡ length other.now }
        ensures { self.new ≡ zip2 (λ a b. a || b) self.old other.now }
    {
        self.combine(Combine::Either, other);
    }

    /// Keeps the hosts that are in the other set too.
    pub fn and_with(&mut self, other: &HostSet)
        requires { length self.old ≡ length other.now }
        ensures { self.new ≡ zip2 (λ a b. a && b) self.old other.now }
    {
        self.combine(Combine::Both, other);
    }

    /// Takes out the hosts of the other set.
    pub fn minus_with(&mut self, other: &HostSet)
        requires { length self.old ≡ length other.now }
        ensures { self.new ≡ zip2 (λ a b. a && not b) self.old other.now }
    {
        self.combine(Combine::Without, other);
    }

    /// Combines the set with another one.
    fn combine(&mut self, how: Combine, other: &HostSet)
        requires { length self.old ≡ length other.now }
        ensures { self.new ≡ zip2 (combined_bits how) self.old other.now }
    {
        words::combine_words(how, self.words.as_mut_slice(), other.words.as_slice());
        let span = of_both(self.span, other.span);
        self.span = tightened(self.words.as_slice(), span);
    }

    /// How many hosts are in the set.
    pub fn count(&self) -> u32
        ensures { result ≡ count_by (λ b. b) self.now }
    {
        // (the width's range is known to the proof once it is read)
        let _width = self.width;
        words::count_in(self.words.as_slice()) as u32
    }

    /// Whether no host is in the set.
    pub fn is_empty(&self) -> bool
        ensures { result ≡ not (has_some self.now) }
    {
        // (the width's range is known to the proof once it is read)
        let _width = self.width;
        match words::next_in(self.words.as_slice(), self.span.low, 0, self.span.high) {
            Some(_) => false,
            None => true,
        }
    }

    /// The least host of the set whose number is at least `from`, which may be any number.
    pub fn next_at(&self, from: u32) -> Option<HostNo>
        ensures some { IfSome result (λ host. IsNextFrom self.now from host.0) }
        ensures none { IfNone result (HasNoneFrom self.now from) }
    {
        // (the width's range is known to the proof once it is read)
        let _width = self.width;
        let (first, place) = begin(self.span, from);
        match words::next_in(self.words.as_slice(), first, place, self.span.high) {
            Some(at) => Some(HostNo(at)),
            None => None,
        }
    }

    /// The host of the set that has `before` members below it: 0 gives the least.
    pub fn nth(&self, before: u32) -> Option<HostNo>
        ensures some { IfSome result (λ host. IsMemberAfter self.now before host.0) }
        ensures none { IfNone result (count_by (λ b. b) self.now ≤ before) }
    {
        // (the width's range is known to the proof once it is read)
        let _width = self.width;
        match words::nth_in(self.words.as_slice(), before) {
            Some(at) => Some(HostNo(at)),
            None => None,
        }
    }
}
