//! Words of 64 bits, eight at a time.

ghost use Rattle.std.specs.Prelude.{◌≡◌, ℕ, ◌+◌, ◌*◌, ◌/◌, ◌-◌, ◌<◌, ◌≤◌, ◌^◌, ◌==◌, length, slice_index, IfSome, IfNone, true, false, nat_lt, ◌≢◌};
ghost use Rattle.std.specs.Int.{bit_at};
ghost use Rattle.std.specs.Simd.Lanes.{zip2};
ghost use Rattle.pb_planes.specs.declared.words.Combine.TheVariants.{Either, Both, Without};
ghost use Rattle.pb_planes.specs.Words.{combined, has_at, members, ones_below};

use std::simd::prelude::*;

/// How two sets become one.
#[derive(Clone, Copy, Debug)]
pub(crate) enum Combine {
    /// What is in one of them.
    Either,
    /// What is in both.
    Both,
    /// What is in the first and not in the second.
    Without,
}

/// Each word of `to` combined with the word of `from` beside it, eight at a time and then one by one.
pub(crate) fn combine_words(how: Combine, to: &mut [u64], from: &[u64])
    requires { length to.old ≡ length from.now }
    ensures long { length to.new ≡ length to.old }
    ensures words { (k : ℕ) → k < length to.old → slice_index to.new k
        ≡ combined how (slice_index to.old k) (slice_index from.now k) }
{
    let mut at = 0;
    while at + 8 <= to.len() {
        combine_eight(how, to, from, at);
        at += 8;
    }
    combine_rest(how, to, from, at);
}

/// The words from `at` on, one by one.
fn combine_rest(how: Combine, to: &mut [u64], from: &[u64], at: usize)
    requires { length to.old ≡ length from.now }
    ensures long { length to.new ≡ length to.old }
    ensures inside { (k : ℕ) → at ≤ k → k < length to.old → slice_index to.new k
        ≡ combined how (slice_index to.old k) (slice_index from.now k) }
    ensures below { (k : ℕ) → k < at → slice_index to.new k ≡ slice_index to.old k }
{
    for i in at..to.len() {
        to[i] = combine_word(how, to[i], from[i]);
    }
}

fn combine_word(how: Combine, mine: u64, its: u64) -> u64
    ensures { result ≡ combined how mine its }
{
    match how {
        Combine::Either => mine | its,
        Combine::Both => mine & its,
        Combine::Without => mine ^ (mine & its),
    }
}

/// Eight words from `at` on, by lanes.
fn combine_eight(how: Combine, to: &mut [u64], from: &[u64], at: usize)
    requires long { length to.old ≡ length from.now }
    requires room { at + 8 ≤ length to.old }
    ensures long { length to.new ≡ length to.old }
    ensures inside { (k : ℕ) → at ≤ k → k < at + 8 → slice_index to.new k
        ≡ combined how (slice_index to.old k) (slice_index from.now k) }
    ensures below { (k : ℕ) → k < at → slice_index to.new k ≡ slice_index to.old k }
    ensures above { (k : ℕ) → at + 8 ≤ k → slice_index to.new k ≡ slice_index to.old k }
{
    let made = combine_lanes(
        how,
        u64x8::from_slice(&to[at..]),
        u64x8::from_slice(&from[at..]),
    );
    made.copy_to_slice(&mut to[at..]);
}

fn combine_lanes(how: Combine, mine: u64x8, its: u64x8) -> u64x8
    ensures { result ≡ zip2 (combined how) mine its }
{
    match how {
        Combine::Either => either(mine, its),
        Combine::Both => both(mine, its),
        Combine::Without => without(mine, its),
    }
}

fn either(mine: u64x8, its: u64x8) -> u64x8
    ensures { result ≡ zip2 (combined Either) mine its }
{
    mine | its
}

fn both(mine: u64x8, its: u64x8) -> u64x8
    ensures { result ≡ zip2 (combined Both) mine its }
{
    mine & its
}

fn without(mine: u64x8, its: u64x8) -> u64x8
    ensures { result ≡ zip2 (combined Without) mine its }
{
    mine ^ (mine & its)
}

/// Sets the bits below the width, and no other.
pub(crate) fn fill(words: &mut [u64], width: u32)
    requires { 64 * length words.old ≤ 2 ^ 33 }
    ensures long { length words.new ≡ length words.old }
    ensures bits { (i : ℕ) → i < 64 * length words.old → has_at words.new i ≡ nat_lt i width }
{
    for index in 0..words.len() {
        words[index] = full_word(index as u64 * 64, width as u64);
    }
}

/// The word with the bits of the numbers from `first` on that are below the width.
fn full_word(first: u64, width: u64) -> u64
    ensures { (j : ℕ) → j < 64 → (bit_at result j == 1) ≡ nat_lt (first + j) width }
{
    if width <= first {
        0
    } else if width - first < 64 {
        u64::MAX >> (64 - (width - first))
    } else {
        u64::MAX
    }
}

/// Whether the bit of the word is set.
fn bit_of(word: u64, j: u32) -> bool
    requires { j < 64 }
    ensures { result ≡ (bit_at word j == 1) }
{
    word >> j & 1 == 1
}

/// How many bits of the word are set.
fn ones_of(word: u64) -> u32
    ensures ones { result ≡ ones_below word 64 }
    ensures most { result ≤ 64 }
{
    word.count_ones()
}

/// Whether the bit is set.
pub(crate) fn bit_in(words: &[u64], i: u32) -> bool
    requires { i < 64 * length words.now }
    ensures { result ≡ has_at words.now i }
{
    bit_of(words[i as usize / 64], i % 64)
}

/// Sets a bit or clears it.
pub(crate) fn put_bit(words: &mut [u64], i: u32, is_in: bool)
    requires { i < 64 * length words.old }
    ensures long { length words.new ≡ length words.old }
    ensures here { has_at words.new i ≡ is_in }
    ensures others { (k : ℕ) → k ≢ i → has_at words.new k ≡ has_at words.old k }
{
    let index = i as usize / 64;
    let bit = 1 << (i % 64);
    if is_in {
        words[index] |= bit;
    } else {
        words[index] &= !bit;
    }
}

/// Puts one word in place of another.
pub(crate) fn put_word(words: &mut [u64], index: usize, word: u64)
    requires { index < length words.old }
    ensures long { length words.new ≡ length words.old }
    ensures inside { (j : ℕ) → j < 64 → has_at words.new (64 * index + j) ≡ (bit_at word j == 1) }
    ensures others { (i : ℕ) → i / 64 ≢ index → has_at words.new i ≡ has_at words.old i }
{
    words[index] = word;
}

/// How many bits are set.
pub(crate) fn count_in(words: &[u64]) -> u64
    requires { 64 * length words.now ≤ 2 ^ 33 }
    ensures { result ≡ members words.now (64 * length words.now) }
{
    let mut count = 0;
    for index in 0..words.len() {
        count += ones_of(words[index]) as u64;
    }
    count
}

/// The least bit of the words from a place of the first one on and below the end.
pub(crate) fn next_in(words: &[u64], first: usize, place: u32, end: usize) -> Option<u32>
    requires small { 64 * length words.now ≤ 2 ^ 32 }
    requires place { place < 64 }
    requires within { end ≤ length words.now }
    ensures some { IfSome result (λ h. (64 * first + place ≤ h) × (has_at words.now h ≡ true)
        × ((i : ℕ) → 64 * first + place ≤ i → i < h → has_at words.now i ≡ false)) }
    ensures none { IfNone result ((i : ℕ) → 64 * first + place ≤ i → i < 64 * end → has_at words.now i ≡ false) }
{
    let mut start = place;
    for index in first..end {
        if let Some(bit) = first_from(words[index], start) {
            return Some(index as u32 * 64 + bit);
        }
        start = 0;
    }
    None
}

/// The least bit of the word from `k` on.
fn first_from(word: u64, k: u32) -> Option<u32>
    requires { k < 64 }
    ensures some { IfSome result (λ j. (k ≤ j) × (j < 64) × (bit_at word j ≡ 1)
        × ((i : ℕ) → k ≤ i → i < j → bit_at word i ≡ 0)) }
    ensures none { IfNone result ((i : ℕ) → k ≤ i → i < 64 → bit_at word i ≡ 0) }
{
    let high = word & (u64::MAX << k);
    if high == 0 {
        None
    } else {
        Some(high.trailing_zeros())
    }
}

/// The bit that is set and has `before` set ones below it.
pub(crate) fn nth_in(words: &[u64], before: u32) -> Option<u32>
    requires { 64 * length words.now ≤ 2 ^ 32 }
    ensures some { IfSome result (λ h. (has_at words.now h ≡ true) × (members words.now h ≡ before)) }
    ensures none { IfNone result (members words.now (64 * length words.now) ≤ before) }
{
    let mut left = before;
    for index in 0..words.len() {
        let ones = ones_of(words[index]);
        if left < ones {
            return Some(index as u32 * 64 + nth_of_word(words[index], left));
        }
        left -= ones;
    }
    None
}

/// The bit of the word that is set and has `before` set ones below it.
fn nth_of_word(word: u64, before: u32) -> u32
    requires { before < ones_below word 64 }
    ensures below { result < 64 }
    ensures set { (bit_at word result == 1) ≡ true }
    ensures before { ones_below word result ≡ before }
{
    let mut left = before;
    for j in 0..64 {
        if bit_of(word, j) {
            if left == 0 {
                return j;
            }
            left -= 1;
        }
    }
    0
}
