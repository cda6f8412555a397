//! The numbers of the places that are hosts' next ones, bit by bit.

ghost use Rattle.std.specs.Prelude.{◌≡◌, ◌<◌, ◌&&◌, ℕ, Bool, IfOk, IfSome, List, [], Some, false, length, map, replicate, slice_index_or, slice_set};
ghost use Rattle.std.specs.Option.{option_map_or};
ghost use Rattle.std.specs.Simd.Lanes.{zip2};
ghost use Rattle.pb_strategies.specs.declared.standings.Standing.{Standing};
ghost use Rattle.pb_strategies.specs.Hosts.{is_next_at, is_unended};
ghost use Rattle.pb_strategies.specs.Numbers.{AreBits, AreNumbered, HaveRoom, agrees, behind_bits, has_bit, number_of, same_bits};

use pb_ids::HostNo;
use pb_planes::HostSet;
use std::alloc::{AllocError, Global};

/// Of each bit of a place's number the hosts whose next place has it. So the hosts at a place are known without a set of its own, 64 of them in a word.
#[derive(Debug, Drop)]
pub(crate) struct Numbers {
    /// From the lowest bit on.
    pub(crate) bits: Vec<HostSet>,
    /// Whether no host's next place has a further bit.
    pub(crate) fits: bool,
}

/// For each bit of a number a set of so many hosts, none of which is in it. The only error is want of memory.
fn empty_bits(alloc: Global, hosts: u32, number: usize) -> Result<Vec<HostSet>, AllocError>
    ensures { IfOk result (λ bits. (k : ℕ) → k < length bits.items → slice_index_or bits.items k [] ≡ replicate hosts false) }
{
    let mut bits = Vec::new(alloc);
    let mut left = number;
    while left > 0 {
        let set = HostSet::empty(alloc, hosts)?;
        bits.push(set)?;
        left /= 2;
    }
    Ok(bits)
}

/// Puts a host into the set of a bit, or takes it out.
fn put_bit(bit: &mut HostSet, host: HostNo, is_set: bool)
    requires { host.0 < length bit.old }
    ensures { bit.new ≡ slice_set bit.old host.0 is_set }
{
    bit.put(host, is_set);
}

/// Puts a host into the sets of the bits that a number has, and takes it out of the others. What is left of the number behind these bits.
fn put_bits(bits: &mut Vec<HostSet>, host: HostNo, number: usize) -> usize
    requires { HaveRoom host.0 bits.old.items }
    ensures long { length bits.new.items ≡ length bits.old.items }
    ensures each { (k : ℕ) → k < length bits.old.items → slice_index_or bits.new.items k [] ≡ slice_set (slice_index_or bits.old.items k []) host.0 (has_bit k number) }
    ensures left { result ≡ behind_bits (length bits.old.items) number }
{
    let count = bits.len();
    let mut left = number;
    for at in 0..count {
        put_bit(&mut bits[at], host, left % 2 == 1);
        left /= 2;
    }
    left
}

/// Keeps the hosts in a set that have a bit, or those that don't.
fn keep_bit(bit: &HostSet, is_set: bool, set: &mut HostSet)
    requires { length set.old ≡ length bit.now }
    ensures { set.new ≡ zip2 (λ a b. a && agrees is_set b) set.old bit.now }
{
    if is_set {
        set.and_with(bit);
    } else {
        set.minus_with(bit);
    }
}

/// Keeps the hosts in a set whose next place has the bits of a number. What is left of the number behind these bits.
fn keep_bits(bits: &[HostSet], number: usize, set: &mut HostSet) -> usize
    requires { (k : ℕ) → k < length bits.now → length set.old ≡ length (slice_index_or bits.now k []) }
    ensures set { (hosts : List Standing) (test : Standing → Bool) → AreBits hosts bits.now → set.old ≡ map test hosts
        → set.new ≡ map (λ (host : Standing). test host && same_bits (length bits.now) (number_of host) number) hosts }
    ensures left { result ≡ behind_bits (length bits.now) number }
{
    let mut left = number;
    for bit in bits {
        keep_bit(bit, left % 2 == 1, set);
        left /= 2;
    }
    left
}

/// The number of a next place.
fn number_in(next: Option<usize>) -> usize
    ensures { result ≡ option_map_or (λ p. p) next 0 }
{
    match next {
        Some(place) => place,
        None => 0,
    }
}

impl Numbers {
    /// None of so many hosts has a next place, of so many. The only error is want of memory.
    pub(crate) fn none(alloc: Global, hosts: u32, places: usize) -> Result<Numbers, AllocError>
        ensures { IfOk result (λ numbers. (k : ℕ) → k < length numbers.bits.items → slice_index_or numbers.bits.items k [] ≡ replicate hosts false) }
    {
        let bits = empty_bits(alloc, hosts, places)?;
        Ok(Numbers { bits, fits: true })
    }

    /// From now on this is the next place of a host.
    pub(crate) fn put(&mut self, host: HostNo, next: Option<usize>)
        requires { HaveRoom host.0 self.old.bits.items }
        ensures { (hosts : List Standing) (standing : Standing) → standing.next ≡ next → AreNumbered hosts self.old.bits.items self.old.fits
            → AreNumbered (slice_set hosts host.0 standing) self.new.bits.items self.new.fits }
    {
        let number = number_in(next);
        let left = put_bits(&mut self.bits, host, number);
        if left > 0 {
            self.fits = false;
        }
    }

    /// The hosts whose next place is this one, of those that have one; none where the bits don't tell it, or where memory is refused.
    pub(crate) fn hosts_at(&self, alloc: Global, unended: &HostSet, place: usize) -> Option<HostSet>
        requires { (k : ℕ) → k < length self.now.bits.items → length unended.now ≡ length (slice_index_or self.now.bits.items k []) }
        ensures { (hosts : List Standing) → unended.now ≡ map is_unended hosts → AreNumbered hosts self.now.bits.items self.now.fits
            → IfSome result (λ set. set ≡ map (is_next_at (Some place)) hosts) }
    {
        if !self.fits {
            return None;
        }
        let Ok(mut set) = unended.try_clone(alloc) else {
            return None;
        };
        let left = keep_bits(self.bits.as_slice(), place, &mut set);
        if left == 0 { Some(set) } else { None }
    }
}
