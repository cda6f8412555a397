//! Bytes, 64 at a time.

ghost use Rattle.std.specs.Prelude.{◌≡◌, ◌<◌, ◌≤◌, ◌+◌, ◌*◌, ◌^◌, ◌==◌, ℕ, length, map, drop, count_by, count_ones, slice_index};
ghost use Rattle.std.specs.Int.{bit_at};
ghost use Rattle.std.specs.Simd.Lanes.{chunk};
ghost use Rattle.pb_planes.specs.Set.{is_in};
ghost use Rattle.pb_lanes.specs.Bytes.{is_byte};

use pb_ids::HostNo;
use pb_planes::HostSet;
use std::simd::prelude::*;

/// Which of the 64 bytes from 64 times this number on are this one, each as a bit.
fn hits(bytes: &[u8], index: usize, byte: u8) -> u64
    requires { 64 * index + 64 ≤ length bytes.now }
    ensures bits { (j : ℕ) → j < 64 → (bit_at result j == 1) ≡ is_byte byte (slice_index bytes.now (64 * index + j)) }
    ensures ones { count_ones result ≡ count_by (is_byte byte) (chunk (64 * index) 64 bytes.now) }
{
    u8x64::from_slice(&bytes[64 * index..])
        .simd_eq(u8x64::splat(byte))
        .to_bitmask()
}

/// Puts the places of the bytes from `from` on that are this one into a set.
fn select_rest(bytes: &[u8], byte: u8, from: usize, set: &mut HostSet)
    requires width { length set.old ≡ length bytes.now }
    requires few { length bytes.now < 2 ^ 32 }
    ensures width { length set.new ≡ length set.old }
    ensures inside { (i : ℕ) → from ≤ i → i < length set.old → is_in set.new i ≡ is_byte byte (slice_index bytes.now i) }
    ensures below { (i : ℕ) → i < from → is_in set.new i ≡ is_in set.old i }
{
    for at in from..bytes.len() {
        set.put(HostNo(at as u32), bytes[at] == byte);
    }
}

/// Puts the places of the bytes that are this one into a set, and no others.
pub(crate) fn select_in(bytes: &[u8], byte: u8, set: &mut HostSet)
    requires width { length set.old ≡ length bytes.now }
    requires few { length bytes.now < 2 ^ 32 }
    ensures { set.new ≡ map (is_byte byte) bytes.now }
{
    let whole = bytes.len() / 64;
    for index in 0..whole {
        set.put_word(index as u32, hits(bytes, index, byte));
    }
    select_rest(bytes, byte, 64 * whole, set);
}

/// How many of the bytes from `from` on are this one.
fn count_rest(bytes: &[u8], byte: u8, from: usize) -> u32
    requires from { from ≤ length bytes.now }
    requires few { length bytes.now < 2 ^ 32 }
    ensures { result ≡ count_by (is_byte byte) (drop from bytes.now) }
{
    let mut count = 0;
    for at in from..bytes.len() {
        if bytes[at] == byte {
            count += 1;
        }
    }
    count
}

/// How many of the bytes are this one.
pub(crate) fn count_in(bytes: &[u8], byte: u8) -> u32
    requires { length bytes.now < 2 ^ 32 }
    ensures { result ≡ count_by (is_byte byte) bytes.now }
{
    let whole = bytes.len() / 64;
    let mut count = 0;
    for index in 0..whole {
        count += hits(bytes, index, byte).count_ones();
    }
    count + count_rest(bytes, byte, 64 * whole)
}
