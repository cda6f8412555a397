//! Sums of counts, eight at a time.

ghost use Rattle.std.specs.Prelude.{◌≡◌, ◌<◌, ◌≤◌, ◌+◌, ◌*◌, ◌^◌, length, drop};
ghost use Rattle.std.specs.List.{sum};
ghost use Rattle.std.specs.Simd.Lanes.{chunk, sum_l};

use std::simd::prelude::*;

/// Eight sums, and the eight counts from 8 times this number on.
fn add_eight(sums: u64x8, counts: &[u32], index: usize) -> u64x8
    requires long { length sums ≡ 8 }
    requires room { 8 * index + 8 ≤ length counts.now }
    requires small { sum_l sums + sum (chunk (8 * index) 8 counts.now) < 2 ^ 64 }
    ensures long { length result ≡ 8 }
    ensures sum { sum_l result ≡ sum_l sums + sum (chunk (8 * index) 8 counts.now) }
{
    sums.strict_add(u32x8::from_slice(&counts[8 * index..]).cast::<u64>())
}

/// The sum of eight sums.
fn sum_of_eight(sums: u64x8) -> u64
    requires long { length sums ≡ 8 }
    requires small { sum_l sums < 2 ^ 64 }
    ensures { result ≡ sum_l sums }
{
    sums.strict_reduce_sum()
}

/// The sum of the counts from `from` on.
fn sum_rest(counts: &[u32], from: usize) -> u64
    requires from { from ≤ length counts.now }
    requires few { length counts.now < 2 ^ 32 }
    ensures { result ≡ sum (drop from counts.now) }
{
    let mut sum = 0;
    for at in from..counts.len() {
        sum += u64::from(counts[at]);
    }
    sum
}

/// The sum of counts.
pub(crate) fn sum_of(counts: &[u32]) -> u64
    requires { length counts.now < 2 ^ 32 }
    ensures { result ≡ sum counts.now }
{
    let whole = counts.len() / 8;
    let mut sums = u64x8::splat(0);
    for index in 0..whole {
        sums = add_eight(sums, counts, index);
    }
    sum_of_eight(sums) + sum_rest(counts, 8 * whole)
}
