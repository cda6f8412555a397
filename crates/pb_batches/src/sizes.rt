//! The sizes of a play's batches.

ghost use Rattle.std.specs.Prelude.{◌≡◌, ◌≤◌, min, IfOk};
ghost use Rattle.std.specs.List.{All, sum};
ghost use Rattle.pb_batches.specs.Sizes.{asked, first_size, entries_behind, batch_sizes};

use crate::serial::{Entry, Serial};
use std::alloc::{AllocError, Global};

/// A number, but not more than the hosts that are left.
fn at_most(left: u32, number: u64) -> u32
    ensures { result ≡ min left number }
{
    if number < left as u64 {
        number as u32
    } else {
        left
    }
}

/// How many of the hosts that are left join a batch of this size.
fn size_by(entry: Entry, hosts: u32, left: u32) -> u32
    ensures { result ≡ min left (asked hosts left entry) }
{
    match entry {
        Entry::Number(number) => match u64::try_from(number) {
            Ok(0) | Err(_) => left,
            Ok(size) => at_most(left, size),
        },
        Entry::Percent(percent) => {
            let part = hosts as u64 * percent as u64 / 100;
            at_most(left, part.max(1))
        }
    }
}

/// The size of the next batch.
fn first_size(entries: &[Entry], hosts: u32, left: u32) -> u32
    ensures { result ≡ first_size hosts left entries.now }
{
    match entries.first() {
        Some(entry) => size_by(*entry, hosts, left),
        None => left,
    }
}

/// What is said of the batches behind the next one.
fn entries_behind(entries: &[Entry]) -> &[Entry]
    ensures { result.now ≡ entries_behind entries.now }
{
    if entries.len() > 1 {
        &entries[1..]
    } else {
        entries
    }
}

/// The sizes of the batches of so many hosts: they add up to these, and no batch is empty. The only error is want of memory.
pub fn batches(alloc: Global, serial: &Serial, hosts: u32) -> Result<Vec<u32>, AllocError>
    ensures sizes { IfOk result (λ sizes. sizes.items ≡ batch_sizes serial.now.entries hosts) }
    ensures total { IfOk result (λ sizes. sum sizes.items ≡ hosts) }
    ensures filled { IfOk result (λ sizes. All (λ size. 1 ≤ size) sizes.items) }
{
    let mut sizes = Vec::new(alloc);
    let mut rest = serial.entries.as_slice();
    let mut left = hosts;
    while left > 0 {
        let size = first_size(rest, hosts, left);
        sizes.push(size)?;
        left -= size;
        rest = entries_behind(rest);
    }
    Ok(sizes)
}
