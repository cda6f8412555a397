//! The work that `bench/sets` measures: one operation on sets of 1,048,576 hosts, so many times.
//!
//! Its words are OPERATION (`union`, `intersection`, `exclusion`, `count` or `walk`) and ROUNDS. The first set holds the even numbers, the
//! second those that 3 divides; each round puts one more host into the first one, so that no two rounds are the same work. It prints one
//! number that depends on every round, by which the two programs of the bench are compared. Other words end it with status 1.
#![tactic(auto)]

use pb_ids::HostNo;
use pb_planes::HostSet;
use std::alloc::{AllocError, Global};
use std::env;
use std::process::ExitCode;

const WIDTH: u32 = 1_048_576;

/// What is measured.
#[derive(Clone, Copy, Debug)]
enum Operation {
    Union,
    Intersection,
    Exclusion,
    Count,
    Walk,
}

fn operation_of(word: &str) -> Option<Operation> {
    match word {
        "union" => Some(Operation::Union),
        "intersection" => Some(Operation::Intersection),
        "exclusion" => Some(Operation::Exclusion),
        "count" => Some(Operation::Count),
        "walk" => Some(Operation::Walk),
        _ => None,
    }
}

/// The multiples of 2, or else of 3.
fn multiples(alloc: Global, is_even: bool) -> Result<HostSet, AllocError> {
    let mut set = HostSet::empty(alloc, WIDTH)?;
    for number in 0..WIDTH {
        let is_in = if is_even {
            number % 2 == 0
        } else {
            number % 3 == 0
        };
        if number < set.width() && is_in {
            set.insert(HostNo(number));
        }
    }
    Ok(set)
}

/// How many hosts `next_at` finds, walking up from 0.
fn walked(set: &HostSet) -> u64 {
    let mut found = 0u64;
    let mut from = 0;
    for _ in 0..set.width() {
        let Some(host) = set.next_at(from) else {
            return found;
        };
        found = found.wrapping_add(1);
        from = host.0.saturating_add(1);
    }
    found
}

/// One round: what it counts, where it counts something.
fn round(operation: Operation, mine: &mut HostSet, its: &HostSet) -> u64 {
    if mine.width() != its.width() {
        return 0;
    }
    match operation {
        Operation::Union => mine.or_with(its),
        Operation::Intersection => mine.and_with(its),
        Operation::Exclusion => mine.minus_with(its),
        Operation::Count => return mine.count() as u64,
        Operation::Walk => return walked(mine),
    }
    0
}

/// What all rounds counted, and the hosts that are left in the set.
fn total(alloc: Global, operation: Operation, rounds: u32) -> Result<u64, AllocError> {
    let mut mine = multiples(alloc, true)?;
    let its = multiples(alloc, false)?;
    let mut total = 0u64;
    for at in 0..rounds {
        let number = at % WIDTH;
        if number < mine.width() {
            mine.insert(HostNo(number));
        }
        total = total.wrapping_add(round(operation, &mut mine, &its));
    }
    Ok(total.wrapping_add(mine.count() as u64))
}

/// The operation and the rounds that the words ask for.
fn asked(words: &[String]) -> Option<(Operation, u32)> {
    let operation = operation_of(words.get(1)?.as_str())?;
    let rounds = words.get(2)?.as_str().parse::<u32>().ok()?;
    Some((operation, rounds))
}

fn main(rt: HostRuntime) -> ExitCode {
    let words: Vec<String> = match env::args(&rt).map(|args| args.collect(rt.alloc())) {
        Ok(Ok(words)) => words,
        _ => return ExitCode::FAILURE,
    };
    let Some((operation, rounds)) = asked(words.as_slice()) else {
        return ExitCode::FAILURE;
    };
    match total(rt.alloc(), operation, rounds) {
        Ok(number) => {
            let _ = println!(rt; "{number}");
            ExitCode::SUCCESS
        }
        Err(_) => ExitCode::FAILURE,
    }
}
