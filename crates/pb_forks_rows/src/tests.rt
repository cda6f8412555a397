use crate::jobs::{job, report_of};
use crate::row::one_job;
use pb_forks::Pool;
use pb_outcome::cause::Cause;
use pb_outcome::job::{Allows, Job};
use pb_outcome::outcome::Outcome;
use pb_runner::runner::Runner;
use pb_value::text::Text;
use std::alloc::Global;
use std::fs;
use std::test::Fail;

#[derive(Drop)]
struct Silent;

impl Allows for Silent {
    ghost allows = { λ _ _. Unit {0} };
}

impl Runner for Silent {
    ghost gives = { λ _ _ _. Unit {0} };

    ghost ran = { λ _ _ _. Unit {0} };

    ghost ran_none = { λ _. tt };

    ghost ran_more = { λ _ _ _ _ _ _ _. tt };

    fn run(&mut self, _alloc: Global, _job: &Job) -> Outcome {
        Outcome::not_started(Cause::CannotStart)
    }
}

#[test]
fn one_job_goes_through(rt: HostRuntime) {
    assert!(rt; one_job(rt.alloc(), &mut Silent).is_ok());
}

// A pool that is dropped with a job in one slot and a report in another.
fn dropped(alloc: Global, text: &str) -> Result<(), Fail> {
    let (pool, mut main, mut seats) = Pool::<Silent>::new(alloc, 2)?;
    let Some(mut seat) = seats.pop() else {
        return Err("seats")?;
    };
    pool.offer(&mut main, 1, job(alloc, 0, text)?);
    let Ok(taken) = pool.try_take(&mut seat) else {
        return Err("nothing to take")?;
    };
    let Ok(outcome) = Outcome::ran(0, Text::from_str(alloc, text)?, Text::new(alloc)) else {
        return Err("outcome")?;
    };
    pool.answer(&mut seat, report_of(&taken, outcome));
    pool.offer(&mut main, 0, job(alloc, 1, text)?);
    drop(pool);
    Ok(())
}

// How many pages of memory the process uses.
fn pages(rt: &HostRuntime) -> Result<u64, Fail> {
    let text = fs::read_to_string(rt, "/proc/self/statm")?;
    let Some(word) = text.split_whitespace().nth(1) else {
        return Err("statm")?;
    };
    let Ok(pages) = word.parse::<u64>() else {
        return Err("statm")?;
    };
    Ok(pages)
}

// 400 pools with half a mebibyte in their slots each would leave 200 mebibytes if they were not dropped, and a slot
// that is dropped twice ends the process.
#[test]
fn a_dropped_pool_drops_what_lies_in_its_slots(rt: HostRuntime) -> Result<(), Fail> {
    let mut text = String::new(rt.alloc());
    for _ in 0..32_768u32 {
        text.push_str("12345678")?;
    }
    dropped(rt.alloc(), text.as_str())?;
    let before = pages(&rt)?;
    for _ in 0..400u32 {
        dropped(rt.alloc(), text.as_str())?;
    }
    let after = pages(&rt)?;
    assert!(rt; after < before || after - before < 10_000);
    Ok(())
}
