//! The jobs of a loop: which items are sent, and under which tickets; and the longest loop.

use crate::events_text::events_text;
use crate::trails::plan_of;
use pb_driver::{Lowest, Silent, run_plain};
use pb_runner::table::TableRunner;
use std::alloc::{AllocError, Global};
use std::test::Fail;

/// A loop on host a alone, whose second item is skipped.
const LOOP: &str =
    "[{\"hosts\":\"a\",\"gather_facts\":false,\"tasks\":[{\"command\":\"run {{ item }}\",\"loop\":[\"x\",\"y\",\"z\"],\"when\":\"item != 'y'\",\"ignore_errors\":true,\"register\":\"r\"}]}]";

/// The third item fails.
const OUTCOMES: &[u8] =
    b"{\"rows\":[{\"item\":2,\"outcome\":{\"err\":\"\",\"out\":\"\",\"rc\":1}}]}";

fn runner(alloc: Global) -> Result<TableRunner, Fail> {
    match TableRunner::read(alloc, OUTCOMES) {
        Ok(runner) => Ok(runner),
        Err(_) => Err(Fail::new("a table")),
    }
}

/// The events of a run of the loop to its good end.
fn trail_of(alloc: Global, forks: u32) -> Result<String, Fail> {
    let mut runner = runner(alloc)?;
    let plan = plan_of(alloc, LOOP, forks)?;
    let ended = match run_plain(alloc, plan, &mut runner, &mut Lowest, &[], &mut Silent) {
        Ok(ended) => ended,
        Err(_) => return Err(Fail::new("an end")),
    };
    let text = events_text(alloc, ended.trail.as_slice())?;
    if ended.status != 0 {
        return Err(Fail::new("a good end"));
    }
    Ok(text)
}

#[test]
fn skipped_items_are_not_sent(rt: HostRuntime) -> Result<(), Fail> {
    for forks in [1, 5] {
        let trail = trail_of(rt.alloc(), forks)?;
        assert_eq!(rt;
            trail.as_str(),
            "open, start 0, send 0 0 as 0, report 0 0 of 0, send 0 2 as 1, report 0 2 of 1, turn, close, "
        );
    }
    Ok(())
}

/// A playbook of one command on host a alone, for each of so many items, but of one at least.
fn counted(alloc: Global, items: u32) -> Result<String, AllocError> {
    let mut text = String::from_str(
        alloc,
        "[{\"hosts\":\"a\",\"gather_facts\":false,\"tasks\":[{\"command\":\"run {{ item }}\",\"loop\":[0",
    )?;
    for item in 1..items {
        write!(text, ",{item}")?;
    }
    text.push_str("]}]}]")?;
    Ok(text)
}

/// Whether a run of so many items ends with this exit status, after so many events.
fn ends_so(alloc: Global, items: u32, status: u8, events: usize) -> Result<bool, Fail> {
    let Ok(mut runner) = TableRunner::read(alloc, b"{\"rows\":[]}") else {
        return Err(Fail::new("a table"));
    };
    let playbook = counted(alloc, items)?;
    let plan = plan_of(alloc, playbook.as_str(), 1)?;
    match run_plain(alloc, plan, &mut runner, &mut Lowest, &[], &mut Silent) {
        Ok(ended) => Ok(ended.status == status && ended.trail.len() == events),
        Err(_) => Err(Fail::new("an end")),
    }
}

/// Each of 10,000 items goes out and comes back. Of one more none does, and the task fails.
#[test]
fn the_longest_loop(rt: HostRuntime) -> Result<(), Fail> {
    let alloc = rt.alloc();
    assert!(rt; ends_so(alloc, 10_000, 0, 20_004)?);
    assert!(rt; ends_so(alloc, 10_001, 2, 4)?);
    Ok(())
}
