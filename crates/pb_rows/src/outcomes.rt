//! Files of many outcomes, and of the longest texts in them.

use crate::kept::Kept;
use crate::made::inventory;
use crate::seen::{Seen, play_texts};
use std::alloc::{AllocError, Global};
use std::fs;
use std::fs::Files;
use std::process::{Processes, SystemProcess};
use std::sync::Wait;
use std::test::Fail;
use std::thread::Threads;
use std::time::Clock;

/// How many hosts have outcomes.
const HOSTS: u32 = 2_000;

/// A file of outcomes with this many rows, of which those of place 2 fit no job, and the last makes the last host fail.
fn rows(alloc: Global, rows: u32) -> Result<String, AllocError> {
    let mut text = String::from_str(alloc, "{\"rows\":[")?;
    for row in 0..rows {
        let host = row % HOSTS;
        write!(
            text,
            "{{\"host\":\"h{host}\",\"item\":{row},\"outcome\":{{\"err\":\"\",\"out\":\"\",\"rc\":2}},\"place\":\"2\"}},"
        )?;
    }
    text.push_str("{\"host\":\"h1999\",\"outcome\":{\"err\":\"\",\"out\":\"\",\"rc\":1}}]}")?;
    Ok(text)
}

/// A file of outcomes with one output of this many bytes.
fn output(alloc: Global, bytes: usize) -> Result<String, AllocError> {
    let mut text = String::from_str(alloc, "{\"rows\":[{\"outcome\":{\"err\":\"\",\"out\":\"")?;
    for _ in 0..bytes {
        text.push('x')?;
    }
    text.push_str("\",\"rc\":0}}]}")?;
    Ok(text)
}

/// Plays files of these names.
fn play<
    R: Files + AllocGlobal + Processes<Started = SystemProcess> + Clock + Threads + Wait + Sync,
>(rt: &R, inventory: &str, outcomes: &str, playbook: &str) -> Result<Seen, Fail> {
    let words = [
        "-f",
        "256",
        "-i",
        inventory,
        "--outcomes",
        outcomes,
        playbook,
    ];
    Ok(play_texts(rt, words.as_slice(), Kept::new(rt.alloc()))?)
}

const COMMAND: &str =
    "[{\"hosts\":\"all\",\"gather_facts\":false,\"tasks\":[{\"command\":\"x\"}]}]";

/// Plays a command on `HOSTS` hosts, with so many rows and one.
fn play_rows<
    R: Files + AllocGlobal + Processes<Started = SystemProcess> + Clock + Threads + Wait + Sync,
>(rt: &R, count: u32) -> Result<Seen, Fail> {
    let made = inventory(rt.alloc(), HOSTS)?;
    fs::write(rt, "rows_inventory", made.as_str())?;
    let made = rows(rt.alloc(), count)?;
    fs::write(rt, "rows_outcomes", made.as_str())?;
    fs::write(rt, "rows_playbook", COMMAND)?;
    play(rt, "rows_inventory", "rows_outcomes", "rows_playbook")
}

/// Plays a command on two hosts, with one output of so many bytes.
fn play_output<
    R: Files + AllocGlobal + Processes<Started = SystemProcess> + Clock + Threads + Wait + Sync,
>(rt: &R, bytes: usize) -> Result<Seen, Fail> {
    let made = output(rt.alloc(), bytes)?;
    fs::write(rt, "output_outcomes", made.as_str())?;
    fs::write(rt, "output_inventory", "{\"all\":[\"a\",\"b\"]}")?;
    fs::write(rt, "output_playbook", COMMAND)?;
    play(rt, "output_inventory", "output_outcomes", "output_playbook")
}

#[test]
fn many_rows(rt: HostRuntime) -> Result<(), Fail> {
    let seen = play_rows(&rt, 60_000)?;
    assert_eq!(rt; seen.status, 2);
    assert!(rt;
        seen.out.ends_with(
            b"h1998 : ok=1 changed=1 unreachable=0 failed=0 skipped=0 rescued=0 ignored=0\nh1999 : ok=0 changed=0 unreachable=0 failed=1 skipped=0 rescued=0 ignored=0\n"
        )
    );
    Ok(())
}

#[test]
fn longest_output(rt: HostRuntime) -> Result<(), Fail> {
    let seen = play_output(&rt, 1_048_576)?;
    assert_eq!(rt; seen.status, 0);
    let seen = play_output(&rt, 1_048_577)?;
    assert_eq!(rt; seen.status, 1);
    assert_eq!(rt;
        seen.err.as_slice(),
        b"pb-play: outcomes: 2 WrongShape rows/0/outcome/out\n".as_slice()
    );
    Ok(())
}
