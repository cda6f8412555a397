//! Files that are cut short.

use crate::kept::Kept;
use crate::seen::play_texts;
use std::fs;
use std::fs::Files;
use std::process::{Processes, SystemProcess};
use std::sync::Wait;
use std::test::Fail;
use std::thread::Threads;
use std::time::Clock;

const OUTCOMES: &str = "{\"default\":{\"err\":\"\",\"out\":\"\",\"rc\":0},\"rows\":[]}";

/// Two handlers, of which one listens to a topic, and two tasks that notify them.
const PLAYBOOK: &str =
    "[{\"hosts\":\"all\",\"gather_facts\":false,\"tasks\":[{\"command\":\"one\",\"notify\":[\"h2\",\"h1\"]},{\"command\":\"two\",\"notify\":[\"h2\",\"web\"]}],\"handlers\":[{\"name\":\"h1\",\"listen\":\"web\",\"debug\":{}},{\"name\":\"h2\",\"debug\":{}}]}]";

/// Plays with these words. Whether that is refused with this message, with nothing on standard output.
fn is_refused<
    R: Files + AllocGlobal + Processes<Started = SystemProcess> + Clock + Threads + Wait + Sync,
>(rt: &R, words: &[&str], fault: &str) -> Result<bool, Fail> {
    let seen = play_texts(rt, words, Kept::new(rt.alloc()))?;
    Ok(seen.status == 1 && seen.err.as_slice() == fault.as_bytes() && seen.out.is_empty())
}

#[test]
fn each_proper_beginning_is_refused(rt: HostRuntime) -> Result<(), Fail> {
    fs::write(&rt, "cut_inventory", "{\"all\":{\"hosts\":[\"a\",\"b\"]}}")?;
    fs::write(
        &rt,
        "cut_playbook",
        "[{\"hosts\":\"all\",\"gather_facts\":false,\"tasks\":[{\"command\":\"run it\"}]}]",
    )?;
    let words = [
        "-i",
        "cut_inventory",
        "--outcomes",
        "cut_outcomes",
        "cut_playbook",
    ];
    let whole = OUTCOMES.as_bytes();
    for at in 0..whole.len() {
        fs::write(&rt, "cut_outcomes", &whole[..at])?;
        assert!(rt;
            is_refused(&rt, words.as_slice(), "pb-play: outcomes: 1 NotJson\n")?,
            "the first {at} bytes"
        );
    }
    Ok(())
}

#[test]
fn each_proper_beginning_of_a_playbook_is_refused(rt: HostRuntime) -> Result<(), Fail> {
    fs::write(&rt, "begun_inventory", "{\"all\":{\"hosts\":[\"a\"]}}")?;
    let words = ["-i", "begun_inventory", "begun_playbook"];
    let whole = PLAYBOOK.as_bytes();
    for at in 0..whole.len() {
        fs::write(&rt, "begun_playbook", &whole[..at])?;
        assert!(rt;
            is_refused(&rt, words.as_slice(), "pb-play: playbook: 1 NotJson\n")?,
            "the first {at} bytes"
        );
    }
    Ok(())
}
