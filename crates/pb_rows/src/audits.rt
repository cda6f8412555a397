//! Audits of trails that are cut at each byte, and of trails with the largest numbers and with larger ones.

use crate::kept::Kept;
use crate::seen::{Seen, play_texts};
use crate::writers::INVENTORY;
use std::alloc::{AllocError, Global};
use std::fs;
use std::fs::Files;
use std::process::{Processes, SystemProcess};
use std::sync::Wait;
use std::test::Fail;
use std::thread::Threads;
use std::time::Clock;

const PLAYBOOK: &str =
    "[{\"hosts\":\"all\",\"gather_facts\":false,\"tasks\":[{\"command\":\"run it\"}]}]";

/// Audits a trail under two forks, with files of these names.
pub fn audit<
    R: Files + AllocGlobal + Processes<Started = SystemProcess> + Clock + Threads + Wait + Sync,
>(rt: &R, inventory: &str, trail: &str, playbook: &str) -> Result<Seen, Fail> {
    let words = ["-f", "2", "-i", inventory, "--audit", trail, playbook];
    Ok(play_texts(rt, words.as_slice(), Kept::new(rt.alloc()))?)
}

/// Whether an audit said that the trail is legal, and nothing else.
pub fn is_legal(seen: &Seen) -> bool {
    seen.status == 0 && seen.err.is_empty() && seen.out.as_slice() == b"legal\n".as_slice()
}

/// Whether it said that the trail's first event isn't possible, and nothing else.
fn is_illegal(seen: &Seen) -> bool {
    seen.status == 2 && seen.err.is_empty() && seen.out.starts_with(b"illegal: step 0, ")
}

/// Whether it reported this fault of the trail, and nothing else.
fn is_refused(seen: &Seen, fault: &str) -> bool {
    seen.status == 1 && seen.err.as_slice() == fault.as_bytes() && seen.out.is_empty()
}

/// Plays a command on two hosts under two forks. The bytes of its trail.
fn trail_of_a_run<
    R: Files + AllocGlobal + Processes<Started = SystemProcess> + Clock + Threads + Wait + Sync,
>(rt: &R) -> Result<Vec<u8>, Fail> {
    fs::write(rt, "audits_inventory", INVENTORY)?;
    fs::write(rt, "audits_outcomes", "{\"rows\":[]}")?;
    fs::write(rt, "audits_playbook", PLAYBOOK)?;
    let words = [
        "-f",
        "2",
        "-i",
        "audits_inventory",
        "--outcomes",
        "audits_outcomes",
        "--trail",
        "audits_whole",
        "audits_playbook",
    ];
    let seen = play_texts(rt, words.as_slice(), Kept::new(rt.alloc()))?;
    if seen.status != 0 || !seen.err.is_empty() {
        return Err(Fail::new("a good end"));
    }
    Ok(fs::read(rt, "audits_whole")?)
}

/// The fault of the first bytes of a trail, behind which these others stand. It is empty where the last line of the first bytes is
/// whole, be it without its LF.
fn fault_of(alloc: Global, first: &[u8], others: &[u8]) -> Result<String, AllocError> {
    if first.ends_with(b"\n") || others.starts_with(b"\n") {
        return Ok(String::new(alloc));
    }
    let whole = first.iter().filter(|byte| **byte == b'\n').count();
    if whole == 0 {
        return String::from_str(alloc, "pb-play: trail: 1 BadHeader\n");
    }
    let line = whole.saturating_add(1);
    format!(in alloc; "pb-play: trail: 2 BadLine {line}\n")
}

/// Audits the first bytes of a trail, behind which these others stand. Whether the answer is the right one.
fn is_answered<
    R: Files + AllocGlobal + Processes<Started = SystemProcess> + Clock + Threads + Wait + Sync,
>(rt: &R, first: &[u8], others: &[u8]) -> Result<bool, Fail> {
    fs::write(rt, "audits_trail", first)?;
    let seen = audit(rt, "audits_inventory", "audits_trail", "audits_playbook")?;
    let fault = fault_of(rt.alloc(), first, others)?;
    if fault.is_empty() {
        return Ok(is_legal(&seen));
    }
    Ok(is_refused(&seen, fault.as_str()))
}

#[test]
fn each_beginning_of_a_trail(rt: HostRuntime) -> Result<(), Fail> {
    let bytes = trail_of_a_run(&rt)?;
    let whole = bytes.as_slice();
    assert!(rt; whole.ends_with(b"{\"e\":\"turn\"}\n{\"e\":\"close\"}\n"));
    assert!(rt; is_answered(&rt, whole, b"")?);
    for at in 0..whole.len() {
        assert!(rt;
            is_answered(&rt, &whole[..at], &whole[at..])?,
            "the first {at} bytes"
        );
    }
    Ok(())
}

/// Audits a trail of this event alone, in a run of no plays.
fn audit_event<
    R: Files + AllocGlobal + Processes<Started = SystemProcess> + Clock + Threads + Wait + Sync,
>(rt: &R, event: &str) -> Result<Seen, Fail> {
    let text = format!(in rt.alloc(); "{{\"trail\":2}}\n{event}\n")?;
    fs::write(rt, "numbers_inventory", "{}")?;
    fs::write(rt, "numbers_playbook", "[]")?;
    fs::write(rt, "numbers_trail", text.as_str())?;
    audit(rt, "numbers_inventory", "numbers_trail", "numbers_playbook")
}

/// The largest numbers are read, so that only their events aren't possible; larger ones aren't, be it that 64 bits of them are 0.
#[test]
fn largest_numbers(rt: HostRuntime) -> Result<(), Fail> {
    let events = [
        (
            "{\"e\":\"start\",\"h\":4294967295}",
            "{\"e\":\"start\",\"h\":4294967296}",
        ),
        (
            "{\"a\":1,\"e\":\"send\",\"h\":4294967295,\"i\":0,\"t\":0}",
            "{\"a\":1,\"e\":\"send\",\"h\":18446744073709551616,\"i\":0,\"t\":0}",
        ),
        (
            "{\"a\":1,\"e\":\"send\",\"h\":0,\"i\":0,\"t\":18446744073709551615}",
            "{\"a\":1,\"e\":\"send\",\"h\":0,\"i\":0,\"t\":18446744073709551616}",
        ),
        (
            "{\"a\":4294967295,\"e\":\"send\",\"h\":0,\"i\":0,\"t\":0}",
            "{\"a\":18446744073709551616,\"e\":\"send\",\"h\":0,\"i\":0,\"t\":0}",
        ),
    ];
    for (largest, larger) in events {
        let seen = audit_event(&rt, largest)?;
        assert!(rt; is_illegal(&seen), "{largest}");
        let seen = audit_event(&rt, larger)?;
        assert!(rt;
            is_refused(&seen, "pb-play: trail: 2 BadLine 2\n"),
            "{larger}"
        );
    }
    Ok(())
}
