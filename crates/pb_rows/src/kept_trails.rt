//! Trails of runs that fail, and trails that can't be written.

use crate::audits::{audit, is_legal};
use crate::kept::Kept;
use crate::seen::{Seen, play_texts};
use crate::writers::{INVENTORY, OUT, PLAYBOOK, has_failed};
use std::fs;
use std::fs::Files;
use std::process::{Processes, SystemProcess};
use std::sync::Wait;
use std::test::Fail;
use std::thread::Threads;
use std::time::Clock;

/// The trail of the whole run.
const TRAIL: &str = "{\"trail\":2}
{\"e\":\"open\"}
{\"e\":\"start\",\"h\":0}
{\"e\":\"start\",\"h\":1}
{\"e\":\"turn\"}
{\"e\":\"close\"}
";

/// Plays one task on two hosts under two forks, with this writer and with files of these names.
fn play_hello<
    R: Files + AllocGlobal + Processes<Started = SystemProcess> + Clock + Threads + Wait + Sync,
>(rt: &R, inventory: &str, trail: &str, playbook: &str, out: Kept) -> Result<Seen, Fail> {
    fs::write(rt, inventory, INVENTORY)?;
    fs::write(rt, playbook, PLAYBOOK)?;
    let words = ["-f", "2", "-i", inventory, "--trail", trail, playbook];
    Ok(play_texts(rt, words.as_slice(), out)?)
}

/// Plays with a writer that fails at a call: how many bytes the trail has, if the writer failed. Be that so or not, the trail is legal
/// and a beginning of the whole one.
fn kept_at<
    R: Files + AllocGlobal + Processes<Started = SystemProcess> + Clock + Threads + Wait + Sync,
>(rt: &R, call: u64) -> Result<Option<usize>, Fail> {
    let _ = fs::remove_file(rt, "kept_trail");
    let out = Kept::failing(rt.alloc(), call);
    let seen = play_hello(rt, "kept_inventory", "kept_trail", "kept_playbook", out)?;
    let trail = fs::read(rt, "kept_trail")?;
    let audited = audit(rt, "kept_inventory", "kept_trail", "kept_playbook")?;
    if !is_legal(&audited) || !TRAIL.as_bytes().starts_with(trail.as_slice()) {
        return Err(Fail::new("another trail"));
    }
    if has_failed(&seen)? {
        return Ok(Some(trail.len()));
    }
    Ok(None)
}

/// The later a writer fails, the more events are kept: where it fails at the recap, all of them.
#[test]
fn trails_of_runs_that_fail(rt: HostRuntime) -> Result<(), Fail> {
    let mut kept = 0;
    for call in 1..100 {
        let Some(bytes) = kept_at(&rt, call)? else {
            break;
        };
        assert!(rt; kept <= bytes, "at call {call}");
        kept = bytes;
    }
    assert_eq!(rt; kept, TRAIL.len());
    assert!(rt; kept_at(&rt, 100)?.is_none());
    let trail = fs::read(&rt, "kept_trail")?;
    assert_eq!(rt; trail.as_slice(), TRAIL.as_bytes());
    Ok(())
}

/// All is shown before the fault of the file is met.
#[test]
fn a_trail_that_cannot_be_written(rt: HostRuntime) -> Result<(), Fail> {
    let seen = play_hello(
        &rt,
        "unkept_inventory",
        "no_such_folder/trail",
        "unkept_playbook",
        Kept::new(rt.alloc()),
    )?;
    assert_eq!(rt; seen.status, 1);
    assert_eq!(rt; seen.out.as_slice(), OUT.as_bytes());
    assert!(rt; seen.err.starts_with(b"pb-play: file: "));
    Ok(())
}
