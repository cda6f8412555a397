//! Writers that fail, and one that takes little.

use crate::kept::Kept;
use crate::seen::{Seen, play_texts};
use std::fs;
use std::fs::Files;
use std::process::{Processes, SystemProcess};
use std::sync::Wait;
use std::test::Fail;
use std::thread::Threads;
use std::time::Clock;

pub const INVENTORY: &str = "{\"all\":{\"hosts\":[\"a\",\"b\"]}}";

pub const PLAYBOOK: &str =
    "[{\"hosts\":\"all\",\"gather_facts\":false,\"tasks\":[{\"name\":\"hi\",\"debug\":{\"msg\":\"hello\"}}]}]";

pub const OUT: &str = "{\"event\":\"playbook_on_start\",\"plays\":1}
{\"batch\":0,\"event\":\"playbook_on_play_start\",\"hosts\":[\"a\",\"b\"],\"name\":\"all\",\"play\":0}
{\"event\":\"playbook_on_task_start\",\"name\":\"hi\",\"place\":\"1\",\"play\":0}
{\"event\":\"runner_on_start\",\"host\":\"a\",\"place\":\"1\",\"play\":0}
{\"event\":\"runner_on_ok\",\"host\":\"a\",\"place\":\"1\",\"play\":0,\"result\":{\"changed\":false,\"failed\":false,\"msg\":\"hello\"}}
{\"event\":\"runner_on_start\",\"host\":\"b\",\"place\":\"1\",\"play\":0}
{\"event\":\"runner_on_ok\",\"host\":\"b\",\"place\":\"1\",\"play\":0,\"result\":{\"changed\":false,\"failed\":false,\"msg\":\"hello\"}}
{\"event\":\"playbook_on_stats\",\"stats\":{\"a\":{\"changed\":0,\"failed\":0,\"ignored\":0,\"ok\":1,\"rescued\":0,\"skipped\":0,\"unreachable\":0},\"b\":{\"changed\":0,\"failed\":0,\"ignored\":0,\"ok\":1,\"rescued\":0,\"skipped\":0,\"unreachable\":0}}}
PLAY RECAP
a : ok=1 changed=0 unreachable=0 failed=0 skipped=0 rescued=0 ignored=0
b : ok=1 changed=0 unreachable=0 failed=0 skipped=0 rescued=0 ignored=0
";

/// Plays one task on two hosts, with this writer.
fn play_hello<
    R: Files + AllocGlobal + Processes<Started = SystemProcess> + Clock + Threads + Wait + Sync,
>(rt: &R, out: Kept) -> Result<Seen, Fail> {
    fs::write(rt, "writers_inventory", INVENTORY)?;
    fs::write(rt, "writers_playbook", PLAYBOOK)?;
    Ok(play_texts(
        rt,
        ["-i", "writers_inventory", "writers_playbook"].as_slice(),
        out,
    )?)
}

/// Whether the writer failed in a play of one task on two hosts. It then has a beginning of the output, and the fault is reported.
pub fn has_failed(seen: &Seen) -> Result<bool, Fail> {
    if seen.status == 0 && seen.out.as_slice() == OUT.as_bytes() {
        return Ok(false);
    }
    let is_reported = seen.err.as_slice() == b"pb-play: run: 2 Write\n".as_slice();
    if seen.status == 1 && is_reported && OUT.as_bytes().starts_with(seen.out.as_slice()) {
        return Ok(true);
    }
    Err(Fail::new("another end"))
}

#[test]
fn writers_that_fail_or_take_little(rt: HostRuntime) -> Result<(), Fail> {
    let mut failed = 0;
    for call in 1..100 {
        let seen = play_hello(&rt, Kept::failing(rt.alloc(), call))?;
        if !has_failed(&seen)? {
            break;
        }
        failed = call;
    }
    assert!(rt; 3 <= failed && failed < 99);
    let seen = play_hello(&rt, Kept::short(rt.alloc()))?;
    assert_eq!(rt; seen.status, 0);
    assert_eq!(rt; seen.out.as_slice(), OUT.as_bytes());
    Ok(())
}
