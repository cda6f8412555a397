//! The largest bundles that are taken, and those that are one larger.

use crate::kept::Kept;
use crate::made::{blocks, inventory, playbook};
use crate::seen::{Seen, play_texts};
use std::fs;
use std::fs::Files;
use std::process::{Processes, SystemProcess};
use std::sync::Wait;
use std::test::Fail;
use std::thread::Threads;
use std::time::Clock;

fn play<
    R: Files + AllocGlobal + Processes<Started = SystemProcess> + Clock + Threads + Wait + Sync,
>(rt: &R, inventory: &str, playbook: &str) -> Result<Seen, Fail> {
    let words = ["-i", inventory, playbook];
    Ok(play_texts(rt, words.as_slice(), Kept::new(rt.alloc()))?)
}

/// Plays nothing on so many hosts.
fn play_hosts<
    R: Files + AllocGlobal + Processes<Started = SystemProcess> + Clock + Threads + Wait + Sync,
>(rt: &R, hosts: u32) -> Result<Seen, Fail> {
    let made = inventory(rt.alloc(), hosts)?;
    fs::write(rt, "hosts_inventory", made.as_str())?;
    fs::write(rt, "hosts_playbook", "[]")?;
    play(rt, "hosts_inventory", "hosts_playbook")
}

/// Plays one play of so many tasks on so many hosts.
fn play_tasks<
    R: Files + AllocGlobal + Processes<Started = SystemProcess> + Clock + Threads + Wait + Sync,
>(rt: &R, hosts: u32, tasks: u32) -> Result<Seen, Fail> {
    let made = inventory(rt.alloc(), hosts)?;
    fs::write(rt, "tasks_inventory", made.as_str())?;
    let made = playbook(rt.alloc(), tasks)?;
    fs::write(rt, "tasks_playbook", made.as_str())?;
    play(rt, "tasks_inventory", "tasks_playbook")
}

/// Whether a bundle was taken, with nothing reported.
fn is_taken(seen: &Seen) -> bool {
    seen.status == 0 && seen.err.is_empty() && !seen.out.is_empty()
}

/// Whether it was refused with this fault, and nothing shown.
fn is_refused(seen: &Seen, fault: &str) -> bool {
    seen.status == 1 && seen.err.as_slice() == fault.as_bytes() && seen.out.is_empty()
}

#[test]
fn many_hosts(rt: HostRuntime) -> Result<(), Fail> {
    let seen = play_hosts(&rt, 65_537)?;
    assert!(rt; is_taken(&seen));
    let seen = play_hosts(&rt, 1_048_577)?;
    assert!(rt; is_refused(&seen, "pb-play: inventory: 4 TooManyHosts\n"));
    Ok(())
}

#[test]
fn many_places(rt: HostRuntime) -> Result<(), Fail> {
    let seen = play_tasks(&rt, 2_000, 3)?;
    assert!(rt; is_taken(&seen));
    let seen = play_tasks(&rt, 1, 16_384)?;
    assert!(rt; is_taken(&seen));
    let seen = play_tasks(&rt, 1, 16_385)?;
    assert!(rt; is_refused(&seen, "pb-play: roles: 5 TooLarge\n"));
    Ok(())
}

/// 50 blocks of 100 places: each fails once and is rescued.
#[test]
fn many_blocks(rt: HostRuntime) -> Result<(), Fail> {
    let made = blocks(rt.alloc(), 50, 98)?;
    fs::write(&rt, "blocks_inventory", "{\"all\":{\"hosts\":[\"a\"]}}")?;
    fs::write(&rt, "blocks_playbook", made.as_str())?;
    let seen = play(&rt, "blocks_inventory", "blocks_playbook")?;
    assert!(rt; is_taken(&seen));
    let recap = "a : ok=4951 changed=0 unreachable=0 failed=0 skipped=0 rescued=50 ignored=0\n";
    assert!(rt; seen.out.ends_with(recap.as_bytes()));
    Ok(())
}

/// How many spaces a file needs to be one byte over 64 MiB.
const SPACES: usize = 64 * 1024 * 1024 + 1;

#[test]
fn too_many_bytes(rt: HostRuntime) -> Result<(), Fail> {
    let spaces = vec![in rt.alloc(); b' '; SPACES]?;
    fs::write(&rt, "bytes_inventory", spaces.as_slice())?;
    drop(spaces);
    fs::write(&rt, "bytes_playbook", "[]")?;
    let seen = play(&rt, "bytes_inventory", "bytes_playbook")?;
    assert_eq!(rt;
        seen.err.as_slice(),
        b"pb-play: bundle: 7 TooLarge\n".as_slice()
    );
    let seen = play(&rt, "bytes_inventory", "no_such_file")?;
    assert!(rt; seen.err.starts_with(b"pb-play: file: "));
    Ok(())
}
