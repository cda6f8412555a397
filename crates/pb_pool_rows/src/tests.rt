use crate::failing::Failing;
use crate::gates::Gate;
use crate::made::plan_of;
use pb_driver::{Command, CountKind, Ended, Given, LineOut, Lowest, RunFault, Silent, run_pool};
use pb_state::Event;
use std::alloc::Global;
use std::process::Abort;
use std::sync::Wait;
use std::sync::atomic::{AtomicU64, Ordering};
use std::test::Fail;
use std::thread::Threads;

const COMMAND: &str =
    "[{\"hosts\":\"all\",\"gather_facts\":false,\"tasks\":[{\"command\":\"run it\"}]}]";

const TWO_COMMANDS: &str =
    "[{\"hosts\":\"all\",\"gather_facts\":false,\"tasks\":[{\"command\":\"run it\"},{\"command\":\"run more\"}]}]";

/// A playbook on so many hosts with so many workers, each of which answers only once so many of them have begun.
#[derive(Clone, Copy)]
struct Pool {
    playbook: &'static str,
    hosts: u32,
    workers: u32,
    together: u64,
}

/// So many workers, each of which answers only once so many of them have begun.
fn gates<'a>(
    alloc: Global,
    workers: u32,
    begun: &'a AtomicU64,
    together: u64,
) -> Result<Vec<Gate<'a>>, Fail> {
    let mut runners = Vec::new(alloc);
    for _ in 0..workers {
        runners.push(Gate {
            begun,
            all: together,
        })?;
    }
    Ok(runners)
}

/// A run by a pool, with what is written on the writer, and how many jobs were run.
fn held_with<R: Threads + Wait + Sync, W: LineOut>(
    rt: &R,
    alloc: Global,
    pool: Pool,
    commands: &[Given],
    writer: &mut W,
) -> Result<(Result<Ended, (RunFault, Vec<Event>)>, u64), Fail> {
    let begun = AtomicU64::new(0);
    let mut runners = gates(alloc, pool.workers, &begun, pool.together)?;
    let plan = plan_of(alloc, pool.hosts, pool.playbook, pool.workers)?;
    if runners.len() > 256 || plan.forks() as usize > runners.len() {
        return Err("runners")?;
    }
    let ended = run_pool(rt, alloc, plan, &mut runners, Lowest, commands, writer);
    if runners.len() != pool.workers as usize {
        return Err("a runner is lost")?;
    }
    Ok((ended, begun.load(Ordering::SeqCst)))
}

/// The same, to its end.
fn held<R: Threads + Wait + Sync>(
    rt: &R,
    alloc: Global,
    pool: Pool,
    commands: &[Given],
) -> Result<Ended, Fail> {
    let mut writer = Silent;
    let (ended, _) = held_with(rt, alloc, pool, commands, &mut writer)?;
    match ended {
        Ok(ended) => Ok(ended),
        Err((RunFault::Closed, _)) => Err("a worker couldn't be started")?,
        Err(_) => Err("an end")?,
    }
}

/// So many workers, which answer once all of them have begun.
fn all_at_once(playbook: &'static str, hosts: u32, workers: u32) -> Pool {
    Pool {
        playbook,
        hosts,
        workers,
        together: workers as u64,
    }
}

/// How many jobs went out of the hosts from one number to another.
fn sends(trail: &[Event], first: u32, last: u32) -> u64 {
    let mut sends: u64 = 0;
    for event in trail {
        if let Event::Send {
            host,
            item: _,
            attempt: _,
            ticket: _,
        } = event
        {
            if first <= host.0 && host.0 <= last {
                sends = sends.wrapping_add(1);
            }
        }
    }
    sends
}

/// Whether so many tasks were run and were ok on each of so many hosts, and no task was anything else.
fn are_ok(ended: &Ended, hosts: u32, tasks: u64) -> bool {
    for host in 0..hosts {
        if sends(ended.trail.as_slice(), host, host) != tasks {
            return false;
        }
    }
    let all = tasks.wrapping_mul(hosts as u64);
    ended.status == 0
        && sends(ended.trail.as_slice(), 0, u32::MAX) == all
        && ended.recap.total(CountKind::Okay) == all
}

#[test]
fn two_workers_are_held(rt: HostRuntime) -> Result<(), Fail> {
    let ended = held(&rt, rt.alloc(), all_at_once(COMMAND, 2, 2), &[])?;
    assert!(rt; are_ok(&ended, 2, 1));
    Ok(())
}

#[test]
fn eight_workers_are_held(rt: HostRuntime) -> Result<(), Fail> {
    let ended = held(&rt, rt.alloc(), all_at_once(COMMAND, 8, 8), &[])?;
    assert!(rt; are_ok(&ended, 8, 1));
    Ok(())
}

#[test]
fn more_hosts_than_workers(rt: HostRuntime) -> Result<(), Fail> {
    let ended = held(&rt, rt.alloc(), all_at_once(TWO_COMMANDS, 20, 4), &[])?;
    assert!(rt; are_ok(&ended, 20, 2));
    Ok(())
}

#[test]
fn a_stop_collects_what_is_out(rt: HostRuntime) -> Result<(), Fail> {
    let stop = Given {
        after: 1,
        command: Command::Stop,
    };
    let ended = held(&rt, rt.alloc(), all_at_once(TWO_COMMANDS, 4, 4), &[stop])?;
    assert!(rt; are_ok(&ended, 4, 1));
    Ok(())
}

#[test]
fn a_writer_that_fails_waits_for_what_is_out(rt: HostRuntime) -> Result<(), Fail> {
    let pool = Pool {
        playbook: TWO_COMMANDS,
        hosts: 8,
        workers: 4,
        together: 1,
    };
    let mut failed: u32 = 0;
    for calls in 0..24u32 {
        let mut writer = Failing {
            left: calls,
            failures: 0,
        };
        let (ended, begun) = held_with(&rt, rt.alloc(), pool, &[], &mut writer)?;
        match ended {
            Ok(ended) => assert!(rt; are_ok(&ended, 8, 2)),
            Err((RunFault::Write, trail)) => {
                failed = failed.wrapping_add(1);
                assert_eq!(rt; sends(trail.as_slice(), 0, 7), begun);
            }
            Err(_) => return Err("another fault")?,
        }
    }
    assert!(rt; failed > 10);
    Ok(())
}
