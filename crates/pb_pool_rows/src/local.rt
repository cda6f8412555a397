//! Programs that run at once.

use crate::made::plan_of;
use pb_driver::{Ended, Lowest, Silent, run_pool};
use pb_runner::local::LocalRunner;
use pb_runner::system::SystemLauncher;
use std::alloc::Global;
use std::process::{Processes, SystemProcess};
use std::sync::Wait;
use std::test::Fail;
use std::thread::Threads;
use std::time::Clock;

/// Each program waits until four of them have begun, for some ten seconds; then it says how many it saw. The file is this process's own.
const TOGETHER: &str =
    "[{\"hosts\":\"all\",\"gather_facts\":false,\"tasks\":[{\"shell\":\"echo x >> /tmp/pb_pool_rows_$PPID; n=0; while [ $(wc -l < /tmp/pb_pool_rows_$PPID) -lt 4 ]; do n=$((n+1)); [ $n -lt 1000 ] || exit 1; sleep 0.01; done\"},{\"shell\":\"rm -f /tmp/pb_pool_rows_$PPID\"}]}]";

fn run<R: Processes<Started = SystemProcess> + Clock + Threads + Wait + Sync>(
    rt: &R,
    alloc: Global,
    hosts: u32,
    workers: u32,
) -> Result<Ended, Fail> {
    let mut runners = Vec::new(alloc);
    for _ in 0..workers {
        runners.push(LocalRunner {
            launcher: SystemLauncher::new(rt),
            facts: None,
        })?;
    }
    let plan = plan_of(alloc, hosts, TOGETHER, workers)?;
    if runners.len() > 256 || plan.forks() as usize > runners.len() {
        return Err("runners")?;
    }
    match run_pool(rt, alloc, plan, &mut runners, Lowest, &[], &mut Silent) {
        Ok(ended) => Ok(ended),
        Err(_) => Err("an end")?,
    }
}

#[test]
fn programs_run_at_once(rt: HostRuntime) -> Result<(), Fail> {
    let ended = run(&rt, rt.alloc(), 4, 4)?;
    assert_eq!(rt; ended.status, 0);
    Ok(())
}
