//! Which host starts next under a throttle, in batches, and under each strategy where one host's job stays out.

use crate::engines::{engine_of, is_over, report};
use crate::events_text::events_text;
use pb_driver::{Lowest, Picker, RoundRobin};
use std::alloc::Global;
use std::test::Fail;

const FIVE_HOSTS: &str = "{\"all\":[\"a\",\"b\",\"c\",\"d\",\"e\"]}";

const THREE_HOSTS: &str = "{\"all\":[\"a\",\"b\",\"c\"]}";

const THROTTLED: &str =
    "[{\"hosts\":\"all\",\"gather_facts\":false,\"tasks\":[{\"command\":\"run it\",\"throttle\":1}]}]";

const LINEAR: &str =
    "[{\"hosts\":\"all\",\"gather_facts\":false,\"tasks\":[{\"command\":\"one\"},{\"command\":\"two\"}]}]";

const FREE: &str =
    "[{\"hosts\":\"all\",\"gather_facts\":false,\"strategy\":\"free\",\"tasks\":[{\"command\":\"one\"},{\"command\":\"two\"}]}]";

const PINNED: &str =
    "[{\"hosts\":\"all\",\"gather_facts\":false,\"strategy\":\"host_pinned\",\"tasks\":[{\"command\":\"one\"},{\"command\":\"two\"}]}]";

const FREE_BEHIND: &str =
    "[{\"hosts\":\"all\",\"gather_facts\":false,\"strategy\":\"free\",\"tasks\":[{\"command\":\"one\"},{\"command\":\"two\",\"throttle\":1}]}]";

const PINNED_BEHIND: &str =
    "[{\"hosts\":\"all\",\"gather_facts\":false,\"strategy\":\"host_pinned\",\"tasks\":[{\"command\":\"one\"},{\"command\":\"two\",\"throttle\":1}]}]";

const BATCHES: &str =
    "[{\"hosts\":\"all\",\"gather_facts\":false,\"serial\":[1,5],\"tasks\":[{\"command\":\"run it\"}]}]";

/// The events of a run in which these jobs, of these hosts, end in this order.
fn trail_of<P: Picker>(
    alloc: Global,
    picker: &mut P,
    inventory: &str,
    playbook: &str,
    forks: u32,
    reports: &[(u64, u32)],
) -> Result<String, Fail> {
    let mut engine = engine_of(alloc, inventory, playbook, forks)?;
    let _ = is_over(&mut engine, picker)?;
    for (ticket, host) in reports {
        report(&mut engine, alloc, *ticket, *host)?;
        let _ = is_over(&mut engine, picker)?;
    }
    let text = events_text(alloc, engine.trail())?;
    drop(engine);
    Ok(text)
}

#[test]
fn one_at_a_time(rt: HostRuntime) -> Result<(), Fail> {
    let reports = [(0u64, 0u32), (1, 1), (2, 2), (3, 3), (4, 4)];
    let trail = trail_of(
        rt.alloc(),
        &mut Lowest,
        FIVE_HOSTS,
        THROTTLED,
        5,
        reports.as_slice(),
    )?;
    assert_eq!(rt;
        trail.as_str(),
        "open, start 0, send 0 0 as 0, report 0 0 of 0, start 1, send 1 0 as 1, report 1 0 of 1, start 2, send 2 0 as 2, report 2 0 of 2, start 3, send 3 0 as 3, report 3 0 of 3, start 4, send 4 0 as 4, report 4 0 of 4, turn, close, "
    );
    Ok(())
}

#[test]
fn hosts_that_wait_for_a_slot(rt: HostRuntime) -> Result<(), Fail> {
    let reports = [(0u64, 0u32), (2, 0), (3, 2)];
    let trail = trail_of(
        rt.alloc(),
        &mut Lowest,
        THREE_HOSTS,
        PINNED,
        2,
        reports.as_slice(),
    )?;
    assert_eq!(rt;
        trail.as_str(),
        "open, start 0, send 0 0 as 0, start 1, send 1 0 as 1, report 0 0 of 0, start 0, send 0 0 as 2, report 0 0 of 2, start 2, send 2 0 as 3, report 2 0 of 3, start 2, send 2 0 as 4, "
    );
    Ok(())
}

#[test]
fn hosts_that_wait_for_none(rt: HostRuntime) -> Result<(), Fail> {
    let reports = [(0u64, 0u32), (2, 0), (3, 2)];
    let trail = trail_of(
        rt.alloc(),
        &mut Lowest,
        THREE_HOSTS,
        FREE,
        2,
        reports.as_slice(),
    )?;
    assert_eq!(rt;
        trail.as_str(),
        "open, start 0, send 0 0 as 0, start 1, send 1 0 as 1, report 0 0 of 0, start 0, send 0 0 as 2, report 0 0 of 2, start 2, send 2 0 as 3, report 2 0 of 3, start 2, send 2 0 as 4, "
    );
    let reports = [(1u64, 1u32), (2, 1), (3, 2), (4, 2), (0, 0), (5, 0)];
    let trail = trail_of(
        rt.alloc(),
        &mut Lowest,
        THREE_HOSTS,
        FREE,
        2,
        reports.as_slice(),
    )?;
    assert_eq!(rt;
        trail.as_str(),
        "open, start 0, send 0 0 as 0, start 1, send 1 0 as 1, report 1 0 of 1, start 1, send 1 0 as 2, report 1 0 of 2, start 2, send 2 0 as 3, report 2 0 of 3, start 2, send 2 0 as 4, report 2 0 of 4, report 0 0 of 0, start 0, send 0 0 as 5, report 0 0 of 5, close, "
    );
    Ok(())
}

#[test]
fn hosts_that_wait_for_each_other(rt: HostRuntime) -> Result<(), Fail> {
    let reports = [(1u64, 1u32), (2, 2), (0, 0), (4, 1), (3, 0), (5, 2)];
    let trail = trail_of(
        rt.alloc(),
        &mut Lowest,
        THREE_HOSTS,
        LINEAR,
        2,
        reports.as_slice(),
    )?;
    assert_eq!(rt;
        trail.as_str(),
        "open, start 0, send 0 0 as 0, start 1, send 1 0 as 1, report 1 0 of 1, start 2, send 2 0 as 2, report 2 0 of 2, report 0 0 of 0, turn, start 0, send 0 0 as 3, start 1, send 1 0 as 4, report 1 0 of 4, start 2, send 2 0 as 5, report 0 0 of 3, report 2 0 of 5, turn, close, "
    );
    Ok(())
}

#[test]
fn hosts_behind_a_throttle(rt: HostRuntime) -> Result<(), Fail> {
    let reports = [(0u64, 0u32), (1, 1), (2, 0)];
    let trail = trail_of(
        rt.alloc(),
        &mut Lowest,
        THREE_HOSTS,
        FREE_BEHIND,
        2,
        reports.as_slice(),
    )?;
    assert_eq!(rt;
        trail.as_str(),
        "open, start 0, send 0 0 as 0, start 1, send 1 0 as 1, report 0 0 of 0, start 0, send 0 0 as 2, report 1 0 of 1, start 2, send 2 0 as 3, report 0 0 of 2, start 1, send 1 0 as 4, "
    );
    let trail = trail_of(
        rt.alloc(),
        &mut Lowest,
        THREE_HOSTS,
        PINNED_BEHIND,
        2,
        reports.as_slice(),
    )?;
    assert_eq!(rt;
        trail.as_str(),
        "open, start 0, send 0 0 as 0, start 1, send 1 0 as 1, report 0 0 of 0, start 0, send 0 0 as 2, report 1 0 of 1, report 0 0 of 2, start 1, send 1 0 as 3, start 2, send 2 0 as 4, "
    );
    Ok(())
}

#[test]
fn batches_one_after_another(rt: HostRuntime) -> Result<(), Fail> {
    let reports = [(0u64, 0u32), (2, 2), (1, 1)];
    let trail = trail_of(
        rt.alloc(),
        &mut Lowest,
        THREE_HOSTS,
        BATCHES,
        5,
        reports.as_slice(),
    )?;
    assert_eq!(rt;
        trail.as_str(),
        "open, start 0, send 0 0 as 0, report 0 0 of 0, turn, close, open, start 1, send 1 0 as 1, start 2, send 2 0 as 2, report 2 0 of 2, report 1 0 of 1, turn, close, "
    );
    Ok(())
}

#[test]
fn hosts_in_turn(rt: HostRuntime) -> Result<(), Fail> {
    let reports = [(0u64, 0u32), (2, 2), (1, 1), (3, 0), (4, 1), (5, 2)];
    let mut picker = RoundRobin::new();
    let trail = trail_of(
        rt.alloc(),
        &mut picker,
        THREE_HOSTS,
        LINEAR,
        5,
        reports.as_slice(),
    )?;
    assert_eq!(rt;
        trail.as_str(),
        "open, start 0, start 1, start 2, send 0 0 as 0, send 1 0 as 1, send 2 0 as 2, report 0 0 of 0, report 2 0 of 2, report 1 0 of 1, turn, start 0, start 1, start 2, send 0 0 as 3, send 1 0 as 4, send 2 0 as 5, report 0 0 of 3, report 1 0 of 4, report 2 0 of 5, turn, close, "
    );
    Ok(())
}
