//! Two trails of one plan that are compared, each read from its text.

use crate::trails::plan_on;
use pb_audit::{AuditFault, EventName, read_trail};
use pb_driver::same_end;
use pb_ids::HostNo;
use pb_state::Event;
use std::alloc::Global;
use std::test::Fail;

const TWO_HOSTS: &str = "{\"all\":[\"a\",\"b\"]}";

/// Each host asks whether the first one has set what it sets.
const LOOKS_ROUND: &str =
    "[{\"hosts\":\"all\",\"gather_facts\":false,\"tasks\":[{\"set_fact\":{\"x\":1,\"y\":\"{{ hostvars.a.x is defined }}\"}}]}]";

/// Each host sets what no other host has a part in.
const KEEPS_TO_ITSELF: &str =
    "[{\"hosts\":\"all\",\"gather_facts\":false,\"tasks\":[{\"set_fact\":{\"x\":1,\"y\":\"{{ inventory_hostname }}\"}}]}]";

const FIRST_BEGINS: &str =
    "{\"trail\":2}\n{\"e\":\"open\"}\n{\"e\":\"start\",\"h\":0}\n{\"e\":\"start\",\"h\":1}\n{\"e\":\"turn\"}\n{\"e\":\"close\"}\n";

const SECOND_BEGINS: &str =
    "{\"trail\":2}\n{\"e\":\"open\"}\n{\"e\":\"start\",\"h\":1}\n{\"e\":\"start\",\"h\":0}\n{\"e\":\"turn\"}\n{\"e\":\"close\"}\n";

const TURNS_AT_ONCE: &str = "{\"trail\":2}\n{\"e\":\"open\"}\n{\"e\":\"turn\"}\n";

const CLOSES_AT_ONCE: &str = "{\"trail\":2}\n{\"e\":\"open\"}\n{\"e\":\"close\"}\n";

fn events(alloc: Global, text: &str) -> Result<Vec<Event>, Fail> {
    match read_trail(alloc, text.as_bytes()) {
        Ok(trail) => Ok(trail),
        Err(_) => Err(Fail::new("a trail")),
    }
}

/// What is said of the ends of two trails, the second one under so many forks.
fn compared(
    alloc: Global,
    playbook: &str,
    trail: &str,
    forks: u32,
    other: &str,
) -> Result<Result<Option<HostNo>, AuditFault>, Fail> {
    if forks == 0 || forks > 256 {
        return Err(Fail::new("forks from 1 to 256"));
    }
    let plan = plan_on(alloc, TWO_HOSTS, playbook, 5)?;
    let one = events(alloc, trail)?;
    let two = events(alloc, other)?;
    Ok(same_end(alloc, &plan, one.as_slice(), forks, two.as_slice()))
}

/// The first host that ends otherwise in the second trail, both being runs of the plan.
fn apart(
    alloc: Global,
    playbook: &str,
    trail: &str,
    forks: u32,
    other: &str,
) -> Result<Option<HostNo>, Fail> {
    match compared(alloc, playbook, trail, forks, other)? {
        Ok(found) => Ok(found),
        Err(_) => Err(Fail::new("two runs")),
    }
}

/// The fault that is reported of a trail that is no run of the plan.
fn fault_of(alloc: Global, trail: &str, other: &str) -> Result<AuditFault, Fail> {
    match compared(alloc, KEEPS_TO_ITSELF, trail, 5, other)? {
        Ok(_) => Err(Fail::new("a fault")),
        Err(fault) => Ok(fault),
    }
}

/// The host that begins first sees nothing of the other.
#[test]
fn hosts_that_look_round_may_differ(rt: HostRuntime) -> Result<(), Fail> {
    let alloc = rt.alloc();
    let found = apart(alloc, LOOKS_ROUND, FIRST_BEGINS, 5, SECOND_BEGINS)?;
    assert!(rt; found == Some(HostNo(1)));
    let same = apart(alloc, LOOKS_ROUND, SECOND_BEGINS, 5, SECOND_BEGINS)?;
    assert!(rt; same == None);
    Ok(())
}

#[test]
fn hosts_that_keep_to_themselves_end_in_the_same(rt: HostRuntime) -> Result<(), Fail> {
    let alloc = rt.alloc();
    let found = apart(alloc, KEEPS_TO_ITSELF, FIRST_BEGINS, 5, SECOND_BEGINS)?;
    assert!(rt; found == None);
    let many = apart(alloc, KEEPS_TO_ITSELF, FIRST_BEGINS, 200, SECOND_BEGINS)?;
    assert!(rt; many == None);
    Ok(())
}

/// The first trail's fault comes first.
#[test]
fn trails_that_are_no_runs_are_reported(rt: HostRuntime) -> Result<(), Fail> {
    let alloc = rt.alloc();
    let turn = AuditFault::Illegal {
        step: 1,
        rule: EventName::Turn,
    };
    let close = AuditFault::Illegal {
        step: 1,
        rule: EventName::Close,
    };
    assert!(rt; fault_of(alloc, TURNS_AT_ONCE, CLOSES_AT_ONCE)? == turn);
    assert!(rt; fault_of(alloc, FIRST_BEGINS, CLOSES_AT_ONCE)? == close);
    Ok(())
}
