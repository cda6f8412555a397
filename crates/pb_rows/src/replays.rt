//! Trails that are replayed, hosts of plays and recaps: public calls that no run makes, each once where memory is ample.

use crate::engines::{engine_of, is_over, report};
use crate::trails::plan_on;
use pb_audit::{AuditFault, EventName, replay};
use pb_driver::{CountKind, Engine, Lowest, Recap};
use pb_ids::PlayNo;
use std::alloc::Global;
use std::test::Fail;

const TWO_HOSTS: &str = "{\"all\":[\"a\",\"b\"]}";

const THREE_HOSTS: &str = "{\"all\":[\"a\",\"b\",\"c\"],\"web\":[\"a\",\"c\"]}";

const COMMAND: &str =
    "[{\"hosts\":\"all\",\"gather_facts\":false,\"tasks\":[{\"command\":\"run it\"}]}]";

const WEB: &str = "[{\"hosts\":\"web\",\"gather_facts\":false,\"tasks\":[]}]";

/// An engine in which both hosts ran a command, under so many forks, and that is at its end.
fn over(alloc: Global, forks: u32) -> Result<Engine, Fail> {
    let mut engine = engine_of(alloc, TWO_HOSTS, COMMAND, forks)?;
    let _ = is_over(&mut engine, &mut Lowest)?;
    report(&mut engine, alloc, 0, 0)?;
    let _ = is_over(&mut engine, &mut Lowest)?;
    report(&mut engine, alloc, 1, 1)?;
    if !is_over(&mut engine, &mut Lowest)? {
        return Err(Fail::new("an end"));
    }
    Ok(engine)
}

/// What two hosts at once do may be done under more forks, and not under one: there the second host starts too early.
#[test]
fn replays_under_other_forks(rt: HostRuntime) -> Result<(), Fail> {
    let alloc = rt.alloc();
    let engine = over(alloc, 2)?;
    let plan = plan_on(alloc, TWO_HOSTS, COMMAND, 5)?;
    match replay(alloc, &plan, 200, engine.trail()) {
        Ok(state) => assert_eq!(rt; state.sends(), 2),
        Err(_) => return Err(Fail::new("a legal run")),
    }
    match replay(alloc, &plan, 1, engine.trail()) {
        Ok(_) => return Err(Fail::new("an illegal run")),
        Err(fault) => assert!(rt;
            fault
                == AuditFault::Illegal {
                    step: 3,
                    rule: EventName::Start,
                }
        ),
    }
    Ok(())
}

#[test]
fn recap_of_an_engine(rt: HostRuntime) -> Result<(), Fail> {
    let alloc = rt.alloc();
    let engine = over(alloc, 1)?;
    let recap = engine.recap(alloc)?;
    assert!(rt; recap.total(CountKind::Okay) == 2);
    assert!(rt; recap.total(CountKind::Changed) == 2);
    assert!(rt; recap.total(CountKind::Failed) == 0);
    let none = Recap::new(alloc, engine.plan())?;
    assert!(rt; none.total(CountKind::Okay) == 0);
    assert!(rt; none.status() == 0);
    Ok(())
}

#[test]
fn hosts_of_a_play(rt: HostRuntime) -> Result<(), Fail> {
    let alloc = rt.alloc();
    let plan = plan_on(alloc, THREE_HOSTS, WEB, 5)?;
    if plan.plays().is_empty() {
        return Err(Fail::new("a play"));
    }
    let hosts = plan.hosts(alloc, PlayNo(0))?;
    assert_eq!(rt; hosts.count(), 2);
    Ok(())
}
