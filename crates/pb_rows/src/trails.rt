//! The events of runs, in their order.

use pb_driver::{Ended, Lowest, Silent, run_plain};
use pb_ids::{HostNo, Ticket};
use pb_roles::RoleFiles;
use pb_runner::table::TableRunner;
use pb_state::{Bundle, Event, Plan};
use pb_value::items::Items;
use std::alloc::{AllocError, Global};
use std::test::Fail;

const HELLO: &str =
    "[{\"hosts\":\"all\",\"gather_facts\":false,\"tasks\":[{\"name\":\"hi\",\"debug\":{\"msg\":\"hello\"}}]}]";

const HELLO_TWICE: &str =
    "[{\"hosts\":\"all\",\"gather_facts\":false,\"tasks\":[{\"name\":\"hi\",\"debug\":{\"msg\":\"hello\"}},{\"debug\":{}}]}]";

const COMMAND: &str =
    "[{\"hosts\":\"all\",\"gather_facts\":false,\"tasks\":[{\"name\":\"go\",\"command\":\"run it\"}]}]";

fn bytes_of(alloc: Global, text: &str) -> Result<Items<u8>, AllocError> {
    Ok(Items::from_vec(text.as_bytes().to_vec(alloc)?))
}

/// The bundle of a playbook for the hosts of an inventory.
fn bundle_of(
    alloc: Global,
    inventory: &str,
    playbook: &str,
    forks: u32,
) -> Result<Bundle, AllocError> {
    let inventory = bytes_of(alloc, inventory)?;
    let playbook = bytes_of(alloc, playbook)?;
    Ok(Bundle {
        inventory,
        playbook,
        limit: None,
        extra: None,
        roles: RoleFiles {
            files: Items::new(alloc),
        },
        forks,
        has_facts_program: false,
    })
}

/// The plan of a playbook for two hosts.
pub fn plan_of(alloc: Global, playbook: &str, forks: u32) -> Result<Plan, Fail> {
    plan_on(
        alloc,
        "{\"all\":{\"hosts\":[\"a\",\"b\"]}}",
        playbook,
        forks,
    )
}

/// The plan of a playbook for the hosts of an inventory.
pub fn plan_on(alloc: Global, inventory: &str, playbook: &str, forks: u32) -> Result<Plan, Fail> {
    let bundle = bundle_of(alloc, inventory, playbook, forks)?;
    match Plan::of(alloc, &bundle) {
        Ok(plan) => Ok(plan),
        Err(_) => Err(Fail::new("a plan")),
    }
}

fn runner(alloc: Global) -> Result<TableRunner, Fail> {
    match TableRunner::read(alloc, b"{\"rows\":[]}") {
        Ok(runner) => Ok(runner),
        Err(_) => Err(Fail::new("a table")),
    }
}

/// An event's name, with the number of its host or of its job.
fn word_of(event: &Event) -> &'static str {
    match event {
        Event::Open => "open ",
        Event::Start(HostNo(0)) => "start 0 ",
        Event::Start(_) => "start 1 ",
        Event::Send {
            host: _,
            item: _,
            attempt: _,
            ticket: Ticket(0),
        } => "send 0 ",
        Event::Send {
            host: _,
            item: _,
            attempt: _,
            ticket: _,
        } => "send 1 ",
        Event::Report(report) => {
            if report.ticket.0 == 0 {
                "report 0 "
            } else {
                "report 1 "
            }
        }
        Event::Turn => "turn ",
        Event::Close => "close ",
        Event::Stop => "stop ",
        Event::Forks(_) => "forks ",
    }
}

fn trail_text(alloc: Global, trail: &[Event]) -> Result<String, AllocError> {
    let mut text = String::new(alloc);
    for event in trail {
        text.push_str(word_of(event))?;
    }
    Ok(text)
}

/// Runs a playbook on two hosts, with its lines on a writer that is dropped.
fn run(alloc: Global, playbook: &str, forks: u32) -> Result<Ended, Fail> {
    let mut runner = runner(alloc)?;
    let plan = plan_of(alloc, playbook, forks)?;
    match run_plain(alloc, plan, &mut runner, &mut Lowest, &[], &mut Silent) {
        Ok(ended) => Ok(ended),
        Err(_) => Err(Fail::new("an end")),
    }
}

/// The events of a run on two hosts to its good end.
fn trail_of(alloc: Global, playbook: &str, forks: u32) -> Result<String, Fail> {
    let ended = run(alloc, playbook, forks)?;
    let status = ended.status;
    let text = trail_text(alloc, ended.trail.as_slice());
    drop(ended);
    if status != 0 {
        return Err(Fail::new("a good end"));
    }
    Ok(text?)
}

#[test]
fn tasks_decided_at_their_start(rt: HostRuntime) -> Result<(), Fail> {
    let trail = trail_of(rt.alloc(), HELLO, 5)?;
    assert_eq!(rt; trail.as_str(), "open start 0 start 1 turn close ");
    let trail = trail_of(rt.alloc(), HELLO_TWICE, 5)?;
    assert_eq!(rt;
        trail.as_str(),
        "open start 0 start 1 turn start 0 start 1 turn close "
    );
    let trail = trail_of(rt.alloc(), "[]", 5)?;
    assert!(rt; trail.is_empty());
    Ok(())
}

#[test]
fn jobs_under_one_fork_and_two(rt: HostRuntime) -> Result<(), Fail> {
    let trail = trail_of(rt.alloc(), COMMAND, 1)?;
    assert_eq!(rt;
        trail.as_str(),
        "open start 0 send 0 report 0 start 1 send 1 report 1 turn close "
    );
    let trail = trail_of(rt.alloc(), COMMAND, 2)?;
    assert_eq!(rt;
        trail.as_str(),
        "open start 0 send 0 start 1 send 1 report 0 report 1 turn close "
    );
    Ok(())
}
