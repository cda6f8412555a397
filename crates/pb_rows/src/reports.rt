//! Reports that are refused and handed back.

use crate::trails::plan_of;
use pb_driver::{Command, Engine, Lowest, Next, Refusal};
use pb_ids::{HostNo, Ticket};
use pb_outcome::job::Report;
use pb_outcome::outcome::Outcome;
use pb_value::text::Text;
use std::alloc::Global;
use std::test::Fail;

const COMMAND: &str =
    "[{\"hosts\":\"all\",\"gather_facts\":false,\"tasks\":[{\"command\":\"run it\",\"register\":\"r\"}]}]";

/// An engine over two hosts with a command, under one fork.
fn engine_of(alloc: Global) -> Result<Engine, Fail> {
    let plan = plan_of(alloc, COMMAND, 1)?;
    match Engine::new(alloc, plan, 256) {
        Ok(engine) => Ok(engine),
        Err(_) => Err(Fail::new("an engine")),
    }
}

/// Goes one event on. The job that went out by it, if one did: its ticket, and whether it is of host a.
fn sent(engine: &mut Engine) -> Option<(Ticket, bool)> {
    match engine.next(&mut Lowest) {
        Ok(Next::Sent(job)) => Some((job.ticket, job.name.as_str() == "a")),
        _ => None,
    }
}

fn report_of(
    alloc: Global,
    ticket: u64,
    host: u32,
    item: u32,
    attempt: u32,
) -> Result<Report, Fail> {
    match Outcome::ran(0, Text::new(alloc), Text::new(alloc)) {
        Ok(outcome) => Ok(Report {
            ticket: Ticket(ticket),
            host: HostNo(host),
            item,
            attempt,
            outcome,
        }),
        Err(_) => Err(Fail::new("an outcome")),
    }
}

/// Gives the engine a report. Whether it is refused so and handed back with nothing changed, or taken as one event.
fn is_answered(engine: &mut Engine, ticket: u64, report: Report, want: Option<Refusal>) -> bool {
    let before = engine.trail().len();
    match engine.absorb(report) {
        Ok(()) => want.is_none() && engine.trail().len() == before.wrapping_add(1),
        Err((back, refusal)) => {
            Some(refusal) == want && back.ticket == Ticket(ticket) && engine.trail().len() == before
        }
    }
}

#[test]
fn reports_that_are_refused(rt: HostRuntime) -> Result<(), Fail> {
    let alloc = rt.alloc();
    let mut engine = engine_of(alloc)?;
    let mut jobs = 0u32;
    for _ in 0..10 {
        if let Some((ticket, is_of_a)) = sent(&mut engine) {
            assert!(rt; ticket == Ticket(0) && is_of_a);
            jobs = jobs.wrapping_add(1);
        }
    }
    assert_eq!(rt; jobs, 1);
    let cases = [
        (9, 0, 0, 1, Some(Refusal::UnknownTicket)),
        (0, 0, 1, 1, Some(Refusal::WrongItem)),
        (0, 1, 0, 1, Some(Refusal::WrongItem)),
        (0, 0, 0, 0, Some(Refusal::WrongItem)),
        (0, 0, 0, 2, Some(Refusal::WrongItem)),
        (0, 0, 0, 1, None),
        (0, 0, 0, 1, Some(Refusal::AlreadyReported)),
        (1, 1, 0, 1, Some(Refusal::UnknownTicket)),
    ];
    for (ticket, host, item, attempt, want) in &cases {
        let report = report_of(alloc, *ticket, *host, *item, *attempt)?;
        assert!(rt;
            is_answered(&mut engine, *ticket, report, *want),
            "{ticket} {host} {item} {attempt}"
        );
    }
    Ok(())
}

/// What host a has registered, as a text; nothing, where there is none.
fn learnt(alloc: Global, engine: &Engine) -> Result<String, Fail> {
    if engine.plan().host_count() == 0 {
        return Err(Fail::new("a host"));
    }
    match engine.facts(HostNo(0)).set_layer().get("r") {
        Some(result) => Ok(result.text_of(alloc)?),
        None => Ok(String::new(alloc)),
    }
}

/// Gives the engine host a's report, with what its program wrote. Whether it is taken.
fn is_taken(engine: &mut Engine, alloc: Global, out: &str) -> Result<bool, Fail> {
    let outcome = match Outcome::ran(0, Text::from_str(alloc, out)?, Text::new(alloc)) {
        Ok(outcome) => outcome,
        Err(_) => return Err(Fail::new("an outcome")),
    };
    let report = Report {
        ticket: Ticket(0),
        host: HostNo(0),
        item: 0,
        attempt: 1,
        outcome,
    };
    Ok(engine.absorb(report).is_ok())
}

/// A second report of a job teaches its host nothing.
#[test]
fn facts_as_after_one(rt: HostRuntime) -> Result<(), Fail> {
    let alloc = rt.alloc();
    let mut engine = engine_of(alloc)?;
    for _ in 0..10 {
        let _ = sent(&mut engine);
    }
    assert!(rt; learnt(alloc, &engine)?.is_empty());
    assert!(rt; is_taken(&mut engine, alloc, "one")?);
    let once = learnt(alloc, &engine)?;
    assert!(rt; once.as_str().contains("\"stdout\":\"one\""));
    assert!(rt; !is_taken(&mut engine, alloc, "two")?);
    assert_eq!(rt; learnt(alloc, &engine)?.as_str(), once.as_str());
    Ok(())
}

/// Goes on until nothing more happens by itself. Whether the run is at its end then.
fn goes_to_the_end(engine: &mut Engine) -> bool {
    for _ in 0..100 {
        if let Ok(Next::Finished) = engine.next(&mut Lowest) {
            return true;
        }
    }
    false
}

/// A job that is out as the run is commanded to stop is answered once, and its ticket is an old one ever after.
#[test]
fn reports_behind_a_stop(rt: HostRuntime) -> Result<(), Fail> {
    let alloc = rt.alloc();
    let mut engine = engine_of(alloc)?;
    for _ in 0..10 {
        let _ = sent(&mut engine);
    }
    assert!(rt; engine.command(Command::Stop).is_ok());
    let first = report_of(alloc, 0, 0, 0, 1)?;
    assert!(rt; is_answered(&mut engine, 0, first, None));
    let second = report_of(alloc, 0, 0, 0, 1)?;
    assert!(rt; is_answered(&mut engine, 0, second, Some(Refusal::AlreadyReported)));
    assert!(rt; goes_to_the_end(&mut engine));
    let third = report_of(alloc, 0, 0, 0, 1)?;
    assert!(rt; is_answered(&mut engine, 0, third, Some(Refusal::AlreadyReported)));
    Ok(())
}

/// In a finished state each ticket of the run is an old one, and its report is handed back.
#[test]
fn old_tickets_at_the_end(rt: HostRuntime) -> Result<(), Fail> {
    let alloc = rt.alloc();
    let mut engine = engine_of(alloc)?;
    for host in 0..2 {
        for _ in 0..10 {
            let _ = sent(&mut engine);
        }
        let report = report_of(alloc, u64::from(host), host, 0, 1)?;
        assert!(rt; is_answered(&mut engine, u64::from(host), report, None));
    }
    assert!(rt; goes_to_the_end(&mut engine));
    for host in 0..2 {
        let report = report_of(alloc, u64::from(host), host, 0, 1)?;
        assert!(rt;
            is_answered(
                &mut engine,
                u64::from(host),
                report,
                Some(Refusal::AlreadyReported)
            ),
            "{host}"
        );
    }
    Ok(())
}
