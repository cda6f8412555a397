//! Commands that are taken and refused, and runs that are given a list of them.

use crate::engines::{engine_of, is_over, report};
use crate::events_text::events_text;
use crate::trails::plan_on;
use pb_driver::{Command, CommandFault, Engine, Given, Lowest, Silent, run_plain};
use pb_runner::table::TableRunner;
use std::alloc::Global;
use std::test::Fail;

const TWO_HOSTS: &str = "{\"all\":[\"a\",\"b\"]}";

const COMMAND: &str =
    "[{\"hosts\":\"all\",\"gather_facts\":false,\"tasks\":[{\"command\":\"run it\"}]}]";

/// Whether a command is taken.
fn is_taken(engine: &mut Engine, command: Command) -> bool {
    match engine.command(command) {
        Ok(()) => true,
        Err(_) => false,
    }
}

/// Whether a command is refused so, with nothing changed.
fn is_refused(engine: &mut Engine, command: Command, want: CommandFault) -> bool {
    let before = engine.trail().len();
    match engine.command(command) {
        Ok(()) => false,
        Err(fault) => fault == want && engine.trail().len() == before,
    }
}

/// A run under one fork waits for a's job; then two may run, and then it is stopped: what is out is still collected.
#[test]
fn forks_and_a_stop(rt: HostRuntime) -> Result<(), Fail> {
    let alloc = rt.alloc();
    let mut engine = engine_of(alloc, TWO_HOSTS, COMMAND, 1)?;
    let is_ended = is_over(&mut engine, &mut Lowest)?;
    assert!(rt; !is_ended);
    assert!(rt; is_refused(&mut engine, Command::Forks(0), CommandFault::BadForks));
    assert!(rt; is_refused(&mut engine, Command::Forks(257), CommandFault::BadForks));
    assert!(rt; is_taken(&mut engine, Command::Forks(2)));
    let is_ended = is_over(&mut engine, &mut Lowest)?;
    assert!(rt; !is_ended);
    assert!(rt; is_taken(&mut engine, Command::Stop));
    let is_ended = is_over(&mut engine, &mut Lowest)?;
    assert!(rt; !is_ended);
    report(&mut engine, alloc, 0, 0)?;
    report(&mut engine, alloc, 1, 1)?;
    assert!(rt; is_refused(&mut engine, Command::Forks(0), CommandFault::BadForks));
    assert!(rt; is_refused(&mut engine, Command::Stop, CommandFault::Finished));
    let is_ended = is_over(&mut engine, &mut Lowest)?;
    assert!(rt; is_ended);
    let text = events_text(alloc, engine.trail())?;
    drop(engine);
    assert_eq!(rt;
        text.as_str(),
        "open, start 0, send 0 0 as 0, forks 2, start 1, send 1 0 as 1, stop, report 0 0 of 0, report 1 0 of 1, "
    );
    Ok(())
}

const FOUR_HOSTS: &str = "{\"all\":{\"hosts\":[\"a\",\"b\",\"c\",\"d\"]}}";

/// The events of a run on four hosts that begins with one fork and is given these commands.
fn trail_with(alloc: Global, commands: &[Given]) -> Result<String, Fail> {
    let Ok(mut runner) = TableRunner::read(alloc, b"{\"rows\":[]}") else {
        return Err(Fail::new("a table"));
    };
    let plan = plan_on(alloc, FOUR_HOSTS, COMMAND, 1)?;
    let Ok(ended) = run_plain(alloc, plan, &mut runner, &mut Lowest, commands, &mut Silent) else {
        return Err(Fail::new("an end"));
    };
    let text = events_text(alloc, ended.trail.as_slice())?;
    drop(ended);
    Ok(text)
}

fn forks_after(after: u32, forks: u32) -> Given {
    Given {
        after,
        command: Command::Forks(forks),
    }
}

fn stop_after(after: u32) -> Given {
    Given {
        after,
        command: Command::Stop,
    }
}

/// Three may run behind the first report, and then one again: what runs goes on, and nothing starts until the last of them has ended.
#[test]
fn forks_up_and_down(rt: HostRuntime) -> Result<(), Fail> {
    let commands = [forks_after(1, 3), forks_after(2, 1)];
    let trail = trail_with(rt.alloc(), commands.as_slice())?;
    assert_eq!(rt;
        trail.as_str(),
        "open, start 0, send 0 0 as 0, report 0 0 of 0, forks 3, start 1, send 1 0 as 1, start 2, send 2 0 as 2, start 3, send 3 0 as 3, report 1 0 of 1, forks 1, report 2 0 of 2, report 3 0 of 3, turn, close, "
    );
    Ok(())
}

/// A command waits for those in front of it, and then comes at once; one that is refused leaves nothing behind.
#[test]
fn commands_in_their_order(rt: HostRuntime) -> Result<(), Fail> {
    let commands = [forks_after(0, 257), forks_after(1, 2), stop_after(0)];
    let trail = trail_with(rt.alloc(), commands.as_slice())?;
    assert_eq!(rt;
        trail.as_str(),
        "open, start 0, send 0 0 as 0, report 0 0 of 0, forks 2, stop, "
    );
    let commands = [stop_after(0), forks_after(0, 2), stop_after(0)];
    let trail = trail_with(rt.alloc(), commands.as_slice())?;
    assert_eq!(rt; trail.as_str(), "stop, ");
    let commands = [stop_after(5)];
    let trail = trail_with(rt.alloc(), commands.as_slice())?;
    assert_eq!(rt;
        trail.as_str(),
        "open, start 0, send 0 0 as 0, report 0 0 of 0, start 1, send 1 0 as 1, report 1 0 of 1, start 2, send 2 0 as 2, report 2 0 of 2, start 3, send 3 0 as 3, report 3 0 of 3, turn, close, "
    );
    Ok(())
}
