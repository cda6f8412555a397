//! Jobs for the tests, and what came of them.
use pb_ids::{HostNo, Place, PlayNo, Ticket};
use pb_outcome::job::{Call, Job};
use pb_outcome::outcome::{Form, Outcome};
use pb_runner::local::LocalRunner;
use pb_runner::runner::Runner;
use pb_runner::system::SystemLauncher;
use pb_value::items::Items;
use pb_value::text::Text;
use std::alloc::{AllocError, Global};

pub(crate) fn texts(alloc: Global, words: &[&str]) -> Result<Items<Text>, AllocError> {
    let mut texts = Vec::new(alloc);
    for word in words {
        texts.push(Text::from_str(alloc, word)?)?;
    }
    Ok(Items::from_vec(texts))
}

// A call on a host named `a`, whose target behind this connector is named `far`.
pub(crate) fn job(alloc: Global, connector: &[&str], call: Call) -> Result<Job, AllocError> {
    Ok(Job {
        ticket: Ticket(0),
        host: HostNo(0),
        name: Text::from_str(alloc, "a")?,
        play: PlayNo(0),
        place: Place::new(alloc),
        item: 0,
        attempt: 1,
        delay: 0,
        target: Text::from_str(alloc, "far")?,
        connector: texts(alloc, connector)?,
        call,
    })
}

fn outcome_of(
    rt: &HostRuntime,
    facts: Option<Text>,
    connector: &[&str],
    call: Call,
) -> Result<Outcome, AllocError> {
    let alloc = rt.alloc();
    let job = job(alloc, connector, call)?;
    let launcher = SystemLauncher::new(rt);
    let mut runner = LocalRunner { launcher, facts };
    Ok(runner.run(alloc, &job))
}

// What comes of a command behind this connector, to a target named `far`.
pub(crate) fn behind(
    rt: &HostRuntime,
    connector: &[&str],
    words: &[&str],
) -> Result<Outcome, AllocError> {
    let words = texts(rt.alloc(), words)?;
    outcome_of(rt, None, connector, Call::Command { words })
}

// What comes of a command.
pub(crate) fn command(rt: &HostRuntime, words: &[&str]) -> Result<Outcome, AllocError> {
    behind(rt, [].as_slice(), words)
}

// What comes of a text for the shell.
pub(crate) fn shell(rt: &HostRuntime, text: &str) -> Result<Outcome, AllocError> {
    let text = Text::from_str(rt.alloc(), text)?;
    outcome_of(rt, None, [].as_slice(), Call::Shell { text })
}

// What comes of the facts program behind this connector.
pub(crate) fn setup(
    rt: &HostRuntime,
    facts: Option<Text>,
    connector: &[&str],
) -> Result<Outcome, AllocError> {
    outcome_of(rt, facts, connector, Call::Setup)
}

pub(crate) fn is_ran(outcome: &Outcome, status: i64, stdout: &str, stderr: &str) -> bool {
    match outcome.form() {
        Form::Ran { rc, out, err } => {
            *rc == status && out.as_str() == stdout && err.as_str() == stderr
        }
        _ => false,
    }
}

pub(crate) fn is_unreachable(outcome: &Outcome, words: &str) -> bool {
    match outcome.form() {
        Form::Unreachable { msg } => msg.as_str() == words,
        _ => false,
    }
}

pub(crate) fn is_cause(outcome: &Outcome, number: u64) -> bool {
    match outcome.form() {
        Form::NotStarted { cause } => cause.number() == number,
        _ => false,
    }
}
