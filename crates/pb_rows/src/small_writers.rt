//! Writers of runs that need no files: one that fails at any call, one that takes a byte at a time, and one that takes none.

ghost use Rattle.std.specs.Prelude.{None};

use crate::kept::Kept;
use crate::trails::plan_on;
use pb_audit::trail_text;
use pb_driver::{Failed, LineOut, Lowest, RunFault, run_plain};
use pb_runner::table::TableRunner;
use std::alloc::Global;
use std::test::Fail;

/// One task on two hosts.
const HELLO: [&str; 2] = [
    "{\"all\":{\"hosts\":[\"a\",\"b\"]}}",
    "[{\"hosts\":\"all\",\"gather_facts\":false,\"tasks\":[{\"name\":\"hi\",\"debug\":{\"msg\":\"hello\"}}]}]",
];

/// Two handlers, one of which listens, and two commands that notify them.
const HANDLERS: [&str; 2] = [
    "{\"all\":{\"hosts\":[\"a\"]}}",
    "[{\"hosts\":\"all\",\"gather_facts\":false,\"handlers\":[{\"name\":\"h1\",\"debug\":{},\"listen\":\"web\"},{\"name\":\"h2\",\"debug\":{}}],\"tasks\":[{\"command\":\"first one\",\"notify\":[\"h2\",\"h1\"]},{\"command\":\"second one\",\"notify\":[\"h2\",\"web\"]}]}]",
];

/// Takes a byte at a call, and keeps it. No contract knows which.
#[derive(Drop)]
struct Sips {
    bytes: Vec<u8>,
    failures: u64,
}

impl LineOut for Sips {
    ghost taken = { λ _. None };

    ghost failures = { λ s. s.failures };

    fn put(&mut self, bytes: &[u8]) -> Result<usize, Failed> {
        if bytes.is_empty() {
            return Ok(0);
        }
        if self.bytes.push(bytes[0]).is_err() {
            self.failures = self.failures.wrapping_add(1);
            return Err(Failed);
        }
        Ok(1)
    }
}

/// Takes nothing, and doesn't say that it can't.
#[derive(Drop)]
struct Full {
    failures: u64,
}

impl LineOut for Full {
    ghost taken = { λ _. None };

    ghost failures = { λ f. f.failures };

    fn put(&mut self, bytes: &[u8]) -> Result<usize, Failed> {
        if !bytes.is_empty() {
            self.failures = self.failures.wrapping_add(1);
        }
        Ok(0)
    }
}

/// What a run left: its trail as a text, and whether its writer failed.
#[derive(Drop)]
struct Left {
    trail: Vec<u8>,
    has_failed: bool,
}

/// Runs a playbook on the hosts of an inventory, with its lines on the writer.
fn run<W: LineOut>(alloc: Global, texts: &[&str; 2], writer: &mut W) -> Result<Left, Fail> {
    let Ok(mut runner) = TableRunner::read(alloc, b"{\"rows\":[]}") else {
        return Err(Fail::new("a table"));
    };
    let plan = plan_on(alloc, texts[0], texts[1], 5)?;
    match run_plain(alloc, plan, &mut runner, &mut Lowest, &[], writer) {
        Ok(ended) => Ok(Left {
            trail: trail_text(alloc, ended.trail.as_slice())?,
            has_failed: false,
        }),
        Err((RunFault::Write, trail)) => Ok(Left {
            trail: trail_text(alloc, trail.as_slice())?,
            has_failed: true,
        }),
        Err(_) => Err(Fail::new("another fault")),
    }
}

/// What a run leaves with a writer that fails at a call, or at none: whether it failed, its trail, and what the writer took.
fn left_at(alloc: Global, texts: &[&str; 2], call: u64) -> Result<(Left, Vec<u8>), Fail> {
    let mut out = Kept::failing(alloc, call);
    let left = run(alloc, texts, &mut out)?;
    Ok((left, out.into_bytes()))
}

/// At how many calls a writer fails. Where it does, the run leaves a beginning of its trail and of its output; else all of both.
fn calls_that_fail(alloc: Global, texts: &[&str; 2]) -> Result<u64, Fail> {
    let (whole, bytes) = left_at(alloc, texts, 0)?;
    for call in 1..100 {
        let (left, taken) = left_at(alloc, texts, call)?;
        if !whole.trail.starts_with(left.trail.as_slice()) || !bytes.starts_with(taken.as_slice()) {
            return Err(Fail::new("beginnings"));
        }
        if !left.has_failed {
            if left.trail.len() != whole.trail.len() || taken.len() != bytes.len() {
                return Err(Fail::new("the whole run"));
            }
            return Ok(call.wrapping_sub(1));
        }
    }
    Err(Fail::new("an end"))
}

/// A writer is called once for the first line, for each event that has lines, for the line of the statistics, and for the recap.
#[test]
fn writers_that_fail_at_each_call(rt: HostRuntime) -> Result<(), Fail> {
    let alloc = rt.alloc();
    assert_eq!(rt; calls_that_fail(alloc, &HELLO)?, 6);
    assert_eq!(rt; calls_that_fail(alloc, &HANDLERS)?, 10);
    Ok(())
}

/// Whether a writer that takes a byte at a time takes all.
fn is_all_sipped(alloc: Global, texts: &[&str; 2]) -> Result<bool, Fail> {
    let (whole, bytes) = left_at(alloc, texts, 0)?;
    let mut out = Sips {
        bytes: Vec::new(alloc),
        failures: 0,
    };
    let left = run(alloc, texts, &mut out)?;
    Ok(
        !left.has_failed
            && left.trail.as_slice() == whole.trail.as_slice()
            && out.bytes.as_slice() == bytes.as_slice(),
    )
}

#[test]
fn a_writer_that_takes_a_byte_at_a_time(rt: HostRuntime) -> Result<(), Fail> {
    let alloc = rt.alloc();
    assert!(rt; is_all_sipped(alloc, &HELLO)?);
    assert!(rt; is_all_sipped(alloc, &HANDLERS)?);
    Ok(())
}

/// Whether a writer that takes nothing counts as failed at its first call, and no event is taken then.
fn is_refused_at_once(alloc: Global, texts: &[&str; 2]) -> Result<bool, Fail> {
    let mut out = Full { failures: 0 };
    let left = run(alloc, texts, &mut out)?;
    let none = trail_text(alloc, &[])?;
    Ok(left.has_failed && out.failures == 1 && left.trail.as_slice() == none.as_slice())
}

#[test]
fn a_writer_that_takes_nothing(rt: HostRuntime) -> Result<(), Fail> {
    let alloc = rt.alloc();
    assert!(rt; is_refused_at_once(alloc, &HELLO)?);
    assert!(rt; is_refused_at_once(alloc, &HANDLERS)?);
    Ok(())
}
