//! What a run may leave where memory was refused in it.

use crate::by_hand::wants_memory;
use crate::play::{Break, NotBegun, Run};
use crate::rows::Way;
use pb_audit::trail_text;
use pb_state::Event;
use std::alloc::{AllocError, Global};

/// What a run left in which nothing was refused: the text of its trail, and its output.
#[derive(Drop)]
pub struct Wanted {
    pub trail: Vec<u8>,
    pub bytes: Vec<u8>,
}

/// How a run ended that ended as it may.
#[derive(Clone, Copy)]
pub enum End {
    /// As where nothing is refused.
    Same,
    /// With a job that wasn't started.
    WithoutJob,
    /// In the middle, with a beginning of the same.
    BrokenOff,
    /// In the middle, behind a job that wasn't started: memory was refused twice.
    BrokenOffWithoutJob,
    /// In the middle, with a beginning of the same, where a call was made twice and refused twice.
    TwiceRefused,
    /// A worker couldn't be started.
    NoWorker,
    /// There was no run.
    NotBegun,
}

impl End {
    /// The end in words.
    pub fn words(self) -> &'static str {
        match self {
            End::Same => "the same",
            End::WithoutJob => "a job not started",
            End::BrokenOff => "broken off",
            End::BrokenOffWithoutJob => "a job not started, and broken off",
            End::TwiceRefused => "broken off at the second try",
            End::NoWorker => "no worker",
            End::NotBegun => "not begun",
        }
    }
}

/// Whether the runner was refused memory for a job.
fn is_without_memory(event: &Event) -> bool {
    match event {
        Event::Report(report) => wants_memory(&report.outcome),
        _ => false,
    }
}

/// The events before the first job for which the runner was refused memory, else all.
fn before_refusal(trail: &[Event]) -> &[Event] {
    for at in 0..trail.len() {
        if is_without_memory(&trail[at]) {
            return &trail[..at];
        }
    }
    trail
}

/// What is to be said of a run that began.
#[derive(Clone, Copy)]
struct Seen {
    /// No job was refused memory.
    has_jobs: bool,
    /// There are no events and there is no output.
    is_empty: bool,
    /// The output is a beginning of the wanted one.
    is_beginning: bool,
    /// All events and all output are as wanted.
    is_whole: bool,
}

/// The end of a run by calls that were each made twice, if it is one that may be. Its jobs are run twice as well.
fn end_by_hand(fault: Option<Break>, seen: Seen) -> Option<End> {
    match fault {
        None if seen.has_jobs && seen.is_whole => Some(End::Same),
        Some(Break::Memory) if seen.has_jobs && seen.is_beginning => Some(End::TwiceRefused),
        _ => None,
    }
}

/// The end of a run by a driver, if it is one that may be. Where a job wasn't started for want of memory the run goes on, with more that isn't known.
fn end_by_driver(way: Way, fault: Option<Break>, seen: Seen) -> Option<End> {
    match fault {
        None if !seen.has_jobs => Some(End::WithoutJob),
        None if seen.is_whole => Some(End::Same),
        Some(Break::Memory) if !seen.has_jobs => Some(End::BrokenOffWithoutJob),
        Some(Break::Memory) if seen.is_beginning => Some(End::BrokenOff),
        Some(Break::Closed) if seen.is_empty => match way {
            Way::Pool(_) => Some(End::NoWorker),
            _ => None,
        },
        _ => None,
    }
}

/// The end of a run that began, if it is one that may be. In each case the events before the first job without memory are a beginning of the wanted ones.
fn end_of_run(
    alloc: Global,
    way: Way,
    run: &Run,
    bytes: &[u8],
    wanted: &Wanted,
) -> Result<Option<End>, AllocError> {
    let before = before_refusal(run.trail.as_slice());
    let text = trail_text(alloc, before)?;
    if !wanted.trail.as_slice().starts_with(text.as_slice()) {
        return Ok(None);
    }
    let seen = Seen {
        has_jobs: before.len() == run.trail.len(),
        is_empty: run.trail.is_empty() && bytes.is_empty(),
        is_beginning: wanted.bytes.as_slice().starts_with(bytes),
        is_whole: text.as_slice() == wanted.trail.as_slice() && bytes == wanted.bytes.as_slice(),
    };
    Ok(match way {
        Way::ByHand => end_by_hand(run.fault, seen),
        _ => end_by_driver(way, run.fault, seen),
    })
}

/// Whether no run began for want of memory: each fault's words end in that.
fn is_for_memory(alloc: Global, fault: &NotBegun) -> Result<bool, AllocError> {
    let words = format!(in alloc; "{fault}")?;
    Ok(words.ends_with("Memory"))
}

/// How it ended, if that is what may come where memory was refused.
pub fn end_of(
    alloc: Global,
    way: Way,
    run: &Result<Run, NotBegun>,
    bytes: &[u8],
    wanted: &Wanted,
) -> Result<Option<End>, AllocError> {
    match run {
        Ok(run) => end_of_run(alloc, way, run, bytes, wanted),
        Err(fault) => {
            if bytes.is_empty() && is_for_memory(alloc, fault)? {
                Ok(Some(End::NotBegun))
            } else {
                Ok(None)
            }
        }
    }
}
