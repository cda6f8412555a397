//! Plays small runs twice, the second time where the allocator may refuse: `tools/refusals` refuses each allocation of that in turn.
//!
//! Its word is the number of a row. The row is played from its texts to its end. Then comes an allocation of 424,242 bytes, the row
//! is played once more from its texts, and an allocation of 424,243 bytes comes: between these two marks memory may be refused. The second play may end in the same;
//! may break off for want of memory with a beginning of the same trail and of the same output; may not have begun, for want of memory; or may have a job
//! that wasn't started for want of memory, and go on. Two rows are played by workers: there a worker may not have been started, and nothing came of the run then.
//! And each text is played by calls on an engine, which are made once more where memory was refused: unless that is refused too, the run ends in the same.
//! Where it ended so, nothing is printed, or how it ended where a second word stands behind the first, and the status is 0; else `wrong` and 1.
//! The word `all` plays each row so, where nothing is refused, and prints a line for each. Other words end it with status 2; where memory is refused
//! outside of the marks, the status is 3.
#![tactic(auto)]

mod by_hand;
mod judge;
mod kept;
mod play;
mod rows;
mod worker;

use crate::judge::{End, Wanted, end_of};
use crate::kept::Kept;
use crate::play::play;
use crate::rows::{ROWS, Row, row_of};
use pb_audit::trail_text;
use std::alloc::{AllocError, Global};
use std::env;
use std::process::ExitCode;
use std::sync::Wait;
use std::thread::Threads;

/// As many bytes are allocated where memory may be refused from then on.
const MAY_FAIL: usize = 424_242;

/// As many bytes are allocated where no more is refused.
const MAY_NOT_FAIL: usize = 424_243;

/// Allocates so many bytes, and lets them go.
fn mark(alloc: Global, size: usize) -> Result<(), AllocError> {
    let bytes: Vec<u8> = Vec::with_capacity(alloc, size)?;
    drop(bytes);
    Ok(())
}

/// What a row leaves undisturbed, if it comes to its end.
fn wanted_of<R: Threads + Wait + Sync>(
    rt: &R,
    alloc: Global,
    row: &Row,
) -> Result<Option<Wanted>, AllocError> {
    let mut out = Kept::new(alloc)?;
    match play(rt, alloc, row, &mut out) {
        Ok(run) => match run.fault {
            None => Ok(Some(Wanted {
                trail: trail_text(alloc, run.trail.as_slice())?,
                bytes: out.into_bytes(),
            })),
            Some(_) => Ok(None),
        },
        Err(_) => Ok(None),
    }
}

/// Plays a row twice. How the second play ended, if it ended as it may.
fn second_end<R: Threads + Wait + Sync>(
    rt: &R,
    alloc: Global,
    row: &Row,
) -> Result<Option<End>, AllocError> {
    let Some(wanted) = wanted_of(rt, alloc, row)? else {
        return Ok(None);
    };
    let mut out = Kept::new(alloc)?;
    mark(alloc, MAY_FAIL)?;
    let run = play(rt, alloc, row, &mut out);
    mark(alloc, MAY_NOT_FAIL)?;
    end_of(alloc, row.way, &run, out.into_bytes().as_slice(), &wanted)
}

/// Plays each row, and prints how it ended.
fn play_all<R: Print + AllocGlobal + Threads + Wait + Sync>(rt: &R) -> u8 {
    let mut status = 0;
    for number in 1..ROWS + 1 {
        let Some(row) = row_of(number) else {
            return 2;
        };
        let word = match second_end(rt, rt.alloc(), &row) {
            Ok(Some(End::Same)) => "fine",
            Ok(_) => "wrong",
            Err(_) => return 3,
        };
        if word != "fine" {
            status = 1;
        }
        let _ = println!(rt; "row {number}: {word}");
    }
    status
}

/// Plays the row of a number, and prints how it ended where that is asked for.
fn play_one<R: Print + AllocGlobal + Threads + Wait + Sync>(
    rt: &R,
    word: &str,
    is_reported: bool,
) -> u8 {
    let Ok(number) = word.parse::<u32>() else {
        return 2;
    };
    let Some(row) = row_of(number) else {
        return 2;
    };
    match second_end(rt, rt.alloc(), &row) {
        Ok(Some(end)) => {
            if is_reported {
                let words = end.words();
                let _ = println!(rt; "{words}");
            }
            0
        }
        Ok(None) => {
            let _ = println!(rt; "wrong");
            1
        }
        Err(_) => 3,
    }
}

fn main(rt: HostRuntime) -> ExitCode {
    let words: Vec<String> = match env::args(&rt).map(|args| args.collect(rt.alloc())) {
        Ok(Ok(words)) => words,
        _ => return ExitCode::from(3),
    };
    let Some(word) = words.get(1) else {
        return ExitCode::from(2);
    };
    match word.as_str() {
        "all" => ExitCode::from(play_all(&rt)),
        word => ExitCode::from(play_one(&rt, word, words.len() > 2)),
    }
}
