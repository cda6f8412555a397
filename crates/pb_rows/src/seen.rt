//! What a play of the program shows.

use crate::kept::Kept;
use pb_cli::program::play;
use pb_cli::workers::system_launchers;
use std::alloc::{AllocError, Global};
use std::fs::Files;
use std::process::{Processes, SystemProcess};
use std::sync::Wait;
use std::thread::Threads;
use std::time::Clock;

/// What a play showed: its standard output, its standard error and its exit status.
pub struct Seen {
    pub out: Vec<u8>,
    pub err: Vec<u8>,
    pub status: u8,
}

impl Drop for Seen {
    fn drop(self) {
        let Seen {
            out,
            err,
            status: _,
        } = self;
        drop(out);
        drop(err);
    }
}

/// Plays these words, the first of which is the program's name, with this writer as standard output.
fn play_words<
    R: Files + AllocGlobal + Processes<Started = SystemProcess> + Clock + Threads + Wait + Sync,
>(rt: &R, words: &[String], mut out: Kept) -> Result<Seen, AllocError> {
    let mut err = Kept::new(rt.alloc());
    let mut launchers = system_launchers(rt)?;
    let status = play(rt, words, &mut launchers, &mut out, &mut err);
    Ok(Seen {
        out: out.into_bytes(),
        err: err.into_bytes(),
        status,
    })
}

/// The program's name and these texts.
fn words_of(alloc: Global, texts: &[&str]) -> Result<Vec<String>, AllocError> {
    let mut words = Vec::new(alloc);
    words.push(String::from_str(alloc, "pb-play")?)?;
    for text in texts {
        words.push(String::from_str(alloc, *text)?)?;
    }
    Ok(words)
}

/// Plays the words behind the program's name, with this writer as standard output.
pub fn play_texts<
    R: Files + AllocGlobal + Processes<Started = SystemProcess> + Clock + Threads + Wait + Sync,
>(rt: &R, texts: &[&str], out: Kept) -> Result<Seen, AllocError> {
    let words = words_of(rt.alloc(), texts)?;
    play_words(rt, words.as_slice(), out)
}
