//! A writer that keeps what it takes.

ghost use Rattle.std.specs.Prelude.{Some};

use pb_driver::{Failed, LineOut};
use std::alloc::{AllocError, Global};

/// How many bytes a writer has room for.
const ROOM: usize = 1_048_576;

/// Keeps its bytes in the memory that it was made with, so that it asks for none in a run. It fails where that is full.
#[derive(Drop)]
pub struct Kept {
    bytes: Vec<u8>,
    failures: u64,
}

impl Kept {
    /// A writer that took nothing.
    pub fn new(alloc: Global) -> Result<Kept, AllocError> {
        Ok(Kept {
            bytes: Vec::with_capacity(alloc, ROOM)?,
            failures: 0,
        })
    }

    /// What it took.
    pub fn into_bytes(self) -> Vec<u8> {
        let Kept { bytes, failures: _ } = self;
        bytes
    }
}

impl LineOut for Kept {
    ghost taken = { λ k. Some k.bytes.items };

    ghost failures = { λ k. k.failures };

    fn put(&mut self, bytes: &[u8]) -> Result<usize, Failed> {
        if bytes.is_empty() {
            return Ok(0);
        }
        let room = ROOM.saturating_sub(self.bytes.len());
        let take = room.min(bytes.len());
        if take == 0 || self.bytes.extend_from_slice(&bytes[..take]).is_err() {
            self.failures = self.failures.wrapping_add(1);
            return Err(Failed);
        }
        Ok(take)
    }
}
