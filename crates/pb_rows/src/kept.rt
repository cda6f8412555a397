//! A writer that keeps what it takes.

ghost use Rattle.std.specs.Prelude.{Some};

use pb_cli::{Failed, LineOut};
use std::alloc::Global;

/// Keeps its bytes. It takes at most so many at a call, and fails at the call with a given number, counted from 1.
pub struct Kept {
    bytes: Vec<u8>,
    calls: u64,
    fails_at: u64,
    most: usize,
    failures: u64,
}

impl Drop for Kept {
    fn drop(self) {
        let Kept {
            bytes,
            calls: _,
            fails_at: _,
            most: _,
            failures: _,
        } = self;
        drop(bytes);
    }
}

impl Kept {
    fn made(alloc: Global, fails_at: u64, most: usize) -> Kept {
        Kept {
            bytes: Vec::new(alloc),
            calls: 0,
            fails_at,
            most,
            failures: 0,
        }
    }

    /// A writer that takes all and never fails, unless memory is refused.
    pub fn new(alloc: Global) -> Kept {
        Kept::made(alloc, 0, usize::MAX)
    }

    /// A writer that fails at that call.
    pub fn failing(alloc: Global, fails_at: u64) -> Kept {
        Kept::made(alloc, fails_at, usize::MAX)
    }

    /// A writer that takes at most three bytes at a call.
    pub fn short(alloc: Global) -> Kept {
        Kept::made(alloc, 0, 3)
    }

    /// What it took.
    pub fn into_bytes(self) -> Vec<u8> {
        let Kept {
            bytes,
            calls: _,
            fails_at: _,
            most: _,
            failures: _,
        } = self;
        bytes
    }
}

impl LineOut for Kept {
    ghost taken = { λ k. Some k.bytes.items };

    ghost failures = { λ k. k.failures };

    fn put(&mut self, bytes: &[u8]) -> Result<usize, Failed> {
        self.calls = self.calls.wrapping_add(1);
        if bytes.is_empty() {
            return Ok(0);
        }
        let take = self.most.min(bytes.len());
        if take == 0
            || self.calls == self.fails_at
            || self.bytes.extend_from_slice(&bytes[..take]).is_err()
        {
            self.failures = self.failures.wrapping_add(1);
            return Err(Failed);
        }
        Ok(take)
    }
}
