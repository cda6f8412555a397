//! A writer that fails.

ghost use Rattle.std.specs.Prelude.{None};

use pb_driver::{Failed, LineOut};

/// Takes all bytes and keeps none, so many times; then it fails.
#[derive(Drop)]
pub struct Failing {
    pub left: u32,
    pub failures: u64,
}

impl LineOut for Failing {
    ghost taken = { λ _. None };

    ghost failures = { λ f. f.failures };

    fn put(&mut self, bytes: &[u8]) -> Result<usize, Failed> {
        if bytes.is_empty() {
            return Ok(0);
        }
        if self.left == 0 {
            self.failures = self.failures.wrapping_add(1);
            return Err(Failed);
        }
        self.left -= 1;
        Ok(bytes.len())
    }
}
