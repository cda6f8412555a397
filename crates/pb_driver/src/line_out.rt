//! Where lines go.

ghost use Rattle.std.specs.Prelude.{◌≡◌, ◌≤◌, ℕ, List, None, length, take, IfOk, OnOk, OnErr};
ghost use Rattle.pb_driver.specs.Taken.{with_more, is_failed, counted, one_more};

use std::io::Print;

/// A writer refused the bytes.
#[derive(Clone, Copy, Debug, PartialEq, Eq)]
pub struct Failed;

/// Takes bytes, and tells how many.
///
/// To contracts it tells the bytes that it took so far, unless it can't, and the number of its failed calls modulo 2^64:
/// a call fails where it answers an error, or takes nothing of some bytes.
pub trait LineOut {
    ghost use Rattle.std.specs.Prelude.{Option};

    ghost taken: { Self → Option (List ℕ) };

    ghost failures: { Self → ℕ };

    /// Takes a front of the bytes, and answers how many bytes it took.
    ///
    /// # Errors
    /// `Failed` where it took none, and can't.
    fn put(&mut self, bytes: &[u8]) -> Result<usize, Failed>
        ensures count { IfOk result (λ n. n ≤ length bytes.now) }
        ensures taken { IfOk result (λ n. taken self.new ≡ with_more (taken self.old) (take n bytes.now)) }
        ensures err { OnErr result (taken self.new ≡ taken self.old) }
        ensures failures { failures self.new ≡ counted (is_failed bytes.now result) (failures self.old) };
}

/// Standard output or standard error, which tell no contract what they took.
#[derive(Drop)]
pub struct Printed<P> {
    to: P,
    failures: u64,
}

impl<P: Print> Printed<P> {
    /// A writer over a stream that has failed at no call.
    pub fn new(to: P) -> Printed<P> {
        Printed { to, failures: 0 }
    }
}

impl<P: Print> LineOut for Printed<P> {
    ghost taken = { λ _. None };

    ghost failures = { λ p. p.failures };

    fn put(&mut self, bytes: &[u8]) -> Result<usize, Failed> {
        match self.to.write_some(bytes) {
            Ok(n) => {
                if n == 0 && !bytes.is_empty() {
                    self.failures = self.failures.wrapping_add(1);
                }
                Ok(n)
            }
            Err(_) => {
                self.failures = self.failures.wrapping_add(1);
                Err(Failed)
            }
        }
    }
}

/// Takes all bytes, and keeps none.
#[derive(Drop)]
pub struct Silent;

impl LineOut for Silent {
    ghost taken = { λ _. None };

    ghost failures = { λ _. 0 };

    fn put(&mut self, bytes: &[u8]) -> Result<usize, Failed> {
        if bytes.is_empty() {
            return Ok(0);
        }
        Ok(bytes.len())
    }
}

/// Puts all of the bytes. A short write goes on; it stops at the first call that fails.
pub fn put_all<W: LineOut>(writer: &mut W, bytes: &[u8]) -> Result<(), Failed>
    ensures ok { OnOk result (W.taken writer.new ≡ with_more (W.taken writer.old) bytes.now) }
    ensures err { OnErr result ((n : ℕ) × (W.taken writer.new ≡ with_more (W.taken writer.old) (take n bytes.now))) }
    ensures quiet { OnOk result (W.failures writer.new ≡ W.failures writer.old) }
    ensures failed { OnErr result (W.failures writer.new ≡ one_more (W.failures writer.old)) }
{
    let mut at = 0;
    while at < bytes.len() {
        let n = writer.put(&bytes[at..])?;
        if n == 0 {
            return Err(Failed);
        }
        at += n;
    }
    Ok(())
}
