//! Where lines come from, and where text goes.

ghost use Rattle.std.specs.Prelude.{◌≡◌, IfSome, OnOk, OnErr};
ghost use Rattle.std.specs.Io.BufRead.{take_through, DropsThrough};
ghost use Rattle.std.specs.Io.KnownBytes.{Appends};
ghost use Rattle.pb_show.specs.Faults.{one_more, stream_of, failures_of};
ghost use Rattle.pb_show.specs.Whole.{AppendsFront};

use std::io::{BufRead, Write};

/// A stream's call failed.
#[derive(Clone, Copy, Debug, PartialEq, Eq)]
pub struct Failed;

/// Gives lines.
///
/// To contracts it tells the bytes that are left to be read, unless it can't, and the number of its failed calls modulo 2^64.
pub trait LinesIn {
    ghost use Rattle.std.specs.Prelude.{ℕ, List, Option};

    ghost left: { Self → Option (List ℕ) };

    ghost failures: { Self → ℕ };

    /// Puts the next line, with its line end if it has one, in the place of what `line` holds; nothing at the end.
    ///
    /// # Errors
    /// `Failed` where it can't read.
    fn next_line(&mut self, line: &mut Vec<u8>) -> Result<(), Failed>
        ensures bytes { OnOk result (IfSome (left self.old) (λ bytes. line.new.items ≡ take_through 10 bytes)) }
        ensures rest { OnOk result (DropsThrough (left self.old) (left self.new) 10) }
        ensures quiet { OnOk result (failures self.new ≡ failures self.old) }
        ensures failed { OnErr result (failures self.new ≡ one_more (failures self.old)) };
}

/// Takes text.
///
/// To contracts it tells the bytes that it took so far, unless it can't, and the number of its failed calls modulo 2^64.
pub trait BytesOut {
    ghost use Rattle.std.specs.Prelude.{ℕ, List, Option};

    ghost taken: { Self → Option (List ℕ) };

    ghost failures: { Self → ℕ };

    /// Takes all of the bytes.
    ///
    /// # Errors
    /// `Failed` where it took a front of them, and can't go on.
    fn put(&mut self, bytes: &[u8]) -> Result<(), Failed>
        ensures ok { OnOk result (Appends (taken self.old) (taken self.new) bytes.now) }
        ensures err { OnErr result (AppendsFront (taken self.old) (taken self.new) bytes.now) }
        ensures quiet { OnOk result (failures self.new ≡ failures self.old) }
        ensures failed { OnErr result (failures self.new ≡ one_more (failures self.old)) };
}

/// Writes all of the bytes. A short write goes on; it stops at the first call that fails or takes nothing.
pub(crate) fn put_all<W: Write>(writer: &mut W, bytes: &[u8]) -> Result<(), Failed>
    ensures ok { OnOk result (Appends (W.contents writer.old) (W.contents writer.new) bytes.now) }
    ensures err { OnErr result (AppendsFront (W.contents writer.old) (W.contents writer.new) bytes.now) }
{
    let mut at = 0;
    while at < bytes.len() {
        let Ok(n) = writer.write(&bytes[at..]) else {
            return Err(Failed);
        };
        if n == 0 {
            return Err(Failed);
        }
        at += n;
    }
    Ok(())
}

/// A reader or a writer, with the number of its failed calls.
#[derive(Drop)]
pub struct Counted<S> {
    stream: S,
    failures: u64,
}

impl<S> Counted<S> {
    /// A stream that has failed at no call.
    pub fn new(stream: S) -> Counted<S>
        ensures stream { stream_of result ≡ stream }
        ensures failures { failures_of result ≡ 0 }
    {
        Counted {
            stream,
            failures: 0,
        }
    }
}

impl<R: BufRead> LinesIn for Counted<R> {
    ghost left = { λ c. R.remaining (stream_of c) };

    ghost failures = { λ c. failures_of c };

    fn next_line(&mut self, line: &mut Vec<u8>) -> Result<(), Failed> {
        line.clear();
        match self.stream.read_until(b'\n', line) {
            Ok(_) => Ok(()),
            Err(_) => {
                self.failures = self.failures.wrapping_add(1);
                Err(Failed)
            }
        }
    }
}

impl<W: Write> BytesOut for Counted<W> {
    ghost taken = { λ c. W.contents (stream_of c) };

    ghost failures = { λ c. failures_of c };

    fn put(&mut self, bytes: &[u8]) -> Result<(), Failed> {
        let put = put_all(&mut self.stream, bytes);
        if put.is_err() {
            self.failures = self.failures.wrapping_add(1);
        }
        put
    }
}
