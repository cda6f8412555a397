//! What is kept of one stream of a program.
ghost use Rattle.std.specs.Prelude.{◌≡◌, ◌≤◌, ◌⊎◌, [], false, true, length, IfOk, IfErr};
ghost use Rattle.std.specs.Str.{IsUtf8};
ghost use Rattle.pb_value.specs.Limits.{max_text};
ghost use Rattle.pb_outcome.specs.declared.cause.Cause.TheVariants.{NotUtf8, OutOfMemory};
ghost use Rattle.pb_runner.specs.Kept.{Adds, IsWhole};

use pb_outcome::cause::Cause;
use pb_value::limits::MAX_TEXT;
use pb_value::text::Text;
use std::alloc::Global;
use std::marker::Model;

/// The bytes of a stream, while they are at most 1,048,576 and memory suffices.
#[derive(Drop)]
pub struct Caught {
    bytes: Vec<u8>,
    /// How many bytes may still come.
    room: usize,
    over: bool,
    lost: bool,
}

impl Model for Caught {
    ghost use Rattle.std.specs.Prelude.{◌≡◌, ◌≤◌, ◌+◌, false, length};
    ghost use Rattle.pb_value.specs.Limits.{max_text};
    ghost use Rattle.pb_runner.specs.Kept.{Kept};

    ghost Value = { Kept };

    ghost view = { λ c. record { bytes = c.bytes.items; room = c.room; over = c.over; lost = c.lost } };

    ghost invariant = { λ c. c.lost ≡ false → length c.bytes.items + c.room ≤ max_text };
}

impl Caught {
    /// Nothing yet.
    pub fn new(alloc: Global) -> Caught
        ensures { result ≡ record { bytes = []; room = max_text; over = false; lost = false } }
    {
        Caught {
            bytes: Vec::new(alloc),
            room: MAX_TEXT,
            over: false,
            lost: false,
        }
    }

    /// Adds what was read. From the first byte over the limit on it keeps no more, nor after want of memory.
    pub fn add(&mut self, more: &[u8])
        ensures { Adds self.old more.now self.new }
    {
        if self.over || more.len() > self.room {
            self.over = true;
            return;
        }
        self.room -= more.len();
        if !self.lost && self.bytes.extend_from_slice(more).is_err() {
            self.lost = true;
        }
    }

    /// Whether more came than is kept.
    pub(crate) fn is_over(&self) -> bool
        ensures { result ≡ self.now.over }
    {
        self.over
    }

    /// The text, where all of it is there.
    pub(crate) fn into_text(self) -> Result<Text, Cause>
        requires { self.over ≡ false }
        ensures whole { IfOk result (λ t. IsWhole self × (t ≡ self.bytes)) }
        ensures short { IfOk result (λ t. length t ≤ max_text) }
        ensures fault { IfErr result (λ c. ((c ≡ NotUtf8) × (self.lost ≡ false) × ¬ (IsUtf8 self.bytes)) ⊎ ((c ≡ OutOfMemory) × (self.lost ≡ true))) }
    {
        let Caught {
            bytes,
            room: _,
            over: _,
            lost,
        } = self;
        if lost {
            return Err(Cause::OutOfMemory);
        }
        match String::from_utf8(bytes) {
            Ok(text) => Ok(Text::from_string(text)),
            Err(_) => Err(Cause::NotUtf8),
        }
    }
}
