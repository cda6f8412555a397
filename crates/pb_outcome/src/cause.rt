ghost use Rattle.std.specs.Prelude.{◌≡◌};
ghost use Rattle.pb_outcome.specs.Causes.{number_of, cause_of, message_of};

/// Why a job's program could not be run to an answer.
#[derive(Clone, Copy, Debug, PartialEq, Eq)]
pub enum Cause {
    CannotStart,
    KilledBySignal,
    NotUtf8,
    TooLarge,
    FactsNotObject,
    OutOfMemory,
}

impl Cause {
    /// The cause's number, from 1 to 6.
    pub fn number(self) -> u64
        ensures { result ≡ number_of self }
    {
        match self {
            Cause::CannotStart => 1,
            Cause::KilledBySignal => 2,
            Cause::NotUtf8 => 3,
            Cause::TooLarge => 4,
            Cause::FactsNotObject => 5,
            Cause::OutOfMemory => 6,
        }
    }

    /// The cause of a number, if it is one from 1 to 6.
    pub(crate) fn of_number(number: u64) -> Option<Cause>
        ensures { result ≡ cause_of number }
    {
        match number {
            1 => Some(Cause::CannotStart),
            2 => Some(Cause::KilledBySignal),
            3 => Some(Cause::NotUtf8),
            4 => Some(Cause::TooLarge),
            5 => Some(Cause::FactsNotObject),
            6 => Some(Cause::OutOfMemory),
            _ => None,
        }
    }

    /// What a result says of the cause.
    pub(crate) fn message(self) -> &'static str
        ensures { result.now ≡ message_of self }
    {
        match self {
            Cause::CannotStart => "cannot start",
            Cause::KilledBySignal => "killed by a signal",
            Cause::NotUtf8 => "output is not UTF-8",
            Cause::TooLarge => "output is too large",
            Cause::FactsNotObject => "facts are not a JSON object",
            Cause::OutOfMemory => "out of memory",
        }
    }
}
