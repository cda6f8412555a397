ghost use Rattle.std.specs.Prelude.{◌≡◌};
ghost use Rattle.pb_outcome.specs.Gathered.{is_unreachable, is_failed, is_faulty, is_skipped, is_changed};

use pb_value::val::Val;

/// How one item of a task ended.
#[derive(Clone, Copy, Debug, PartialEq, Eq)]
pub enum Ending {
    /// Its condition didn't hold.
    Skipped,
    /// A template or condition of it can't be read.
    Faulty,
    /// Its target can't be reached.
    Unreachable,
    /// No answer of its module came: this is a failure that the task's own conditions don't see.
    NotStarted,
    /// Its module ran.
    Ran { changed: bool, failed: bool },
}

/// One item of a task: how it ended, and its result as the playbook sees it.
#[derive(Drop)]
pub struct ItemResult {
    pub ending: Ending,
    pub result: Val,
}

/// How a task ended on a host: unreachable, else failed, else skipped, else well.
#[derive(Clone, Copy, Debug, PartialEq, Eq)]
pub struct TaskResult {
    pub unreachable: bool,
    pub failed: bool,
    pub skipped: bool,
    /// Whether some item changed something.
    pub changed: bool,
    /// Whether the failure is ignored: the task says so, and no item of it is faulty.
    pub ignored: bool,
}

impl Ending {
    /// Whether the target couldn't be reached.
    pub fn is_unreachable(self) -> bool
        ensures { result ≡ is_unreachable self }
    {
        matches!(self, Ending::Unreachable)
    }

    /// Whether the item failed or is faulty.
    pub fn is_failed(self) -> bool
        ensures { result ≡ is_failed self }
    {
        match self {
            Ending::Faulty | Ending::NotStarted => true,
            Ending::Ran { changed: _, failed } => failed,
            Ending::Skipped | Ending::Unreachable => false,
        }
    }

    pub(crate) fn is_faulty(self) -> bool
        ensures { result ≡ is_faulty self }
    {
        matches!(self, Ending::Faulty)
    }

    /// Whether the item was left out by a condition.
    pub fn is_skipped(self) -> bool
        ensures { result ≡ is_skipped self }
    {
        matches!(self, Ending::Skipped)
    }

    pub(crate) fn is_changed(self) -> bool
        ensures { result ≡ is_changed self }
    {
        match self {
            Ending::Ran { changed, failed: _ } => changed,
            _ => false,
        }
    }
}
