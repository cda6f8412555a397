//! The kinds of events.

ghost use Rattle.std.specs.Prelude.{◌≡◌};
ghost use Rattle.pb_show.specs.Kinds.{kind_named, start_named, ended_named};

/// How a task or an item of it ended, as an event says it.
#[derive(Clone, Copy)]
pub enum How {
    Ok,
    Failed,
    Skipped,
    Unreachable,
    /// It is tried again.
    Again,
}

/// What an event tells.
#[derive(Clone, Copy)]
pub enum Kind {
    /// The run starts.
    Begun,
    /// A batch of a play starts.
    Play,
    /// A task starts.
    Task,
    /// A handler starts.
    Handler,
    /// A task starts on a host.
    HostStart,
    /// A task ended on a host.
    Ended(How),
    /// An item of a loop, or an attempt, ended on a host.
    Item(How),
    /// A handler is notified.
    Notify,
    /// The run is over.
    Totals,
}

/// What the word of an event says that tells of a start, or of no host.
fn start_named(word: &str) -> Option<Kind>
    ensures { result ≡ start_named word.now }
{
    if word == "playbook_on_start" {
        Some(Kind::Begun)
    } else if word == "playbook_on_play_start" {
        Some(Kind::Play)
    } else if word == "playbook_on_task_start" {
        Some(Kind::Task)
    } else if word == "playbook_on_handler_task_start" {
        Some(Kind::Handler)
    } else if word == "playbook_on_notify" {
        Some(Kind::Notify)
    } else if word == "playbook_on_stats" {
        Some(Kind::Totals)
    } else if word == "runner_on_start" {
        Some(Kind::HostStart)
    } else {
        None
    }
}

/// What the word of an event says that tells of an end.
fn ended_named(word: &str) -> Option<Kind>
    ensures { result ≡ ended_named word.now }
{
    if word == "runner_on_ok" {
        Some(Kind::Ended(How::Ok))
    } else if word == "runner_on_failed" {
        Some(Kind::Ended(How::Failed))
    } else if word == "runner_on_skipped" {
        Some(Kind::Ended(How::Skipped))
    } else if word == "runner_on_unreachable" {
        Some(Kind::Ended(How::Unreachable))
    } else if word == "runner_item_on_ok" {
        Some(Kind::Item(How::Ok))
    } else if word == "runner_item_on_failed" {
        Some(Kind::Item(How::Failed))
    } else if word == "runner_item_on_skipped" {
        Some(Kind::Item(How::Skipped))
    } else if word == "runner_retry" {
        Some(Kind::Item(How::Again))
    } else {
        None
    }
}

impl Kind {
    /// What the event of this word tells, if it is one.
    pub fn of_word(word: &str) -> Option<Kind>
        ensures { result ≡ kind_named word.now }
    {
        match ended_named(word) {
            Some(kind) => Some(kind),
            None => start_named(word),
        }
    }
}
