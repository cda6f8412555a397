//! The names of events.

ghost use Rattle.std.specs.Prelude.{◌≡◌};
ghost use Rattle.pb_audit.specs.Names.{name_of, word_of, named, keys_of};

use crate::version::Version;
use pb_state::Event;

/// The name of an event: which of the steps of a run it is. Each is that of the variant of `Event` which is called so.
#[derive(Clone, Copy, Debug, PartialEq, Eq)]
pub enum EventName {
    Open,
    Start,
    Send,
    Report,
    Turn,
    Close,
    Stop,
    Forks,
}

impl EventName {
    /// The name of an event.
    pub fn of(event: &Event) -> EventName
        ensures { result ≡ name_of event.now }
    {
        match event {
            Event::Open => EventName::Open,
            Event::Start(_) => EventName::Start,
            Event::Send { .. } => EventName::Send,
            Event::Report(_) => EventName::Report,
            Event::Turn => EventName::Turn,
            Event::Close => EventName::Close,
            Event::Stop => EventName::Stop,
            Event::Forks(_) => EventName::Forks,
        }
    }

    /// The name as a word: that of the line of such an event in the text of a trail.
    pub fn word(self) -> &'static str
        ensures { result.now ≡ word_of self }
    {
        match self {
            EventName::Open => "open",
            EventName::Start => "start",
            EventName::Send => "send",
            EventName::Report => "report",
            EventName::Turn => "turn",
            EventName::Close => "close",
            EventName::Stop => "stop",
            EventName::Forks => "forks",
        }
    }

    /// How many keys the line of such an event has in this version.
    pub(crate) fn keys(self, version: Version) -> usize
        ensures { result ≡ keys_of version self }
    {
        match self {
            EventName::Open | EventName::Turn | EventName::Close | EventName::Stop => 1,
            EventName::Start | EventName::Forks => 2,
            EventName::Send => match version {
                Version::One => 4,
                Version::Two => 5,
            },
            EventName::Report => match version {
                Version::One => 5,
                Version::Two => 6,
            },
        }
    }

    /// The name that a word is, if it is one.
    pub(crate) fn of_word(word: &str) -> Option<EventName>
        ensures { result ≡ named word.now }
    {
        if word == "open" {
            Some(EventName::Open)
        } else if word == "start" {
            Some(EventName::Start)
        } else if word == "send" {
            Some(EventName::Send)
        } else if word == "report" {
            Some(EventName::Report)
        } else if word == "turn" {
            Some(EventName::Turn)
        } else if word == "close" {
            Some(EventName::Close)
        } else if word == "stop" {
            Some(EventName::Stop)
        } else if word == "forks" {
            Some(EventName::Forks)
        } else {
            None
        }
    }
}
