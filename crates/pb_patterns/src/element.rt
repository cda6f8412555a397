use crate::meaning::Meaning;
use pb_value::text::Text;

/// How an element counts.
#[derive(Clone, Copy, Debug, PartialEq, Eq)]
pub enum Mark {
    /// Its hosts are meant.
    Unmarked,
    /// `&`: no hosts but its own are meant.
    Met,
    /// `!`: its hosts aren't meant.
    Excluded,
}

/// Which of a term's hosts are meant, by their numbers among them, counted from 0.
#[derive(Clone, Copy, Debug, PartialEq, Eq)]
pub enum Subscript {
    /// `[i]`: the one of this number.
    At(u32),
    /// `[-i]`: the one so far from the end, of which 1 is the last.
    FromEnd(u32),
    /// `[i:j]`: those from the first number to the second, both included.
    Between(u32, u32),
    /// `[i:]`: those from this number on.
    From(u32),
}

/// What an element tells of names.
#[derive(Drop)]
pub enum What {
    /// The name of a group or host, or names with `*` and `?` in them; and which of its hosts are meant, if not all.
    Term {
        term: Text,
        subscript: Option<Subscript>,
    },
    /// `~`: a regular expression, whose first match in a name begins at its first character.
    Regex {
        source: Text,
    },
}

/// An element of a pattern.
#[derive(Drop)]
pub struct Element {
    /// The element as it was written, trimmed, with its mark.
    pub text: Text,
    pub mark: Mark,
    pub what: Meaning,
}
