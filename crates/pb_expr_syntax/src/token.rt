use crate::grammar::Kind;
use pb_value::text::Text;

/// A token of an expression.
#[derive(Drop)]
pub struct Token {
    /// What it is.
    pub kind: Kind,
    /// The byte of the text at which it begins, from 0.
    pub at: usize,
    /// The word, or the content of a text; else empty.
    pub text: Text,
    /// The number that digits write; else 0.
    pub number: i64,
}
