//! Values as compact JSON, token by token.
//!
//! For the crates above, which write lines: `write` writes a value behind what a writer has written, straight from where
//! the value stands. Its tokens are those of the value (`specs/Tokens.antt`), and their text is the value's compact JSON
//! (`tokens_are_compact`), the same text as `Val::compact` gives.
//!
//! No JSON value is made and no text is copied: only the bytes of the writer take memory. A writer fills bytes ahead, as
//! many as stand before them but at most 16 KiB, and does so anew for each text: many short texts behind a long one are
//! written each by itself, and then put together. Calls nest as deep as the value. If memory runs out, the first tokens of
//! the value may stand behind what was written; what stood before stays.
#![tactic(auto)]

ghost use Rattle.pb_compact.specs.Compact.{TokensAreCompact};

mod writing;

pub use writing::write;

/// The text of a value's tokens is its compact JSON.
#[tactic(auto, using(crate::proofs::Printing::tokens_are_compact))]
pub fn tokens_are_compact()
    ensures { TokensAreCompact }
{}
