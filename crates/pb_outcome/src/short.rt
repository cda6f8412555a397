ghost use Rattle.std.specs.Prelude.{◌≡◌, ◌≤◌, IfOk, Some, None, length, nat_lt, if◌then◌else◌};
ghost use Rattle.pb_outcome.specs.Limits.{short_text};
ghost use Rattle.pb_value.specs.Limits.{max_text};

use crate::outcome::is_large;
use pb_value::text::Text;
use std::alloc::{AllocError, Global};
use std::marker::Model;

/// A text of at most 1,048,576 bytes.
#[derive(Drop)]
pub(crate) struct ShortText {
    text: Text,
}

impl Model for ShortText {
    ghost use Rattle.std.specs.Prelude.{◌≤◌, List, ℕ, length};

    ghost Value = { List ℕ };

    ghost view = { λ s. s.text };

    ghost use Rattle.pb_value.specs.Limits.{max_text};

    ghost invariant = { λ s. length s.text ≤ max_text };
}

impl ShortText {
    /// A copy of a text, unless it is too long.
    pub(crate) fn of(alloc: Global, text: &str) -> Result<Option<ShortText>, AllocError>
        ensures { IfOk result (λ s. s ≡ short_text text.now) }
    {
        if is_large(text) {
            return Ok(None);
        }
        Ok(Some(ShortText {
            text: Text::from_str(alloc, text)?,
        }))
    }

    pub(crate) fn into_text(self) -> Text
        ensures is { result ≡ self }
        ensures short { length result ≤ max_text }
    {
        let ShortText { text } = self;
        text
    }
}
