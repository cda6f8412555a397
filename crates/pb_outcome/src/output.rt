//! What a program wrote: its end without line ends, and its lines.
ghost use Rattle.std.specs.Prelude.{◌≡◌, ◌<◌, ◌≤◌, ◌∷◌, [], IfOk, IfSome, IfNone, length, map};
ghost use Rattle.std.specs.List.{slice_split};
ghost use Rattle.pb_value.specs.Datum.{text as text_of};
ghost use Rattle.pb_outcome.specs.Output.{stripped, is_newline, line_values};

use pb_value::text::Text;
use pb_value::val::{Val, ValList};
use std::alloc::{AllocError, Global};

/// The text without the LF or CR that ends it.
fn without_line_end(text: &str) -> Option<&str>
    ensures some { IfSome result (λ rest. stripped text.now ≡ stripped rest.now) }
    ensures shorter { IfSome result (λ rest. length rest.now < length text.now) }
    ensures none { IfNone result (stripped text.now ≡ text.now) }
{
    match text.strip_suffix("\n") {
        Some(rest) => Some(rest),
        None => match text.strip_suffix("\r") {
            Some(rest) => Some(rest),
            None => None,
        },
    }
}

/// The text without the LFs and CRs at its end.
pub fn stripped(text: &str) -> &str
    ensures value { result.now ≡ stripped text.now }
    ensures short { length result.now ≤ length text.now }
{
    let mut rest = text;
    while let Some(shorter) = without_line_end(rest) {
        rest = shorter;
    }
    rest
}

/// The text in front of the first LF, and that behind it.
fn first_line(text: &str) -> Option<(&str, &str)>
    ensures some { IfSome result
        (λ cut. slice_split is_newline text.now ≡ cut.0.now ∷ slice_split is_newline cut.1.now) }
    ensures shorter { IfSome result (λ cut. length cut.1.now < length text.now) }
    ensures none { IfNone result (slice_split is_newline text.now ≡ text.now ∷ []) }
{
    text.split_once('\n')
}

/// The lines of a text, cut at each LF. The empty text has none.
pub(crate) fn lines(alloc: Global, text: &str) -> Result<ValList, AllocError>
    ensures { IfOk result (λ l. l ≡ line_values text.now) }
{
    if text.is_empty() {
        return Ok(ValList::from_vec(Vec::new(alloc)));
    }
    let lines = cut_lines(alloc, text)?;
    Ok(ValList::from_vec(lines))
}

fn cut_lines(alloc: Global, text: &str) -> Result<Vec<Val>, AllocError>
    ensures { IfOk result (λ l. l.items ≡ map text_of (slice_split is_newline text.now)) }
{
    let mut lines = Vec::new(alloc);
    let mut rest = text;
    while let Some((line, after)) = first_line(rest) {
        lines.push(Val::text(Text::from_str(alloc, line)?))?;
        rest = after;
    }
    lines.push(Val::text(Text::from_str(alloc, rest)?))?;
    Ok(lines)
}
