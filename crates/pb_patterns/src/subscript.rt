ghost use Rattle.std.specs.Prelude.{◌≡◌, ◌==◌, position, option_map};
ghost use Rattle.pb_patterns.specs.Subscripts.{number, range_to, counted, subscript, bracketed, before, behind};

use crate::element::Subscript;
use crate::number::number;

/// Where the first of a byte stands.
pub fn place_of(bytes: &[u8], x: u8) -> Option<usize>
    ensures { result ≡ position (λ b. b == x) bytes.now }
{
    bytes.iter().position(|b| *b == x)
}

fn range_to(from: u32, digits: &[u8]) -> Option<Subscript>
    ensures { result ≡ range_to from digits.now }
{
    if digits.is_empty() {
        Some(Subscript::From(from))
    } else {
        match number(digits) {
            Some(to) => Some(Subscript::Between(from, to)),
            None => None,
        }
    }
}

/// What stands between the brackets of a subscript.
fn subscript(bytes: &[u8]) -> Option<Subscript>
    ensures { result ≡ subscript bytes.now }
{
    match bytes {
        [] => None,
        [b'-', digits @ ..] => match number(digits) {
            Some(back) => Some(Subscript::FromEnd(back)),
            None => None,
        },
        _ => counted(bytes),
    }
}

fn counted(bytes: &[u8]) -> Option<Subscript>
    ensures { result ≡ counted (before 58 bytes.now) (behind 58 bytes.now) }
{
    match place_of(bytes, b':') {
        Some(at) => match number(&bytes[..at]) {
            Some(from) => range_to(from, &bytes[at + 1..]),
            None => None,
        },
        None => match number(bytes) {
            Some(at) => Some(Subscript::At(at)),
            None => None,
        },
    }
}

/// The subscript behind a term's `[`, with the `]` that has to end it.
pub fn bracketed(bytes: &[u8]) -> Option<Subscript>
    ensures { result ≡ bracketed bytes.now }
{
    match place_of(bytes, b']') {
        Some(at) => match &bytes[at + 1..] {
            [] => subscript(&bytes[..at]),
            _ => None,
        },
        None => None,
    }
}
