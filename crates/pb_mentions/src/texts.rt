//! Words in texts.
ghost use Rattle.std.specs.Prelude.{◌≡◌, ◌<◌, ◌≤◌, length, drop};
ghost use Rattle.pb_mentions.specs.Mentions.{begins, has_inside};

use memchr::memchr;

/// Whether bytes begin with a word.
fn begins(word: &[u8], bytes: &[u8]) -> bool
    ensures { result ≡ begins word.now bytes.now }
{
    match word {
        [] => true,
        [letter, letters @ ..] => match bytes {
            [] => false,
            [byte, rest @ ..] => *byte == *letter && begins(letters, rest),
        },
    }
}

fn rest_from(bytes: &[u8], at: usize) -> &[u8]
    requires { at < length bytes.now }
    ensures { result.now ≡ drop at bytes.now }
{
    &bytes[at..]
}

/// The bytes from the first on that a word may begin at: where its first letter stands.
fn from_letter<'a>(word: &[u8], bytes: &'a [u8]) -> &'a [u8]
    ensures same { has_inside word.now bytes.now ≡ has_inside word.now result.now }
    ensures fewer { length result.now ≤ length bytes.now }
{
    match word {
        [] => bytes,
        [letter, ..] => match memchr(*letter, bytes) {
            Some(at) => rest_from(bytes, at),
            None => &[],
        },
    }
}

/// Whether a word stands somewhere in bytes.
fn bytes_inside(word: &[u8], bytes: &[u8]) -> bool
    ensures { result ≡ has_inside word.now bytes.now }
{
    let mut rest = from_letter(word, bytes);
    while let [_, behind @ ..] = rest {
        if begins(word, rest) {
            return true;
        }
        rest = from_letter(word, behind);
    }
    false
}

/// Whether a word stands somewhere in a text.
pub fn has_inside(word: &str, text: &str) -> bool
    ensures { result ≡ has_inside word.now text.now }
{
    bytes_inside(word.as_bytes(), text.as_bytes())
}
