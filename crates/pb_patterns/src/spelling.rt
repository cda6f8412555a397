ghost use Rattle.std.specs.Prelude.{◌≡◌, ◌<◌, ◌+◌, ◌^◌, ◌++◌, ◌∷◌, [], OnOk};
ghost use Rattle.pb_patterns.specs.Spelling.{depth_behind, is_cut, pieces, front_trimmed, end_size, trimmed, texts_of, spelt};
ghost use Rattle.pb_patterns.specs.Cutting.{piece_size, begins_with_space};

use pb_value::text::Text;
use std::alloc::{AllocError, Global};

fn depth_behind(depth: usize, byte: u8) -> usize
    requires { depth + 1 < 2 ^ 64 }
    ensures { result ≡ depth_behind depth byte }
{
    if byte == b'[' {
        depth + 1
    } else if byte == b']' {
        depth.saturating_sub(1)
    } else {
        depth
    }
}

fn is_cut(depth: usize, byte: u8) -> bool
    ensures { result ≡ is_cut depth byte }
{
    depth == 0 && (byte == b',' || byte == b':')
}

/// How many bytes stand before the first cut.
fn piece_size(bytes: &[u8]) -> usize
    ensures { result ≡ piece_size 0 bytes.now }
{
    let mut depth = 0;
    for at in 0..bytes.len() {
        if is_cut(depth, bytes[at]) {
            return at;
        }
        depth = depth_behind(depth, bytes[at]);
    }
    bytes.len()
}

fn begins_with_space(bytes: &[u8]) -> bool
    ensures { result ≡ begins_with_space bytes.now }
{
    match bytes {
        [] => false,
        [first, ..] => *first == b' ',
    }
}

fn front_trimmed(text: &str) -> &str
    ensures { result.now ≡ front_trimmed text.now }
{
    let mut rest = text;
    while begins_with_space(rest.as_bytes()) {
        rest = &rest[1..];
    }
    rest
}

fn end_size(bytes: &[u8]) -> usize
    ensures { result ≡ end_size bytes.now }
{
    let mut size = 0;
    for at in 0..bytes.len() {
        if bytes[at] != b' ' {
            size = at + 1;
        }
    }
    size
}

fn trimmed(text: &str) -> &str
    ensures { result.now ≡ trimmed text.now }
{
    let rest = front_trimmed(text);
    let size = end_size(rest.as_bytes());
    &rest[..size]
}

fn push_text(alloc: Global, piece: &str, to: &mut Vec<Text>) -> Result<(), AllocError>
    ensures { OnOk result (to.new.items ≡ to.old.items ++ texts_of (piece.now ∷ [])) }
{
    let text = trimmed(piece);
    if !text.is_empty() {
        to.push(Text::from_str(alloc, text)?)?;
    }
    Ok(())
}

/// Adds the texts of a pattern's elements.
pub fn push_spelt(alloc: Global, pattern: &str, to: &mut Vec<Text>) -> Result<(), AllocError>
    ensures { OnOk result (to.new.items ≡ to.old.items ++ spelt pattern.now) }
{
    let mut rest = pattern;
    loop {
        let size = piece_size(rest.as_bytes());
        push_text(alloc, &rest[..size], to)?;
        if size == rest.len() {
            return Ok(());
        }
        rest = &rest[size + 1..];
    }
}
