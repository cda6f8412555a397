ghost use Rattle.std.specs.Prelude.{◌≡◌, IfOk, decimal};
ghost use Rattle.pb_value.specs.Reading.{below};

use crate::text::Text;
use std::alloc::{AllocError, Global};

/// The path of a key under a path: both with `/` between, or the key alone where the path is
/// empty, as it is for the whole of a file.
#[tactic(auto, using(crate::proofs::Paths::joined))]
pub fn child(alloc: Global, path: &Text, key: &str) -> Result<Text, AllocError>
    ensures { IfOk result (λ t. t ≡ below path.now key.now) }
{
    if path.is_empty() {
        return Text::from_str(alloc, key);
    }
    let path = path.as_str();
    let mut text = String::with_capacity(alloc, path.len() + 1 + key.len())?;
    text.push_str(path)?;
    text.push_str("/")?;
    text.push_str(key)?;
    Ok(Text::from_string(text))
}

/// The path of the element of that number, from 0, under the path of its list.
pub fn child_at(alloc: Global, path: &Text, index: usize) -> Result<Text, AllocError>
    ensures { IfOk result (λ t. t ≡ below path.now (decimal index)) }
{
    let number = format!(in alloc; "{index}")?;
    child(alloc, path, number.as_str())
}
