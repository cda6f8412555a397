//! Long texts.

use std::alloc::{AllocError, Global};

/// A text, this many times in a row.
pub fn repeated(alloc: Global, text: &str, times: u32) -> Result<String, AllocError> {
    let mut all = String::new(alloc);
    for _ in 0..times {
        all.push_str(text)?;
    }
    Ok(all)
}
