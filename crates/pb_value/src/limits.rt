//! The limits of values, one for all crates. `specs/Limits.antt` has the same numbers.

/// How many bytes a text may have that is made, kept or run: 1 MiB.
pub const MAX_TEXT: usize = 1_048_576;

/// How many levels of lists and dicts a value may have.
pub const MAX_DEPTH: u32 = 64;

/// How many bytes may be read at once, of all that a bundle is made of, or of a file of
/// outcomes: 64 MiB.
pub const MAX_BYTES: usize = 67_108_864;
