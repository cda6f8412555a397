//! Words in the texts of values.
//!
//! For the layers above: `texts` tells whether a word stands in a text, and `values` whether it stands in a text of a value or of a dict's values, at any
//! depth, names of dicts aside (`specs/Mentions.antt`). Texts are searched for the bytes of the word, and aren't read as templates. `is_free_of_hostvars` tells of
//! variables that no text of theirs has the word `hostvars` (`specs/Hostvars.antt`). Nothing here takes memory.
#![tactic(auto)]

mod hostvars;
pub mod texts;
pub mod values;

pub use hostvars::is_free_of_hostvars;
