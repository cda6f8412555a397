ghost use Rattle.std.specs.Prelude.{◌≡◌, nat_le, true, IsTrue};
ghost use Rattle.pb_value.specs.Datum.{items_of, members_of};
ghost use Rattle.pb_value.specs.Depth.{depth, items_depth, members_depth};
ghost use Rattle.pb_value.specs.Numbers.{fits_word, are_words, items_are_words, members_are_words};

use crate::val::{Dict, Node, Val, ValList};

/// Whether a number fits 64 bits with a sign: every one that is held does.
fn is_word(number: i64) -> bool
    ensures value { result ≡ true }
    ensures fits { fits_word number ≡ true }
{
    i64::MIN <= number
}

impl Val {
    /// Whether the value nests no deeper than that many levels: a scalar has none, a list or dict
    /// one more than its deepest member.
    #[cycle(is_within)]
    pub fn is_within(&self, levels: u32) -> bool
        ensures value { result ≡ nat_le (depth self.now) levels }

        // Each whole number in it fits 64 bits with a sign, as every `i64` does.
        ensures words { IsTrue result → are_words self.now ≡ true }
    {
        match &self.node {
            Node::List(items) => levels > 0 && items.is_within(levels - 1),
            Node::Dict(dict) => levels > 0 && dict.is_within(levels - 1),
            Node::Int(number) => is_word(*number),
            Node::Null | Node::Bool(_) | Node::Text(_) => true,
        }
    }
}

impl ValList {
    #[cycle(is_within)]
    fn is_within(&self, levels: u32) -> bool
        ensures value { result ≡ nat_le (items_depth (items_of self.now)) levels }
        ensures words { IsTrue result → items_are_words (items_of self.now) ≡ true }
    {
        for item in &self.items {
            if !item.is_within(levels) {
                return false;
            }
        }
        true
    }
}

impl Dict {
    #[cycle(is_within)]
    fn is_within(&self, levels: u32) -> bool
        ensures value { result ≡ nat_le (members_depth (members_of self.now)) levels }
        ensures words { IsTrue result → members_are_words (members_of self.now) ≡ true }
    {
        for (_key, value) in self.iter() {
            if !value.is_within(levels) {
                return false;
            }
        }
        true
    }
}
