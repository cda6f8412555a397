//! Words in the texts of values.
ghost use Rattle.std.specs.Prelude.{◌≡◌};
ghost use Rattle.pb_value.specs.Datum.{items_of, members_of};
ghost use Rattle.pb_mentions.specs.Mentions.{mentions, items_mention, members_mention};

use crate::texts::has_inside;
use pb_value::val::{Dict, Node, Val, ValList};

/// Whether a word stands in a text of the value, at any depth, names of dicts aside.
#[cycle(mentions)]
pub fn mentions(word: &str, value: &Val) -> bool
    ensures { result ≡ mentions word.now value.now }
{
    match &value.node {
        Node::Text(text) => has_inside(word, text.as_str()),
        Node::List(list) => items_mention(word, list),
        Node::Dict(dict) => members_mention(word, dict),
        Node::Null | Node::Bool(_) | Node::Int(_) => false,
    }
}

/// Whether a word stands in a text of one of these values, at any depth, names of dicts aside.
#[cycle(mentions)]
pub fn items_mention(word: &str, list: &ValList) -> bool
    ensures { result ≡ items_mention word.now (items_of list.now) }
{
    for item in &list.items {
        if mentions(word, item) {
            return true;
        }
    }
    false
}

/// The same of one of a dict's values.
#[cycle(mentions)]
pub fn members_mention(word: &str, dict: &Dict) -> bool
    ensures { result ≡ members_mention word.now (members_of dict.now) }
{
    for (_key, value) in dict.iter() {
        if mentions(word, value) {
            return true;
        }
    }
    false
}
