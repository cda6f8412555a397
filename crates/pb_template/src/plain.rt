//! Values that stand for themselves, since no text in them has an expression.
ghost use Rattle.std.specs.Prelude.{◌≡◌, true, is_some};
ghost use Rattle.pb_value.specs.Datum.{items_of, members_of};
ghost use Rattle.pb_template.specs.Computed.{template_of};
ghost use Rattle.pb_template.specs.Plain.{is_plain_text, is_plain, items_plain, members_plain};

use crate::pieces::plain_size;
use pb_value::limits::MAX_TEXT;
use pb_value::val::{Dict, Node, Val, ValList};

/// Whether a text has one plain piece, or none, and at most 1 MiB.
fn is_plain_text(text: &str) -> bool
    ensures { result ≡ is_plain_text text.now }
{
    text.len() <= MAX_TEXT && plain_size(text.as_bytes()) == text.len()
}

/// Whether a text stands for itself as a template, which is told without parsing it: nothing in it begins an expression, or has another meaning in
/// Jinja, and it has at most 1 MiB.
#[tactic(auto, using(crate::proofs::Untouched::plain_is_template))]
pub fn stands_for_itself(text: &str) -> bool
    ensures value { result ≡ is_plain_text text.now }

    // Such a text is a template.
    ensures template { result ≡ true → is_some (template_of text.now) ≡ true }
{
    is_plain_text(text)
}

/// Whether each text of the value stands for itself as a template, at any depth, names of dicts
/// aside: nothing in it begins an expression, or has another meaning in Jinja, and it has at most
/// 1 MiB. What such a value gives, whatever names stand for, is the value itself.
#[cycle(plain)]
pub fn is_plain(value: &Val) -> bool
    ensures { result ≡ is_plain value.now }
{
    match &value.node {
        Node::Text(text) => is_plain_text(text.as_str()),
        Node::List(list) => items_plain(list),
        Node::Dict(dict) => members_plain(dict),
        Node::Null | Node::Bool(_) | Node::Int(_) => true,
    }
}

#[cycle(plain)]
fn items_plain(list: &ValList) -> bool
    ensures { result ≡ items_plain (items_of list.now) }
{
    for item in &list.items {
        if !is_plain(item) {
            return false;
        }
    }
    true
}

#[cycle(plain)]
fn members_plain(dict: &Dict) -> bool
    ensures { result ≡ members_plain (members_of dict.now) }
{
    for (_key, value) in dict.iter() {
        if !is_plain(value) {
            return false;
        }
    }
    true
}
