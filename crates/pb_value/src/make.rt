ghost use Rattle.std.specs.Prelude.{◌≡◌};
ghost use Rattle.pb_value.specs.Datum.{null, boolean, int, text, list, dict, items_of, members_of};

use crate::text::Text;
use crate::val::{Dict, Node, Val, ValList};

impl Val {
    /// The value null.
    pub fn null() -> Val
        ensures { result ≡ null }
    {
        Val { node: Node::Null }
    }

    /// True or false.
    pub fn boolean(truth: bool) -> Val
        ensures { result ≡ boolean truth }
    {
        Val {
            node: Node::Bool(truth),
        }
    }

    /// A whole number.
    pub fn int(number: i64) -> Val
        ensures { result ≡ int number }
    {
        Val {
            node: Node::Int(number),
        }
    }

    /// A text.
    pub fn text(words: Text) -> Val
        ensures { result ≡ text words }
    {
        Val {
            node: Node::Text(words),
        }
    }

    /// The list of these values.
    pub fn list(items: ValList) -> Val
        ensures { result ≡ list (items_of items) }
    {
        Val {
            node: Node::List(items),
        }
    }

    /// The dict of these names and values.
    pub fn dict(members: Dict) -> Val
        ensures { result ≡ dict (members_of members) }
    {
        Val {
            node: Node::Dict(members),
        }
    }
}
