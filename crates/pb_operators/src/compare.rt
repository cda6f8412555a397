//! Tests of two values.
ghost use Rattle.std.specs.Prelude.{◌≡◌, IfOk, IfErr, Ok, Err};
ghost use Rattle.pb_operators.specs.Values.{same, is_among, order_of};
ghost use Rattle.pb_operators.specs.Operators.{occurs, contains};

use crate::fault::EvalFault;
use pb_value::val::{Node, Val};
use std::cmp::Ordering;

/// Whether the values are of one kind and equal content.
pub fn is_same(x: &Val, y: &Val) -> bool
    ensures { result ≡ same x.now y.now }
{
    x.same(y)
}

fn is_among(x: &Val, items: &[Val]) -> bool
    ensures { result ≡ is_among x.now items.now }
{
    for item in items {
        if is_same(x, item) {
            return true;
        }
    }
    false
}

fn occurs(text: &str, whole: &str) -> bool
    ensures { result ≡ occurs text.now whole.now }
{
    whole.contains(text)
}

/// How two numbers, or two texts by their bytes, stand to one another; other values don't.
pub fn order_of(x: &Val, y: &Val) -> Option<Ordering>
    ensures { result ≡ order_of x.now y.now }
{
    match (&x.node, &y.node) {
        (Node::Int(a), Node::Int(b)) => Some(a.cmp(b)),
        (Node::Text(a), Node::Text(b)) => Some(a.as_str().cmp(b.as_str())),
        _ => None,
    }
}

/// Whether the first value is a member of the second, a list; a text within it, a text; or a key of
/// it, a dict.
#[tactic(auto, using(crate::proofs::Rows::rows_are))]
pub fn contains(x: &Val, y: &Val) -> Result<bool, EvalFault>
    ensures value { IfOk result (λ there. contains x.now y.now ≡ Ok there) }
    ensures fault { IfErr result (λ e. contains x.now y.now ≡ Err e) }
{
    match (&x.node, &y.node) {
        (_, Node::List(items)) => Ok(is_among(x, items.as_slice())),
        (Node::Text(text), Node::Text(whole)) => Ok(occurs(text.as_str(), whole.as_str())),
        (Node::Text(key), Node::Dict(dict)) => Ok(dict.get(key.as_str()).is_some()),
        _ => Err(EvalFault::WrongKind),
    }
}
