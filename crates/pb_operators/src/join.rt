//! The filter `join`.
ghost use Rattle.std.specs.Prelude.{◌≡◌, ◌≢◌, IfOk, IfErr, Ok, Err, string_bytes};
ghost use Rattle.pb_operators.specs.declared.fault.EvalFault.TheVariants as fault;
ghost use Rattle.pb_operators.specs.Operators.{joined, behind, join_of};

use crate::fault::EvalFault;
use crate::operators::text_within;
use pb_value::val::{Node, Val};
use std::alloc::{AllocError, Global};

/// The text with those of the values behind it, a text before each.
fn behind(alloc: Global, front: String, between: &str, items: &[Val]) -> Result<String, AllocError>
    ensures { IfOk result (λ s. string_bytes s ≡ behind (string_bytes front) between.now items.now) }
{
    let mut text = front;
    for item in items {
        text.push_str(between)?;
        text.push_str(item.text_of(alloc)?.as_str())?;
    }
    Ok(text)
}

fn joined(alloc: Global, between: &str, items: &[Val]) -> Result<String, AllocError>
    ensures { IfOk result (λ s. string_bytes s ≡ joined between.now items.now) }
{
    match items {
        [] => Ok(String::new(alloc)),
        [first, rest @ ..] => behind(alloc, first.text_of(alloc)?, between, rest),
    }
}

/// The texts of a list's members in one, with a text between each and the next; at most 1 MiB.
#[tactic(auto, using(crate::proofs::Rows::rows_are))]
pub fn join(alloc: Global, x: &Val, between: &Val) -> Result<Val, EvalFault>
    ensures value { IfOk result (λ v. join_of x.now between.now ≡ Ok v) }
    ensures fault { IfErr result (λ e. e ≢ fault.Memory → join_of x.now between.now ≡ Err e) }
{
    match (&x.node, &between.node) {
        (Node::List(items), Node::Text(between)) => {
            text_within(joined(alloc, between.as_str(), items.as_slice())?)
        }
        _ => Err(EvalFault::WrongKind),
    }
}
