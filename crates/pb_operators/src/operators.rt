ghost use Rattle.std.specs.Prelude.{◌≡◌, ◌≢◌, ◌++◌, ◌≤◌, IfOk, IfErr, Ok, Err, length, string_bytes};
ghost use Rattle.std.specs.Prelude.{if◌then◌else◌};
ghost use Rattle.pb_operators.specs.declared.fault.EvalFault.TheVariants as fault;
ghost use Rattle.pb_operators.specs.Values.{text_within, list_within, finished, is_final};
ghost use Rattle.pb_operators.specs.Operators.{plus, minus, negated, tilde, binary as binary_of, truth_of};

use crate::compare::{contains, is_same, order_of};
use crate::fault::EvalFault;
use pb_expr_syntax::tree::Op;
use pb_value::limits::{MAX_DEPTH, MAX_TEXT};
use pb_value::text::Text;
use pb_value::val::{Node, Val, ValList};
use std::alloc::Global;

/// The most members of a list that is made.
pub const MAX_MEMBERS: usize = 1048576;

/// A text as a value, if it has at most 1 MiB.
pub fn text_within(text: String) -> Result<Val, EvalFault>
    ensures value { IfOk result (λ v. text_within (string_bytes text) ≡ Ok v) }
    ensures fault { IfErr result (λ e. text_within (string_bytes text) ≡ Err e) }
{
    if text.len() <= MAX_TEXT {
        Ok(Val::text(Text::from_string(text)))
    } else {
        Err(EvalFault::TooLarge)
    }
}

/// The value itself, if it may be the value of a whole expression: it nests at most 64 levels, and
/// a text has at most 1 MiB.
pub fn finished(value: Val) -> Result<Val, EvalFault>
    ensures value { IfOk result (λ v. finished value ≡ Ok v) }
    ensures fault { IfErr result (λ e. finished value ≡ Err e) }
{
    if is_final(&value) {
        Ok(value)
    } else {
        Err(EvalFault::TooLarge)
    }
}

/// Whether the value may be the value of a whole expression.
pub fn is_final(value: &Val) -> bool
    ensures { result ≡ is_final value.now }
{
    match &value.node {
        Node::Text(text) => text.len() <= MAX_TEXT,
        _ => value.is_within(MAX_DEPTH),
    }
}

fn joined_texts(alloc: Global, front: &str, back: &str) -> Result<Val, EvalFault>
    ensures value { IfOk result (λ v. text_within (front.now ++ back.now) ≡ Ok v) }
    ensures fault { IfErr result (λ e. e ≢ fault.Memory → text_within (front.now ++ back.now) ≡ Err e) }
{
    let mut text = String::from_str(alloc, front)?;
    text.push_str(back)?;
    text_within(text)
}

/// The list with copies of these values behind it.
fn with_behind(alloc: Global, mut list: ValList, items: &[Val]) -> Result<ValList, EvalFault>
    ensures value { IfOk result (λ l. l ≡ list ++ items.now) }
    ensures fault { IfErr result (λ e. e ≡ fault.Memory) }
{
    for item in items {
        list.push(item.try_clone(alloc)?)?;
    }
    Ok(list)
}

fn joined_lists(alloc: Global, front: &ValList, back: &ValList) -> Result<Val, EvalFault>
    ensures value { IfOk result (λ v. list_within (front.now ++ back.now) ≡ Ok v) }
    ensures fault { IfErr result (λ e. e ≢ fault.Memory → list_within (front.now ++ back.now) ≡ Err e) }
{
    if front.len() > MAX_MEMBERS || back.len() > MAX_MEMBERS - front.len() {
        return Err(EvalFault::TooLarge);
    }
    let list = with_behind(alloc, front.try_clone(alloc)?, back.as_slice())?;
    Ok(Val::list(list))
}

/// `+`: the sum of two numbers, or two texts or two lists one behind the other. A text that is made
/// has at most 1 MiB, a list at most 1,048,576 members.
#[tactic(auto, using(crate::proofs::Rows::rows_are))]
pub fn plus(alloc: Global, x: &Val, y: &Val) -> Result<Val, EvalFault>
    ensures value { IfOk result (λ v. plus x.now y.now ≡ Ok v) }
    ensures fault { IfErr result (λ e. e ≢ fault.Memory → plus x.now y.now ≡ Err e) }
{
    match (&x.node, &y.node) {
        (Node::Int(a), Node::Int(b)) => match a.checked_add(*b) {
            Some(sum) => Ok(Val::int(sum)),
            None => Err(EvalFault::Overflow),
        },
        (Node::Text(a), Node::Text(b)) => joined_texts(alloc, a.as_str(), b.as_str()),
        (Node::List(a), Node::List(b)) => joined_lists(alloc, a, b),
        _ => Err(EvalFault::WrongKind),
    }
}

/// `-` between two numbers.
pub fn minus(x: &Val, y: &Val) -> Result<Val, EvalFault>
    ensures value { IfOk result (λ v. minus x.now y.now ≡ Ok v) }
    ensures fault { IfErr result (λ e. minus x.now y.now ≡ Err e) }
{
    match (&x.node, &y.node) {
        (Node::Int(a), Node::Int(b)) => match a.checked_sub(*b) {
            Some(difference) => Ok(Val::int(difference)),
            None => Err(EvalFault::Overflow),
        },
        _ => Err(EvalFault::WrongKind),
    }
}

/// `-` before a number.
pub fn negate(x: &Val) -> Result<Val, EvalFault>
    ensures value { IfOk result (λ v. negated x.now ≡ Ok v) }
    ensures fault { IfErr result (λ e. negated x.now ≡ Err e) }
{
    match &x.node {
        Node::Int(a) => match a.checked_neg() {
            Some(opposite) => Ok(Val::int(opposite)),
            None => Err(EvalFault::Overflow),
        },
        _ => Err(EvalFault::WrongKind),
    }
}

/// `~`: the texts of both, one behind the other, at most 1 MiB.
pub fn tilde(alloc: Global, x: &Val, y: &Val) -> Result<Val, EvalFault>
    ensures value { IfOk result (λ v. tilde x.now y.now ≡ Ok v) }
    ensures fault { IfErr result (λ e. e ≢ fault.Memory → tilde x.now y.now ≡ Err e) }
{
    let front = x.text_of(alloc)?;
    let back = y.text_of(alloc)?;
    joined_texts(alloc, front.as_str(), back.as_str())
}

/// The outcome of a test of order, which there is only between two numbers or two texts.
fn truth_of(test: Option<bool>) -> Result<Val, EvalFault>
    ensures value { IfOk result (λ v. truth_of test ≡ Ok v) }
    ensures fault { IfErr result (λ e. truth_of test ≡ Err e) }
{
    match test {
        Some(truth) => Ok(Val::boolean(truth)),
        None => Err(EvalFault::WrongKind),
    }
}

/// What an operator gives for two values. Of `and` and `or` it is the first where that is enough by its
/// truth, else the second.
pub fn binary(alloc: Global, op: Op, x: &Val, y: &Val) -> Result<Val, EvalFault>
    ensures value { IfOk result (λ v. binary_of op x.now y.now ≡ Ok v) }
    ensures fault { IfErr result (λ e. e ≢ fault.Memory → binary_of op x.now y.now ≡ Err e) }
{
    match op {
        Op::Or => chosen(alloc, x.truthy(), x, y),
        Op::And => chosen(alloc, x.truthy(), y, x),
        Op::Equal => Ok(Val::boolean(is_same(x, y))),
        Op::NotEqual => Ok(Val::boolean(!is_same(x, y))),
        Op::Less => truth_of(order_of(x, y).map(|order| order.is_lt())),
        Op::AtMost => truth_of(order_of(x, y).map(|order| order.is_le())),
        Op::Greater => truth_of(order_of(x, y).map(|order| order.is_gt())),
        Op::AtLeast => truth_of(order_of(x, y).map(|order| order.is_ge())),
        Op::In => Ok(Val::boolean(contains(x, y)?)),
        Op::NotIn => Ok(Val::boolean(!contains(x, y)?)),
        Op::Plus => plus(alloc, x, y),
        Op::Minus => minus(x, y),
        Op::Tilde => tilde(alloc, x, y),
    }
}

/// A copy of the first where the test holds, else of the second.
fn chosen(alloc: Global, first: bool, x: &Val, y: &Val) -> Result<Val, EvalFault>
    ensures value { IfOk result (λ v. v ≡ (if first then x.now else y.now)) }
    ensures fault { IfErr result (λ e. e ≡ fault.Memory) }
{
    if first {
        Ok(x.try_clone(alloc)?)
    } else {
        Ok(y.try_clone(alloc)?)
    }
}
