//! Filters that tell a number or a truth.
ghost use Rattle.std.specs.Prelude.{◌≡◌, IfOk, IfErr, Ok, Err};
ghost use Rattle.pb_operators.specs.Values.{int_within};
ghost use Rattle.pb_operators.specs.Operators.{characters, length_of, is_true_word, bool_of, trimmed, signed, or_zero, int_of};
ghost use Rattle.std.specs.Prelude.{pos};
ghost use Rattle.std.specs.Fmt.{is_char_start};

use crate::fault::EvalFault;
use pb_value::val::{Node, Val};

fn begins_character(byte: u8) -> bool
    ensures { result ≡ is_char_start byte }
{
    byte < 0x80 || byte >= 0xC0
}

fn characters(bytes: &[u8]) -> usize
    ensures { result ≡ characters bytes.now }
{
    let mut count = 0;
    for byte in bytes {
        if begins_character(*byte) {
            count += 1;
        }
    }
    count
}

fn count(number: usize) -> Result<Val, EvalFault>
    ensures value { IfOk result (λ v. int_within (pos number) ≡ Ok v) }
    ensures fault { IfErr result (λ e. int_within (pos number) ≡ Err e) }
{
    match i64::try_from(number) {
        Ok(number) => Ok(Val::int(number)),
        Err(_) => Err(EvalFault::Overflow),
    }
}

/// The number of characters, members or keys.
#[tactic(auto, using(crate::proofs::Rows::rows_are))]
pub fn length(x: &Val) -> Result<Val, EvalFault>
    ensures value { IfOk result (λ v. length_of x.now ≡ Ok v) }
    ensures fault { IfErr result (λ e. length_of x.now ≡ Err e) }
{
    match &x.node {
        Node::Text(text) => count(characters(text.as_str().as_bytes())),
        Node::List(items) => count(items.len()),
        Node::Dict(dict) => count(dict.len()),
        _ => Err(EvalFault::WrongKind),
    }
}

fn is_true_word(text: &str) -> bool
    ensures { result ≡ is_true_word text.now }
{
    text.eq_ignore_ascii_case("yes")
        || text.eq_ignore_ascii_case("on")
        || text.eq_ignore_ascii_case("1")
        || text.eq_ignore_ascii_case("true")
}

/// The truth that a value writes: a Boolean itself; true for the number 1 and the texts yes, on, 1
/// and true in any case of their letters; else false.
pub fn to_bool(x: &Val) -> bool
    ensures { result ≡ bool_of x.now }
{
    match &x.node {
        Node::Bool(truth) => *truth,
        Node::Int(number) => *number == 1,
        Node::Text(text) => is_true_word(text.as_str()),
        _ => false,
    }
}

fn trimmed(text: &str) -> &str
    ensures { result.now ≡ trimmed text.now }
{
    text.trim_ascii()
}

fn number_in(text: &str) -> i64
    ensures { result ≡ or_zero (signed text.now) }
{
    match text.parse::<i64>() {
        Ok(number) => number,
        Err(_) => 0,
    }
}

/// The number that a value writes: a number itself; 1 for true; the number of 64 signed bits that a
/// text writes in decimal, with a sign or without and perhaps between white space of ASCII; else 0.
pub fn to_int(x: &Val) -> i64
    ensures { result ≡ int_of x.now }
{
    match &x.node {
        Node::Int(number) => *number,
        Node::Bool(true) => 1,
        Node::Text(text) => number_in(trimmed(text.as_str())),
        _ => 0,
    }
}
