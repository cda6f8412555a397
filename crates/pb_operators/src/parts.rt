//! Parts of values.
ghost use Rattle.std.specs.Prelude.{◌≡◌, ◌≢◌, IfOk, IfErr, Ok, Err, option_copied};
ghost use Rattle.pb_operators.specs.declared.fault.EvalFault.TheVariants as fault;
ghost use Rattle.pb_operators.specs.Operators.{part_under, member_of, at_number, index_of};

use crate::fault::EvalFault;
use pb_value::text::Text;
use pb_value::val::{Node, Val};
use std::alloc::Global;

/// The fault of a name that stands for nothing.
pub fn undefined(alloc: Global, name: &str) -> EvalFault
    ensures { result ≢ fault.Memory → result ≡ fault.Undefined name.now }
{
    match Text::from_str(alloc, name) {
        Ok(name) => EvalFault::Undefined { name },
        Err(_) => EvalFault::Memory,
    }
}

fn part_under(alloc: Global, name: &str, part: Option<&Val>) -> Result<Val, EvalFault>
    ensures value { IfOk result (λ v. part_under name.now (option_copied part.entry) ≡ Ok v) }
    ensures fault { IfErr result (λ e. e ≢ fault.Memory → part_under name.now (option_copied part.entry) ≡ Err e) }
{
    match part {
        Some(value) => Ok(value.try_clone(alloc)?),
        None => Err(undefined(alloc, name)),
    }
}

/// The member of that name, as in `x.name`.
#[tactic(auto, using(crate::proofs::Rows::rows_are))]
pub fn member(alloc: Global, x: &Val, name: &str) -> Result<Val, EvalFault>
    ensures value { IfOk result (λ v. member_of x.now name.now ≡ Ok v) }
    ensures fault { IfErr result (λ e. e ≢ fault.Memory → member_of x.now name.now ≡ Err e) }
{
    match &x.node {
        Node::Dict(dict) => part_under(alloc, name, dict.get(name)),
        _ => Err(EvalFault::WrongKind),
    }
}

/// The value of that number, from 0 on, or from -1 backwards on.
fn at_number(items: &[Val], number: i64) -> Option<&Val>
    ensures { option_copied result ≡ at_number items.now number }
{
    if number >= 0 {
        items.get(number as usize)
    } else {
        let back = number.unsigned_abs() as usize;
        if back <= items.len() {
            items.get(items.len() - back)
        } else {
            None
        }
    }
}

/// The member under a key, as in `x[y]`: of a dict by a text, of a list by a number.
#[tactic(auto, using(crate::proofs::Rows::rows_are))]
pub fn index(alloc: Global, x: &Val, y: &Val) -> Result<Val, EvalFault>
    ensures value { IfOk result (λ v. index_of x.now y.now ≡ Ok v) }
    ensures fault { IfErr result (λ e. e ≢ fault.Memory → index_of x.now y.now ≡ Err e) }
{
    match (&x.node, &y.node) {
        (Node::Dict(dict), Node::Text(name)) => {
            part_under(alloc, name.as_str(), dict.get(name.as_str()))
        }
        (Node::List(items), Node::Int(number)) => {
            let name = format!(in alloc; "{number}")?;
            part_under(alloc, name.as_str(), at_number(items.as_slice(), *number))
        }
        _ => Err(EvalFault::WrongKind),
    }
}
