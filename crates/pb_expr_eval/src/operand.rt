//! Operands, which are lent where they stand as they are read.
ghost use Rattle.std.specs.Prelude.{◌≡◌, ◌≢◌, IfOk, IfErr, IfSome, Some, Ok, Err};
ghost use Rattle.std.specs.Option.{option_copied};
ghost use Rattle.pb_operators.specs.declared.fault.EvalFault.TheVariants as fault;
ghost use Rattle.pb_operators.specs.Operators.{at_number, index_of, member_of};
ghost use Rattle.pb_expr_eval.specs.Operand.{held};

use pb_operators::fault::EvalFault;
use pb_operators::parts::{index, member};
use pb_value::val::{Node, Val};
use std::alloc::{AllocError, Global};

/// What an operator or a filter is given.
pub(crate) enum Operand<'a> {
    /// A value that stands among the variables.
    Lent(&'a Val),
    /// A value that was made.
    Made(Val),
}

// (by hand: an operand is then dropped by one call)
impl<'a> Drop for Operand<'a> {
    fn drop(self) {
        match self {
            Operand::Lent(_) => {}
            Operand::Made(value) => drop(value),
        }
    }
}

/// The member of that name, where there is one.
#[tactic(auto, using(crate::proofs::Steps::member_there))]
fn part<'a>(x: &'a Val, name: &str) -> Option<&'a Val>
    ensures { IfSome (option_copied result) (λ v. member_of x.now name.now ≡ Ok v) }
{
    let Node::Dict(dict) = &x.node else {
        return None;
    };
    let part = dict.get(name)?;
    Some(part)
}

/// The value of that number, counted from the front, where there is one.
fn item_at(items: &[Val], number: i64) -> Option<&Val>
    ensures { IfSome (option_copied result) (λ v. at_number items.now number ≡ Some v) }
{
    if number >= 0 {
        items.get(number as usize)
    } else {
        None
    }
}

/// The member under a key, where there is one. In a list it is counted from the front.
#[tactic(auto, using(crate::proofs::Steps::text_there, crate::proofs::Steps::number_there))]
fn part_at<'a>(x: &'a Val, y: &Val) -> Option<&'a Val>
    ensures { IfSome (option_copied result) (λ v. index_of x.now y.now ≡ Ok v) }
{
    match (&x.node, &y.node) {
        (Node::Dict(dict), Node::Text(name)) => {
            let part = dict.get(name.as_str())?;
            Some(part)
        }
        (Node::List(items), Node::Int(number)) => {
            let part = item_at(items.as_slice(), *number)?;
            Some(part)
        }
        _ => None,
    }
}

impl<'a> Operand<'a> {
    /// The value.
    pub(crate) fn get(&self) -> &Val
        ensures { result.now ≡ held self.now }
    {
        match self {
            Operand::Lent(value) => *value,
            Operand::Made(value) => value,
        }
    }

    /// The value as one of its own.
    pub(crate) fn into_val(self, alloc: Global) -> Result<Val, AllocError>
        ensures { IfOk result (λ v. v ≡ held self.entry) }
    {
        match self {
            Operand::Lent(value) => value.try_clone(alloc),
            Operand::Made(value) => Ok(value),
        }
    }

    /// The member of that name, as in `x.name`. What is lent lends it.
    pub(crate) fn member(self, alloc: Global, name: &str) -> Result<Operand<'a>, EvalFault>
        ensures value { IfOk result (λ x. member_of (held self.entry) name.now ≡ Ok (held x)) }
        ensures fault { IfErr result (λ e. e ≢ fault.Memory → member_of (held self.entry) name.now ≡ Err e) }
    {
        match self {
            Operand::Lent(whole) => match part(whole, name) {
                Some(part) => Ok(Operand::Lent(part)),
                None => Ok(Operand::Made(member(alloc, whole, name)?)),
            },
            Operand::Made(whole) => Ok(Operand::Made(member(alloc, &whole, name)?)),
        }
    }

    /// The member under a key, as in `x[y]`. What is lent lends it.
    pub(crate) fn index(self, alloc: Global, y: &Val) -> Result<Operand<'a>, EvalFault>
        ensures value { IfOk result (λ x. index_of (held self.entry) y.now ≡ Ok (held x)) }
        ensures fault { IfErr result (λ e. e ≢ fault.Memory → index_of (held self.entry) y.now ≡ Err e) }
    {
        match self {
            Operand::Lent(whole) => match part_at(whole, y) {
                Some(part) => Ok(Operand::Lent(part)),
                None => Ok(Operand::Made(index(alloc, whole, y)?)),
            },
            Operand::Made(whole) => Ok(Operand::Made(index(alloc, &whole, y)?)),
        }
    }
}
