//! What is made of what was read, or its fault.
ghost use Rattle.std.specs.Prelude.{◌≡◌, ◌≢◌, ◌&&◌, [], ◌∷◌, ◌++◌, not, IfOk, IfErr, Ok, Err, string_bytes};
ghost use Rattle.pb_operators.specs.declared.fault.EvalFault.TheVariants as fault;
ghost use Rattle.pb_operators.specs.Operators.{negated, member_of, index_of, binary as binary_of};
ghost use Rattle.pb_operators.specs.Values.{text_within, finished};
ghost use Rattle.pb_value.specs.Datum as datum;
ghost use Rattle.pb_value.specs.Datum.{items_of, members_of, put as with};
ghost use Rattle.pb_value.specs.Reading.{and_then, map_ok};
ghost use Rattle.pb_value.specs.ToJson.{text_of};
ghost use Rattle.pb_value.specs.Truth.{truthy};
ghost use Rattle.pb_expr_eval.specs.Operand.{held};
ghost use Rattle.pb_expr_eval.specs.Value.{apply, is_defined};

use crate::forms::apply;
use crate::operand::Operand;
use pb_expr_syntax::tree::{Filter, Op};
use pb_operators::fault::EvalFault;
use pb_operators::operators::{binary, finished, is_final, negate, text_within};
use pb_value::text::Text;
use pb_value::val::{Dict, Val, ValList};
use std::alloc::Global;

/// A copy of a value.
pub(crate) fn copied(alloc: Global, value: &Val) -> Result<Val, EvalFault>
    ensures value { IfOk result (λ v. v ≡ value.now) }
    ensures fault { IfErr result (λ e. e ≡ fault.Memory) }
{
    Ok(value.try_clone(alloc)?)
}

/// A copy of a text.
pub(crate) fn copied_text<'a>(words: &Text) -> Result<Operand<'a>, EvalFault>
    ensures value { IfOk result (λ x. held x ≡ datum.text words.now) }
    ensures fault { IfErr result (λ e. e ≡ fault.Memory) }
{
    Ok(Operand::Made(Val::text(words.try_clone()?)))
}

/// What was read, as an operand.
pub(crate) fn made<'a>(outcome: Result<Val, EvalFault>) -> Result<Operand<'a>, EvalFault>
    ensures { map_ok held result ≡ outcome }
{
    match outcome {
        Ok(value) => Ok(Operand::Made(value)),
        Err(fault) => Err(fault),
    }
}

/// What was read, as a value of its own.
pub(crate) fn owned(alloc: Global, outcome: Result<Operand, EvalFault>) -> Result<Val, EvalFault>
    ensures value { IfOk result (λ v. map_ok held outcome.entry ≡ Ok v) }
    ensures fault { IfErr result (λ e. e ≢ fault.Memory → map_ok held outcome.entry ≡ Err e) }
{
    match outcome {
        Ok(value) => Ok(value.into_val(alloc)?),
        Err(fault) => Err(fault),
    }
}

/// The list of what was read.
pub(crate) fn listed(outcome: Result<ValList, EvalFault>) -> Result<Val, EvalFault>
    ensures { result ≡ map_ok (λ ds. datum.list (items_of ds)) outcome }
{
    match outcome {
        Ok(items) => Ok(Val::list(items)),
        Err(fault) => Err(fault),
    }
}

/// The dict of what was read.
pub(crate) fn named(outcome: Result<Dict, EvalFault>) -> Result<Val, EvalFault>
    ensures { result ≡ map_ok (λ ms. datum.dict (members_of ms)) outcome }
{
    match outcome {
        Ok(members) => Ok(Val::dict(members)),
        Err(fault) => Err(fault),
    }
}

/// The text of what was read, if it isn't too large.
pub(crate) fn worded(outcome: Result<String, EvalFault>) -> Result<Val, EvalFault>
    ensures { result ≡ and_then outcome (λ s. text_within (string_bytes s)) }
{
    match outcome {
        Ok(text) => text_within(text),
        Err(fault) => Err(fault),
    }
}

/// What was read, measured at its end.
pub(crate) fn within(outcome: Result<Val, EvalFault>) -> Result<Val, EvalFault>
    ensures { result ≡ and_then outcome finished }
{
    match outcome {
        Ok(value) => finished(value),
        Err(fault) => Err(fault),
    }
}

/// Whether what was read isn't true.
pub(crate) fn denied(outcome: Result<Operand, EvalFault>) -> Result<Val, EvalFault>
    ensures { result ≡ map_ok (λ x. datum.boolean (not (truthy (held x)))) outcome.entry }
{
    match outcome {
        Ok(x) => Ok(Val::boolean(!x.get().truthy())),
        Err(fault) => Err(fault),
    }
}

/// The opposite of what was read.
pub(crate) fn negated(outcome: Result<Operand, EvalFault>) -> Result<Val, EvalFault>
    ensures { result ≡ and_then outcome.entry (λ x. negated (held x)) }
{
    match outcome {
        Ok(x) => negate(x.get()),
        Err(fault) => Err(fault),
    }
}

/// Whether what was read is there, or isn't; another fault than that of a name stays.
pub(crate) fn defined(outcome: Result<Operand, EvalFault>, present: bool) -> Result<Val, EvalFault>
    ensures { result ≡ is_defined (map_ok held outcome.entry) present }
{
    match outcome {
        Ok(_) => Ok(Val::boolean(present)),
        Err(EvalFault::Undefined { name: _ }) => Ok(Val::boolean(!present)),
        Err(fault) => Err(fault),
    }
}

/// The member of that name of what was read.
pub(crate) fn part_of<'a>(
    alloc: Global,
    outcome: Result<Operand<'a>, EvalFault>,
    name: &str,
) -> Result<Operand<'a>, EvalFault>
    ensures value { IfOk result (λ v. and_then outcome.entry (λ x. member_of (held x) name.now) ≡ Ok (held v)) }
    ensures fault { IfErr result (λ e. e ≢ fault.Memory → and_then outcome.entry (λ x. member_of (held x) name.now) ≡ Err e) }
{
    match outcome {
        Ok(x) => x.member(alloc, name),
        Err(fault) => Err(fault),
    }
}

/// The member of the first operand under the key that was read.
pub(crate) fn bracketed<'a>(
    alloc: Global,
    x: Operand<'a>,
    key: Result<Operand, EvalFault>,
) -> Result<Operand<'a>, EvalFault>
    ensures value { IfOk result (λ v. and_then key.entry (λ y. index_of (held x.entry) (held y)) ≡ Ok (held v)) }
    ensures fault { IfErr result (λ e. e ≢ fault.Memory → and_then key.entry (λ y. index_of (held x.entry) (held y)) ≡ Err e) }
{
    match key {
        Ok(y) => x.index(alloc, y.get()),
        Err(fault) => Err(fault),
    }
}

/// What an operator gives for the first operand and the second that was read.
pub(crate) fn between<'a>(
    alloc: Global,
    op: Op,
    x: Operand,
    second: Result<Operand, EvalFault>,
) -> Result<Operand<'a>, EvalFault>
    ensures value { IfOk result (λ v. and_then second.entry (λ y. binary_of op (held x.entry) (held y)) ≡ Ok (held v)) }
    ensures fault { IfErr result (λ e. e ≢ fault.Memory → and_then second.entry (λ y. binary_of op (held x.entry) (held y)) ≡ Err e) }
{
    match second {
        Ok(y) => made(binary(alloc, op, x.get(), y.get())),
        Err(fault) => Err(fault),
    }
}

/// What a filter but `default` gives for its operand and the arguments that were read.
pub(crate) fn applied<'a>(
    alloc: Global,
    filter: Filter,
    x: Operand,
    args: Result<ValList, EvalFault>,
) -> Result<Operand<'a>, EvalFault>
    ensures value { IfOk result (λ v. and_then args (λ bs. apply filter (held x.entry) bs) ≡ Ok (held v)) }
    ensures fault { IfErr result (λ e. e ≢ fault.Memory → and_then args (λ bs. apply filter (held x.entry) bs) ≡ Err e) }
{
    match args {
        Ok(args) => made(apply(alloc, filter, x.get(), args.as_slice())),
        Err(fault) => Err(fault),
    }
}

/// Whether the first argument of `default` stands for an operand that is there: it isn't true, and what was read for the second
/// argument is.
pub(crate) fn replaces(x: &Operand, if_false: Result<Operand, EvalFault>) -> Result<bool, EvalFault>
    ensures { result ≡ map_ok (λ b. truthy (held b) && not (truthy (held x.now))) if_false.entry }
{
    match if_false {
        Ok(if_false) => Ok(if_false.get().truthy() && !x.get().truthy()),
        Err(fault) => Err(fault),
    }
}

/// Puts what was read behind the values.
pub(crate) fn push(to: &mut Vec<Val>, outcome: Result<Val, EvalFault>) -> Result<(), EvalFault>
    ensures value { IfOk result (λ u. map_ok (λ d. to.old.items ++ d ∷ []) outcome ≡ Ok to.new.items) }
    ensures fault { IfErr result (λ e. e ≢ fault.Memory → outcome ≡ Err e) }
{
    match outcome {
        Ok(value) => Ok(to.push(value)?),
        Err(fault) => Err(fault),
    }
}

/// Puts what was read under a name.
pub(crate) fn put(
    to: &mut Dict,
    name: &String,
    outcome: Result<Val, EvalFault>,
) -> Result<(), EvalFault>
    ensures value { IfOk result (λ u. map_ok (λ d. with (string_bytes name.now) d to.old) outcome ≡ Ok to.new) }
    ensures fault { IfErr result (λ e. e ≢ fault.Memory → outcome ≡ Err e) }
{
    match outcome {
        Ok(value) => Ok(to.insert(name.clone()?, value)?),
        Err(fault) => Err(fault),
    }
}

/// Puts the text of what was read behind another, if it may be the value of a whole expression.
pub(crate) fn append(
    alloc: Global,
    to: &mut String,
    outcome: Result<Operand, EvalFault>,
) -> Result<(), EvalFault>
    ensures value { IfOk result (λ u. map_ok (λ s. string_bytes to.old ++ s) (map_ok text_of (and_then (map_ok held outcome.entry) finished)) ≡ Ok (string_bytes to.new)) }
    ensures fault { IfErr result (λ e. e ≢ fault.Memory → map_ok text_of (and_then (map_ok held outcome.entry) finished) ≡ Err e) }
{
    match outcome {
        Ok(x) => {
            if !is_final(x.get()) {
                return Err(EvalFault::TooLarge);
            }
            Ok(x.get().show(alloc, to)?)
        }
        Err(fault) => Err(fault),
    }
}
