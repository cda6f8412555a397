//! Reads expressions and templates in a scope, with a number of look-ups left.
ghost use Rattle.std.specs.Prelude.{◌≡◌, ◌≢◌, ◌++◌, IfOk, IfErr, Ok, Err, string_bytes};
ghost use Rattle.pb_value.specs.Datum.{items_of, members_of, named};
ghost use Rattle.pb_value.specs.Reading.{and_then, map_ok};
ghost use Rattle.pb_expr_syntax.specs.Tree as tree;
ghost use Rattle.pb_expr_syntax.specs.Tree.{trees_of};
ghost use Rattle.pb_operators.specs.declared.fault.EvalFault.TheVariants as fault;
ghost use Rattle.pb_expr_eval.specs.Value.{value, values, each, defaulted, or_default, default_if, apply};
ghost use Rattle.pb_template.specs.Computed.{template_of};
ghost use Rattle.pb_expr_eval.specs.Rendering.{measured, templated, text_in, shown, render, rendered, rendered_items, rendered_members};
ghost use Rattle.pb_expr_eval.specs.Scoped.{names_in};
ghost use Rattle.pb_expr_eval.specs.Operand.{held};

use crate::forms::short_circuits;
use crate::operand::Operand;
use crate::outcomes::{
    append, applied, between, bracketed, copied, copied_text, defined, denied, listed, made, named,
    negated, owned, part_of, push, put, replaces, within, worded,
};
use pb_expr_syntax::fault::ExprFault;
use pb_expr_syntax::tree::{Expr, Filter, Form, Op};
use pb_layers::scope::{Scope, has_templates};
use pb_operators::fault::EvalFault;
use pb_operators::parts::undefined;
use pb_template::plain::is_plain;
use pb_template::template::{Part, Template};
use pb_value::text::Text;
use pb_value::val::{Dict, Node, Val, ValList};
use std::alloc::Global;

/// How many bytes the text of a template has room for from the first: most have fewer.
const ROOM: usize = 32;

/// The value of an expression.
#[cycle(reading)]
#[inline(never)]
fn value(alloc: Global, scope: &Scope, levels: u32, expr: &Expr) -> Result<Val, EvalFault>
    ensures value { IfOk result (λ v. value (names_in scope.now levels) expr.now ≡ Ok v) }
    ensures fault { IfErr result (λ e. e ≢ fault.Memory → value (names_in scope.now levels) expr.now ≡ Err e) }
{
    owned(alloc, operand(alloc, scope, levels, expr))
}

/// An operator between two operands; the second is read where the first isn't the result.
#[cycle(reading)]
#[inline(never)]
fn operated<'a>(
    alloc: Global,
    scope: &Scope<'a>,
    levels: u32,
    op: Op,
    x: &Expr,
    y: &Expr,
) -> Result<Operand<'a>, EvalFault>
    ensures value { IfOk result (λ v. value (names_in scope.now levels) (tree.Binary op x.now y.now) ≡ Ok (held v)) }
    ensures fault { IfErr result (λ e. e ≢ fault.Memory → value (names_in scope.now levels) (tree.Binary op x.now y.now) ≡ Err e) }
{
    let x = operand(alloc, scope, levels, x)?;
    if short_circuits(op, x.get()) {
        return Ok(x);
    }
    between(alloc, op, x, operand(alloc, scope, levels, y))
}

/// An operand, which is lent where it can be: a name that is read as it is stored, and what stands in it, so that it is read without a copy of the whole.
/// `hostvars` has an entry for each host.
#[cycle(reading)]
#[inline(never)]
fn operand<'a>(
    alloc: Global,
    scope: &Scope<'a>,
    levels: u32,
    expr: &Expr,
) -> Result<Operand<'a>, EvalFault>
    ensures value { IfOk result (λ x. value (names_in scope.now levels) expr.now ≡ Ok (held x)) }
    ensures fault { IfErr result (λ e. e ≢ fault.Memory → value (names_in scope.now levels) expr.now ≡ Err e) }
{
    match &expr.form {
        Form::Int(number) => Ok(Operand::Made(Val::int(*number))),
        Form::Text(text) => copied_text(text),
        Form::Name(name) => read(alloc, scope, levels, name.as_str()),
        Form::Truth(truth) => Ok(Operand::Made(Val::boolean(*truth))),
        Form::Null => Ok(Operand::Made(Val::null())),
        Form::List(items) => made(listed(values(alloc, scope, levels, items.as_slice()))),
        Form::Member(x, name) => part_of(alloc, operand(alloc, scope, levels, x), name.as_str()),
        Form::Index(x, y) => indexed(alloc, scope, levels, x, y),
        Form::Not(x) => made(denied(operand(alloc, scope, levels, x))),
        Form::Negate(x) => made(negated(operand(alloc, scope, levels, x))),
        Form::Binary(op, x, y) => operated(alloc, scope, levels, *op, x, y),
        Form::Apply(Filter::Default, x, args) => {
            defaulted(alloc, scope, levels, x, args.as_slice())
        }
        Form::Apply(filter, x, args) => filtered(alloc, scope, levels, *filter, x, args.as_slice()),
        Form::IsDefined(x, present) => made(defined(operand(alloc, scope, levels, x), *present)),
    }
}

/// The member under a key that is read.
#[cycle(reading)]
#[inline(never)]
fn indexed<'a>(
    alloc: Global,
    scope: &Scope<'a>,
    levels: u32,
    x: &Expr,
    y: &Expr,
) -> Result<Operand<'a>, EvalFault>
    ensures value { IfOk result (λ v. value (names_in scope.now levels) (tree.Index x.now y.now) ≡ Ok (held v)) }
    ensures fault { IfErr result (λ e. e ≢ fault.Memory → value (names_in scope.now levels) (tree.Index x.now y.now) ≡ Err e) }
{
    let x = operand(alloc, scope, levels, x)?;
    bracketed(alloc, x, operand(alloc, scope, levels, y))
}

/// A filter but `default`.
#[cycle(reading)]
#[inline(never)]
fn filtered<'a>(
    alloc: Global,
    scope: &Scope<'a>,
    levels: u32,
    filter: Filter,
    x: &Expr,
    args: &[Expr],
) -> Result<Operand<'a>, EvalFault>
    ensures value { IfOk result (λ v. and_then (value (names_in scope.now levels) x.now) (λ a. and_then (values (names_in scope.now levels) (trees_of args.now)) (λ bs. apply filter a bs)) ≡ Ok (held v)) }
    ensures fault { IfErr result (λ e. e ≢ fault.Memory → and_then (value (names_in scope.now levels) x.now) (λ a. and_then (values (names_in scope.now levels) (trees_of args.now)) (λ bs. apply filter a bs)) ≡ Err e) }
{
    let x = operand(alloc, scope, levels, x)?;
    applied(alloc, filter, x, values(alloc, scope, levels, args))
}

/// The values of expressions, from the first on.
#[cycle(reading)]
#[inline(never)]
fn values(alloc: Global, scope: &Scope, levels: u32, items: &[Expr]) -> Result<ValList, EvalFault>
    ensures value { IfOk result (λ l. values (names_in scope.now levels) (trees_of items.now) ≡ Ok l) }
    ensures fault { IfErr result (λ e. e ≢ fault.Memory → values (names_in scope.now levels) (trees_of items.now) ≡ Err e) }
{
    let mut values = Vec::with_capacity(alloc, items.len())?;
    for item in items {
        push(&mut values, value(alloc, scope, levels, item))?;
    }
    Ok(ValList::from_vec(values))
}

/// The filter `default`: its arguments are read where they are needed alone.
#[cycle(reading)]
#[inline(never)]
#[tactic(auto, using(crate::proofs::Steps::defaulted_many))]
fn defaulted<'a>(
    alloc: Global,
    scope: &Scope<'a>,
    levels: u32,
    x: &Expr,
    args: &[Expr],
) -> Result<Operand<'a>, EvalFault>
    ensures value { IfOk result
        (λ v. defaulted (value (names_in scope.now levels) x.now) (each (names_in scope.now levels) (trees_of args.now)) ≡ Ok (held v)) }
    ensures fault { IfErr result
        (λ e. e ≢ fault.Memory → defaulted (value (names_in scope.now levels) x.now) (each (names_in scope.now levels) (trees_of args.now)) ≡ Err e) }
{
    match args {
        [] => Err(EvalFault::WrongKind),
        [other] => or_default(alloc, scope, levels, x, other),
        [other, if_false] => default_if(alloc, scope, levels, x, other, if_false),
        [_, _, _, ..] => Err(EvalFault::WrongKind),
    }
}

/// `default` with one argument, which is read where the operand is undefined.
#[cycle(reading)]
#[inline(never)]
fn or_default<'a>(
    alloc: Global,
    scope: &Scope<'a>,
    levels: u32,
    x: &Expr,
    other: &Expr,
) -> Result<Operand<'a>, EvalFault>
    ensures value { IfOk result (λ v. or_default (value (names_in scope.now levels) x.now) (value (names_in scope.now levels) other.now) ≡ Ok (held v)) }
    ensures fault { IfErr result (λ e. e ≢ fault.Memory → or_default (value (names_in scope.now levels) x.now) (value (names_in scope.now levels) other.now) ≡ Err e) }
{
    match operand(alloc, scope, levels, x) {
        Err(EvalFault::Undefined { name: _ }) => operand(alloc, scope, levels, other),
        outcome => outcome,
    }
}

/// `default` with two arguments: the first is also read where the operand isn't true and the second is.
#[cycle(reading)]
#[inline(never)]
fn default_if<'a>(
    alloc: Global,
    scope: &Scope<'a>,
    levels: u32,
    x: &Expr,
    other: &Expr,
    if_false: &Expr,
) -> Result<Operand<'a>, EvalFault>
    ensures value { IfOk result
        (λ v. default_if (value (names_in scope.now levels) x.now) (value (names_in scope.now levels) other.now) (value (names_in scope.now levels) if_false.now) ≡ Ok (held v)) }
    ensures fault { IfErr result
        (λ e. e ≢ fault.Memory → default_if (value (names_in scope.now levels) x.now) (value (names_in scope.now levels) other.now) (value (names_in scope.now levels) if_false.now) ≡ Err e) }
{
    match operand(alloc, scope, levels, x) {
        Err(EvalFault::Undefined { name: _ }) => operand(alloc, scope, levels, other),
        Err(fault) => Err(fault),
        Ok(x) => {
            if replaces(&x, operand(alloc, scope, levels, if_false))? {
                operand(alloc, scope, levels, other)
            } else {
                Ok(x)
            }
        }
    }
}

/// What a name stands for, where there is a look-up left. It is lent where it is read as it is stored: its layer has no templates, or there is none in
/// the value.
#[cycle(reading)]
#[inline(never)]
#[tactic(auto, using(crate::proofs::Steps::stored_name, crate::proofs::Unrendered::known_name, crate::proofs::Unrendered::plain_name))]
fn read<'a>(
    alloc: Global,
    scope: &Scope<'a>,
    levels: u32,
    name: &str,
) -> Result<Operand<'a>, EvalFault>
    ensures value { IfOk result (λ x. names_in scope.now levels name.now ≡ Ok (held x)) }
    ensures fault { IfErr result (λ e. e ≢ fault.Memory → names_in scope.now levels name.now ≡ Err e) }
{
    if levels == 0 {
        return Err(EvalFault::TooLarge);
    }
    match scope.find(name) {
        None => Err(undefined(alloc, name)),
        Some(found) => {
            if !has_templates(found.layer) {
                return Ok(Operand::Lent(found.value));
            }
            if scope.knows_plain(name) {
                return Ok(Operand::Lent(found.value));
            }
            if is_plain(found.value) {
                return Ok(Operand::Lent(found.value));
            }
            made(rendered(alloc, scope, levels - 1, found.value))
        }
    }
}

/// A value with its texts rendered. A text that stands for itself isn't parsed.
#[cycle(reading)]
#[inline(never)]
#[tactic(auto, using(crate::proofs::Unrendered::plain_rendered))]
pub(crate) fn rendered(
    alloc: Global,
    scope: &Scope,
    levels: u32,
    stored: &Val,
) -> Result<Val, EvalFault>
    ensures value { IfOk result (λ v. rendered (names_in scope.now levels) stored.now ≡ Ok v) }
    ensures fault { IfErr result (λ e. e ≢ fault.Memory → rendered (names_in scope.now levels) stored.now ≡ Err e) }
{
    match &stored.node {
        Node::Text(text) => {
            if is_plain(stored) {
                return copied(alloc, stored);
            }
            templated(alloc, scope, levels, text.as_str())
        }
        Node::List(items) => listed(rendered_items(alloc, scope, levels, items)),
        Node::Dict(dict) => named(rendered_members(alloc, scope, levels, dict)),
        _ => copied(alloc, stored),
    }
}

/// What a text gives, if it is a template.
#[cycle(reading)]
#[inline(never)]
fn templated(alloc: Global, scope: &Scope, levels: u32, text: &str) -> Result<Val, EvalFault>
    ensures value { IfOk result (λ v. templated (names_in scope.now levels) (template_of text.now) ≡ Ok v) }
    ensures fault { IfErr result (λ e. e ≢ fault.Memory → templated (names_in scope.now levels) (template_of text.now) ≡ Err e) }
{
    match Template::parse(alloc, text) {
        Ok(template) => rendered_parts(alloc, scope, levels, template.parts.as_slice()),
        Err(ExprFault::Memory) => Err(EvalFault::Memory),
        Err(_) => Err(EvalFault::BadTemplate),
    }
}

#[cycle(reading)]
#[inline(never)]
fn rendered_items(
    alloc: Global,
    scope: &Scope,
    levels: u32,
    stored: &ValList,
) -> Result<ValList, EvalFault>
    ensures value { IfOk result (λ l. rendered_items (names_in scope.now levels) (items_of stored.now) ≡ Ok l) }
    ensures fault { IfErr result (λ e. e ≢ fault.Memory → rendered_items (names_in scope.now levels) (items_of stored.now) ≡ Err e) }
{
    let mut values = Vec::with_capacity(alloc, stored.len())?;
    for item in stored.as_slice() {
        push(&mut values, rendered(alloc, scope, levels, item))?;
    }
    Ok(ValList::from_vec(values))
}

#[cycle(reading)]
#[inline(never)]
fn rendered_members(
    alloc: Global,
    scope: &Scope,
    levels: u32,
    stored: &Dict,
) -> Result<Dict, EvalFault>
    ensures value { IfOk result (λ d. rendered_members (names_in scope.now levels) (members_of stored.now) ≡ Ok d) }
    ensures fault { IfErr result (λ e. e ≢ fault.Memory → rendered_members (names_in scope.now levels) (members_of stored.now) ≡ Err e) }
{
    let mut values = Dict::new(alloc);
    for (key, member) in stored.iter() {
        put(&mut values, key, rendered(alloc, scope, levels, member))?;
    }
    Ok(values)
}

/// What the parts of a template give.
#[cycle(reading)]
#[inline(never)]
pub(crate) fn rendered_parts(
    alloc: Global,
    scope: &Scope,
    levels: u32,
    parts: &[Part],
) -> Result<Val, EvalFault>
    ensures value { IfOk result (λ v. render (names_in scope.now levels) parts.now ≡ Ok v) }
    ensures fault { IfErr result (λ e. e ≢ fault.Memory → render (names_in scope.now levels) parts.now ≡ Err e) }
{
    match parts {
        [] => Ok(Val::text(Text::new(alloc))),
        [Part::Code(expr)] => measured(alloc, scope, levels, expr),
        [_, ..] => worded(shown(alloc, scope, levels, parts)),
    }
}

/// The texts of parts in one.
#[cycle(reading)]
#[inline(never)]
#[tactic(auto, using(crate::proofs::Members::map_ok_none))]
fn shown(alloc: Global, scope: &Scope, levels: u32, parts: &[Part]) -> Result<String, EvalFault>
    ensures value { IfOk result (λ s. shown (names_in scope.now levels) parts.now ≡ Ok (string_bytes s)) }
    ensures fault { IfErr result (λ e. e ≢ fault.Memory → shown (names_in scope.now levels) parts.now ≡ Err e) }
{
    let mut text = String::with_capacity(alloc, ROOM)?;
    for part in parts {
        show(alloc, scope, levels, part, &mut text)?;
    }
    Ok(text)
}

/// Puts the text of a part behind another. That of a value that is lent goes there as it stands.
#[cycle(reading)]
#[inline(never)]
fn show(
    alloc: Global,
    scope: &Scope,
    levels: u32,
    part: &Part,
    to: &mut String,
) -> Result<(), EvalFault>
    ensures value { IfOk result (λ u. map_ok (λ s. string_bytes to.old ++ s) (text_in (names_in scope.now levels) part.now) ≡ Ok (string_bytes to.new)) }
    ensures fault { IfErr result (λ e. e ≢ fault.Memory → text_in (names_in scope.now levels) part.now ≡ Err e) }
{
    match part {
        Part::Plain(text) => Ok(to.push_str(text.as_str())?),
        Part::Code(expr) => append(alloc, to, operand(alloc, scope, levels, expr)),
    }
}

/// The value of a whole expression, measured at its end.
#[cycle(reading)]
#[inline(never)]
#[tactic(auto, unfolding(crate::specs::Rendering::measured))]
pub(crate) fn measured(
    alloc: Global,
    scope: &Scope,
    levels: u32,
    expr: &Expr,
) -> Result<Val, EvalFault>
    ensures value { IfOk result (λ v. measured (names_in scope.now levels) expr.now ≡ Ok v) }
    ensures fault { IfErr result (λ e. e ≢ fault.Memory → measured (names_in scope.now levels) expr.now ≡ Err e) }
{
    within(value(alloc, scope, levels, expr))
}
