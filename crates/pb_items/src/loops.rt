//! What loops go over.
ghost use Rattle.std.specs.Prelude.{◌≡◌, ◌≢◌, IfOk, IfErr, Ok, Err};
ghost use Rattle.std.specs.Option.{option_copied};
ghost use Rattle.pb_items.specs.Loops.{values_in, values_of, root_of, name_by, name_over, loop_variable};
ghost use Rattle.pb_items.specs.declared.fault.ItemFault.TheVariants as item;

use crate::fault::ItemFault;
use pb_expr_eval::eval::render_prepared;
use pb_expr_syntax::fault::ExprFault;
use pb_expr_syntax::tree::{Expr, Form};
use pb_layers::scope::Scope;
use pb_play::loops::Loop;
use pb_prepared::prepared::Prepared;
use pb_template::template::Template;
use pb_value::text::Text;
use pb_value::val::{Dict, Node, Val, ValList};
use std::alloc::{AllocError, Global};

/// How many items a loop may have.
pub const MAX_ITEMS: usize = 10_000;

/// The values of a list that isn't too long.
#[tactic(auto, using(crate::proofs::Listed::of_list))]
fn values_in(over: Val) -> Result<ValList, ItemFault>
    ensures { result ≡ values_in over }
{
    let Node::List(values) = over.into_node() else {
        return Err(ItemFault::LoopNotList);
    };
    if values.len() > MAX_ITEMS {
        return Err(ItemFault::TooManyItems);
    }
    Ok(values)
}

/// The values that a loop goes over: those of a list, or of a text that gives one.
#[tactic(auto, unfolding(crate::specs::Loops::values_of))]
pub(crate) fn values_of(alloc: Global, over: &Prepared, scope: &Scope) -> Result<ValList, ItemFault>
    ensures value { IfOk result (λ vs. values_of scope.now over.now ≡ Ok vs) }
    ensures fault { IfErr result (λ e. e ≢ item.Memory → values_of scope.now over.now ≡ Err e) }
{
    values_in(render_prepared(alloc, over, scope)?)
}

/// The name that an expression's value is found under: it is the value of that name, a part of it, or what filters make of one.
fn root(expr: &Expr) -> Option<&str>
    ensures { option_copied result ≡ root_of expr.now }
{
    match &expr.form {
        Form::Name(name) => Some(name.as_str()),
        Form::Member(x, _) => root(x),
        Form::Index(x, _) => root(x),
        Form::Apply(_, x, _) => root(x),
        Form::Int(_) | Form::Text(_) | Form::Truth(_) | Form::Null => None,
        Form::List(_) | Form::Not(_) | Form::Negate(_) => None,
        Form::Binary(_, _, _) | Form::IsDefined(_, _) => None,
    }
}

/// The name that an expression's value is found under, as a text of its own.
fn root_text(alloc: Global, expr: Option<&Expr>) -> Result<Option<Text>, AllocError>
    ensures { IfOk result (λ name. name ≡ name_by (option_copied expr.entry)) }
{
    let Some(expr) = expr else {
        return Ok(None);
    };
    match root(expr) {
        Some(name) => Ok(Some(Text::from_str(alloc, name)?)),
        None => Ok(None),
    }
}

/// The name among the variables that a loop's list is found under, if the loop is over a text of one expression, which is parsed here.
#[tactic(auto, unfolding(crate::specs::Loops::name_over))]
fn parsed_name(alloc: Global, over: &Val) -> Result<Option<Text>, AllocError>
    ensures { IfOk result (λ name. name ≡ name_over over.now) }
{
    let Node::Text(text) = &over.node else {
        return Ok(None);
    };
    match Template::parse(alloc, text.as_str()) {
        Ok(template) => root_text(alloc, template.single()),
        Err(ExprFault::Memory) => Err(AllocError),
        Err(_) => Ok(None),
    }
}

/// The same of a loop whose text was parsed before.
#[tactic(auto, using(crate::proofs::Listed::name_by_parts))]
pub(crate) fn name_over(alloc: Global, over: &Prepared) -> Result<Option<Text>, AllocError>
    ensures { IfOk result (λ name. name ≡ name_over over.now) }
{
    match over.template() {
        Some(template) => root_text(alloc, template.single()),
        None => parsed_name(alloc, over.value()),
    }
}

/// The loop variable of an item, where its task has a loop.
pub(crate) fn loop_variable(
    alloc: Global,
    looped: &Option<Loop>,
    value: &Option<Val>,
) -> Result<Dict, AllocError>
    ensures { IfOk result (λ d. d ≡ loop_variable looped.now value.now) }
{
    let mut variable = Dict::new(alloc);
    if let (Some(looped), Some(value)) = (looped, value) {
        variable.put(alloc, looped.variable.as_str(), value.try_clone(alloc)?)?;
    }
    Ok(variable)
}
