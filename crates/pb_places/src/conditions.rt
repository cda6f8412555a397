//! Conditions that a place has from what stands round its task.
ghost use Rattle.std.specs.Prelude.{◌≡◌, ◌++◌, IfOk};
ghost use Rattle.pb_expr_syntax.specs.Tree.{trees_of};

use pb_expr_syntax::tree::{Expr, ExprList, Form};
use pb_value::items::Items;
use std::alloc::{AllocError, Global};

/// Copies of conditions, and behind them copies of others. The only error is want of memory.
pub fn joined(alloc: Global, outer: &[Expr], own: &[Expr]) -> Result<Items<Expr>, AllocError>
    ensures { IfOk result (λ all. all ≡ outer.now ++ own.now) }
{
    let before = push_copies(alloc, Vec::new(alloc), outer)?;
    let all = push_copies(alloc, before, own)?;
    Ok(Items::from_vec(all))
}

/// The expressions, and behind them copies of others.
fn push_copies(alloc: Global, exprs: Vec<Expr>, more: &[Expr]) -> Result<Vec<Expr>, AllocError>
    ensures { IfOk result (λ all. all.items ≡ exprs.items ++ more.now) }
{
    let mut all = exprs;
    for expr in more {
        all.push(copy(alloc, expr)?)?;
    }
    Ok(all)
}

/// An equal expression of its own.
#[cycle(copy)]
fn copy(alloc: Global, expr: &Expr) -> Result<Expr, AllocError>
    ensures { IfOk result (λ other. other ≡ expr.now) }
{
    let form = match &expr.form {
        Form::Int(number) => Form::Int(*number),
        Form::Text(text) => Form::Text(text.try_clone()?),
        Form::Name(name) => Form::Name(name.try_clone()?),
        Form::Truth(truth) => Form::Truth(*truth),
        Form::Null => Form::Null,
        Form::List(list) => Form::List(copy_list(alloc, list)?),
        Form::Member(of, name) => Form::Member(copy_box(alloc, of)?, name.try_clone()?),
        Form::Index(of, at) => Form::Index(copy_box(alloc, of)?, copy_box(alloc, at)?),
        Form::Not(operand) => Form::Not(copy_box(alloc, operand)?),
        Form::Negate(operand) => Form::Negate(copy_box(alloc, operand)?),
        Form::Binary(op, left, right) => {
            Form::Binary(*op, copy_box(alloc, left)?, copy_box(alloc, right)?)
        }
        Form::Apply(filter, operand, list) => {
            Form::Apply(*filter, copy_box(alloc, operand)?, copy_list(alloc, list)?)
        }
        Form::IsDefined(operand, present) => {
            Form::IsDefined(copy_box(alloc, operand)?, *present)
        }
    };
    Ok(Expr { form })
}

#[cycle(copy)]
fn copy_box(alloc: Global, expr: &Expr) -> Result<Box<Expr>, AllocError>
    ensures { IfOk result (λ other. other.value ≡ expr.now) }
{
    let other = copy(alloc, expr)?;
    Ok(Box::new(alloc, other)?)
}

#[cycle(copy)]
fn copy_list(alloc: Global, list: &ExprList) -> Result<ExprList, AllocError>
    ensures { IfOk result (λ others. others ≡ list.now) }
{
    let mut others = Vec::new(alloc);
    for expr in &list.items {
        others.push(copy(alloc, expr)?)?;
    }
    Ok(ExprList { items: others })
}
