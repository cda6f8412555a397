//! The longest texts that are taken, and those that are one longer.

use crate::repeated::repeated;
use pb_expr_eval::eval::eval;
use pb_expr_syntax::tree::Expr;
use pb_layers::layers::{Layers, Magic};
use pb_layers::lent::Merged;
use pb_layers::scope::Scope;
use pb_operators::fault::EvalFault;
use pb_value::text::Text;
use pb_value::val::{Dict, Val};
use std::alloc::{AllocError, Global};
use std::test::Fail;

/// Layers of which the play's alone has variables.
fn layers_of<'a>(none: &'a Dict, play_variables: &'a Dict) -> Layers<'a> {
    let group_variables = Merged::Kept(none);
    Layers {
        role_defaults: none,
        group_variables,
        host_variables: none,
        host_facts: none,
        play_variables,
        role_variables: none,
        block_variables: none,
        task_variables: none,
        set_facts: none,
        role_parameters: none,
        extra_variables: none,
        plain: "",
    }
}

/// The fault of an expression in these layers, if it has one.
fn fault_in<'a>(
    alloc: Global,
    layers: &'a Layers<'_>,
    magic: &'a Magic<'a>,
    none: &'a Dict,
    expr: &Expr,
) -> Option<EvalFault> {
    match eval(alloc, expr, &Scope::new(layers, magic, none)) {
        Ok(_) => None,
        Err(fault) => Some(fault),
    }
}

/// The fault of an expression, if it has one, where only a play has variables.
fn fault_of(alloc: Global, variables: &Dict, expr: &Expr) -> Option<EvalFault> {
    let none = Dict::new(alloc);
    let layers = layers_of(&none, variables);
    let magic = Magic {
        host: None,
        play: &none,
        plan: &none,
        hosts: &none,
    };
    fault_in(alloc, &layers, &magic, &none, expr)
}

/// One variable, `t`, a text of so many letters.
fn letters(alloc: Global, count: u32) -> Result<Dict, AllocError> {
    let mut known = Dict::new(alloc);
    let text = repeated(alloc, "a", count)?;
    known.insert(
        String::from_str(alloc, "t")?,
        Val::text(Text::from_string(text)),
    )?;
    Ok(known)
}

/// Whether an expression is too large where `t` has so many letters, and has no fault else.
fn is_too_large(rt: &HostRuntime, text: &str, count: u32) -> Result<bool, Fail> {
    let known = letters(rt.alloc(), count)?;
    let Ok(expr) = Expr::parse(rt.alloc(), text) else {
        return Err(Fail::new("an expression"));
    };
    match fault_of(rt.alloc(), &known, &expr) {
        None => Ok(false),
        Some(EvalFault::TooLarge) => Ok(true),
        Some(_) => Err(Fail::new("another fault")),
    }
}

#[test]
fn longest_texts(rt: HostRuntime) -> Result<(), Fail> {
    assert!(rt; !is_too_large(&rt, "t", 1_048_576)?);
    assert!(rt; is_too_large(&rt, "t", 1_048_577)?);
    assert!(rt; !is_too_large(&rt, "t ~ 'b'", 1_048_575)?);
    assert!(rt; is_too_large(&rt, "t ~ 'b'", 1_048_576)?);
    Ok(())
}
