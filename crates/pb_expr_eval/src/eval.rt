//! The public calls.
ghost use Rattle.std.specs.Prelude.{◌≡◌, ◌≢◌, IfOk, IfErr, Ok, Err};
ghost use Rattle.pb_operators.specs.Values.{finished};
ghost use Rattle.pb_operators.specs.declared.fault.EvalFault.TheVariants as fault;
ghost use Rattle.pb_value.specs.Reading.{and_then};
ghost use Rattle.pb_expr_eval.specs.Scoped.{eval_of, render_of, rendered_of};

use crate::reading::{measured, rendered, rendered_parts};
use pb_expr_syntax::tree::Expr;
use pb_layers::scope::Scope;
use pb_operators::fault::EvalFault;
use pb_operators::operators::finished;
use pb_prepared::prepared::Prepared;
use pb_template::template::Template;
use pb_value::val::Val;
use std::alloc::Global;

/// The most look-ups inside one another.
pub const MAX_LOOK_UPS: u32 = 16;

/// The value of an expression in a scope, or its first fault: operands are read from left to right,
/// and what isn't needed isn't read. The value nests at most 64 levels, and is a text of at most
/// 1 MiB ("Using variables" and "Templating (Jinja2)" of Ansible's documentation).
#[tactic(auto, unfolding(crate::specs::Scoped::eval_of))]
pub fn eval(alloc: Global, expr: &Expr, scope: &Scope) -> Result<Val, EvalFault>
    ensures value { IfOk result (λ v. eval_of scope.now expr.now ≡ Ok v) }
    ensures fault { IfErr result (λ e. e ≢ fault.Memory → eval_of scope.now expr.now ≡ Err e) }
{
    measured(alloc, scope, MAX_LOOK_UPS, expr)
}

/// What a template gives in a scope, or its first fault: the value itself of a single expression,
/// else the texts of its parts in one. Each expression has the limits of `eval`; the whole text is measured when all parts
/// are read.
#[tactic(auto, unfolding(crate::specs::Scoped::render_of))]
pub fn render(alloc: Global, template: &Template, scope: &Scope) -> Result<Val, EvalFault>
    ensures value { IfOk result (λ v. render_of scope.now template.now.parts ≡ Ok v) }
    ensures fault { IfErr result (λ e. e ≢ fault.Memory → render_of scope.now template.now.parts ≡ Err e) }
{
    rendered_parts(alloc, scope, MAX_LOOK_UPS, template.parts.as_slice())
}

/// A value with its texts rendered, in lists and dicts too, or its first fault, with the limits of
/// `eval`. Names of dicts are no templates.
#[tactic(auto, unfolding(crate::specs::Scoped::rendered_of))]
pub fn render_value(alloc: Global, value: &Val, scope: &Scope) -> Result<Val, EvalFault>
    ensures value { IfOk result (λ v. rendered_of scope.now value.now ≡ Ok v) }
    ensures fault { IfErr result (λ e. e ≢ fault.Memory → rendered_of scope.now value.now ≡ Err e) }
{
    match rendered(alloc, scope, MAX_LOOK_UPS, value) {
        Ok(value) => finished(value),
        Err(fault) => Err(fault),
    }
}

/// What the parts of a template give, measured at the end.
fn whole(alloc: Global, template: &Template, scope: &Scope) -> Result<Val, EvalFault>
    ensures value { IfOk result (λ v. and_then (render_of scope.now template.now.parts) finished ≡ Ok v) }
    ensures fault { IfErr result (λ e. e ≢ fault.Memory → and_then (render_of scope.now template.now.parts) finished ≡ Err e) }
{
    match render(alloc, template, scope) {
        Ok(value) => finished(value),
        Err(fault) => Err(fault),
    }
}

/// What a prepared value gives, as `render_value` gives it: a text that was parsed isn't parsed again.
#[tactic(auto, using(crate::proofs::Whole::of_parts))]
pub fn render_prepared(alloc: Global, prepared: &Prepared, scope: &Scope) -> Result<Val, EvalFault>
    ensures value { IfOk result (λ v. rendered_of scope.now prepared.now ≡ Ok v) }
    ensures fault { IfErr result (λ e. e ≢ fault.Memory → rendered_of scope.now prepared.now ≡ Err e) }
{
    match prepared.template() {
        Some(template) => whole(alloc, template, scope),
        None => render_value(alloc, prepared.value(), scope),
    }
}
