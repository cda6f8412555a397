//! The one call.
ghost use Rattle.std.specs.Prelude.{◌≡◌, ◌≢◌, IfOk, IfErr, Ok, Err};
ghost use Rattle.pb_operators.specs.declared.fault.EvalFault.TheVariants as fault;
ghost use Rattle.pb_conditions.specs.Conditions.{holds};

use pb_expr_eval::eval::eval;
use pb_expr_syntax::tree::Expr;
use pb_layers::scope::Scope;
use pb_operators::fault::EvalFault;
use std::alloc::Global;

/// Whether one condition holds: its value counts as true.
fn is_true(alloc: Global, condition: &Expr, scope: &Scope) -> Result<bool, EvalFault>
    ensures value { IfOk result (λ b. is_true scope.now condition.now ≡ Ok b) }
    ensures fault { IfErr result (λ e. e ≢ fault.Memory → is_true scope.now condition.now ≡ Err e) }
{
    let value = eval(alloc, condition, scope)?;
    Ok(value.truthy())
}

ghost use Rattle.pb_conditions.specs.Conditions.{is_true};

/// Whether each of these conditions holds in a scope, or the first fault: they are read in order, and none behind the first that
/// doesn't hold is looked at. No condition at all holds (Ansible's documentation, "Conditionals").
pub fn holds(alloc: Global, conditions: &[Expr], scope: &Scope) -> Result<bool, EvalFault>
    ensures value { IfOk result (λ b. holds scope.now conditions.now ≡ Ok b) }
    ensures fault { IfErr result (λ e. e ≢ fault.Memory → holds scope.now conditions.now ≡ Err e) }
{
    for condition in conditions {
        if !is_true(alloc, condition, scope)? {
            return Ok(false);
        }
    }
    Ok(true)
}
