//! The forms of expressions that ask of their operands no more than their values.
ghost use Rattle.std.specs.Prelude.{◌≡◌, ◌≢◌, IfOk, IfErr, Ok, Err};
ghost use Rattle.pb_operators.specs.declared.fault.EvalFault.TheVariants as fault;
ghost use Rattle.pb_expr_eval.specs.Value.{short_circuits, apply};

use pb_expr_syntax::tree::{Filter, Op};
use pb_operators::convert::{length, to_bool, to_int};
use pb_operators::fault::EvalFault;
use pb_operators::join::join;
use pb_value::text::Text;
use pb_value::val::Val;
use std::alloc::Global;

/// Whether an operator's first operand alone is its value.
pub(crate) fn short_circuits(op: Op, x: &Val) -> bool
    ensures { result ≡ short_circuits op x.now }
{
    match op {
        Op::And => !x.truthy(),
        Op::Or => x.truthy(),
        _ => false,
    }
}

/// What a filter but `default` gives for a value and its arguments.
pub(crate) fn apply(alloc: Global, filter: Filter, x: &Val, args: &[Val]) -> Result<Val, EvalFault>
    ensures value { IfOk result (λ v. apply filter x.now args.now ≡ Ok v) }
    ensures fault { IfErr result (λ e. e ≢ fault.Memory → apply filter x.now args.now ≡ Err e) }
{
    match (filter, args) {
        (Filter::Length, []) => length(x),
        (Filter::Bool, []) => Ok(Val::boolean(to_bool(x))),
        (Filter::Int, []) => Ok(Val::int(to_int(x))),
        (Filter::Join, []) => join(alloc, x, &Val::text(Text::new(alloc))),
        (Filter::Join, [between]) => join(alloc, x, between),
        _ => Err(EvalFault::WrongKind),
    }
}
