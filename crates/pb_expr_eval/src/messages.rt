//! What a result says of a fault.
ghost use Rattle.std.specs.Prelude.{◌≡◌, IfOk};
ghost use Rattle.pb_expr_eval.specs.Messages.{message_of};

use pb_operators::fault::EvalFault;
use pb_value::text::Text;
use std::alloc::{AllocError, Global};

/// What the result of an item says of an expression or template that has no value.
pub fn fault_message(alloc: Global, fault: &EvalFault) -> Result<Text, AllocError>
    ensures { IfOk result (λ t. t ≡ message_of fault.now) }
{
    match fault {
        EvalFault::Undefined { name } => {
            let message = format!(in alloc; "'{name}' is undefined")?;
            Ok(Text::from_string(message))
        }
        EvalFault::WrongKind => Text::from_str(alloc, "wrong kind of value"),
        EvalFault::Overflow => Text::from_str(alloc, "number out of range"),
        EvalFault::TooLarge => Text::from_str(alloc, "value too large"),
        EvalFault::Memory => Text::from_str(alloc, "out of memory"),
        EvalFault::BadTemplate => Text::from_str(alloc, "bad template"),
    }
}
