//! The warnings of a plan.

ghost use Rattle.std.specs.Prelude.{◌≡◌, ◌++◌, IfOk, OnErr, string_bytes};
ghost use Rattle.pb_cli.specs.Played.{is_forbidden};
ghost use Rattle.pb_cli.specs.Warned.{ended, warning_text, IsWarned};
ghost use Rattle.pb_cli.specs.World.{stream_of, IsQuiet};

use crate::playing::Wanted;
use pb_driver::{LineOut, put_all};
use pb_state::Plan;
use pb_value::text::Text;
use std::alloc::{AllocError, Global};

/// Writes the warnings of a plan, a line each. That they can't be written changes nothing.
pub(crate) fn warn<E: LineOut>(alloc: Global, plan: &Plan, err: &mut E) -> Result<(), AllocError>
    ensures warned { IfOk result (λ _. IsWarned plan.now.warnings (stream_of E.LineOut err.old) (stream_of E.LineOut err.new)) }
    ensures quiet { OnErr result (IsQuiet (stream_of E.LineOut err.old) (stream_of E.LineOut err.new)) }
{
    let text = warning_text(alloc, plan.warnings())?;
    let _ = put_all(err, text.as_bytes());
    Ok(())
}

/// The lines, each with a line end.
fn warning_text(alloc: Global, lines: &[Text]) -> Result<String, AllocError>
    ensures { IfOk result (λ text. string_bytes text ≡ warning_text lines.now) }
{
    let mut text = String::new(alloc);
    for line in lines {
        push_line(&mut text, line)?;
    }
    Ok(text)
}

fn push_line(text: &mut String, line: &Text) -> Result<(), AllocError>
    ensures { IfOk result (λ _. string_bytes text.new ≡ string_bytes text.old ++ ended line.now) }
{
    text.push_str(line.as_str())?;
    text.push('\n')?;
    Ok(())
}

/// Whether there is a warning, and warnings are faults.
pub(crate) fn is_forbidden(wanted: &Wanted, plan: &Plan) -> bool
    ensures { result ≡ is_forbidden wanted.now plan.now }
{
    wanted.strict && !plan.warnings().is_empty()
}
