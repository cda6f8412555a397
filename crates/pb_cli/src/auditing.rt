//! What is said of a trail that is looked at.

ghost use Rattle.std.specs.Prelude.{◌≡◌, IfOk, string_bytes};
ghost use Rattle.pb_cli.specs.Audited.{illegal_text, IsVerdict};

use crate::listing::push_number;
use pb_audit::{AuditFault, EventName, audit};
use pb_state::{Event, Plan};
use std::alloc::{AllocError, Global};

/// The exit status where a trail is a legal run.
const LEGAL: u8 = 0;

/// The exit status where it is none.
const ILLEGAL: u8 = 2;

/// The line that tells of the first step that isn't legal.
fn illegal_text(alloc: Global, step: usize, name: EventName) -> Result<String, AllocError>
    ensures { IfOk result (λ text. string_bytes text ≡ illegal_text step name) }
{
    let mut text = String::from_str(alloc, "illegal: step ")?;
    push_number(alloc, &mut text, step as u64)?;
    text.push_str(", ")?;
    text.push_str(name.word())?;
    text.push('\n')?;
    Ok(text)
}

/// What is said of a trail, and the exit status.
pub(crate) fn verdict(
    alloc: Global,
    plan: &Plan,
    trail: &[Event],
) -> Result<(String, u8), AllocError>
    ensures { IfOk result (λ said. IsVerdict plan.now trail.now (string_bytes said.0) said.1) }
{
    match audit(alloc, plan, trail) {
        Ok(()) => Ok((String::from_str(alloc, "legal\n")?, LEGAL)),
        Err(AuditFault::Illegal { step, rule }) => {
            Ok((illegal_text(alloc, step, rule)?, ILLEGAL))
        }
        Err(AuditFault::Memory) => Err(AllocError),
    }
}
