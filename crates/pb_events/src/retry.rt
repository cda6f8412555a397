//! The lines of attempts behind which another one comes.

ghost use Rattle.std.specs.Prelude.{◌≡◌, ◌++◌, IfOk};
ghost use Rattle.pb_events.specs.Lines.{retry_line, retried_text};

use crate::behind::end_shown;
use crate::line::{begin, put_number, put_text};
use crate::site::Site;
use pb_state::Retried;
use std::alloc::AllocError;

/// Adds the line of an attempt that came back, if another one comes behind it.
pub fn retried_text(lines: Vec<u8>, site: &Site) -> Result<Vec<u8>, AllocError>
    ensures { IfOk result (λ bytes. bytes.items ≡ lines.items ++ retried_text site.now.host site.now.path site.now.number site.now.step_result.retried) }
{
    match &site.step_result.retried {
        Some(retried) => retry_line(lines, site, retried),
        None => Ok(lines),
    }
}

/// Adds the line of that attempt: its number, and what came of it.
fn retry_line(lines: Vec<u8>, site: &Site, retried: &Retried) -> Result<Vec<u8>, AllocError>
    ensures { IfOk result (λ bytes. bytes.items ≡ lines.items ++ retry_line site.now.host site.now.path site.now.number retried.now) }
{
    let mut out = begin(lines)?;
    put_number(&mut out, "attempt", retried.attempt)?;
    put_text(&mut out, "event", "runner_retry")?;
    put_text(&mut out, "host", site.host)?;
    end_shown(out, site, &retried.result)
}
