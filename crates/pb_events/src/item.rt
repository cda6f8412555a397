//! The lines of the items of a loop.

ghost use Rattle.std.specs.Prelude.{◌≡◌, ◌++◌, IfOk};
ghost use Rattle.pb_events.specs.Items.{item_event, item_end, item_line, item_lines};

use crate::behind::end_shown;
use crate::line::{begin_host, put_number};
use crate::site::Site;
use pb_outcome::gather::{Ending, ItemResult};
use pb_value::val::Val;
use std::alloc::{AllocError, Global};

/// Room for the line of most items.
const ROOM: usize = 256;

/// The name of the event of an item that ended in this way.
fn item_event(ending: Ending) -> &'static str
    ensures { result.now ≡ item_event ending }
{
    if ending.is_failed() {
        "runner_item_on_failed"
    } else if ending.is_skipped() {
        "runner_item_on_skipped"
    } else {
        "runner_item_on_ok"
    }
}

/// Adds the line of an item's end.
fn item_end(
    lines: Vec<u8>,
    site: &Site,
    event: &str,
    number: u32,
    shown: &Val,
) -> Result<Vec<u8>, AllocError>
    ensures { IfOk result (λ bytes. bytes.items ≡ lines.items ++ item_end event.now site.now.host site.now.path site.now.number number shown.now) }
{
    let mut out = begin_host(lines, event, site.host)?;
    put_number(&mut out, "item", number)?;
    end_shown(out, site, shown)
}

/// Adds the line of an item of a loop; none of one that found its host out of reach.
fn item_line(
    lines: Vec<u8>,
    site: &Site,
    number: u32,
    item: &ItemResult,
) -> Result<Vec<u8>, AllocError>
    ensures { IfOk result (λ bytes. bytes.items ≡ lines.items ++ item_line site.now.host site.now.path site.now.number number item.now) }
{
    if item.ending.is_unreachable() {
        return Ok(lines);
    }
    item_end(lines, site, item_event(item.ending), number, &item.result)
}

/// Adds the lines of the items of a loop that ended, in order. Each is written by itself: a writer fills as much memory ahead as there is before it.
pub fn item_lines(
    alloc: Global,
    lines: Vec<u8>,
    site: &Site,
    results: &[(u32, ItemResult)],
) -> Result<Vec<u8>, AllocError>
    ensures { IfOk result (λ bytes. bytes.items ≡ lines.items ++ item_lines site.now.host site.now.path site.now.number results.now) }
{
    let mut all = lines;
    for (number, item) in results {
        let line = Vec::with_capacity(alloc, ROOM)?;
        let more = item_line(line, site, *number, item)?;
        all.extend_from_slice(more.as_slice())?;
    }
    Ok(all)
}
