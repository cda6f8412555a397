//! The banners of plays and tasks, and the lines of what has no result.

ghost use Rattle.std.specs.Prelude.{◌≡◌, ◌++◌, [], IfOk, OnOk};
ghost use Rattle.pb_show.specs.Banners.{batch_text, play_text, task_head, task_text, notice_text, started_text, begun_text};

use crate::line::Line;
use crate::look::Look;
use crate::notices::{Notice, Play, Task};
use pb_value::text::Text;
use std::alloc::{AllocError, Global};

/// Writes which batch of its play it is, from the second on.
fn put_batch(line: &mut Line, alloc: Global, batch: u32) -> Result<(), AllocError>
    ensures { OnOk result (line.new ≡ line.old ++ batch_text batch) }
{
    if batch == 0 {
        return Ok(());
    }
    line.put(" (batch ")?;
    line.put_number(alloc, batch as u64 + 1)?;
    line.put(")")
}

/// The banner of a batch of a play.
#[tactic(auto, unfolding(crate::specs::Banners::play_text))]
pub(crate) fn play_text(alloc: Global, play: &Play) -> Result<Text, AllocError>
    ensures { IfOk result (λ text. text ≡ play_text play.now) }
{
    let mut line = Line::new(alloc);
    line.put("\nPLAY [")?;
    line.put_escaped(play.name.as_str())?;
    line.put("]")?;
    put_batch(&mut line, alloc, play.batch)?;
    let title = line.len();
    line.put_stars(title)?;
    Ok(line.into_text())
}

fn task_head(is_handler: bool) -> &'static str
    ensures { result.now ≡ task_head is_handler }
{
    if is_handler {
        "\nRUNNING HANDLER ["
    } else {
        "\nTASK ["
    }
}

/// Writes the banner of a task or a handler; nothing stands in the line yet.
#[tactic(auto, unfolding(crate::specs::Banners::task_text))]
pub(crate) fn put_task(line: &mut Line, task: &Task) -> Result<(), AllocError>
    requires { line.old ≡ [] }
    ensures { OnOk result (line.new ≡ task_text task.now) }
{
    line.put(task_head(task.is_handler))?;
    line.put_escaped(task.name.as_str())?;
    line.put("]")?;
    let title = line.len();
    line.put_stars(title)
}

/// The line of a handler that was notified.
#[tactic(auto, unfolding(crate::specs::Banners::notice_text))]
pub(crate) fn notice_text(alloc: Global, notice: &Notice) -> Result<Text, AllocError>
    ensures { IfOk result (λ text. text ≡ notice_text notice.now) }
{
    let mut line = Line::new(alloc);
    line.put("notified: [")?;
    line.put_escaped(notice.host.as_str())?;
    line.put("] => ")?;
    line.put_escaped(notice.handler.as_str())?;
    line.put("\n")?;
    Ok(line.into_text())
}

/// The line of a host that starts, where these are shown.
pub(crate) fn started_text(alloc: Global, look: Look, host: &str) -> Result<Text, AllocError>
    ensures { IfOk result (λ text. text ≡ started_text look host.now) }
{
    let mut line = Line::new(alloc);
    if !look.starts {
        return Ok(line.into_text());
    }
    line.put("started: [")?;
    line.put_escaped(host)?;
    line.put("]\n")?;
    Ok(line.into_text())
}

/// The line of a run that starts, where these are shown.
pub(crate) fn begun_text(alloc: Global, look: Look, plays: u64) -> Result<Text, AllocError>
    ensures { IfOk result (λ text. text ≡ begun_text look plays) }
{
    let mut line = Line::new(alloc);
    if !look.starts {
        return Ok(line.into_text());
    }
    line.put("plays: ")?;
    line.put_number(alloc, plays)?;
    line.put("\n")?;
    Ok(line.into_text())
}
