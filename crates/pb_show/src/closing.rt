//! The line at the end, which says how the run went.

ghost use Rattle.std.specs.Prelude.{◌≡◌, ◌++◌, IfOk, OnOk};
ghost use Rattle.pb_show.specs.Closing.{hosts_text, first_text, failed_text, lost_text, between, stopped_text, outcome_text, outcome_line, over_text, ending_at, closing_line, closing};

use crate::ended::Ending;
use crate::line::Line;
use crate::look::Look;
use crate::notices::Totals;
use crate::showing::{Failure, Phase, Showing};
use pb_value::text::Text;
use std::alloc::{AllocError, Global};

/// Writes how many hosts there are.
fn put_hosts(line: &mut Line, alloc: Global, hosts: u64) -> Result<(), AllocError>
    ensures { OnOk result (line.new ≡ line.old ++ hosts_text hosts) }
{
    line.put_number(alloc, hosts)?;
    line.put(if hosts == 1 { " host" } else { " hosts" })
}

/// Writes which failure was the first, if there was one.
fn put_first(line: &mut Line, first: &Option<Failure>) -> Result<(), AllocError>
    ensures { OnOk result (line.new ≡ line.old ++ first_text first.now) }
{
    match first {
        Some(failure) => {
            line.put(", first failure: [")?;
            line.put_escaped(failure.host.as_str())?;
            line.put("] in [")?;
            line.put_escaped(failure.task.as_str())?;
            line.put("]")
        }
        None => Ok(()),
    }
}

/// Writes how many hosts failed, where some did.
fn put_failed(
    line: &mut Line,
    alloc: Global,
    failed: u64,
    first: &Option<Failure>,
) -> Result<(), AllocError>
    ensures { OnOk result (line.new ≡ line.old ++ failed_text failed first.now) }
{
    if failed == 0 {
        return Ok(());
    }
    put_hosts(line, alloc, failed)?;
    line.put(" failed")?;
    put_first(line, first)
}

/// Writes how many hosts are out of reach, where some are.
fn put_lost(line: &mut Line, alloc: Global, lost: u64) -> Result<(), AllocError>
    ensures { OnOk result (line.new ≡ line.old ++ lost_text lost) }
{
    if lost == 0 {
        return Ok(());
    }
    put_hosts(line, alloc, lost)?;
    line.put(" out of reach")
}

/// What stands between the hosts that failed and those that are out of reach.
fn between(totals: Totals) -> &'static str
    ensures { result.now ≡ between totals }
{
    if totals.failed > 0 && totals.unreachable > 0 {
        "; "
    } else {
        ""
    }
}

/// Writes how a run went that has its statistics.
fn put_over(
    line: &mut Line,
    alloc: Global,
    totals: Totals,
    first: &Option<Failure>,
) -> Result<(), AllocError>
    ensures { OnOk result (line.new ≡ line.old ++ over_text totals first.now) }
{
    if totals.failed == 0 && totals.unreachable == 0 {
        line.put("all well: ")?;
        return put_hosts(line, alloc, totals.hosts);
    }
    put_failed(line, alloc, totals.failed, first)?;
    line.put(between(totals))?;
    put_lost(line, alloc, totals.unreachable)
}

/// The colour of the line.
fn ending_at(phase: Phase) -> Ending
    ensures { result ≡ ending_at phase }
{
    match phase {
        Phase::Over(totals) if totals.failed == 0 && totals.unreachable == 0 => Ending::Well,
        _ => Ending::Failed,
    }
}

/// Writes that a run has no end here.
#[tactic(auto, unfolding(crate::specs::Closing::stopped_text))]
fn put_stopped(line: &mut Line, first: &Option<Failure>) -> Result<(), AllocError>
    ensures { OnOk result (line.new ≡ line.old ++ stopped_text first.now) }
{
    line.put("the run was stopped before its end")?;
    put_first(line, first)
}

/// Writes how the run went.
fn put_outcome(
    line: &mut Line,
    alloc: Global,
    phase: Phase,
    first: &Option<Failure>,
) -> Result<(), AllocError>
    ensures { OnOk result (line.new ≡ line.old ++ outcome_text phase first.now) }
{
    match phase {
        Phase::Over(totals) => put_over(line, alloc, totals, first),
        Phase::Going => put_stopped(line, first),
        Phase::Nothing => Ok(()),
    }
}

/// Writes how the run went in a line of its own, below an empty one.
#[tactic(auto, unfolding(crate::specs::Closing::outcome_line))]
fn put_line(
    line: &mut Line,
    alloc: Global,
    look: Look,
    phase: Phase,
    first: &Option<Failure>,
) -> Result<(), AllocError>
    ensures { OnOk result (line.new ≡ line.old ++ outcome_line look phase first.now) }
{
    line.put("\n")?;
    line.put(look.paint(ending_at(phase)))?;
    put_outcome(line, alloc, phase, first)?;
    line.put(look.unpaint())?;
    line.put("\n")
}

/// Writes the line at the end; none where no event was shown.
fn put_closing(
    line: &mut Line,
    alloc: Global,
    look: Look,
    phase: Phase,
    first: &Option<Failure>,
) -> Result<(), AllocError>
    ensures { OnOk result (line.new ≡ line.old ++ closing_line look phase first.now) }
{
    match phase {
        Phase::Nothing => Ok(()),
        Phase::Going | Phase::Over(_) => put_line(line, alloc, look, phase, first),
    }
}

impl Showing {
    /// What stands behind all lines: how the run went, where an event was shown. A line end comes before it where the last line
    /// lacks its own.
    pub fn closing(&self, alloc: Global, look: Look) -> Result<Text, AllocError>
        ensures { IfOk result (λ text. text ≡ closing look self.now) }
    {
        let mut line = Line::new(alloc);
        line.put(if self.is_torn { "\n" } else { "" })?;
        put_closing(&mut line, alloc, look, self.phase, &self.first)?;
        Ok(line.into_text())
    }
}
