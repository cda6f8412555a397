//! What a run writes of its events, and at its end.

ghost use Rattle.std.specs.Prelude.{◌≡◌, ◌≢◌, length, IfOk, IfErr, OnOk, OnErr};
ghost use Rattle.pb_events.specs.Lines.{start_line};
ghost use Rattle.pb_recap.specs.Recap.{recap};
ghost use Rattle.pb_recap.specs.Stats.{stats_line};
ghost use Rattle.pb_recap.specs.Text.{recap_text};
ghost use Rattle.pb_driver.specs.Taken.{with_more};
ghost use Rattle.pb_driver.specs.Failing.{failures_by};
ghost use Rattle.pb_driver.specs.Output.{end_lines};
ghost use Rattle.pb_driver.specs.Cut.{IsPart};
ghost use Rattle.pb_driver.specs.Driven.{last_lines};

use crate::driver::RunFault;
use crate::line_out::{LineOut, put_all};
use pb_engine::Engine;
use pb_events::{lines_of, start_line};
use pb_recap::Recap;
use std::alloc::Global;

/// Writes the first line.
#[tactic(auto, using(crate::proofs::Cutting::part_none, crate::proofs::Cutting::part_as, crate::proofs::Failing::memory_quiet, crate::proofs::Failing::write_once))]
pub(crate) fn emit_start<W: LineOut>(
    alloc: Global,
    engine: &Engine,
    writer: &mut W,
) -> Result<(), RunFault>
    ensures took { OnOk result (W.taken writer.new ≡ with_more (W.taken writer.old) (start_line (length engine.now.plan.plays))) }
    ensures part { OnErr result (IsPart (W.taken writer.old) (W.taken writer.new) (start_line (length engine.now.plan.plays))) }
    ensures quiet { OnOk result (W.failures writer.new ≡ W.failures writer.old) }
    ensures failed { IfErr result (λ e. W.failures writer.new ≡ failures_by e (W.failures writer.old)) }
    ensures opened { IfErr result (λ e. e ≢ RunFault.Closed) }
{
    let start = start_line(alloc, engine.plan().plays().len() as u32)?;
    put_all(writer, &start)?;
    Ok(())
}

/// Writes the lines of the last event.
#[tactic(auto, using(crate::proofs::Cutting::part_none, crate::proofs::Cutting::part_as, crate::proofs::Failing::memory_quiet, crate::proofs::Failing::write_once))]
pub(crate) fn emit<W: LineOut>(
    alloc: Global,
    engine: &Engine,
    writer: &mut W,
) -> Result<(), RunFault>
    ensures took { OnOk result (W.taken writer.new ≡ with_more (W.taken writer.old) (last_lines engine.now)) }
    ensures part { OnErr result (IsPart (W.taken writer.old) (W.taken writer.new) (last_lines engine.now)) }
    ensures quiet { OnOk result (W.failures writer.new ≡ W.failures writer.old) }
    ensures failed { IfErr result (λ e. W.failures writer.new ≡ failures_by e (W.failures writer.old)) }
    ensures opened { IfErr result (λ e. e ≢ RunFault.Closed) }
{
    if let Some(event) = engine.last() {
        let text = lines_of(alloc, engine.plan(), engine.state(), event)?;
        put_all(writer, &text)?;
    }
    Ok(())
}

/// Writes the line of the statistics.
#[tactic(auto, using(crate::proofs::Cutting::part_none, crate::proofs::Cutting::part_as, crate::proofs::Failing::memory_quiet, crate::proofs::Failing::write_once))]
fn emit_stats<W: LineOut>(
    alloc: Global,
    engine: &Engine,
    recap: &Recap,
    writer: &mut W,
) -> Result<(), RunFault>
    ensures took { OnOk result (W.taken writer.new ≡ with_more (W.taken writer.old) (stats_line engine.now.plan.inventory.hosts recap.now)) }
    ensures part { OnErr result (IsPart (W.taken writer.old) (W.taken writer.new) (stats_line engine.now.plan.inventory.hosts recap.now)) }
    ensures quiet { OnOk result (W.failures writer.new ≡ W.failures writer.old) }
    ensures failed { IfErr result (λ e. W.failures writer.new ≡ failures_by e (W.failures writer.old)) }
    ensures opened { IfErr result (λ e. e ≢ RunFault.Closed) }
{
    let text = recap.stats_line(alloc, engine.plan())?;
    put_all(writer, text.as_bytes())?;
    Ok(())
}

/// Writes the recap.
#[tactic(auto, using(crate::proofs::Cutting::part_none, crate::proofs::Cutting::part_as, crate::proofs::Failing::memory_quiet, crate::proofs::Failing::write_once))]
fn emit_recap<W: LineOut>(
    alloc: Global,
    engine: &Engine,
    recap: &Recap,
    writer: &mut W,
) -> Result<(), RunFault>
    ensures took { OnOk result (W.taken writer.new ≡ with_more (W.taken writer.old) (recap_text engine.now.plan.inventory.hosts recap.now)) }
    ensures part { OnErr result (IsPart (W.taken writer.old) (W.taken writer.new) (recap_text engine.now.plan.inventory.hosts recap.now)) }
    ensures quiet { OnOk result (W.failures writer.new ≡ W.failures writer.old) }
    ensures failed { IfErr result (λ e. W.failures writer.new ≡ failures_by e (W.failures writer.old)) }
    ensures opened { IfErr result (λ e. e ≢ RunFault.Closed) }
{
    let text = recap.text(alloc, engine.plan())?;
    put_all(writer, text.as_bytes())?;
    Ok(())
}

/// Writes the statistics and the recap of a finished run, one behind the other, so that the text of the one is let go before that of the other is made.
#[tactic(auto, using(crate::proofs::Cutting::took_both, crate::proofs::Cutting::part_front))]
fn emit_end<W: LineOut>(
    alloc: Global,
    engine: &Engine,
    recap: &Recap,
    writer: &mut W,
) -> Result<(), RunFault>
    ensures took { OnOk result (W.taken writer.new ≡ with_more (W.taken writer.old) (end_lines engine.now.plan recap.now)) }
    ensures part { OnErr result (IsPart (W.taken writer.old) (W.taken writer.new) (end_lines engine.now.plan recap.now)) }
    ensures quiet { OnOk result (W.failures writer.new ≡ W.failures writer.old) }
    ensures failed { IfErr result (λ e. W.failures writer.new ≡ failures_by e (W.failures writer.old)) }
    ensures opened { IfErr result (λ e. e ≢ RunFault.Closed) }
{
    emit_stats(alloc, engine, recap, writer)?;
    emit_recap(alloc, engine, recap, writer)?;
    Ok(())
}

/// Makes the recap of a finished run, and writes what stands at its end.
#[tactic(auto, using(crate::proofs::Cutting::part_none, crate::proofs::Failing::memory_quiet))]
pub(crate) fn end_run<W: LineOut>(
    alloc: Global,
    engine: &Engine,
    writer: &mut W,
) -> Result<Recap, RunFault>
    ensures recap { IfOk result (λ r. r ≡ recap engine.now.plan engine.now.pool engine.now.trail) }
    ensures took { IfOk result (λ r. W.taken writer.new ≡ with_more (W.taken writer.old) (end_lines engine.now.plan r)) }
    ensures part { OnErr result (IsPart (W.taken writer.old) (W.taken writer.new) (end_lines engine.now.plan (recap engine.now.plan engine.now.pool engine.now.trail))) }
    ensures quiet { OnOk result (W.failures writer.new ≡ W.failures writer.old) }
    ensures failed { IfErr result (λ e. W.failures writer.new ≡ failures_by e (W.failures writer.old)) }
    ensures opened { IfErr result (λ e. e ≢ RunFault.Closed) }
{
    let recap = Recap::of(alloc, engine.state())?;
    emit_end(alloc, engine, &recap, writer)?;
    Ok(recap)
}
