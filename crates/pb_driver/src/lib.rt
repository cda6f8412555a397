//! Runs a plan to its end, and writes the lines of its run.
//!
//! For the layer above: `run_plain` answers Ok only with a legal, eager trail that does nothing twice, ends in a finished
//! state and isn't stuck there: the run was stopped or ended early, or no batch is open and none is left to open. What the
//! writer took is that trail's output and nothing else, what the runner ran is exactly the jobs of that trail's reports, in their
//! order, and the recap and the exit status are those of that trail. A run is commanded to stop, or to run another number of hosts at
//! once, by commands that are given with the number of reports behind which each is due: they stand there in the trail, and nowhere else.
//! `drive` says the same of a run whose jobs go to the forks of a pool, and `run_pool` of one with a thread for each runner: there each report answers
//! a job that was out, which need not be the oldest, and what went to the runners and came from them is the trail's sends and reports, in its order.
//! Each says beside its recap what facts and counts its trail ends in where what comes of its jobs is fixed. `same_end` takes two trails, under any forks, and tells
//! the first host that they leave with other facts or counts.
//! `LineOut` is where lines go.
#![tactic(auto)]

ghost use Rattle.pb_driver.specs.ByTable.{TablesFixOutcomes};
ghost use Rattle.pb_driver.specs.Obedient.{CommandsStandBehindReports};
ghost use Rattle.pb_driver.specs.Written.{LinesStandBehindEvents};

mod alone;
mod comparing;
mod crew;
mod driver;
mod emitting;
mod given;
mod line_out;
mod pooled;
mod threads;
mod workers;

pub use comparing::same_end;
pub use driver::{Ended, RunFault, run_plain};
pub use given::Given;
pub use line_out::{Failed, LineOut, Printed, Silent, put_all};
pub use pb_engine::{
    Command, CommandFault, Engine, Lowest, Next, Picker, Refusal, RoundRobin, runs_keep_laws,
};
pub use pb_recap::{CountKind, Recap};
pub use pooled::drive;
pub use threads::run_pool;

/// What holds of every whole run: the commands that stand in its trail are some of those that it was given, in their order, and each
/// stands directly behind a report, behind another command, or at the beginning.
#[tactic(auto, using(crate::proofs::Obedience::commands_stand_behind_reports))]
pub fn commands_stand_behind_reports()
    ensures { CommandsStandBehindReports }
{}

/// What holds of the output of every trail: behind the first line stand the lines of the events, each directly behind those of the events before it, and no
/// other line; then come the statistics and the recap. Where a run couldn't go on, the lines of all events but the last were written.
pub fn lines_stand_behind_events()
    ensures { LinesStandBehindEvents }
{
    pb_events::events_have_lines();
}

/// What holds of every run by a table of outcomes: what comes of each job is fixed, by what the table gives for it, if no memory was refused for that. So what
/// `EndsAsFixed` (pb_laws) says of runs under fixed outcomes holds of it with no premise left but the plan's.
#[tactic(auto, using(crate::proofs::ByTable::tables_fix_outcomes))]
pub fn tables_fix_outcomes()
    ensures { TablesFixOutcomes }
{}
