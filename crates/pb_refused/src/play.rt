//! The play of a row.

use crate::by_hand::play_by_hand;
use crate::kept::Kept;
use crate::rows::{Row, Way};
use crate::worker::workers;
use pb_driver::{Ended, Lowest, RunFault, run_plain, run_pool};
use pb_roles::{RoleFile, RoleFiles};
use pb_runner::fault::TableFault;
use pb_runner::table::TableRunner;
use pb_state::{Bundle, BundleFault, Event, Plan};
use pb_value::items::Items;
use pb_value::text::Text;
use std::alloc::{AllocError, Global};
use std::sync::Wait;
use std::thread::Threads;
use thiserror::Error;

/// Why no run began.
#[derive(Debug, Drop, Error)]
pub enum NotBegun {
    /// The texts couldn't be copied, or no engine could be made.
    #[error("Memory")]
    Memory,
    /// The bundle makes no plan.
    #[error("{0}")]
    Bundle(BundleFault),
    /// The outcomes are no table.
    #[error("{0}")]
    Table(TableFault),
    /// There are fewer workers than forks.
    #[error("TooFewWorkers")]
    TooFewWorkers,
}

impl From<AllocError> for NotBegun {
    ghost use Rattle.std.specs.Prelude.{◌≡◌};
    ghost use Rattle.pb_refused.specs.declared.play.NotBegun.TheVariants.{Memory};

    ghost from_gives = { λ _ e. e ≡ Memory };

    fn from(_: AllocError) -> NotBegun {
        NotBegun::Memory
    }
}

/// Why a run broke off.
#[derive(Clone, Copy)]
pub enum Break {
    /// Memory was refused.
    Memory,
    /// A worker couldn't be started.
    Closed,
    /// None of these.
    Other,
}

/// A run that began: its events, and why it broke off where it did.
#[derive(Drop)]
pub struct Run {
    pub trail: Vec<Event>,
    pub fault: Option<Break>,
}

fn bytes_of(alloc: Global, text: &str) -> Result<Items<u8>, AllocError> {
    Ok(Items::from_vec(text.as_bytes().to_vec(alloc)?))
}

fn some_text_of(alloc: Global, text: Option<&str>) -> Result<Option<Text>, AllocError> {
    match text {
        Some(text) => Ok(Some(Text::from_str(alloc, text)?)),
        None => Ok(None),
    }
}

/// The tasks of the one role that rows use.
fn roles_of(alloc: Global, tasks: Option<&str>) -> Result<RoleFiles, AllocError> {
    let mut files = Items::new(alloc);
    if let Some(tasks) = tasks {
        files.push(RoleFile {
            path: Text::from_str(alloc, "site/tasks/main.json")?,
            bytes: bytes_of(alloc, tasks)?,
        })?;
    }
    Ok(RoleFiles { files })
}

fn bundle_of(alloc: Global, row: &Row) -> Result<Bundle, AllocError> {
    Ok(Bundle {
        inventory: bytes_of(alloc, row.inventory)?,
        playbook: bytes_of(alloc, row.playbook)?,
        limit: some_text_of(alloc, row.limit)?,
        extra: some_text_of(alloc, row.extra)?,
        roles: roles_of(alloc, row.role)?,
        forks: row.forks(),
        has_facts_program: true,
    })
}

fn plan_of(alloc: Global, row: &Row) -> Result<Plan, NotBegun> {
    let bundle = bundle_of(alloc, row)?;
    match Plan::of(alloc, &bundle) {
        Ok(plan) => Ok(plan),
        Err(fault) => Err(NotBegun::Bundle(fault)),
    }
}

/// The runner of the row's outcomes.
fn table_of(alloc: Global, row: &Row) -> Result<TableRunner, NotBegun> {
    match TableRunner::read(alloc, row.outcomes.as_bytes()) {
        Ok(runner) => Ok(runner),
        Err(fault) => Err(NotBegun::Table(fault)),
    }
}

/// What a driver left of a run.
fn run_of(ended: Result<Ended, (RunFault, Vec<Event>)>) -> Run {
    match ended {
        Ok(ended) => {
            let Ended {
                trail,
                recap,
                status: _,
            } = ended;
            drop(recap);
            Run { trail, fault: None }
        }
        Err((fault, trail)) => {
            let fault = match fault {
                RunFault::Memory => Break::Memory,
                RunFault::Write => Break::Other,
                RunFault::Closed => Break::Closed,
            };
            Run {
                trail,
                fault: Some(fault),
            }
        }
    }
}

fn play_plain(alloc: Global, row: &Row, out: &mut Kept) -> Result<Run, NotBegun> {
    let plan = plan_of(alloc, row)?;
    let mut runner = table_of(alloc, row)?;
    Ok(run_of(run_plain(alloc, plan, &mut runner, &mut Lowest, &[], out)))
}

fn play_in_pool<R: Threads + Wait + Sync>(
    rt: &R,
    alloc: Global,
    row: &Row,
    count: u32,
    out: &mut Kept,
) -> Result<Run, NotBegun> {
    let plan = plan_of(alloc, row)?;
    let mut runners = workers(alloc, count)?;
    if runners.len() > 256 || plan.forks() as usize > runners.len() {
        return Err(NotBegun::TooFewWorkers);
    }
    Ok(run_of(run_pool(rt, alloc, plan, &mut runners, Lowest, &[], out)))
}

/// Plays a row from its texts, with its lines on the writer, where it isn't played by hand.
pub fn play<R: Threads + Wait + Sync>(
    rt: &R,
    alloc: Global,
    row: &Row,
    out: &mut Kept,
) -> Result<Run, NotBegun> {
    match row.way {
        Way::Plain => play_plain(alloc, row, out),
        Way::Pool(count) => play_in_pool(rt, alloc, row, count, out),
        Way::ByHand => {
            let plan = plan_of(alloc, row)?;
            let runner = table_of(alloc, row)?;
            play_by_hand(alloc, plan, runner)
        }
    }
}
