//! What a worker's thread does.
ghost use Rattle.std.specs.Prelude.{◌≡◌};
ghost use Rattle.pb_forks.specs.Seats.{fork_view, IsForkOf, IsSameFork};
ghost use Rattle.pb_runner.specs.Served.{HasServed, report_of};

use crate::runner::Runner;
use pb_forks::{ForkSeat, Pool};
use pb_outcome::job::{Job, Report};
use pb_outcome::outcome::Outcome;
use std::alloc::Global;
use std::sync::Wait;

/// The report of a job, of which this came.
fn report_of(job: &Job, outcome: Outcome) -> Report
    ensures { result ≡ report_of (job.now, outcome) }
{
    Report {
        ticket: job.ticket,
        host: job.host,
        item: job.item,
        attempt: job.attempt,
        outcome,
    }
}

/// Runs the jobs that are offered to a fork, one after another, and answers each, until the fork is shut. The runner runs
/// exactly the jobs that the seat takes, and what it answers is what came of them.
#[tactic(auto, using(crate::proofs::Serving::served_none, crate::proofs::Serving::served_one, crate::proofs::Serving::served_shut))]
pub fn serve<N: Runner, R: Wait>(
    rt: &R,
    alloc: Global,
    pool: &Pool<N>,
    mut seat: ForkSeat,
    runner: &mut N,
) -> ForkSeat
    requires { IsForkOf pool.now seat }
    ensures seat { IsSameFork seat result }
    ensures shut { (fork_view result).seen ≡ 4 }
    ensures served { HasServed N.ran runner.old runner.new (fork_view seat) (fork_view result) }
{
    for _ in rt.forever() {
        let Some(job) = pool.wait_offer(rt, &mut seat) else {
            return seat;
        };
        let outcome = runner.run(alloc, &job);
        pool.answer(&mut seat, report_of(&job, outcome));
    }
    unreachable!()
}
