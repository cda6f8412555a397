//! A runner in this thread, which runs the oldest of the jobs that are out.

ghost use Rattle.std.specs.Prelude.{◌≡◌, [], ◌∷◌, Some, None, IfOk, OnErr, true};
ghost use Rattle.std.specs.List.{list_any};
ghost use Rattle.pb_outcome.specs.declared.job.Job.{Job};
ghost use Rattle.pb_host.specs.Runs.{is_out};
ghost use Rattle.pb_state.specs.Jobs.{job_of};
ghost use Rattle.pb_engine.specs.EngineOf.{IsSound};
ghost use Rattle.pb_engine.specs.Refusals.{refusal_of};
ghost use Rattle.pb_driver.specs.Crews.{GivesSame, HasRunMail, run_none, run_more};
ghost use Rattle.pb_driver.specs.Driven.{IsAnswer};
ghost use Rattle.pb_driver.specs.Mails.{Comes};

use crate::crew::Crew;
use pb_engine::Engine;
use pb_outcome::job::{Job, Report};
use pb_runner::runner::Runner;
use std::alloc::{AllocError, Global};
use std::snapshot::Snapshot;

/// The runner as it was before its run. It has no bytes.
#[derive(Drop)]
pub(crate) struct Alone<R> {
    pub first: Snapshot<R>,
}

/// Runs the oldest of the jobs that are out.
#[tactic(auto, using(crate::proofs::Driving::oldest_found, crate::proofs::Driving::job_found, crate::proofs::Driving::oldest_waits))]
fn run_oldest<R: Runner>(
    alloc: Global,
    engine: &Engine,
    runner: &mut R,
) -> Result<Report, AllocError>
    requires sound { IsSound engine.now }
    requires out { list_any is_out engine.now.state.rows ≡ true }
    ensures answers { IfOk result (λ r. IsAnswer R.allows (R.gives runner.old) engine.now.plan engine.now.state r) }
    ensures waits { IfOk result (λ r. refusal_of engine.now.state r ≡ None) }
    ensures same { GivesSame R.gives runner.old runner.new }
    ensures ran { IfOk result (λ r. (job : Job) × (job_of engine.now.plan engine.now.state r.host r.ticket ≡ Some job) × R.ran runner.old ((job, r.outcome) ∷ []) runner.new) }
    ensures none { OnErr result (runner.new ≡ runner.old) }
{
    let Some((host, ticket)) = engine.state().oldest_out() else {
        unreachable!()
    };
    let Some(job) = engine.state().job(alloc, engine.plan(), host, ticket)? else {
        unreachable!()
    };
    let outcome = runner.run(alloc, &job);
    Ok(Report {
        ticket,
        host,
        item: job.item,
        attempt: job.attempt,
        outcome,
    })
}

impl<R: Runner> Crew<R> for Alone<R> {
    ghost answers = { λ crew plan s r. IsAnswer R.allows (R.gives crew.first.value) plan s r };

    ghost fits = { λ crew runner engine. GivesSame R.gives crew.first.value runner };

    ghost went = { λ old mails new. HasRunMail R.gives R.ran old mails new };

    fn send(&self, _hand: &mut R, _engine: &Engine, job: Job) {
        drop(job);
    }

    #[tactic(auto, using(crate::proofs::RunsAlone::answer_first, crate::proofs::RunsAlone::gives_since))]
    fn collect(&self, hand: &mut R, alloc: Global, engine: &Engine) -> Result<Report, AllocError> {
        run_oldest(alloc, engine, hand)
    }

    ghost went_none = { λ runner. run_none R.gives R.ran runner (R.ran_none runner) };

    ghost went_more = { λ old mid new first more a b. run_more R.gives R.ran R.ran_more old mid new first more a b };
}
