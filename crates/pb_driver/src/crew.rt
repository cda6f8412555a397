//! Who runs a run's jobs.

use crate::given::Given;
use pb_engine::Engine;
use pb_outcome::job::{Job, Report};
use std::alloc::{AllocError, Global};

/// What stays the same from the beginning of a run to its end: who runs its jobs, and the commands that it is given.
#[derive(Drop)]
pub(crate) struct Desk<'a, C> {
    pub alloc: Global,
    pub crew: &'a C,
    pub commands: &'a [Given],
}

/// Runs the jobs of a run: it is given each job that is sent, and gives a report where the machine waits for one. What changes
/// as it does so is its hand, of the type `H`.
pub(crate) trait Crew<H> {
    ghost use Rattle.std.specs.Prelude.{◌≡◌, List, [], ◌∷◌, ◌++◌, IfOk, OnErr, true, None, Some};
    ghost use Rattle.std.specs.List.{list_any};
    ghost use Rattle.pb_outcome.specs.declared.job.Job.{Job};
    ghost use Rattle.pb_outcome.specs.declared.job.Report.{Report};
    ghost use Rattle.pb_state.specs.declared.event.Event.TheVariants.{Report as Reported};
    ghost use Rattle.pb_host.specs.Runs.{is_out};
    ghost use Rattle.pb_plan.specs.Plan.{PlanOf};
    ghost use Rattle.pb_state.specs.State.{State};
    ghost use Rattle.pb_state.specs.Jobs.{job_of};
    ghost use Rattle.pb_engine.specs.EngineOf.{EngineOf, Takes};
    ghost use Rattle.pb_engine.specs.Refusals.{refusal_of};
    ghost use Rattle.pb_driver.specs.Crews.{FitsSince, HasSent};
    ghost use Rattle.pb_driver.specs.Mails.{Mail, Goes, Comes};

    /// What is true of each report that it gives, in the state in which it is taken.
    ghost answers: { Self → PlanOf → State → Report → Type 0 };

    /// What it knows of the engine whose jobs it has.
    ghost fits: { Self → H → EngineOf → Type 0 };

    /// From the one moment to the other exactly these jobs went and these reports came, one after another.
    ghost went: { H → List Mail → H → Type 0 };

    /// Takes a job that was sent.
    fn send(&self, hand: &mut H, engine: &Engine, job: Job)
        requires { HasSent (fits self.now hand.old) engine.now job }
        ensures fits { fits self.now hand.new engine.now }
        ensures went { went hand.old (Goes job ∷ []) hand.new };

    /// Gives the report of a job that is out.
    ///
    /// # Errors
    /// Where memory was refused; nothing was run then.
    fn collect(&self, hand: &mut H, alloc: Global, engine: &Engine) -> Result<Report, AllocError>
        requires since { FitsSince (fits self.now hand.old) engine.now }
        requires out { list_any is_out engine.now.state.rows ≡ true }
        ensures answers { IfOk result (λ r. answers self.now engine.now.plan engine.now.state r) }
        ensures waits { IfOk result (λ r. refusal_of engine.now.state r ≡ None) }
        ensures fits { IfOk result (λ r. (new : EngineOf) → Takes engine.now new (Reported r) → fits self.now hand.new new) }
        ensures came { IfOk result (λ r. (job : Job) × (job_of engine.now.plan engine.now.state r.host r.ticket ≡ Some job) × went hand.old (Comes job r.outcome ∷ []) hand.new) }
        ensures none { OnErr result (went hand.old [] hand.new) };

    /// Where nothing was asked nothing went or came.
    ghost went_none: { (hand : H) → went hand [] hand };

    /// Some mail, and then more.
    ghost went_more: { (old mid new : H) (first more : List Mail) → went old first mid → went mid more new → went old (first ++ more) new };
}
