//! A run whose jobs are run by the workers of a pool.

ghost use Rattle.std.specs.Prelude.{◌≡◌, ◌≢◌, ℕ, ◌+◌, ◌<◌, ◌≤◌, [], ◌∷◌, List, None, Some, IfOk, IfErr, OnOk, OnErr, true};
ghost use Rattle.std.specs.List.{list_any};
ghost use Rattle.pb_outcome.specs.declared.job.Job.{Job};
ghost use Rattle.pb_outcome.specs.declared.job.Report.{Report};
ghost use Rattle.pb_forks.specs.Seats.{main_view, last_seen, forks_of, IsMainOf, IsSameMain};
ghost use Rattle.pb_forks.specs.Views.{idle_forks, jobs_out};
ghost use Rattle.pb_state.specs.declared.event.Event.TheVariants.{Report as Reported};
ghost use Rattle.pb_host.specs.Runs.{is_out};
ghost use Rattle.pb_state.specs.Jobs.{job_of};
ghost use Rattle.pb_engine.specs.EngineOf.{EngineOf, Takes};
ghost use Rattle.pb_engine.specs.Refusals.{refusal_of};
ghost use Rattle.pb_driver.specs.Crews.{FitsSince, HasSent, HasPosted, StaysWithin, posted_none, posted_more};
ghost use Rattle.pb_driver.specs.Cut.{IsCut};
ghost use Rattle.pb_driver.specs.Driven.{IsBegunBy, IsRecapped, IsWhole, IsWorkersAnswer};
ghost use Rattle.pb_driver.specs.FitsPool.{FitsPool};
ghost use Rattle.pb_driver.specs.Mails.{Goes, Comes, AreMails, AreWithin, HasDrained};
ghost use Rattle.pb_driver.specs.Failing.{failures_by};

use crate::crew::{Crew, Desk};
use crate::driver::{Ended, RunFault, run_crew};
use crate::given::Given;
use crate::line_out::LineOut;
use pb_engine::{Engine, Picker};
use pb_forks::{MainSeat, Pool};
use pb_outcome::job::{Allows, Job, Report};
use pb_state::{Event, Plan};
use std::alloc::{AllocError, Global};
use std::sync::Wait;

/// Offers a job that was sent to a fork that is idle: there is one, since fewer jobs were out than the pool has forks.
fn offer_sent<N: Allows>(pool: &Pool<N>, main: &mut MainSeat, engine: &Engine, job: Job)
    requires { HasSent (FitsPool pool.now main.old) engine.now job }
    ensures fits { FitsPool pool.now main.new engine.now }
    ensures posted { HasPosted main.old (Goes job ∷ []) main.new }
{
    let Some(fork) = pool.idle(main) else {
        unreachable!()
    };
    let _sent = engine.state().sends();
    pool.offer(main, fork, job);
}

/// Waits for the report of a job that is out.
fn collect_any<N: Allows, R: Wait>(
    rt: &R,
    pool: &Pool<N>,
    main: &mut MainSeat,
    engine: &Engine,
) -> Report
    requires since { FitsSince (FitsPool pool.now main.old) engine.now }
    requires out { list_any is_out engine.now.state.rows ≡ true }
    ensures answers { IsWorkersAnswer N.allows engine.now.plan engine.now.state result }
    ensures waits { refusal_of engine.now.state result ≡ None }
    ensures fits { (new : EngineOf) → Takes engine.now new (Reported result) → FitsPool pool.now main.new new }
    ensures came { (job : Job) × (job_of engine.now.plan engine.now.state result.host result.ticket ≡ Some job) × HasPosted main.old (Comes job result.outcome ∷ []) main.new }
{
    let (_fork, report) = pool.wait_any(rt, main);
    report
}

/// The workers of a pool, by its main seat.
#[derive(Drop)]
struct Workers<'a, N: Allows, R> {
    rt: &'a R,
    pool: &'a Pool<N>,
}

impl<'a, N: Allows, R: Wait> Crew<MainSeat> for Workers<'a, N, R> {
    ghost answers = { λ crew plan s r. IsWorkersAnswer N.allows plan s r };

    ghost fits = { λ crew main engine. FitsPool crew.pool.now main engine };

    ghost went = { λ old mails new. HasPosted old mails new };

    fn send(&self, hand: &mut MainSeat, engine: &Engine, job: Job) {
        offer_sent(self.pool, hand, engine, job)
    }

    fn collect(
        &self,
        hand: &mut MainSeat,
        _alloc: Global,
        engine: &Engine,
    ) -> Result<Report, AllocError> {
        Ok(collect_any(self.rt, self.pool, hand, engine))
    }

    ghost went_none = { λ main. posted_none main };

    ghost went_more = { λ old mid new first more a b. posted_more old mid new first more a b };
}

/// Collects the reports of the jobs that are out, and shuts all forks.
fn collect_rest<N: Allows, R: Wait>(rt: &R, pool: &Pool<N>, main: &mut MainSeat)
    requires seat { IsMainOf pool.now main.old }
    requires room { idle_forks (main_view main.old) + jobs_out (main_view main.old) ≡ forks_of pool.now }
    ensures seat { IsSameMain main.old main.new }
    ensures drained { HasDrained (main_view main.old).log (main_view main.new).log }
    ensures none { jobs_out (main_view main.old) ≡ 0 → (main_view main.new).log ≡ (main_view main.old).log }
    ensures within { StaysWithin (main_view main.old) (main_view main.new) }
    ensures shut { (j : ℕ) → j < forks_of pool.now → last_seen (main_view main.new) j ≡ 4 }
{
    for _ in rt.forever() {
        if pool.jobs_out(main) == 0 {
            break;
        }
        drop(pool.wait_any(rt, main));
    }
    pool.shut_all(main);
}

/// Runs a plan to its end by the workers of a pool, whose forks are served elsewhere. It does what `run_plain` does, but that each job goes to a
/// fork that is idle, and that any report that is there is taken where the machine has nothing else to do. At its end it shuts
/// each fork.
///
/// # Errors
/// As those of `run_plain`. The reports of jobs that are still out are waited for then, and dropped.
pub fn drive<N: Allows, R: Wait, P: Picker, W: LineOut>(
    rt: &R,
    alloc: Global,
    pool: &Pool<N>,
    main: &mut MainSeat,
    plan: Plan,
    picker: &mut P,
    commands: &[Given],
    writer: &mut W,
) -> Result<Ended, (RunFault, Vec<Event>)>
    requires seat { IsMainOf pool.now main.old }
    requires fresh { ((main_view main.old).log ≡ []) × (idle_forks (main_view main.old) ≡ forks_of pool.now) }
    requires forks { plan.forks ≤ forks_of pool.now }
    ensures run { IfOk result (λ ended. IsWhole (IsWorkersAnswer N.allows) plan (forks_of pool.now) commands.now ended.trail.items (W.taken writer.old) (W.taken writer.new)) }
    ensures recapped { IfOk result (λ ended. IsRecapped plan (forks_of pool.now) ended.trail.items ended.recap ended.status) }
    ensures mails { IfOk result (λ ended. AreMails plan (forks_of pool.now) ended.trail.items [] (main_view main.new).log) }
    ensures begun { IfErr result (λ e. IsBegunBy (IsWorkersAnswer N.allows) plan (forks_of pool.now) commands.now e.1.items) }
    ensures cut { IfErr result (λ e. IsCut plan (forks_of pool.now) e.1.items (W.taken writer.old) (W.taken writer.new)) }
    ensures later { IfErr result (λ e. (later : List Report) × AreMails plan (forks_of pool.now) e.1.items later (main_view main.new).log) }
    ensures within { AreWithin (forks_of pool.now) (main_view main.new).log }
    ensures seat { IsSameMain main.old main.new }
    ensures shut { (j : ℕ) → j < forks_of pool.now → last_seen (main_view main.new) j ≡ 4 }
    ensures quiet { OnOk result (W.failures writer.new ≡ W.failures writer.old) }
    ensures failed { IfErr result (λ e. W.failures writer.new ≡ failures_by e.0 (W.failures writer.old)) }
    ensures opened { IfErr result (λ e. e.0 ≢ RunFault.Closed) }
{
    let forks = pool.forks();
    let crew = Workers { rt, pool };
    let desk = Desk {
        alloc,
        crew: &crew,
        commands,
    };
    match run_crew(&desk, plan, forks, main, picker, writer) {
        Ok(ended) => {
            collect_rest(rt, pool, main);
            Ok(ended)
        }
        Err(stopped) => {
            collect_rest(rt, pool, main);
            Err(stopped)
        }
    }
}
