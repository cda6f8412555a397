//! The calls on a pool that wait for nobody. Each is a load or an exchange of the fork's word; a load before or after
//! it takes the slot or lays it down.
ghost use Rattle.std.specs.Prelude.{◌≡◌, ℕ, ◌+◌, ◌*◌, ◌%◌, ◌^◌, ◌<◌, ◌≤◌, ◌≢◌, [], ◌∷◌, ◌++◌, length, MatchResult, Some};
ghost use Rattle.pb_outcome.specs.declared.job.Job.{Job};
ghost use Rattle.pb_outcome.specs.declared.job.Report.{Report};
ghost use Rattle.pb_forks.specs.declared.parcel.Parcel.TheVariants.{Work, Done};
ghost use Rattle.pb_forks.specs.Logs.{IsAbove, FitsLast, offers_of};
ghost use Rattle.pb_forks.specs.Views.{idle_forks, jobs_out, offered_to, collected_from, main_looked, main_shut, took_one, fork_looked, answered_one, MainSees, ForkSees};
ghost use Rattle.pb_forks.specs.Seats.{main_view, fork_view, last_seen, forks_of, IsMainOf, IsForkOf, IsSameMain, IsSameFork};

use crate::parcel::Parcel;
use crate::plays::{
    ForkAnswers, ForkGrabs, ForkLays, ForkLooks, ForkTakes, MainCollects, MainGrabs, MainLays,
    MainLooks, MainOffers, MainShuts,
};
use crate::seats::{ForkSeat, MainSeat, Pool};
use pb_outcome::job::{Allows, Job, Report};
use std::sync::atomic::Ordering;

/// There was nothing to take: the word that the look found.
#[derive(Drop)]
pub struct NoOffer {
    pub word: u64,
}

/// There was nothing to collect: the word that the look found.
#[derive(Drop)]
pub struct NoAnswer {
    pub word: u64,
}

impl<A: Allows> Pool<A> {
    /// Offers a job to an idle fork. Its ticket is above those of all jobs that the seat offered, and below 2^62.
    pub fn offer(&self, main: &mut MainSeat, fork: u32, job: Job)
        requires seat { IsMainOf self.now main.old }
        requires fork { fork < forks_of self.now }
        requires idle { last_seen (main_view main.old) fork ≡ 0 }
        requires ticket { IsAbove (main_view main.old).log job.ticket.0 × (job.ticket.0 < 2 ^ 62) }
        ensures seat { IsSameMain main.old main.new }
        ensures idle { idle_forks (main_view main.new) + 1 ≡ idle_forks (main_view main.old) }
        ensures out { jobs_out (main_view main.new) ≡ jobs_out (main_view main.old) + 1 }
        ensures above { (t : ℕ) → job.ticket.0 < t → IsAbove (main_view main.new).log t }
        ensures offered { main_view main.new ≡ offered_to fork job (main_view main.old) }
    {
        let shared = &self.table.shared;
        let at = fork as usize;
        let word = 4 * job.ticket.0 + 1;
        shared.load::<MainGrabs>(&mut main.seat, at);
        shared.exchange(&mut main.seat, at, Some(Parcel::Work(job)));
        shared.swap::<MainOffers>(&mut main.seat, at, word);
        main.seen[at] = word;
        shared.wake_one(at);
    }

    /// Looks once, and takes the job that is offered to the fork.
    pub fn try_take(&self, fork: &mut ForkSeat) -> Result<Job, NoOffer>
        requires { IsForkOf self.now fork.old }
        ensures seat { IsSameFork fork.old fork.new }
        ensures looked { MatchResult result
            (λ x. fork_view fork.new ≡ took_one x (fork_view fork.old))
            (λ e. (e.word % 4 ≢ 1) × (fork_view fork.new ≡ fork_looked e.word (fork_view fork.old))) }
        ensures sees { MatchResult result
            (λ x. ForkSees (fork_view fork.old).seen (4 * x.ticket.0 + 1))
            (λ e. ForkSees (fork_view fork.old).seen e.word) }
    {
        let shared = &self.table.shared;
        let at = fork.fork as usize;
        let found = shared.load::<ForkLooks>(&mut fork.seat, at);
        if found % 4 != 1u64 {
            return Err(NoOffer { word: found });
        }
        shared.swap::<ForkTakes>(&mut fork.seat, at, found + 1);
        let job = job_in(shared.exchange(&mut fork.seat, at, None));
        shared.load::<ForkLays>(&mut fork.seat, at);
        Ok(job)
    }

    /// Answers the job that the seat took last.
    pub fn answer(&self, fork: &mut ForkSeat, report: Report)
        requires seat { IsForkOf self.now fork.old }
        requires answers { FitsLast A.allows (fork_view fork.old).takes report }
        requires taken { (fork_view fork.old).seen ≡ 4 * report.ticket.0 + 2 }
        ensures seat { IsSameFork fork.old fork.new }
        ensures answered { fork_view fork.new ≡ answered_one report (fork_view fork.old) }
    {
        let shared = &self.table.shared;
        let at = fork.fork as usize;
        let new = 4 * report.ticket.0 + 3;
        shared.load::<ForkGrabs>(&mut fork.seat, at);
        shared.exchange(&mut fork.seat, at, Some(Parcel::Done(report)));
        shared.swap::<ForkAnswers>(&mut fork.seat, at, new);
        self.bell.fetch_add(1, Ordering::SeqCst);
        self.bell.wake_one();
    }

    /// Looks once, and collects the report that a fork answered. It is for the job that was offered to it last.
    pub fn try_collect(&self, main: &mut MainSeat, fork: u32) -> Result<Report, NoAnswer>
        requires seat { IsMainOf self.now main.old }
        requires fork { fork < forks_of self.now }
        ensures seat { IsSameMain main.old main.new }
        ensures looked { MatchResult result
            (λ r. (main_view main.new ≡ collected_from fork r (main_view main.old)) × FitsLast A.allows (offers_of fork (main_view main.old).log) r)
            (λ e. (e.word % 4 ≢ 3) × (main_view main.new ≡ main_looked fork e.word (main_view main.old))) }
        ensures sees { MatchResult result
            (λ r. MainSees (last_seen (main_view main.old) fork) (4 * r.ticket.0 + 3))
            (λ e. MainSees (last_seen (main_view main.old) fork) e.word) }
        ensures idle { MatchResult result
            (λ r. idle_forks (main_view main.new) ≡ idle_forks (main_view main.old) + 1)
            (λ e. idle_forks (main_view main.new) ≡ idle_forks (main_view main.old)) }
        ensures out { MatchResult result
            (λ r. jobs_out (main_view main.new) + 1 ≡ jobs_out (main_view main.old))
            (λ e. jobs_out (main_view main.new) ≡ jobs_out (main_view main.old)) }
    {
        self.collect(main, fork)
    }

    fn collect(&self, main: &mut MainSeat, fork: u32) -> Result<Report, NoAnswer>
        requires seat { IsMainOf self.now main.old }
        requires fork { fork < forks_of self.now }
        ensures seat { IsSameMain main.old main.new }
        ensures wide { forks_of self.now ≡ length (main_view main.old).seen }
        ensures looked { MatchResult result
            (λ r. (main_view main.new ≡ collected_from fork r (main_view main.old)) × FitsLast A.allows (offers_of fork (main_view main.old).log) r)
            (λ e. (e.word % 4 ≢ 3) × (main_view main.new ≡ main_looked fork e.word (main_view main.old))) }
        ensures sees { MatchResult result
            (λ r. MainSees (last_seen (main_view main.old) fork) (4 * r.ticket.0 + 3))
            (λ e. MainSees (last_seen (main_view main.old) fork) e.word) }
    {
        let shared = &self.table.shared;
        let at = fork as usize;
        let found = shared.load::<MainLooks>(&mut main.seat, at);
        main.seen[at] = found;
        if found % 4 != 3 {
            return Err(NoAnswer { word: found });
        }
        shared.swap::<MainCollects<A>>(&mut main.seat, at, 0);
        let report = report_in(shared.exchange(&mut main.seat, at, None));
        shared.load::<MainLays>(&mut main.seat, at);
        main.seen[at] = 0;
        Ok(report)
    }

    /// Shuts an idle fork for good.
    pub fn shut(&self, main: &mut MainSeat, fork: u32)
        requires seat { IsMainOf self.now main.old }
        requires fork { fork < forks_of self.now }
        requires idle { last_seen (main_view main.old) fork ≡ 0 }
        ensures seat { IsSameMain main.old main.new }
        ensures idle { idle_forks (main_view main.new) + 1 ≡ idle_forks (main_view main.old) }
        ensures out { jobs_out (main_view main.new) ≡ jobs_out (main_view main.old) }
        ensures shut { main_view main.new ≡ main_shut fork (main_view main.old) }
    {
        let shared = &self.table.shared;
        let at = fork as usize;
        shared.swap::<MainShuts>(&mut main.seat, at, 4);
        main.seen[at] = 4;
        shared.wake_one(at);
    }
}

fn job_in(parcel: Option<Parcel>) -> Job
    requires { (x : Job) × (parcel ≡ Some (Work x)) }
    ensures { parcel ≡ Some (Work result) }
{
    match parcel {
        Some(Parcel::Work(job)) => job,
        _ => unreachable!(),
    }
}

fn report_in(parcel: Option<Parcel>) -> Report
    requires { (r : Report) × (parcel ≡ Some (Done r)) }
    ensures { parcel ≡ Some (Done result) }
{
    match parcel {
        Some(Parcel::Done(report)) => report,
        _ => unreachable!(),
    }
}
