//! The two calls that wait.
ghost use Rattle.std.specs.Prelude.{◌≡◌, ℕ, ◌+◌, ◌<◌, length, MatchOption};
ghost use Rattle.pb_forks.specs.Logs.{IsAbove};
ghost use Rattle.pb_forks.specs.Views.{TookLast, SawShut, CollectedLast, idle_forks, jobs_out};
ghost use Rattle.pb_forks.specs.Seats.{main_view, fork_view, forks_of, IsMainOf, IsForkOf, IsSameMain, IsSameFork};

use crate::seats::{ForkSeat, MainSeat, Pool};
use pb_outcome::job::{Allows, Job, Report};
use std::sync::Wait;
use std::sync::atomic::Ordering;
use std::thread;

/// A thread sleeps on the low 32 bits of a word. Words that differ in what a fork's seat may do differ there; and the bell isn't rung
/// that often between two looks at it.
const LOW: u64 = 0xffff_ffff;

impl<A: Allows> Pool<A> {
    /// Looks, and sleeps while there is nothing new, until it takes a job. None where a look found the fork shut.
    pub fn wait_offer<R: Wait>(&self, rt: &R, fork: &mut ForkSeat) -> Option<Job>
        requires { IsForkOf self.now fork.old }
        ensures seat { IsSameFork fork.old fork.new }
        ensures looked { MatchOption result
            (SawShut (fork_view fork.old) (fork_view fork.new))
            (λ x. TookLast (fork_view fork.old) x (fork_view fork.new)) }
    {
        for _ in rt.forever() {
            match self.try_take(fork) {
                Ok(job) => return Some(job),
                Err(refused) => {
                    if refused.word == 4 {
                        return None;
                    }
                    let low = (refused.word & LOW) as u32;
                    self.table.shared.park(rt, fork.fork as usize, low);
                }
            }
        }
        unreachable!()
    }

    /// Tries the forks whose jobs are out in turn, until it collects a report. After each round it yields, and sleeps while no fork has
    /// answered since that round began. A job is out.
    pub fn wait_any<R: Wait>(&self, rt: &R, main: &mut MainSeat) -> (u32, Report)
        requires seat { IsMainOf self.now main.old }
        requires out { 0 < jobs_out (main_view main.old) }
        ensures seat { IsSameMain main.old main.new }
        ensures idle { idle_forks (main_view main.new) ≡ idle_forks (main_view main.old) + 1 }
        ensures out { jobs_out (main_view main.new) + 1 ≡ jobs_out (main_view main.old) }
        ensures above { (t : ℕ) → IsAbove (main_view main.old).log t → IsAbove (main_view main.new).log t }
        ensures collected { (result.0 < forks_of self.now) × CollectedLast A.allows result.0 (main_view main.old) result.1 (main_view main.new) }
    {
        let (fork, report) = self.collect_any(rt, main);
        (fork, report)
    }

    fn collect_any<R: Wait>(&self, rt: &R, main: &mut MainSeat) -> (u32, Report)
        requires { IsMainOf self.now main.old }
        ensures seat { IsSameMain main.old main.new }
        ensures wide { forks_of self.now ≡ length (main_view main.old).seen }
        ensures collected { (result.0 < forks_of self.now) × CollectedLast A.allows result.0 (main_view main.old) result.1 (main_view main.new) }
    {
        for _ in rt.forever() {
            let rung = self.bell.load(Ordering::SeqCst) & LOW;
            for j in 0..self.forks {
                if main.seen[j as usize] % 4 == 0 {
                    continue;
                }
                if let Ok(report) = self.try_collect(main, j) {
                    return (j, report);
                }
            }
            thread::yield_now();
            self.bell.park(rt, rung as u32);
        }
        unreachable!()
    }
}
