//! What a caller can ask of a pool and its seats. Nothing here takes a step.
ghost use Rattle.std.specs.Prelude.{◌≡◌, ◌+◌, ◌<◌, ◌≤◌, IfSome, IfNone, count_by, length};
ghost use Rattle.pb_forks.specs.Views.{idle_forks, idle_words, is_out, jobs_out, WasShut};
ghost use Rattle.pb_forks.specs.Seats.{main_view, last_seen, number, forks_of, IsMainOf, IsSameMain};

use crate::seats::{ForkSeat, MainSeat, Pool};
use pb_outcome::job::Allows;

impl ForkSeat {
    /// The number of the seat's fork, from 0.
    pub fn number(&self) -> u32
        ensures { result ≡ number self.now }
    {
        self.fork
    }
}

/// How many words aren't 0.
#[tactic(auto, using(crate::proofs::Idle::idle_counted, crate::proofs::Idle::busy_counted))]
fn busy_words(words: &[u64]) -> u32
    requires { length words.now ≤ 256 }
    ensures { result + idle_words words.now ≡ length words.now }
{
    let mut busy = 0;
    for word in words {
        if *word != 0 {
            busy += 1;
        }
    }
    busy
}

/// How many words are those of a job that is out.
#[tactic(auto, using(crate::proofs::Out::out_counted, crate::proofs::Out::other_counted))]
fn words_out(words: &[u64]) -> u32
    requires { length words.now ≤ 256 }
    ensures { result ≡ count_by is_out words.now }
{
    let mut out = 0;
    for word in words {
        if *word % 4 != 0 {
            out += 1;
        }
    }
    out
}

impl<A: Allows> Pool<A> {
    /// How many forks the pool has, 1 to 256.
    pub fn forks(&self) -> u32
        ensures is { result ≡ forks_of self.now }
        ensures range { (0 < result) × (result ≤ 256) }
    {
        self.forks
    }

    /// The least idle fork, if one is idle.
    #[tactic(auto, using(crate::proofs::Idle::none_idle))]
    pub fn idle(&self, main: &MainSeat) -> Option<u32>
        requires { IsMainOf self.now main.now }
        ensures some { IfSome result (λ j. (j < forks_of self.now) × (last_seen (main_view main.now) j ≡ 0)) }
        ensures none { IfNone result (idle_forks (main_view main.now) ≡ 0) }
    {
        for j in 0..self.forks {
            if main.seen[j as usize] == 0 {
                return Some(j);
            }
        }
        None
    }

    /// How many forks aren't idle: their jobs are out, or they are shut.
    pub fn busy(&self, main: &MainSeat) -> u32
        requires { IsMainOf self.now main.now }
        ensures { result + idle_forks (main_view main.now) ≡ forks_of self.now }
    {
        busy_words(main.seen.as_slice())
    }

    /// How many jobs are out: offered and not yet collected. A fork that is shut has none.
    pub fn jobs_out(&self, main: &MainSeat) -> u32
        requires { IsMainOf self.now main.now }
        ensures { result ≡ jobs_out (main_view main.now) }
    {
        words_out(main.seen.as_slice())
    }

    /// Shuts all forks, each of which is idle.
    #[tactic(auto, using(crate::proofs::Idle::all_idle))]
    pub fn shut_all(&self, main: &mut MainSeat)
        requires seat { IsMainOf self.now main.old }
        requires idle { idle_forks (main_view main.old) ≡ forks_of self.now }
        ensures seat { IsSameMain main.old main.new }
        ensures shut { WasShut (forks_of self.now) (main_view main.old) (main_view main.new) }
    {
        for fork in 0..self.forks {
            self.shut(main, fork);
        }
    }
}
