//! One job goes through a pool of one fork, call by call.
ghost use Rattle.std.specs.Prelude.{◌≡◌, ◌≤◌, ℕ, true, IfOk, OnOk, [], ◌∷◌, vec_capacity};
ghost use Rattle.pb_forks.specs.declared.views.ForkView.{ForkView};
ghost use Rattle.pb_forks.specs.Logs.{offers_of, collects_of, job_tickets, report_tickets};
ghost use Rattle.pb_forks.specs.Views.{start, fresh, fork_looked, main_looked, ForkSees};
ghost use Rattle.pb_forks.specs.Seats.{main_view, fork_view, last_seen, number, forks_of, IsMainOf, IsForkOf, IsSameMain, IsSameFork};
ghost use Rattle.pb_forks.specs.Ends.{end_view, end_word, IsJoined, EndedShut};

use crate::jobs::{job, report_of};
use pb_forks::{ForkSeat, MainSeat, Pool, PoolEnd};
use pb_outcome::job::Job;
use pb_runner::runner::Runner;
use std::alloc::Global;

// Whether a look of the fork finds no offer, and this word.
fn finds_no_offer<N: Runner>(pool: &Pool<N>, seat: &mut ForkSeat, word: u64) -> bool
    requires { IsForkOf pool.now seat.old }
    ensures seat { IsSameFork seat.old seat.new }
    ensures found { result ≡ true → (fork_view seat.new ≡ fork_looked word (fork_view seat.old)) × ForkSees (fork_view seat.old).seen word }
{
    match pool.try_take(seat) {
        Ok(_job) => false,
        Err(refused) => refused.word == word,
    }
}

// Whether a look at the fork finds no answer, and this word.
fn finds_no_answer<N: Runner>(pool: &Pool<N>, main: &mut MainSeat, word: u64) -> bool
    requires { (forks_of pool.now ≡ 1) × IsMainOf pool.now main.old }
    ensures seat { IsSameMain main.old main.new }
    ensures found { result ≡ true → main_view main.new ≡ main_looked 0 word (main_view main.old) }
{
    match pool.try_collect(main, 0) {
        Ok(_report) => false,
        Err(refused) => refused.word == word,
    }
}

fn worked<N: Runner>(
    alloc: Global,
    pool: &Pool<N>,
    main: &mut MainSeat,
    seat: &mut ForkSeat,
    first: Job,
    runner: &mut N,
) -> Result<(), u32>
    requires seats { (forks_of pool.now ≡ 1) × IsMainOf pool.now main.old × IsForkOf pool.now seat.old }
    requires fresh { (main_view main.old ≡ start 1) × (number seat.old ≡ 0) × (fork_view seat.old ≡ fresh) }
    requires ticket { first.ticket.0 ≡ 0 }
    ensures seats { IsMainOf pool.now main.new × IsForkOf pool.now seat.new × (number seat.new ≡ 0) }
    ensures done { OnOk result ((job_tickets (offers_of 0 (main_view main.new).log) ≡ 0 ∷ []) × (last_seen (main_view main.new) 0 ≡ 4)) }
{
    if !finds_no_offer(pool, seat, 0) {
        return Err(2);
    }
    pool.offer(main, 0, first);
    let Ok(job) = pool.try_take(seat) else {
        return Err(3);
    };
    if !finds_no_offer(pool, seat, 2) || !finds_no_answer(pool, main, 2) {
        return Err(4);
    }
    let outcome = runner.run(alloc, &job);
    pool.answer(seat, report_of(&job, outcome));
    let Ok(_report) = pool.try_collect(main, 0) else {
        return Err(5);
    };
    pool.shut(main, 0);
    Ok(())
}

#[tactic(auto, using(crate::proofs::Numbers::one_seat))]
fn closed<N: Runner>(
    pool: Pool<N>,
    main: MainSeat,
    seat: ForkSeat,
    mut seats: Vec<ForkSeat>,
) -> PoolEnd
    requires seats { (forks_of pool ≡ 1) × IsMainOf pool main × IsForkOf pool seat × (number seat ≡ 0) }
    requires room { (seats.items ≡ []) × (1 ≤ vec_capacity seats) }
    ensures log { (end_view result).log ≡ (main_view main).log }
    ensures shut { last_seen (main_view main) 0 ≡ 4 → EndedShut 0 result }
{
    seats.push_reserved(seat);
    pool.close(main, seats)
}

/// Offers a job with ticket 0, takes it, answers it, collects its report and shuts the fork; at the end all four lists
/// have the tickets [0]. Err with the number of the call that gave something else, or 0 for want of memory.
pub fn one_job<N: Runner>(alloc: Global, runner: &mut N) -> Result<PoolEnd, u32>
    ensures word { IfOk result (λ e. end_word e 0 ≡ 4) }
    ensures lists { IfOk result (λ e. let m = end_view e in (p : ForkView) × IsJoined m 0 p
        × (job_tickets (offers_of 0 m.log) ≡ 0 ∷ []) × (job_tickets p.takes ≡ 0 ∷ []) × (report_tickets p.answers ≡ 0 ∷ []) × (report_tickets (collects_of 0 m.log) ≡ 0 ∷ [])) }
{
    let Ok(first) = job(alloc, 0, "true") else {
        return Err(0);
    };
    let Ok((pool, mut main, mut seats)) = Pool::<N>::new(alloc, 1) else {
        return Err(0);
    };
    let Some(mut seat) = seats.pop() else {
        return Err(1);
    };
    let done = worked(alloc, &pool, &mut main, &mut seat, first, runner);
    let end = closed(pool, main, seat, seats);
    done?;
    Ok(end)
}
