//! Laws of runs: what an operator may rely on in every run of every plan.
//!
//! For the layers above: each function here does nothing, and its contract is a law of all legal trails, in an operator's words: own
//! hosts, forks, order, who is out, that everything was done, jobs, their attempts, and that the recap adds up (docs/THEOREM.md has them on one page). They are said over what
//! happens in a run (`history`), which is read off a plan and a trail. `runs_keep_laws` is all of them at once: a call that knows that its trail is legal cites it, and
//! says in its own contract that this trail keeps them (`KeepsLaws`).
#![tactic(auto)]

ghost use Rattle.pb_laws.specs.Laws.{Always, AtTheEnd, own_hosts, within_forks, in_order, places_rise, out_is_out, have_walked, all_closed, jobs_in_order, all_answered, attempts_in_order, RecapAddsUp};
ghost use Rattle.pb_laws.specs.JobsOut.{RunsFitWorkers};
ghost use Rattle.pb_laws.specs.Kept.{RunsKeepLaws};
ghost use Rattle.pb_laws.specs.States.{RunsGoOn};

pub use pb_confluence::runs_end_as_fixed;

/// A host starts a task of a play only if the play's pattern and the limit select it, and only in a batch that it is in; and no host is in
/// two batches of a play.
pub fn hosts_stay_in_their_batches()
    ensures { Always own_hosts }
{}

/// Where a host starts, fewer hosts run than may, and where its task has a throttle, fewer than that run this task.
pub fn hosts_run_within_forks()
    ensures { Always within_forks }
{}

/// A host starts the task to which its answers lead it, and runs no other; it ends the task that it runs, and is given an answer only where it stands;
/// in a linear play it starts none while a host of the batch stands at, or runs, one before it; and its places in a play rise.
pub fn hosts_keep_order()
    ensures order { Always in_order }
    ensures rise { Always places_rise }
{}

/// A host that couldn't be reached starts nothing more; one that failed where no rescue catches that, or that was halted, starts nothing more but the
/// always parts round that place and the handlers that are forced, unless one of these ends the play for it.
pub fn hosts_that_are_out_stay_out()
    ensures { Always out_is_out }
{}

/// Where a batch closes each of its hosts has walked to its end; and once a run is finished that wasn't stopped, and in which some host may run, each
/// batch that opened has closed.
pub fn everything_is_done()
    ensures walked { Always have_walked }
    ensures closed { AtTheEnd all_closed }
{}

/// Jobs have the tickets 0, 1, 2 and so on; a job that goes out is of a task that its host runs; each report answers a job that is out, so that
/// none is answered twice; and once a run is finished all are answered.
pub fn jobs_are_answered_once()
    ensures in_order { Always jobs_in_order }
    ensures at_the_end { AtTheEnd all_answered }
{}

/// The attempts at an item are numbered from 1, and there are no more of them than its task allows: one, and as many more as it may be tried again. Each goes out only once
/// what came of the one before is reported; once an item behind it has one, an item has no more; and a task ends only once what came of its last attempt is reported.
pub fn attempts_follow_reports()
    ensures { Always attempts_in_order }
{}

/// Of each host the recap's counts of ok, failed, rescued, skipped and unreachable tasks come to the number of the tasks that ended on it, where a
/// task of `meta` is none unless it failed; and the exit status is 0 exactly where no host has a count of failed or unreachable tasks.
pub fn recap_adds_up()
    ensures { RecapAddsUp }
{}

/// Wherever a run has come to, the hosts that are seen as ready are exactly those that may start a task or send a job; a host of a batch is active, failed,
/// halted or out of reach as its answers say, and one that stands at a place is active, unless handlers are forced on it; where nothing can happen any more the
/// run was stopped or ended early, or everything is done; and whatever comes of jobs, what was begun can be brought to its end.
pub fn runs_go_on()
    ensures { RunsGoOn }
{}

/// Every legal trail of a plan keeps all of these laws.
pub fn runs_keep_laws()
    ensures { RunsKeepLaws }
{}

/// What a run owes whoever runs its jobs, where there are at least as many workers as the plan has forks: no more hosts run, and no more jobs are out, than there are
/// workers, and fewer where a job may go out; a job that is out stays what it is until its host reports; and the report of a job that is out may come.
pub fn runs_fit_their_workers()
    ensures { RunsFitWorkers }
{}
