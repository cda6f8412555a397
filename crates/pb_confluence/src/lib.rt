//! However many hosts run at once, a run ends in the same.
//!
//! For the layers above: each function here does nothing, and its contract is a law of whole runs under fixed outcomes (`specs/Confluence.antt`). Where all
//! plays are linear and no host knows of another (`is_independent`, pb_independence), and what comes of each job is given by the job (`specs/Fixed.antt`), every
//! finished run that wasn't stopped ends in what the hosts reach together (`specs/Together.antt`), whatever its forks, its choices and its order of reports.
//! A law has no body that could be wrong, but the definitions on which it rests could be. Each of these wrong ones (`wrong-bodies/`) is refused, by the
//! law's proof or by a worked row: every host runs a task that runs once; a turn halts nobody; a turn comes where nobody stands; a run that was stopped counts as
//! whole; a failure that is fatal for all leaves hosts alone; a run that ended while a batch was left counts for hosts alone.
#![tactic(auto)]

ghost use Rattle.pb_confluence.specs.Ends.{RunsEndAsFixed};
ghost use Rattle.pb_confluence.specs.Confluence.{EndsTogether, CountsTogether, EndAlike};
ghost use Rattle.pb_confluence.specs.Alone.{EndsAlone, StrategiesAgree};

/// A finished run that wasn't stopped, of a linear and independent plan under fixed outcomes, ends in the rows that its hosts reach together.
#[tactic(auto, using(crate::proofs::Ends::ends_together))]
pub fn ends_together()
    ensures { EndsTogether }
{}

/// The recap of such a run is what its hosts count together.
#[tactic(auto, using(crate::proofs::Forks::counts_together))]
pub fn counts_together()
    ensures { CountsTogether }
{}

/// Two such runs, of plans that differ in forks alone, end with the same facts of each host and the same recap.
#[tactic(auto, using(crate::proofs::Forks::end_alike))]
pub fn end_alike()
    ensures { EndAlike }
{}

/// Where no host has an effect on others, such a run, under any strategies, gives each host the facts and counts that it reaches alone.
#[tactic(auto, using(crate::proofs::AloneEnds::ends_alone))]
pub fn ends_alone()
    ensures { EndsAlone }
{}

/// So whole runs of plans that differ in strategies, in sizes of batches and in forks give each host the same facts and counts.
#[tactic(auto, using(crate::proofs::Orders::strategies_agree))]
pub fn strategies_agree()
    ensures { StrategiesAgree }
{}

/// All of this of one trail, with the plan's own forks: what its facts and its recap are, where what comes of its jobs is fixed. A call that hands out a trail, facts
/// or a recap cites it, and says so in its own contract (`EndsAsFixed`).
#[tactic(auto, using(crate::proofs::AsFixed::runs_end_as_fixed))]
pub fn runs_end_as_fixed()
    ensures { RunsEndAsFixed }
{}
