//! The runner that starts each job's program.
ghost use Rattle.std.specs.Prelude.{◌≡◌, ◌↔◌, ◌⊎◌, [], ◌∷◌, List, IfOk, IsTrue};
ghost use Rattle.pb_runner.specs.History.{with_more};
ghost use Rattle.pb_runner.specs.Launch.{Launch};
ghost use Rattle.pb_runner.specs.Local.{LocalAllows, LocalGives, IsStarted, own_words, words_of};
ghost use Rattle.pb_runner.specs.LocalRan.{LocalRan, local_none, local_more};

use crate::command::Words;
use crate::ending::given;
use crate::launcher::Launcher;
use crate::runner::Runner;
use pb_outcome::cause::Cause;
use pb_outcome::job::{Allows, Call, Job};
use pb_outcome::outcome::Outcome;
use pb_value::text::Text;
use std::alloc::{AllocError, Global};

/// A runner that has a launcher start each job's program, after the seconds that the job says, and waits for its end.
#[derive(Drop)]
pub struct LocalRunner<L> {
    pub launcher: L,
    /// The program that gathers facts; without one a job that asks for facts can't start.
    pub facts: Option<Text>,
}

impl<L: Launcher> LocalRunner<L> {
    /// Whether the call has no words, so that there is nothing to start.
    fn is_empty(&self, call: &Call) -> bool
        ensures { IsTrue result ↔ (own_words self.now.facts call.now ≡ []) }
    {
        match call {
            Call::Command { words } => words.is_empty(),
            Call::Shell { text: _ } => false,
            Call::Setup => self.facts.is_none(),
        }
    }

    /// The words that a job's program is started with.
    fn words(&self, alloc: Global, job: &Job) -> Result<Words, AllocError>
        ensures { IfOk result (λ w. w ≡ words_of self.now.facts job.now) }
    {
        let mut words = Words::new();
        if !job.connector.is_empty() {
            words.push_all(alloc, job.connector.as_slice())?;
            words.push(alloc, job.target.as_str())?;
        }
        match &job.call {
            Call::Command { words: own } => words.push_all(alloc, own.as_slice())?,
            Call::Shell { text } => {
                words.push(alloc, "/bin/sh")?;
                words.push(alloc, "-c")?;
                words.push(alloc, text.as_str())?;
            }
            Call::Setup => {
                if let Some(program) = &self.facts {
                    words.push(alloc, program.as_str())?;
                }
            }
        }
        Ok(words)
    }

    /// What comes of a job: where its call has no words nothing is started, behind a connector too.
    fn outcome_of(&mut self, alloc: Global, job: &Job) -> Outcome
        ensures allowed { LocalAllows job.now result }
        ensures given { LocalGives self.old.facts job.now result }
        ensures facts { self.new.facts ≡ self.old.facts }
        ensures ran { LocalRan self.old.facts (L.launched self.old.launcher) ((job.now, result) ∷ []) self.new.facts (L.launched self.new.launcher) }
    {
        if self.is_empty(&job.call) {
            return Outcome::not_started(Cause::CannotStart);
        }
        self.started(alloc, job)
    }

    /// Waits as many seconds as the job says, which are none at a first attempt, then starts its program and waits for its end.
    fn started(&mut self, alloc: Global, job: &Job) -> Outcome
        ensures allowed { LocalAllows job.now result }
        ensures facts { self.new.facts ≡ self.old.facts }
        ensures launched { (launches : List Launch) × (L.launched self.new.launcher ≡ with_more (L.launched self.old.launcher) launches) × IsStarted self.old.facts job.now result launches }
    {
        self.launcher.pause(job.delay);
        let Ok(words) = self.words(alloc, job) else {
            return Outcome::not_started(Cause::OutOfMemory);
        };
        match self.launcher.launch(alloc, words) {
            Ok(ending) => given(alloc, job, ending),
            Err(_) => Outcome::not_started(Cause::OutOfMemory),
        }
    }
}

impl<L> Allows for LocalRunner<L> {
    ghost allows = { λ job outcome. LocalAllows job outcome };
}

impl<L: Launcher> Runner for LocalRunner<L> {
    ghost gives = { λ runner job outcome. LocalGives runner.facts job outcome };

    ghost ran = { λ old jobs new. LocalRan old.facts (L.launched old.launcher) jobs new.facts (L.launched new.launcher) };

    ghost ran_none = { λ runner. local_none runner.facts (L.launched runner.launcher) };

    ghost ran_more = { λ old mid new first more a b. local_more old.facts mid.facts new.facts (L.launched old.launcher) (L.launched mid.launcher) (L.launched new.launcher) first more a b };

    fn run(&mut self, alloc: Global, job: &Job) -> Outcome {
        self.outcome_of(alloc, job)
    }
}
