//! What the state keeps of one host.

ghost use Rattle.std.specs.Prelude.{◌≡◌, ◌∷◌, ◌++◌, [], OnOk, OnErr, IfOk, true};
ghost use Rattle.pb_tree.specs.Walk.{status_now};
ghost use Rattle.pb_cursors.specs.Walks.{walk_after};
ghost use Rattle.pb_facts.specs.Update.{applied};

mod asked;
mod batch;
mod work;

use crate::items::TaskItems;
use pb_cursors::PlayWalk;
use pb_facts::facts::Facts;
use pb_facts::update::{FactsUndo, FactsUpdate};
use pb_ids::{HostNo, Ticket};
use pb_tree::{Answer, Kind, Reach, Status};
use std::alloc::{AllocError, Global};
use std::marker::Model;

/// How a host's finished tasks count in the recap (Ansible's documentation, "Return Values").
#[derive(Clone, Copy, PartialEq, Eq)]
pub struct Counts {
    /// Tasks that were neither failed, skipped nor unreachable, and failed ones that were ignored.
    pub ok: u64,
    /// Those of the former that changed something.
    pub changed: u64,
    /// Tasks whose host could not be reached.
    pub unreachable: u64,
    /// Tasks that failed, where nothing caught or ignored that.
    pub failed: u64,
    /// Tasks that were left out.
    pub skipped: u64,
    /// Failed tasks that a block rescued.
    pub rescued: u64,
    /// Failed tasks that were ignored.
    pub ignored: u64,
}

/// What is kept of a finished task: its place, by position, what the host answered there, and its items, if the first host of a batch runs it for all.
pub struct LastTask {
    /// The place's position in the play's tree.
    pub place: usize,
    /// What the host answered there.
    pub kind: Kind,
    /// Off these is read what goes to the other hosts; there are none of a task that each host runs.
    pub items: TaskItems,
}

impl Drop for LastTask {
    fn drop(self) {
        let LastTask {
            place: _,
            kind: _,
            items,
        } = self;
        drop(items);
    }
}

/// A task that a host runs: its items, and the ticket of the job of the next one if that is out.
pub struct Running {
    /// The place's position in the play's tree.
    pub place: usize,
    /// Its items.
    pub items: TaskItems,
    /// The ticket of the job that is out.
    pub out: Option<Ticket>,
}

impl Drop for Running {
    fn drop(self) {
        let Running {
            place: _,
            items,
            out: _,
        } = self;
        drop(items);
    }
}

impl Running {
    /// The items themselves.
    fn into_items(self) -> TaskItems
        ensures { result ≡ self.items }
    {
        let Running {
            place: _,
            items,
            out: _,
        } = self;
        items
    }
}

/// One host: its number, its walk through the open batch's play, where it takes part in that, whether it waits for its batch of the play that goes on
/// or is in that, its status, whether it is broken, what it runs and what it finished last, what it has learnt, and its counts.
pub struct Host {
    host: HostNo,
    walk: Option<PlayWalk>,
    awaits_batch: bool,
    status: Status,
    is_broken: bool,
    running: Option<Running>,
    last: Option<LastTask>,
    facts: Facts,
    counts: Counts,
}

impl Drop for Host {
    fn drop(self) {
        let Host {
            host: _,
            walk,
            awaits_batch: _,
            status: _,
            is_broken: _,
            running,
            last,
            facts,
            counts: _,
        } = self;
        drop(walk);
        drop(running);
        drop(last);
        drop(facts);
    }
}

impl Model for Host {
    ghost use Rattle.std.specs.Prelude.{is_some};
    ghost use Rattle.pb_tree.specs.contracts.tree.PlayTree as play_tree;
    ghost use Rattle.pb_value.specs.contracts.val.Val as val;
    ghost use Rattle.std.specs.Coded.{codes};
    ghost use Rattle.pb_host.specs.Host.{HostOf};

    ghost Value = { HostOf };

    ghost coded = { Prim.hlevel (codes, val.the_row.coded, play_tree.the_row.coded) };

    ghost use Rattle.pb_host.specs.Walking.{tree_in, answers_in, RunsInBatch};

    ghost view = { λ r. record {
      host = r.host.0;
      tree = tree_in r.walk;
      answers = answers_in r.walk;
      status = r.status;
      in_batch = is_some r.walk;
      awaits_batch = r.awaits_batch;
      is_broken = r.is_broken;
      running = r.running;
      last = r.last;
      facts = r.facts;
      counts = r.counts;
    } };

    ghost invariant = { λ r. RunsInBatch r.running r.walk };
}

/// Whether a host still takes part.
pub fn is_active(status: Status) -> bool
    ensures { result ≡ is_active status }
{
    matches!(status, Status::Active)
}

ghost use Rattle.pb_host.specs.Host.{is_active, place_of};

/// The walk takes one answer more.
fn go_on(walk: &mut PlayWalk, answer: &Answer) -> Status
    ensures walk { walk.new ≡ walk_after answer.now walk.old }
    ensures status { result ≡ status_now walk.old.tree (walk.old.answers ++ answer.now ∷ []) }
{
    walk.answer(answer);
    walk.status_now()
}

/// Puts down a host's walk, where it takes part.
fn put_walk(slot: &mut Option<PlayWalk>, walk: Option<PlayWalk>)
    ensures { slot.new ≡ walk }
{
    *slot = walk;
}

/// The place that is reached.
pub(crate) fn place_of(reach: Reach) -> Option<usize>
    ensures { result ≡ place_of reach }
{
    match reach {
        Reach::At(place) => Some(place),
        Reach::Done(_) => None,
    }
}

/// Puts down what is kept of the task that a host finished last.
fn put_last(slot: &mut Option<LastTask>, last: Option<LastTask>)
    ensures { slot.new ≡ last }
{
    *slot = last;
}

/// Puts down what a host runs.
fn run(slot: &mut Option<Running>, running: Option<Running>)
    ensures { slot.new ≡ running }
{
    *slot = running;
}

impl Host {
    ghost use Rattle.pb_host.specs.Host.{first_row, answered, knows};
    ghost use Rattle.pb_facts.specs.Facts.{FactsOf};
    ghost use Rattle.pb_facts.specs.Update.{IsUndo, IsBetween};
    ghost use Rattle.pb_host.specs.Turned.{applies};

    /// A host before the run.
    pub fn new(alloc: Global, host: HostNo) -> Host
        ensures { result ≡ first_row host.0 }
    {
        Host {
            host,
            walk: None,
            awaits_batch: false,
            status: Status::Active,
            is_broken: false,
            running: None,
            last: None,
            facts: Facts::new(alloc),
            counts: Counts {
                ok: 0,
                changed: 0,
                unreachable: 0,
                failed: 0,
                skipped: 0,
                rescued: 0,
                ignored: 0,
            },
        }
    }

    /// The host gets one answer more.
    fn answer(&mut self, answer: &Answer)
        requires { self.old.in_batch ≡ true }
        ensures { self.new ≡ answered answer.now self.old }
    {
        let Some(walk) = &mut self.walk else {
            unreachable!();
        };
        self.status = go_on(walk, answer);
    }

    /// The host learns this. What was before is handed back, and tells what lies between. An `Err` changes nothing.
    pub fn apply(&mut self, alloc: Global, update: FactsUpdate) -> Result<FactsUndo, AllocError>
        ensures ok { OnOk result (self.new ≡ applies update self.old) }
        ensures past { IfOk result (λ past. IsUndo past self.old.facts self.new.facts) }
        ensures between { IfOk result (λ past. IsBetween past self.old.facts self.new.facts) }
        ensures err { OnErr result (self.new ≡ self.old) }
    {
        self.facts.apply(alloc, update)
    }

    /// Puts back what was before the host learnt something. It takes no memory.
    pub fn revert(&mut self, past: FactsUndo)
        ensures { (was : FactsOf) → IsUndo past was self.old.facts → self.new ≡ knows was self.old }
    {
        self.facts.revert(past);
    }

    /// The host learns this, and gets one answer more. What was before it learnt it is handed back. An `Err` changes nothing.
    fn apply_and_answer(
        &mut self,
        alloc: Global,
        answer: &Answer,
        update: FactsUpdate,
    ) -> Result<FactsUndo, AllocError>
        requires { self.old.in_batch ≡ true }
        ensures ok { OnOk result (self.new ≡ answered answer.now (knows (applied update self.old.facts) self.old)) }
        ensures past { IfOk result (λ past. IsBetween past self.old.facts self.new.facts) }
        ensures err { OnErr result (self.new ≡ self.old) }
    {
        let past = self.apply(alloc, update)?;
        self.answer(answer);
        Ok(past)
    }
}
