//! The recap itself.

ghost use Rattle.std.specs.Prelude.{◌≡◌, ◌<◌, ◌++◌, ◌∷◌, [], ℕ, List, length, map, replicate, slice_get, sum_by, IfOk, IfSome, string_bytes};
ghost use Rattle.pb_plan.specs.Plan.{PlanOf};
ghost use Rattle.pb_host.specs.Host.{HostOf, none_counted};
ghost use Rattle.pb_state.specs.Run.{IsRun, IsStep};
ghost use Rattle.pb_state.specs.State.{State};
ghost use Rattle.pb_state.specs.declared.event.Event.{Event};
ghost use Rattle.pb_recap.specs.Kinds.{count_of, count_at, status_of};
ghost use Rattle.pb_recap.specs.Counting.{HasRoom, with_finished};
ghost use Rattle.pb_recap.specs.Recap.{recap, finished_in};
ghost use Rattle.pb_recap.specs.Text.{recap_text};
ghost use Rattle.pb_recap.specs.Stats.{stats_line};

use crate::columns::{columns_of, some_has, total};
use crate::counting::count_event;
use crate::{stats, text};
use pb_ids::HostNo;
use pb_lanes::{Columns, CountKind};
use pb_state::{EngineState, Event, Plan};
use std::alloc::{AllocError, Global};
use std::marker::Model;

/// The counts of each host, by the hosts' numbers. Each is at most 2^32 - 1.
#[derive(Debug, Drop)]
pub struct Recap {
    counts: Columns,
}

impl Model for Recap {
    ghost use Rattle.std.specs.Prelude.{List};
    ghost use Rattle.pb_host.specs.declared.host.Counts.{Counts};
    ghost use Rattle.pb_recap.specs.InColumns.{rows_of};

    ghost Value = { List Counts };

    ghost view = { λ r. rows_of r.counts };
}

impl Recap {
    /// The recap of a state. Of the state at the end of a run it is the count, from scratch, of the tasks that the
    /// run's events finished. The only error is want of memory.
    #[tactic(auto, using(crate::proofs::Counted::recap_of_run))]
    pub fn of(alloc: Global, state: &EngineState) -> Result<Recap, AllocError>
        ensures counts { IfOk result (λ r. r ≡ map (λ (row : HostOf). row.counts) state.now.rows) }
        ensures scratch { IfOk result (λ r. (plan : PlanOf) (pool : ℕ) (trail : List Event) → IsRun plan pool trail state.now → r ≡ recap plan pool trail) }
    {
        Ok(Recap {
            counts: columns_of(alloc, state)?,
        })
    }

    /// No counts: no host has finished a task. It is the recap of a run before its first event. The only error is want
    /// of memory.
    #[tactic(auto, using(crate::proofs::Recounted::new_is_recap, crate::proofs::InColumns::none_yet))]
    pub fn new(alloc: Global, plan: &Plan) -> Result<Recap, AllocError>
        ensures none { IfOk result (λ r. r ≡ replicate (length plan.now.inventory.hosts) none_counted) }
        ensures scratch { IfOk result (λ r. (pool : ℕ) → r ≡ recap plan.now pool []) }
    {
        Ok(Recap {
            counts: Columns::new(alloc, plan.host_count())?,
        })
    }

    /// Counts the task that an event finished, by the state after the event. Counting the events of a run one after
    /// another gives the recap of the run. It takes no memory. Limit: each count is below 2^32 - 1.
    pub fn count(&mut self, plan: &Plan, state: &EngineState, event: &Event)
        requires { (h : ℕ) → IfSome (slice_get self.old h) HasRoom }
        ensures finished { self.new ≡ with_finished (finished_in state.now event.now) self.old }
        ensures scratch { (pool : ℕ) (trail : List Event) (before : State) → IsRun plan.now pool trail before → IsStep plan.now before event.now state.now
            → self.old ≡ recap plan.now pool trail → self.new ≡ recap plan.now pool (trail ++ event.now ∷ []) }
    {
        // (what only the clauses speak of)
        let _plan = plan;
        count_event(&mut self.counts, state, event);
    }

    /// How many finished tasks of a host count under a kind: at most 2^32 - 1.
    pub fn get(&self, host: HostNo, kind: CountKind) -> u64
        requires { host.0 < length self.now }
        ensures { result ≡ count_at kind self.now host.0 }
    {
        u64::from(self.counts.get(host, kind))
    }

    /// How many finished tasks of all hosts count under a kind.
    pub fn total(&self, kind: CountKind) -> u64
        ensures { result ≡ sum_by (count_of kind) self.now }
    {
        total(&self.counts, kind)
    }

    /// The exit status of a run with this recap: 2 if a task failed, else 4 if a host could not be reached, else 0.
    pub fn status(&self) -> u8
        ensures { result ≡ status_of self.now }
    {
        if some_has(&self.counts, CountKind::Failed) {
            2
        } else if some_has(&self.counts, CountKind::Unreachable) {
            4
        } else {
            0
        }
    }

    /// The text of the recap: a heading, and a line for each host with a count, in the order of hosts.
    pub fn text(&self, alloc: Global, plan: &Plan) -> Result<String, AllocError>
        ensures { IfOk result (λ s. string_bytes s ≡ recap_text plan.now.inventory.hosts self.now) }
    {
        text::text_of(alloc, plan, &self.counts)
    }

    /// The line of statistics, which names the hosts that have a count.
    pub fn stats_line(&self, alloc: Global, plan: &Plan) -> Result<String, AllocError>
        ensures { IfOk result (λ s. string_bytes s ≡ stats_line plan.now.inventory.hosts self.now) }
    {
        stats::line_of(alloc, plan, &self.counts)
    }
}
