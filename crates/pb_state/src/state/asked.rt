//! What is asked of a state.

ghost use Rattle.std.specs.Prelude.{◌≡◌, ◌≤◌, ◌<◌, ◌-◌, ◌^◌, length, map, IfOk, IfSome, IfNone, Some, slice_get, option_map, true, false};
ghost use Rattle.std.specs.List.{list_any};
ghost use Rattle.std.specs.Option.{option_copied};
ghost use Rattle.pb_host.specs.Ends.{IsAtMost};
ghost use Rattle.pb_host.specs.Host.{HostOf};
ghost use Rattle.pb_state.specs.Machine.{facts_at, pending_at};
ghost use Rattle.pb_state.specs.Through.{got_through};

use super::EngineState;
use crate::job::{Head, job_in};
use crate::through::{is_done, is_selected};
use pb_facts::facts::Facts;
use pb_host::{Counts, Host, StepResult};
use pb_hosts::{attempt_in, counts_of, item_in};
use pb_ids::{HostNo, PlayNo, Ticket};
use pb_outcome::job::Job;
use pb_plan::{Plan, PlanPlay};
use pb_planes::HostSet;
use pb_strategies::{kept, none_may_start, ready};
use std::alloc::{AllocError, Global};

impl EngineState {
    ghost use Rattle.pb_hosts.specs.Hosts.{at_row};
    ghost use Rattle.pb_state.specs.Machine.{ready};
    ghost use Rattle.pb_host.specs.Runs.{is_out, has_ticket};
    ghost use Rattle.pb_state.specs.Machine.{ready_in, item_at, attempt_at};
    ghost use Rattle.pb_state.specs.Jobs.{job_of};
    ghost use Rattle.pb_ids.specs.declared.numbers.Ticket.{Ticket};
    ghost use Rattle.pb_hosts.specs.Oldest.{oldest_out};

    /// How many hosts there are: at most 1,048,576.
    pub fn hosts(&self) -> usize
        ensures value { result ≡ length self.now.rows }
        ensures bound { length self.now.rows ≤ 1048576 }
    {
        self.rows.as_slice().len()
    }

    /// The row of a host, if there is such a host.
    pub(crate) fn row_at(&self, host: HostNo) -> Option<&Host>
        ensures { option_copied result ≡ slice_get self.now.rows host.0 }
    {
        self.rows.as_slice().get(host.0 as usize)
    }

    /// The hosts that have a job to send or may start.
    pub fn ready(&self, plan: &Plan, set: &mut HostSet)
        requires { length set.old ≡ length self.now.rows }
        ensures { set.new ≡ ready plan.now self.now }
    {
        match self.open_play(plan) {
            Some(play) => self.ready_in(play, set),
            None => self.rows.none_into(set),
        }
    }

    /// The same where the batch of a play is open.
    pub(crate) fn ready_in(&self, play: &PlanPlay, set: &mut HostSet)
        requires { length set.old ≡ length self.now.rows }
        ensures { set.new ≡ ready_in self.now play.now }
    {
        let view = self.view(play);
        ready(&view, set);
        if !self.stopped {
            set.or_with(self.rows.sends());
        }
    }

    /// The hosts that have a job to send or may start, where they are kept as they change: where no host has a job to send and `pb_strategies::kept` says
    /// who may start, or where there is no room for more. Then they needn't be put into a set.
    pub fn kept_ready<'a>(&'a self, plan: &'a Plan) -> Option<&'a HostSet>
        ensures { IfSome result (λ set. set.now ≡ ready plan.now self.now) }
    {
        match self.open_play(plan) {
            Some(play) => self.kept_ready_in(play),
            None => None,
        }
    }

    /// The same where the batch of a play is open.
    fn kept_ready_in<'a>(&'a self, play: &'a PlanPlay) -> Option<&'a HostSet>
        ensures { IfSome result (λ set. set.now ≡ ready_in self.now play.now) }
    {
        if self.stopped {
            None
        } else {
            self.kept_going_in(play)
        }
    }

    /// The same in a run that isn't stopped.
    fn kept_going_in<'a>(&'a self, play: &'a PlanPlay) -> Option<&'a HostSet>
        requires { self.now.stopped ≡ false }
        ensures { IfSome result (λ set. set.now ≡ ready_in self.now play.now) }
    {
        let view = self.view(play);
        let sends = self.rows.sends();
        if none_may_start(&view) {
            Some(sends)
        } else if sends.is_empty() {
            kept(&view)
        } else {
            None
        }
    }

    /// Whether a job is out.
    pub fn some_out(&self) -> bool
        ensures { result ≡ list_any is_out self.now.rows }
    {
        self.rows.some_out()
    }

    /// Whether a job is out under this ticket.
    pub fn is_ticket_out(&self, ticket: Ticket) -> bool
        ensures { result ≡ list_any (has_ticket ticket) self.now.rows }
    {
        self.rows.is_ticket_out(ticket)
    }

    /// How many jobs were sent.
    pub fn sends(&self) -> u64
        ensures value { result ≡ self.now.sends }

        // A ticket and two bits more fit into 64 bits, wherever a job is sent.
        ensures few { self.now.is_open ≡ true → result < 2 ^ 62 }
    {
        self.sends
    }

    /// Of the jobs that are out the one that was sent first: its host and its ticket.
    pub fn oldest_out(&self) -> Option<(HostNo, Ticket)>
        ensures value { result ≡ oldest_out self.now.rows }

        // That host's job is out under that ticket, and none is out under a less one.
        ensures out { IfSome result (λ p. at_row (has_ticket p.1) self.now.rows p.0.0 ≡ true) }
        ensures least { IfSome result (λ p. (ticket : Ticket) → list_any (has_ticket ticket) self.now.rows ≡ true → p.1.0 ≤ ticket.0) }
        ensures none { IfNone result (list_any is_out self.now.rows ≡ false) }
    {
        self.rows.oldest_out()
    }

    /// What a host has learnt: the layers 4 and 9 of the variables that its tasks see.
    pub fn facts(&self, host: HostNo) -> &Facts
        requires { host.0 < length self.now.rows }
        ensures { result.now ≡ facts_at self.now host.0 }
    {
        match self.rows.as_slice().get(host.0 as usize) {
            Some(row) => row.facts(),
            None => unreachable!(),
        }
    }

    /// Of each handler of the play whether it is pending on a host: notified, and not run since. Where the host is in no batch there is none.
    pub fn pending(&self, host: HostNo) -> &[bool]
        requires { host.0 < length self.now.rows }
        ensures { result.now ≡ pending_at self.now host.0 }
    {
        match self.rows.as_slice().get(host.0 as usize) {
            Some(row) => row.pending(),
            None => unreachable!(),
        }
    }

    /// The number of the item that a host sends next, or whose job is out.
    pub fn item(&self, host: HostNo) -> Option<u32>
        ensures { result ≡ item_at self.now host.0 }
    {
        item_in(self.rows.as_slice(), host)
    }

    /// The attempt at that item that a host sends next, or whose job is out.
    pub fn attempt(&self, host: HostNo) -> u32
        ensures { result ≡ attempt_at self.now host.0 }
    {
        attempt_in(self.rows.as_slice(), host)
    }

    /// The job of the next item of the task that a host runs, under a ticket.
    pub fn job(
        &self,
        alloc: Global,
        plan: &Plan,
        host: HostNo,
        ticket: Ticket,
    ) -> Result<Option<Job>, AllocError>
        ensures { IfOk result (λ job. job ≡ job_of plan.now self.now host ticket) }
    {
        match (self.open_play(plan), self.row_at(host)) {
            (Some(play), Some(row)) => {
                let head = Head {
                    play: PlayNo(self.play as u32),
                    host,
                    ticket,
                };
                job_in(alloc, plan, play, row, head)
            }
            _ => Ok(None),
        }
    }

    /// What the last step came to.
    pub fn step_result(&self) -> Option<&StepResult>
        ensures { option_copied result ≡ self.now.step_result }
    {
        self.step_result.as_ref()
    }

    /// The number of the play whose batch is open, or that goes on, or of the one behind the last.
    pub fn play(&self) -> usize
        ensures { result ≡ self.now.play }
    {
        self.play
    }

    /// The number of the batch in its play.
    pub fn batch(&self) -> u32
        ensures { result ≡ self.now.batch }
    {
        self.batch
    }

    /// Whether a host takes part in the open batch; none where there is no such host.
    pub fn in_batch(&self, host: HostNo) -> Option<bool>
        ensures { result ≡ option_map (λ (row : HostOf). row.in_batch) (slice_get self.now.rows host.0) }
    {
        match self.row_at(host) {
            Some(row) => Some(row.in_batch()),
            None => None,
        }
    }

    /// The hosts that take part in the open batch.
    pub fn batch_hosts(&self) -> &HostSet
        ensures { result.now ≡ map (λ (row : HostOf). row.in_batch) self.now.rows }
    {
        self.rows.batch()
    }

    /// Whether all that was to be done on a host was done: it is active, waits for nothing in the play that goes on, and no play that hasn't begun has it for
    /// its own. No number beyond the last host got through.
    pub fn got_through(&self, plan: &Plan, host: HostNo) -> bool
        ensures { result ≡ got_through plan.now self.now host.0 }
    {
        let is_under_way = self.is_open || self.sizes_left.has_some();
        let first_unbegun = if is_under_way {
            self.play + 1
        } else {
            self.play
        };
        match self.row_at(host) {
            Some(row) => is_done(row) && !is_selected(plan.plays(), first_unbegun, host),
            None => false,
        }
    }

    /// How the finished tasks of a host count. Each count is below 2^32 - 1.
    pub fn host_counts(&self, host: HostNo) -> Counts
        requires { host.0 < length self.now.rows }
        ensures value { slice_get (map (λ (row : HostOf). row.counts) self.now.rows) host.0 ≡ Some result }
        ensures few { IsAtMost result (2 ^ 32 - 2) }
    {
        let row = &self.rows.as_slice()[host.0 as usize];
        row.counts()
    }

    /// How each host's finished tasks count, in the order of hosts. The only error is want of memory.
    pub fn counts(&self, alloc: Global) -> Result<Vec<Counts>, AllocError>
        ensures { IfOk result (λ counts. counts.items ≡ map (λ (row : HostOf). row.counts) self.now.rows) }
    {
        counts_of(alloc, self.rows.as_slice())
    }
}
