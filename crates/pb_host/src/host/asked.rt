//! What is asked of one host. Nothing here walks a tree.

ghost use Rattle.std.specs.Prelude.{◌≡◌, option_map, false};
ghost use Rattle.std.specs.Option.{option_copied, option_map_or};
ghost use Rattle.pb_host.specs.Host.{is_active};

use super::{Counts, Host, LastTask, Running, is_active, place_of};
use crate::handlers::marks_in;
use pb_facts::facts::Facts;
use pb_ids::{HostNo, Ticket};
use pb_planes::HostSet;
use pb_strategies::Standing;

impl Host {
    ghost use Rattle.pb_host.specs.Host.{is_play_host, next_place, pending, is_at};
    ghost use Rattle.pb_host.specs.declared.host.Running.{Running as RunningOf};
    ghost use Rattle.pb_host.specs.Standing.{has_begun, standing};
    ghost use Rattle.pb_host.specs.Runs.{is_in, is_running, has_send, has_ticket, is_ticket, is_next, may_send_item, awaits, item_of, attempt_of};

    /// Whether the host is one of these and active.
    pub fn is_play_host(&self, hosts: &HostSet) -> bool
        ensures { result ≡ is_play_host hosts.now self.now }
    {
        hosts.contains(self.host) && is_active(self.status)
    }

    /// Whether the host is active: it neither failed, nor was halted, nor is out of reach.
    pub fn is_active(&self) -> bool
        ensures { result ≡ is_active self.now.status }
    {
        is_active(self.status)
    }

    /// Whether the host is in the batch and active.
    pub fn is_in(&self) -> bool
        ensures { result ≡ is_in self.now }
    {
        self.in_batch() && is_active(self.status)
    }

    /// Whether the host runs a task.
    pub fn is_running(&self) -> bool
        ensures { result ≡ is_running self.now }
    {
        self.running.is_some()
    }

    /// The task that the host runs.
    pub fn running(&self) -> Option<&Running>
        ensures { option_copied result ≡ self.now.running }
    {
        self.running.as_ref()
    }

    /// Whether the host runs a task and no job of it is out.
    pub fn has_send(&self) -> bool
        ensures { result ≡ has_send self.now }
    {
        match &self.running {
            Some(running) => running.out.is_none(),
            None => false,
        }
    }

    /// Whether a job of the host is out under this ticket.
    fn has_ticket(&self, ticket: Ticket) -> bool
        ensures { result ≡ has_ticket ticket self.now }
    {
        match &self.running {
            Some(running) => is_ticket(ticket, running.out),
            None => false,
        }
    }

    /// The number of the item that the host sends next, or whose job is out.
    pub fn item(&self) -> Option<u32>
        ensures { result ≡ item_of self.now }
    {
        match &self.running {
            Some(running) => running.items.next(),
            None => None,
        }
    }

    /// The attempt at that item that the host sends next, or whose job is out: 1 to 101, and 1 where it runs nothing.
    pub fn attempt(&self) -> u32
        ensures { result ≡ attempt_of self.now }
    {
        match &self.running {
            Some(running) => running.items.attempt(),
            None => 1,
        }
    }

    /// Whether this attempt at the item with this number is the next of the task that the host runs.
    fn is_next(&self, item: u32, attempt: u32) -> bool
        ensures { result ≡ option_map_or (is_next item attempt) self.now.running false }
    {
        match &self.running {
            Some(running) => running.items.is_next(item) && running.items.attempt() == attempt,
            None => false,
        }
    }

    /// Whether the host has a job of this attempt at the item to send.
    pub fn may_send_item(&self, item: u32, attempt: u32) -> bool
        ensures { result ≡ may_send_item item attempt self.now }
    {
        self.has_send() && self.is_next(item, attempt)
    }

    /// Whether the host waits for what comes of the job of this attempt at the item under a ticket.
    pub fn awaits(&self, ticket: Ticket, item: u32, attempt: u32) -> bool
        ensures { result ≡ awaits ticket item attempt self.now }
    {
        self.has_ticket(ticket) && self.is_next(item, attempt)
    }

    /// The next place of a host of the batch. It walks no tree.
    pub fn next_place(&self) -> Option<usize>
        ensures { result ≡ next_place self.now }
    {
        match &self.walk {
            Some(walk) => place_of(walk.reach()),
            None => None,
        }
    }

    /// Whether the host's next place is this one. It walks no tree.
    pub fn is_at(&self, place: usize) -> bool
        ensures { result ≡ is_at place self.now }
    {
        match self.next_place() {
            Some(next) => next == place,
            None => false,
        }
    }

    /// The task that the host finished last in the open batch, if it finished one.
    pub fn last(&self) -> Option<&LastTask>
        ensures { option_copied result ≡ self.now.last }
    {
        self.last.as_ref()
    }

    /// Whether the host failed in the open batch where nothing caught or ignored that.
    pub fn is_broken(&self) -> bool
        ensures { result ≡ self.now.is_broken }
    {
        self.is_broken
    }

    /// Of each handler of the play whether it is pending: notified, and not run since. It walks no tree.
    pub fn pending(&self) -> &[bool]
        ensures { result.now ≡ pending self.now }
    {
        marks_in(&self.walk)
    }

    /// The place of the task that the host runs.
    fn runs(&self) -> Option<usize>
        ensures { result ≡ option_map (λ (r : RunningOf). r.place) self.now.running }
    {
        match &self.running {
            Some(running) => Some(running.place),
            None => None,
        }
    }

    /// Whether the host has begun its batch.
    fn has_begun(&self) -> bool
        ensures { result ≡ has_begun self.now }
    {
        self.running.is_some() || self.last.is_some()
    }

    /// Where the host stands, as strategies see it. It walks no tree.
    pub fn standing(&self) -> Standing
        ensures { result ≡ standing self.now }
    {
        Standing {
            next: self.next_place(),
            runs: self.runs(),
            has_begun: self.has_begun(),
        }
    }

    /// Whether the host takes part in the open batch.
    pub fn in_batch(&self) -> bool
        ensures { result ≡ self.now.in_batch }
    {
        self.walk.is_some()
    }

    /// Whether the host is one of those of the play that goes on whose batch hasn't closed.
    pub fn awaits_batch(&self) -> bool
        ensures { result ≡ self.now.awaits_batch }
    {
        self.awaits_batch
    }

    /// The host's number.
    pub fn host(&self) -> HostNo
        ensures { result.0 ≡ self.now.host }
    {
        self.host
    }

    /// What the host has learnt.
    pub fn facts(&self) -> &Facts
        ensures { result.now ≡ self.now.facts }
    {
        &self.facts
    }

    /// How the host's finished tasks count.
    pub fn counts(&self) -> Counts
        ensures { result ≡ self.now.counts }
    {
        self.counts
    }
}

ghost use Rattle.pb_host.specs.Runs.{is_ticket};

fn is_ticket(ticket: Ticket, out: Option<Ticket>) -> bool
    ensures { result ≡ is_ticket ticket out }
{
    match out {
        Some(other) => other.0 == ticket.0,
        None => false,
    }
}
