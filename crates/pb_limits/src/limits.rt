//! The counts of the hosts that run.

ghost use Rattle.std.specs.Prelude.{◌≡◌, ◌<◌, ◌+◌, ◌-◌, ◌^◌, ℕ, List, Option, Some, None, length, min, nat_lt, replicate, slice_get, slice_set, slice_index_or, IfOk};
ghost use Rattle.pb_limits.specs.Counts.{limits_of, has_room_for};

use std::alloc::{AllocError, Global};
use std::marker::Model;

/// How many hosts run: in all, and at each place of a play.
#[derive(Debug, Drop)]
pub struct Limits {
    running: u32,
    at: Vec<u32>,
}

impl Model for Limits {
    ghost use Rattle.pb_limits.specs.Counts.{LimitsOf};

    ghost Value = { LimitsOf };

    ghost view = { λ l. record { running = l.running; at = l.at.items } };
}

/// One host more runs at a place, if there is one with that number.
fn one_more(at: &mut Vec<u32>, place: usize)
    ensures { at.new.items ≡ slice_set at.old.items place (min (2 ^ 32 - 1) (slice_index_or at.old.items place 0 + 1)) }
{
    if place < at.len() {
        at[place] = at[place].saturating_add(1);
    }
}

/// One host less runs at a place, if there is one with that number.
fn one_less(at: &mut Vec<u32>, place: usize)
    ensures { at.new.items ≡ slice_set at.old.items place (slice_index_or at.old.items place 0 - 1) }
{
    if place < at.len() {
        at[place] = at[place].saturating_sub(1);
    }
}

impl Limits {
    /// No host runs, at so many places. The only error is want of memory.
    pub fn new(alloc: Global, places: usize) -> Result<Limits, AllocError>
        ensures { IfOk result (λ limits. (hosts : ℕ) → limits ≡ limits_of places (replicate hosts None)) }
    {
        let at = vec![in alloc; 0; places]?;
        Ok(Limits { running: 0, at })
    }

    /// A host that ran nothing starts the task at a place.
    pub fn start(&mut self, place: usize)
        ensures { (places host : ℕ) (runs : List (Option ℕ)) → length runs < 2 ^ 32 → slice_get runs host ≡ Some None → self.old ≡ limits_of places runs
            → self.new ≡ limits_of places (slice_set runs host (Some place)) }
    {
        self.running = self.running.saturating_add(1);
        one_more(&mut self.at, place);
    }

    /// A host that ran the task at a place has finished it.
    pub fn finish(&mut self, place: usize)
        ensures { (places host : ℕ) (runs : List (Option ℕ)) → slice_get runs host ≡ Some (Some place) → self.old ≡ limits_of places runs
            → self.new ≡ limits_of places (slice_set runs host None) }
    {
        self.running = self.running.saturating_sub(1);
        one_less(&mut self.at, place);
    }

    /// How many hosts run.
    pub fn running(&self) -> u32
        ensures { result ≡ self.now.running }
    {
        self.running
    }

    /// How many hosts run the task at a place; `None` is a place whose hosts aren't counted.
    pub fn running_at(&self, place: usize) -> Option<u32>
        ensures { result ≡ slice_get self.now.at place }
    {
        match self.at.get(place) {
            Some(running) => Some(*running),
            None => None,
        }
    }

    /// Whether fewer hosts run than there are forks.
    pub fn has_room(&self, forks: u32) -> bool
        ensures { result ≡ nat_lt self.now.running forks }
    {
        self.running < forks
    }

    /// Whether fewer hosts run the task at a place than its throttle lets.
    pub fn has_room_at(&self, place: usize, throttle: u32) -> bool
        requires { place < length self.now.at }
        ensures { result ≡ has_room_for (slice_index_or self.now.at place 0) throttle }
    {
        is_below(self.at[place], throttle)
    }
}

/// Whether a throttle lets another host run beside so many: 0 is none.
pub fn is_below(running: u32, throttle: u32) -> bool
    ensures { result ≡ has_room_for running throttle }
{
    throttle == 0 || running < throttle
}
