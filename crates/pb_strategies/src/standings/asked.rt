//! What is asked of the standings. Nothing here wants memory: where it is refused for a set, the hosts are looked at.

ghost use Rattle.std.specs.Prelude.{◌≡◌, ◌&&◌, Some, None, IfSome, false, length, map, take, not, count_by, replicate, slice_index_or};
ghost use Rattle.std.specs.List.{list_any};
ghost use Rattle.std.specs.Simd.Lanes.{zip2};
ghost use Rattle.pb_limits.specs.Counts.{running, running_at};
ghost use Rattle.pb_strategies.specs.Parts.{stands_at};
ghost use Rattle.pb_strategies.specs.Hosts.{is_running, is_next_at, is_waiting, is_under_way, has_begun, runs_in};

use super::{
    Standings, before, copy_into, count_at, drop_each_next, empty_by, has_before, next_at_into,
    same_place, some_next,
};
use crate::watched::{self, words_for};
use pb_ids::HostNo;
use pb_planes::HostSet;

impl Standings {
    /// How many hosts run.
    pub fn running(&self) -> u32
        ensures { result ≡ running (runs_in self.now) }
    {
        self.limits.running()
    }

    /// How many hosts run the task at a place. They are counted host by host only where the place is none of the play's.
    pub fn running_at(&self, place: usize) -> u32
        ensures { result ≡ running_at (runs_in self.now) place }
    {
        match self.limits.running_at(place) {
            Some(running) => running,
            None => count_at(self.hosts.as_slice(), place),
        }
    }

    /// How many hosts have begun and aren't at their end.
    pub(crate) fn under_way(&self) -> u32
        ensures { result ≡ count_by is_under_way self.now }
    {
        self.under_way
    }

    /// The hosts that run.
    pub(crate) fn running_hosts(&self) -> &HostSet
        ensures { result.now ≡ map is_running self.now }
    {
        &self.running
    }

    /// The place of the task that a host runs.
    pub(crate) fn runs_of(&self, host: HostNo) -> Option<usize>
        ensures { result ≡ slice_index_or (runs_in self.now) host.0 None }
    {
        match self.hosts.as_slice().get(host.0 as usize) {
            Some(standing) => standing.runs,
            None => None,
        }
    }

    /// Takes all hosts out of a set.
    pub(crate) fn none_into(&self, set: &mut HostSet)
        requires { length set.old ≡ length self.now }
        ensures { set.new ≡ replicate (length set.old) false }
    {
        empty_by(&self.running, set);
    }

    /// Puts the hosts that wait to start a task into a set.
    pub(crate) fn waiting_into(&self, set: &mut HostSet)
        requires { length set.old ≡ length self.now }
        ensures { set.new ≡ map is_waiting self.now }
    {
        copy_into(&self.unended, set);
        set.minus_with(&self.running);
    }

    /// Takes the hosts that haven't begun out of a set.
    pub(crate) fn keep_begun(&self, set: &mut HostSet)
        requires { length set.old ≡ length self.now }
        ensures { set.new ≡ zip2 (λ a b. a && b) set.old (map has_begun self.now) }
    {
        set.and_with(&self.begun);
    }

    /// Takes the hosts that run out of a set.
    pub(crate) fn drop_running(&self, set: &mut HostSet)
        requires { length set.old ≡ length self.now }
        ensures { set.new ≡ zip2 (λ a b. a && not b) set.old (map is_running self.now) }
    {
        set.minus_with(&self.running);
    }

    /// The hosts whose next place is this one, where they are kept.
    fn kept_at(&self, place: usize) -> Option<&HostSet>
        ensures { IfSome result (λ kept. kept.now ≡ map (is_next_at (Some place)) self.now) }
    {
        if same_place(self.here.place, Some(place)) {
            Some(&self.here.hosts)
        } else {
            watched::set_of(&self.watched, place)
        }
    }

    /// The hosts whose next place is this one and that don't run, where they are kept: at the place that `stand_at` named last.
    pub(crate) fn idle_at(&self, place: usize) -> Option<&HostSet>
        ensures { IfSome result (λ idle. idle.now ≡ map (stands_at place) self.now) }
    {
        let is_here = same_place(self.here.place, Some(place));
        if is_here { Some(&self.idle) } else { None }
    }

    /// Puts the hosts whose next place is this one into a set.
    pub(crate) fn next_into(&self, place: usize, set: &mut HostSet)
        requires { length set.old ≡ length self.now }
        ensures { set.new ≡ map (is_next_at (Some place)) self.now }
    {
        match self.kept_at(place) {
            Some(kept) => copy_into(kept, set),
            None => next_at_into(self.hosts.as_slice(), Some(place), &self.unended, set),
        }
    }

    /// Takes the hosts whose next place is this one out of a set.
    pub(crate) fn drop_next(&self, place: usize, set: &mut HostSet)
        requires { length set.old ≡ length self.now }
        ensures { set.new ≡ zip2 (λ a b. a && not b) set.old (map (is_next_at (Some place)) self.now) }
    {
        match self.kept_at(place) {
            Some(kept) => set.minus_with(kept),
            None => self.drop_known(place, set),
        }
    }

    /// The hosts whose next place is this one, by the bits of its number, where these are less to look at than the hosts.
    fn known_at(&self, place: usize) -> Option<HostSet>
        ensures { IfSome result (λ there. there ≡ map (is_next_at (Some place)) self.now) }
    {
        if self.unended.count() <= words_for(self.unended.width()) {
            return None;
        }
        let alloc = *self.hosts.allocator();
        self.numbers.hosts_at(alloc, &self.unended, place)
    }

    /// Takes the hosts whose next place is this one out of a set, where none of them is kept.
    fn drop_known(&self, place: usize, set: &mut HostSet)
        requires { length set.old ≡ length self.now }
        ensures { set.new ≡ zip2 (λ a b. a && not b) set.old (map (is_next_at (Some place)) self.now) }
    {
        match self.known_at(place) {
            Some(there) => set.minus_with(&there),
            None => drop_each_next(self.hosts.as_slice(), place, set),
        }
    }

    /// Whether some host's next place is this one.
    pub(crate) fn some_next_at(&self, place: usize) -> bool
        ensures { result ≡ list_any (is_next_at (Some place)) self.now }
    {
        match self.kept_at(place) {
            Some(kept) => !kept.is_empty(),
            None => some_next(self.hosts.as_slice(), place),
        }
    }

    /// Whether the next place of some host before this one is this place.
    pub(crate) fn some_next_before(&self, place: usize, host: usize) -> bool
        ensures { result ≡ list_any (is_next_at (Some place)) (take host self.now) }
    {
        match self.kept_at(place) {
            Some(kept) => has_before(kept, host),
            None => some_next(before(self.hosts.as_slice(), host), place),
        }
    }
}
