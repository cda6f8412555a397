//! Where each host stands.

ghost use Rattle.std.specs.Prelude.{◌≡◌, ◌<◌, ◌+◌, ◌&&◌, ◌||◌, ◌^◌, ℕ, List, Option, Some, None, IfOk, OnOk, OnErr, true, false, length, map, take, not, count_by, replicate, slice_get, slice_set};
ghost use Rattle.std.specs.List.{list_any};
ghost use Rattle.std.specs.Simd.Lanes.{zip2};
ghost use Rattle.pb_limits.specs.Counts.{limits_of, running, running_at};
ghost use Rattle.pb_planes.specs.Set.{is_in, has_some};
ghost use Rattle.pb_strategies.specs.Kept.{AreWatched, is_idle_at};
ghost use Rattle.pb_strategies.specs.Hosts.{nowhere, same_place, is_unended, is_somewhere, is_next_at, is_under_way, runs_in};

mod asked;

use crate::numbers::Numbers;
use crate::watched::{Places, Watched, have_room};
use pb_ids::HostNo;
use pb_limits::Limits;
use pb_planes::HostSet;
use std::alloc::{AllocError, Global};
use std::marker::Model;

/// Where a host stands.
#[derive(Clone, Copy, Debug, PartialEq, Eq)]
pub struct Standing {
    /// Its next place in the open batch: none outside of the batch, and none at its end.
    pub next: Option<usize>,
    /// The place of the task that it runs.
    pub runs: Option<usize>,
    /// Whether it has started a task in the batch.
    pub has_begun: bool,
}

impl Standing {
    /// Outside of the batch.
    pub fn nowhere() -> Standing
        ensures { result ≡ nowhere }
    {
        Standing {
            next: None,
            runs: None,
            has_begun: false,
        }
    }
}

/// Where each host stands. Sets of hosts and counts are kept beside the list, so that a strategy needn't look at each host.
#[derive(Debug, Drop)]
pub struct Standings {
    hosts: Vec<Standing>,
    limits: Limits,
    /// How many have begun and aren't at their end.
    under_way: u32,
    /// The hosts that run.
    running: HostSet,
    /// Those that have begun.
    begun: HostSet,
    /// Those that have a next place.
    unended: HostSet,
    /// Those whose next place is the one that `stand_at` named last.
    here: Watched,
    /// Of these the ones that don't run.
    idle: HostSet,
    /// Those whose next place is one that is watched.
    watched: Places,
    /// The numbers of their next places, where not all of a play's places may be watched.
    numbers: Numbers,
}

impl Model for Standings {
    ghost use Rattle.std.specs.Prelude.{List};
    ghost use Rattle.pb_strategies.specs.declared.standings.Standing.{Standing};
    ghost use Rattle.pb_strategies.specs.Kept.{IsKept};

    ghost Value = { List Standing };

    ghost view = { λ s. s.hosts.items };

    ghost invariant = { λ s. IsKept s.hosts.items s.limits s.under_way s.running s.begun s.unended s.here s.idle s.watched.sets.items s.numbers.bits.items s.numbers.fits };
}

/// Whether both are the same place.
pub(crate) fn same_place(one: Option<usize>, other: Option<usize>) -> bool
    ensures { result ≡ same_place one other }
{
    match (one, other) {
        (Some(p), Some(q)) => p == q,
        _ => false,
    }
}

/// Whether this is a host's next place, and it doesn't run.
fn is_idle_at(host: &Standing, place: Option<usize>) -> bool
    ensures { result ≡ is_idle_at place host.now }
{
    same_place(host.next, place) && host.runs.is_none()
}

/// A host that ran this, if anything, runs nothing.
fn finish_if(limits: &mut Limits, old: Option<usize>)
    ensures { (places host : ℕ) (runs : List (Option ℕ)) → slice_get runs host ≡ Some old → limits.old ≡ limits_of places runs → limits.new ≡ limits_of places (slice_set runs host None) }
{
    if let Some(place) = old {
        limits.finish(place);
    }
}

/// A host that ran nothing runs this, if anything.
fn start_if(limits: &mut Limits, new: Option<usize>)
    ensures { (places host : ℕ) (runs : List (Option ℕ)) → length runs < 2 ^ 32 → slice_get runs host ≡ Some None → limits.old ≡ limits_of places runs
        → limits.new ≡ limits_of places (slice_set runs host new) }
{
    if let Some(place) = new {
        limits.start(place);
    }
}

/// So many hosts outside of the batch.
fn outside(alloc: Global, hosts: u32) -> Result<Vec<Standing>, AllocError>
    ensures { IfOk result (λ all. all.items ≡ replicate hosts nowhere) }
{
    let mut all = Vec::new(alloc);
    for _ in 0..hosts {
        all.push(Standing::nowhere())?;
    }
    Ok(all)
}

/// Makes a set the same as another one.
fn copy_into(from: &HostSet, set: &mut HostSet)
    requires { length set.old ≡ length from.now }
    ensures { set.new ≡ from.now }
{
    set.and_with(from);
    set.or_with(from);
}

/// Makes a set the union of three others.
fn unite_into(first: &HostSet, second: &HostSet, third: &HostSet, set: &mut HostSet)
    requires second { length second.now ≡ length first.now }
    requires third { length third.now ≡ length first.now }
    requires width { length set.old ≡ length first.now }
    ensures { set.new ≡ zip2 (λ a b. a || b) (zip2 (λ a b. a || b) first.now second.now) third.now }
{
    copy_into(first, set);
    set.or_with(second);
    set.or_with(third);
}

/// Takes all hosts out of a set that is as wide as another.
fn empty_by(other: &HostSet, set: &mut HostSet)
    requires { length set.old ≡ length other.now }
    ensures { set.new ≡ replicate (length set.old) false }
{
    set.and_with(other);
    set.minus_with(other);
}

/// The number behind that of a host of a set.
#[tactic(auto, using(crate::proofs::Members::member_below))]
pub(crate) fn behind(set: &HostSet, host: HostNo) -> u32
    requires { is_in set.now host.0 ≡ true }
    ensures { result ≡ host.0 + 1 }
{
    // (a set's width is a host number too)
    let _width = set.width();
    host.0 + 1
}

/// Puts the hosts whose next place is this one into a set without hosts: of those that have a next place each is asked.
pub(crate) fn put_next(
    hosts: &[Standing],
    place: Option<usize>,
    unended: &HostSet,
    set: &mut HostSet,
)
    requires unended { unended.now ≡ map is_unended hosts.now }
    requires none { set.old ≡ replicate (length hosts.now) false }
    ensures { set.new ≡ map (is_next_at place) hosts.now }
{
    let mut from = 0;
    while let Some(host) = unended.next_at(from) {
        let is_next = same_place(hosts[host.0 as usize].next, place);
        set.put(host, is_next);
        from = behind(unended, host);
    }
}

/// Puts the hosts whose next place is this one into a set.
fn next_at_into(hosts: &[Standing], place: Option<usize>, unended: &HostSet, set: &mut HostSet)
    requires unended { unended.now ≡ map is_unended hosts.now }
    requires width { length set.old ≡ length hosts.now }
    ensures { set.new ≡ map (is_next_at place) hosts.now }
{
    empty_by(unended, set);
    put_next(hosts, place, unended, set);
}

/// Takes the hosts whose next place is this one out of a set: of the hosts of the set each is asked.
#[tactic(auto, using(crate::proofs::Members::member_below))]
fn drop_each_next(hosts: &[Standing], place: usize, set: &mut HostSet)
    requires { length set.old ≡ length hosts.now }
    ensures { set.new ≡ zip2 (λ a b. a && not b) set.old (map (is_next_at (Some place)) hosts.now) }
{
    let mut from = 0;
    while let Some(host) = set.next_at(from) {
        let is_next = same_place(hosts[host.0 as usize].next, Some(place));
        from = behind(set, host);
        set.put(host, !is_next);
    }
}

/// Whether a set has a host before this one.
fn has_before(set: &HostSet, host: usize) -> bool
    ensures { result ≡ has_some (take host set.now) }
{
    match set.next_at(0) {
        Some(first) => (first.0 as usize) < host,
        None => false,
    }
}

/// The hosts before this one.
fn before(hosts: &[Standing], host: usize) -> &[Standing]
    ensures { result.now ≡ take host hosts.now }
{
    if host < hosts.len() {
        &hosts[..host]
    } else {
        hosts
    }
}

/// Puts a host outside of the batch, so that it is at none of the places that are watched. One past the end changes nothing.
fn forget_one(hosts: &mut Vec<Standing>, watched: &mut Places, host: HostNo)
    requires { AreWatched hosts.old.items watched.old.sets.items }
    ensures hosts { hosts.new.items ≡ slice_set hosts.old.items host.0 nowhere }
    ensures watched { AreWatched hosts.new.items watched.new.sets.items }
{
    let at = host.0 as usize;
    if at < hosts.len() {
        let old = hosts[at];
        watched.go_on(host, old.next, None);
        hosts[at] = Standing::nowhere();
    }
}

/// Puts those hosts outside of the batch that are in this set: the others are there already.
fn forget_each(hosts: &mut Vec<Standing>, watched: &mut Places, somewhere: &HostSet)
    requires somewhere { somewhere.now ≡ map is_somewhere hosts.old.items }
    requires watched { AreWatched hosts.old.items watched.old.sets.items }
    ensures hosts { hosts.new.items ≡ replicate (length hosts.old.items) nowhere }
    ensures watched { AreWatched hosts.new.items watched.new.sets.items }
{
    let mut from = 0;
    while let Some(host) = somewhere.next_at(from) {
        forget_one(hosts, watched, host);
        from = behind(somewhere, host);
    }
}

/// How many of these hosts run the task at a place.
fn count_at(hosts: &[Standing], place: usize) -> u32
    requires { length hosts.now < 2 ^ 32 }
    ensures { result ≡ running_at (runs_in hosts.now) place }
{
    let mut count = 0;
    for host in hosts {
        if same_place(Some(place), host.runs) {
            count += 1;
        }
    }
    count
}

/// Whether a host has begun and isn't at its end.
fn is_under_way(host: &Standing) -> bool
    ensures { result ≡ is_under_way host.now }
{
    host.has_begun && host.next.is_some()
}

/// How many hosts are under way once this one stands here, of so many before.
fn under_way_with(hosts: &[Standing], host: HostNo, standing: &Standing, count: u32) -> u32
    requires few { length hosts.now < 2 ^ 32 }
    requires there { host.0 < length hosts.now }
    requires count { count ≡ count_by is_under_way hosts.now }
    ensures { result ≡ count_by is_under_way (slice_set hosts.now host.0 standing.now) }
{
    let counted = is_under_way(&hosts[host.0 as usize]);
    let counts = is_under_way(standing);
    if counted {
        if counts { count } else { count - 1 }
    } else if counts {
        count + 1
    } else {
        count
    }
}

/// Whether some host's next place is this one.
fn some_next(hosts: &[Standing], place: usize) -> bool
    ensures { result ≡ list_any (is_next_at (Some place)) hosts.now }
{
    for host in hosts {
        if same_place(host.next, Some(place)) {
            return true;
        }
    }
    false
}

/// How many places a play has, if the sets of all of them may take more than those that are watched take at most; else none.
fn unwatched(hosts: u32, places: usize) -> usize {
    if have_room(hosts, places) { 0 } else { places }
}

impl Standings {
    /// So many hosts outside of the batch, whose play has so many places. The only error is want of memory.
    pub fn new(alloc: Global, hosts: u32, places: usize) -> Result<Standings, AllocError>
        ensures { IfOk result (λ standings. standings ≡ replicate hosts nowhere) }
    {
        let all = outside(alloc, hosts)?;
        let limits = Limits::new(alloc, places)?;
        let running = HostSet::empty(alloc, hosts)?;
        let begun = HostSet::empty(alloc, hosts)?;
        let unended = HostSet::empty(alloc, hosts)?;
        let here = Watched::nowhere(alloc, hosts)?;
        let idle = HostSet::empty(alloc, hosts)?;
        let watched = Places::none(alloc, places);
        let numbers = Numbers::none(alloc, hosts, unwatched(hosts, places))?;
        Ok(Standings {
            hosts: all,
            limits,
            under_way: 0,
            running,
            begun,
            unended,
            here,
            idle,
            watched,
            numbers,
        })
    }

    /// Puts all hosts outside of the batch; the play whose batch opens next has so many places. None of them is watched, unless there are as many as before:
    /// then those that were still are. Only hosts that stood somewhere are looked at. The only error is want of memory, which changes nothing.
    pub fn clear(&mut self, alloc: Global, places: usize) -> Result<(), AllocError>
        ensures ok { OnOk result (self.new ≡ replicate (length self.old) nowhere) }
        ensures err { OnErr result (self.new ≡ self.old) }
    {
        let limits = Limits::new(alloc, places)?;
        let hosts = self.unended.width();
        let numbers = Numbers::none(alloc, hosts, unwatched(hosts, places))?;
        unite_into(
            &self.unended,
            &self.begun,
            &self.running,
            &mut self.here.hosts,
        );
        forget_each(&mut self.hosts, &mut self.watched, &self.here.hosts);
        empty_by(&self.unended, &mut self.here.hosts);
        empty_by(&self.here.hosts, &mut self.unended);
        empty_by(&self.here.hosts, &mut self.begun);
        empty_by(&self.here.hosts, &mut self.running);
        empty_by(&self.here.hosts, &mut self.idle);
        self.limits = limits;
        self.under_way = 0;
        self.watched.go_over(places);
        self.numbers = numbers;
        Ok(())
    }

    /// Where each host stands, in the order of hosts.
    pub fn as_slice(&self) -> &[Standing]
        ensures { result.now ≡ self.now }
    {
        self.hosts.as_slice()
    }

    /// From now on a host stands here. One past the end changes nothing.
    pub fn put(&mut self, host: HostNo, standing: Standing)
        ensures { self.new ≡ slice_set self.old host.0 standing }
    {
        let at = host.0 as usize;
        if at < self.hosts.len() {
            let old = self.hosts[at];
            finish_if(&mut self.limits, old.runs);
            start_if(&mut self.limits, standing.runs);
            self.under_way = under_way_with(self.hosts.as_slice(), host, &standing, self.under_way);
            self.running.put(host, standing.runs.is_some());
            self.begun.put(host, standing.has_begun);
            self.unended.put(host, standing.next.is_some());
            self.here.put(host, standing.next);
            self.idle.put(host, is_idle_at(&standing, self.here.place));
            self.watched.go_on(host, old.next, standing.next);
            self.numbers.put(host, standing.next);
            self.hosts[at] = standing;
        }
    }

    /// From now on it is kept which hosts' next place is this one, so that `ready` needn't look for them.
    pub fn stand_at(&mut self, place: Option<usize>)
        ensures { self.new ≡ self.old }
    {
        next_at_into(
            self.hosts.as_slice(),
            place,
            &self.unended,
            &mut self.here.hosts,
        );
        copy_into(&self.here.hosts, &mut self.idle);
        self.idle.minus_with(&self.running);
        self.here.place = place;
    }

    /// From now on, until a batch opens of a play that has more places or fewer, it is kept which hosts' next place is this one too: for a place where a
    /// throttle may be full, so that `ready` needn't look for the hosts there. Where the place is none of the play's, or is watched already, or the sets of
    /// those that are would take more than 32 MiB, nothing changes. The only error is want of memory: then the place isn't watched, and nothing else has
    /// changed.
    pub fn watch(&mut self, alloc: Global, place: usize) -> Result<(), AllocError>
        ensures { self.new ≡ self.old }
    {
        self.watched
            .watch(alloc, self.hosts.as_slice(), &self.unended, place)
    }
}
