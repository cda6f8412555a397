//! The hosts at certain places.

ghost use Rattle.std.specs.Prelude.{◌≡◌, ◌<◌, ◌≤◌, ℕ, IfOk, IfSome, OnOk, List, [], Some, None, true, false, length, map, replicate, slice_index_or};
ghost use Rattle.pb_strategies.specs.declared.standings.Standing.{Standing};
ghost use Rattle.pb_strategies.specs.Hosts.{is_unended};
ghost use Rattle.pb_strategies.specs.Kept.{AreWatched, AreWide, put_at, put_into, with_next};

use crate::standings::{Standing, put_next, same_place};
use pb_ids::HostNo;
use pb_planes::HostSet;
use std::alloc::{AllocError, Global};

/// The hosts whose next place is this one.
#[derive(Debug, Drop)]
pub(crate) struct Watched {
    pub(crate) place: Option<usize>,
    pub(crate) hosts: HostSet,
}

impl Watched {
    /// No place, at which none of so many hosts is. The only error is want of memory.
    pub(crate) fn nowhere(alloc: Global, hosts: u32) -> Result<Watched, AllocError>
        ensures { IfOk result (λ watched. watched ≡ record { place = None; hosts = replicate hosts false }) }
    {
        let hosts = HostSet::empty(alloc, hosts)?;
        Ok(Watched { place: None, hosts })
    }

    /// From now on this is the next place of a host.
    pub(crate) fn put(&mut self, host: HostNo, next: Option<usize>)
        requires { host.0 < length self.old.hosts }
        ensures { self.new ≡ with_next host.0 next self.old }
    {
        self.hosts.put(host, same_place(next, self.place));
    }
}

/// So many words of 64 bits the sets of all places that are watched take at most: 32 MiB.
const MOST_WORDS: u32 = 4_194_304;

/// How many words the set of a place takes.
pub(crate) fn words_for(hosts: u32) -> u32
    ensures { 0 < result }
{
    hosts / 64 + 1
}

/// Whether each of so many places may be watched.
pub(crate) fn have_room(hosts: u32, places: usize) -> bool {
    places <= (MOST_WORDS / words_for(hosts)) as usize
}

/// Of each place of a play that is watched the hosts whose next place it is.
#[derive(Debug, Drop)]
pub(crate) struct Places {
    /// The set of a place stands at its number.
    pub(crate) sets: Vec<Option<HostSet>>,
    /// How many places the play has.
    places: usize,
    /// So many words are left for the sets of further ones.
    words: u32,
}

impl Places {
    /// Of so many places none is watched.
    pub(crate) fn none(alloc: Global, places: usize) -> Places
        ensures { result.sets.items ≡ [] }
    {
        Places {
            sets: Vec::new(alloc),
            places,
            words: MOST_WORDS,
        }
    }

    /// From now on the places are those of a play that has so many. None is watched, unless it has as many as the one before: then those that were still are,
    /// so that a play's batches share them.
    #[tactic(auto, using(crate::proofs::Watching::none_watched))]
    pub(crate) fn go_over(&mut self, places: usize)
        ensures { (hosts : List Standing) → AreWatched hosts self.old.sets.items → AreWatched hosts self.new.sets.items }
    {
        if self.places != places {
            self.sets.clear();
            self.places = places;
            self.words = MOST_WORDS;
        }
    }

    /// From now on a host's next place is another one.
    pub(crate) fn go_on(&mut self, host: HostNo, old: Option<usize>, new: Option<usize>)
        requires { AreWide host.0 self.old.sets.items }
        ensures { self.new.sets.items ≡ put_at new host.0 true (put_at old host.0 false self.old.sets.items) }
    {
        put_at(&mut self.sets, old, host, false);
        put_at(&mut self.sets, new, host, true);
    }

    /// Whether there is a place with this number that isn't watched yet, and room for its set.
    fn may_watch(&self, place: usize, words: u32) -> bool
        ensures { result ≡ true → words ≤ self.now.words }
    {
        place < self.places && words <= self.words && set_of(self, place).is_none()
    }

    /// From now on a place is watched at which of these hosts some are, if there is one with this number and room for its set. The only error is want of
    /// memory: then it isn't.
    #[tactic(auto, using(crate::proofs::Watching::one_more, crate::proofs::Watching::same_watched))]
    pub(crate) fn watch(
        &mut self,
        alloc: Global,
        hosts: &[Standing],
        unended: &HostSet,
        place: usize,
    ) -> Result<(), AllocError>
        requires unended { unended.now ≡ map is_unended hosts.now }
        requires watched { AreWatched hosts.now self.old.sets.items }
        ensures { AreWatched hosts.now self.new.sets.items }
    {
        let words = words_for(unended.width());
        if self.may_watch(place, words) {
            reach(&mut self.sets, place)?;
            let mut set = HostSet::empty(alloc, unended.width())?;
            put_next(hosts, Some(place), unended, &mut set);
            self.sets[place] = Some(set);
            self.words -= words;
        }
        Ok(())
    }
}

/// Puts a host into a set or takes it out, where there is a set.
fn put_into(set: &mut Option<HostSet>, host: HostNo, is_in: bool)
    requires { IfSome set.old (λ hosts. host.0 < length hosts) }
    ensures { set.new ≡ put_into host.0 is_in set.old }
{
    if let Some(hosts) = set {
        hosts.put(host, is_in);
    }
}

/// Puts a host into the set of a place or takes it out, where the place is watched.
fn put_at(sets: &mut Vec<Option<HostSet>>, place: Option<usize>, host: HostNo, is_in: bool)
    requires { AreWide host.0 sets.old.items }
    ensures { sets.new.items ≡ put_at place host.0 is_in sets.old.items }
{
    if let Some(place) = place {
        if place < sets.len() {
            put_into(&mut sets[place], host, is_in);
        }
    }
}

/// Further places, none of which is watched, as far as this one. The only error is want of memory: then they don't reach so far.
#[tactic(auto, using(crate::proofs::Watching::none_more))]
fn reach(sets: &mut Vec<Option<HostSet>>, place: usize) -> Result<(), AllocError>
    ensures far { OnOk result (place < length sets.new.items) }
    ensures same { (one : ℕ) → slice_index_or sets.new.items one None ≡ slice_index_or sets.old.items one None }
{
    while sets.len() <= place {
        sets.push(None)?;
    }
    Ok(())
}

/// The hosts whose next place is this one, where it is watched.
pub(crate) fn set_of(watched: &Places, place: usize) -> Option<&HostSet>
    ensures { IfSome result (λ set. slice_index_or watched.now.sets.items place None ≡ Some set.now) }
{
    match watched.sets.as_slice().get(place) {
        Some(kept) => match kept {
            Some(set) => Some(set),
            None => None,
        },
        None => None,
    }
}
