//! A host in a batch: it waits for it, joins, goes on with the others, and leaves.

ghost use Rattle.std.specs.Prelude.{◌≡◌};

use super::{Host, is_active, put_last, put_walk, run};
use crate::ends::breaks;
use pb_cursors::PlayWalk;
use pb_planes::HostSet;
use pb_tree::{Answer, Kind};
use std::alloc::Global;

impl Host {
    ghost use Rattle.pb_host.specs.Host.{as_play_begins, left};
    ghost use Rattle.pb_host.specs.Walking.{with_walk};
    ghost use Rattle.pb_host.specs.Turned.{answer_copied_at, with_answer, may_be_halted, halted_if};

    /// A play begins that has these hosts of its own: the host waits for its batch where it is one of them and active.
    pub fn begin_play(&mut self, hosts: &HostSet)
        ensures { self.new ≡ as_play_begins hosts.now self.old }
    {
        self.awaits_batch = self.is_play_host(hosts);
    }

    /// The host gets what another one answered at a place, where that is its next place.
    #[tactic(auto, using(crate::proofs::Placed::at_inside))]
    fn copy_answer(&mut self, alloc: Global, place: usize, kind: Kind, is_caught: bool)
        ensures { self.new ≡ answer_copied_at place is_caught self.old kind }
    {
        if self.is_at(place) {
            self.answer(&Answer::plain(alloc, kind));
            self.is_broken = self.is_broken || breaks(is_caught, kind);
        }
    }

    /// The same where one answered something for all.
    fn take_answer(&mut self, alloc: Global, place: usize, kind: Option<Kind>, is_caught: bool)
        ensures { self.new ≡ with_answer place kind is_caught self.old }
    {
        if let Some(kind) = kind {
            self.copy_answer(alloc, place, kind, is_caught);
        }
    }

    /// Whether the host is halted where hosts are: it is active, not broken, and not at its end.
    fn may_be_halted(&self) -> bool
        ensures { result ≡ may_be_halted self.now }
    {
        is_active(self.status) && !self.is_broken && self.next_place().is_some()
    }

    /// The host is halted where hosts are.
    #[tactic(auto, using(crate::proofs::Placed::halted_inside))]
    fn halt_if(&mut self, alloc: Global, halts: bool)
        ensures { self.new ≡ halted_if halts self.old }
    {
        if halts && self.may_be_halted() {
            self.answer(&Answer::plain(alloc, Kind::Halted));
        }
    }

    /// The batch goes on from a place: the host gets what another one answered for all there, if one did, and is halted where hosts are. It takes no
    /// memory.
    pub fn turn(
        &mut self,
        alloc: Global,
        place: usize,
        kind: Option<Kind>,
        is_caught: bool,
        halts: bool,
    )
        ensures { self.new ≡ halted_if halts (with_answer place kind is_caught self.old) }
    {
        self.take_answer(alloc, place, kind, is_caught);
        self.halt_if(alloc, halts);
    }

    /// The batch opens, in which the host takes this walk, if it takes part. What it has learnt stays where it is.
    pub fn join(&mut self, walk: Option<PlayWalk>)
        ensures { self.new ≡ with_walk walk self.old }
    {
        put_walk(&mut self.walk, walk);
        run(&mut self.running, None);
        put_last(&mut self.last, None);
        self.is_broken = false;
    }

    /// The batch closes.
    pub fn leave(&mut self)
        ensures { self.new ≡ left self.old }
    {
        self.awaits_batch = self.awaits_batch && !self.in_batch();
        put_walk(&mut self.walk, None);
        run(&mut self.running, None);
        put_last(&mut self.last, None);
        self.is_broken = false;
    }
}
