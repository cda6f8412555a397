//! How a batch opens.

ghost use Rattle.std.specs.Prelude.{◌≡◌, ◌≤◌, ◌<◌, length, map, OnOk, OnErr, IfOk, slice_get, true, false};
ghost use Rattle.std.specs.Prelude.{replicate};
ghost use Rattle.std.specs.Option.{option_map_or};
ghost use Rattle.pb_host.specs.Host.{as_play_begins, left};
ghost use Rattle.pb_hosts.specs.Batches.{has_batch_left};
ghost use Rattle.pb_state.specs.Machine.{first_by};

use super::EngineState;
use crate::event::Event;
use crate::sizes_left::{SizesLeft, first_of};
use pb_batches::batches;
use pb_host::put_step_result;
use pb_hosts::{Hosts, begin_first, join_first, least_place, play_host_count, stand_at};
use pb_plan::{Plan, PlanPlay};
use pb_strategies::Strategy;
use std::alloc::{AllocError, Global};

impl EngineState {
    ghost use Rattle.pb_state.specs.Machine.{next_play, may_open};
    ghost use Rattle.pb_state.specs.Machine.{after, opened_by, goes_on, begins, begins_at, with_place, closed};

    pub(crate) fn open(&mut self, plan: &Plan) -> Result<(), AllocError>
        requires { may_open plan.now self.old ≡ true }
        ensures ok { OnOk result (self.new ≡ after plan.now self.old Event.Open) }
        ensures err { OnErr result (self.new ≡ self.old) }
    {
        if self.sizes_left.has_some() {
            self.go_on(plan)
        } else {
            self.begin_next(plan)
        }
    }

    /// The next batch opens of the play that goes on.
    pub(crate) fn go_on(&mut self, plan: &Plan) -> Result<(), AllocError>
        requires closed { self.old.is_open ≡ false }
        requires left { has_batch_left self.old.sizes_left ≡ true }
        ensures ok { OnOk result (self.new ≡ option_map_or (goes_on self.old) (slice_get plan.now.plays self.old.play) self.old) }
        ensures err { OnErr result (self.new ≡ self.old) }
    {
        match plan.plays().get(self.play) {
            Some(play) => self.go_on_in(play),
            None => Ok(()),
        }
    }

    pub(crate) fn go_on_in(&mut self, play: &PlanPlay) -> Result<(), AllocError>
        requires closed { self.old.is_open ≡ false }
        requires left { has_batch_left self.old.sizes_left ≡ true }
        ensures ok { OnOk result (self.new ≡ goes_on self.old play.now) }
        ensures err { OnErr result (self.new ≡ self.old) }
    {
        let Some(size) = self.sizes_left.first() else {
            return Ok(());
        };
        let places = play.tree().places();
        let begun = none_begun(self.alloc, places)?;
        join_first(
            self.alloc,
            &mut self.rows,
            size,
            play.laid(),
            play.throttles(),
        )?;
        self.sizes_left.pass();
        self.batch += 1;
        self.begun = begun;
        self.is_open = true;
        self.stand_first(play.strategy());
        put_step_result(&mut self.step_result, None);
        Ok(())
    }

    /// The next play begins that has hosts, with its first batch.
    pub(crate) fn begin_next(&mut self, plan: &Plan) -> Result<(), AllocError>
        requires closed { self.old.is_open ≡ false }
        requires none { has_batch_left self.old.sizes_left ≡ false }
        ensures ok { OnOk result (self.new ≡ option_map_or (begins_at plan.now self.old) (next_play plan.now self.old) self.old) }
        ensures err { OnErr result (self.new ≡ self.old) }
    {
        let plays = plan.plays();
        match self.next_play(plan) {
            Some(number) => self.begin_at(number, plays),
            None => Ok(()),
        }
    }

    pub(crate) fn begin_at(&mut self, number: usize, plays: &[PlanPlay]) -> Result<(), AllocError>
        requires closed { self.old.is_open ≡ false }
        requires none { has_batch_left self.old.sizes_left ≡ false }
        requires least { self.old.play ≤ number }
        requires most { length plays.now ≤ 256 }
        ensures ok { OnOk result (self.new ≡ option_map_or (begins self.old number) (slice_get plays.now number) self.old) }
        ensures err { OnErr result (self.new ≡ self.old) }
    {
        match plays.get(number) {
            Some(play) => self.begin_in(number, play),
            None => Ok(()),
        }
    }

    pub(crate) fn begin_in(&mut self, number: usize, play: &PlanPlay) -> Result<(), AllocError>
        requires closed { self.old.is_open ≡ false }
        requires none { has_batch_left self.old.sizes_left ≡ false }
        requires least { self.old.play ≤ number }
        requires below { number < 256 }
        ensures ok { OnOk result (self.new ≡ begins self.old number play.now) }
        ensures err { OnErr result (self.new ≡ self.old) }
    {
        let hosts = play_host_count(self.rows.as_slice(), play.hosts());
        let sizes = batches(self.alloc, play.serial(), hosts)?;
        match first_of(sizes.as_slice()) {
            Some(size) => self.begin_with(number, play, size, sizes),
            None => Ok(()),
        }
    }

    /// A play begins whose batches have these sizes, of which the first is this one.
    pub(crate) fn begin_with(
        &mut self,
        number: usize,
        play: &PlanPlay,
        size: u32,
        sizes: Vec<u32>,
    ) -> Result<(), AllocError>
        requires closed { self.old.is_open ≡ false }
        requires none { has_batch_left self.old.sizes_left ≡ false }
        requires least { self.old.play ≤ number }
        requires below { number < 256 }
        requires few { length sizes.items ≤ 1048576 }
        ensures ok { OnOk result (self.new ≡ opened_by self.old number 0 sizes.items (map (as_play_begins play.now.hosts) self.old.rows) play.now size) }
        ensures err { OnErr result (self.new ≡ self.old) }
    {
        let places = play.tree().places();
        let begun = none_begun(self.alloc, places)?;
        begin_first(
            self.alloc,
            &mut self.rows,
            play.hosts(),
            size,
            play.laid(),
            play.throttles(),
        )?;
        self.sizes_left = SizesLeft::behind(sizes);
        self.batch = 0;
        self.play = number;
        self.begun = begun;
        self.is_open = true;
        self.stand_first(play.strategy());
        put_step_result(&mut self.step_result, None);
        Ok(())
    }

    /// The first place of the batch becomes the current one, under the linear strategy.
    pub(crate) fn stand_first(&mut self, strategy: Strategy)
        ensures { self.new ≡ with_place (first_by strategy self.old.rows) self.old }
    {
        let place = first_by(strategy, &self.rows);
        stand_at(&mut self.rows, place);
        self.place = place;
    }
}

/// The first place of a batch of these hosts: there is no current place but under the linear strategy.
fn first_by(strategy: Strategy, rows: &Hosts) -> Option<usize>
    ensures { result ≡ first_by strategy rows.now }
{
    match strategy {
        Strategy::Linear => least_place(rows),
        Strategy::Free | Strategy::HostPinned => None,
    }
}

/// No place of this many has begun.
fn none_begun(alloc: Global, places: usize) -> Result<Vec<bool>, AllocError>
    ensures { IfOk result (λ begun. begun.items ≡ replicate places false) }
{
    Ok(vec![in alloc; false; places]?)
}
