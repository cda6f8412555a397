//! How a place is left, and how a batch closes.

ghost use Rattle.std.specs.Prelude.{◌≡◌, ◌<◌, OnOk, OnErr, IfOk, true, false};
ghost use Rattle.std.specs.Prelude.{◌-◌, ◌^◌};
ghost use Rattle.std.specs.List.{list_any};
ghost use Rattle.std.specs.Option.{option_map_or};
ghost use Rattle.pb_state.specs.Machine.{play_behind};

use super::EngineState;
use crate::event::Event;
use crate::known::turn_keeps_at;
use crate::sizes_left::SizesLeft;
use pb_facts::update::FactsUndo;
use pb_host::put_step_result;
use pb_hosts::{TurnResult, least_place, leave_all, some_in, stand_at, turn_rows};
use pb_ids::HostNo;
use pb_inventory::inventory::Inventory;
use pb_plan::{Plan, PlanPlay};
use std::alloc::AllocError;

impl EngineState {
    ghost use Rattle.pb_state.specs.Known.{turn_keeps};
    ghost use Rattle.pb_state.specs.Machine.{open_play, may_turn_in};
    ghost use Rattle.pb_host.specs.Runs.{is_running};
    ghost use Rattle.pb_state.specs.Machine.{after, turned_in, moved, batch_of, with_batch, closed};
    ghost use Rattle.pb_state.specs.Machine.{learnt_by};
    ghost use Rattle.pb_hosts.specs.Turn.{turned};
    ghost use Rattle.pb_hosts.specs.Applied.{LearnInTurn};

    /// Whether hosts know what they knew once the batch goes on from its current place.
    pub(crate) fn turn_keeps(&self, play: &PlanPlay) -> bool
        ensures { result ≡ turn_keeps self.now play.now }
    {
        match self.place {
            Some(place) => turn_keeps_at(play, place),
            None => true,
        }
    }

    /// What was before each host learnt something is handed out, in the order in which they did.
    pub(crate) fn turn(&mut self, plan: &Plan) -> Result<Vec<(HostNo, FactsUndo)>, AllocError>
        requires { option_map_or (may_turn_in self.old) (open_play plan.now self.old) false ≡ true }
        ensures ok { OnOk result (self.new ≡ after plan.now self.old Event.Turn) }
        ensures learnt { IfOk result (λ log. LearnInTurn log.items (learnt_by self.old.rows) (learnt_by self.new.rows)) }
        ensures err { OnErr result (self.new ≡ self.old) }
    {
        match self.open_play(plan) {
            Some(play) => self.turn_in(plan.inventory(), play),
            None => Ok(Vec::new(self.alloc)),
        }
    }

    /// The batch goes on from its current place: first its hosts, and then the place.
    pub(crate) fn turn_in(
        &mut self,
        inventory: &Inventory,
        play: &PlanPlay,
    ) -> Result<Vec<(HostNo, FactsUndo)>, AllocError>
        requires open { self.old.is_open ≡ true }
        requires may { may_turn_in self.old play.now ≡ true }
        ensures ok { OnOk result (self.new ≡ turned_in inventory.now self.old play.now) }
        ensures learnt { IfOk result (λ log. LearnInTurn log.items (learnt_by self.old.rows) (learnt_by self.new.rows)) }
        ensures err { OnErr result (self.new ≡ self.old) }
    {
        if let Some(place) = self.place {
            let learnt = self.turn_hosts(inventory, play, place)?;
            self.move_on();
            return Ok(learnt);
        }
        self.move_on();
        Ok(Vec::new(self.alloc))
    }

    /// What one host did for all goes to the others, and hosts are halted; where they are, no further batch of the play comes. What was before the others
    /// learnt something is handed out.
    pub(crate) fn turn_hosts(
        &mut self,
        inventory: &Inventory,
        play: &PlanPlay,
        place: usize,
    ) -> Result<Vec<(HostNo, FactsUndo)>, AllocError>
        requires open { self.old.is_open ≡ true }
        requires idle { list_any is_running self.old.rows ≡ false }
        ensures ok { OnOk result (self.new ≡ with_batch (turned inventory.now play.now place (batch_of self.old)) self.old) }
        ensures learnt { IfOk result (λ log. LearnInTurn log.items (learnt_by self.old.rows) (learnt_by self.new.rows)) }
        ensures err { OnErr result (self.new ≡ self.old) }
    {
        let TurnResult { halts, learnt } = turn_rows(
            self.alloc,
            &mut self.rows,
            inventory,
            play,
            place,
        )?;
        if halts {
            drop_sizes(&mut self.sizes_left, SizesLeft::none(self.alloc));
        }
        Ok(learnt)
    }

    /// The current place becomes the least next place of the batch.
    pub(crate) fn move_on(&mut self)
        ensures { self.new ≡ moved self.old (batch_of self.old) }
    {
        let place = least_place(&self.rows);
        stand_at(&mut self.rows, place);
        self.place = place;
        put_step_result(&mut self.step_result, None);
    }

    pub(crate) fn close(&mut self)
        requires { self.old.is_open ≡ true }
        ensures { self.new ≡ closed self.old }
    {
        self.ended = !some_in(&self.rows);
        leave_all(&mut self.rows);
        self.play = play_behind(self.sizes_left.has_some(), self.play);
        self.is_open = false;
        self.begun.clear();
        put_step_result(&mut self.step_result, None);
    }
}

/// The sizes of the batches that are left become these.
fn drop_sizes(slot: &mut SizesLeft, sizes_left: SizesLeft)
    ensures { slot.new ≡ sizes_left }
{
    *slot = sizes_left;
}

/// The number of the play to which a batch of this one leads.
fn play_behind(goes_on: bool, play: usize) -> usize
    requires { play < 2 ^ 64 - 1 }
    ensures { result ≡ play_behind goes_on play }
{
    if goes_on { play } else { play + 1 }
}
