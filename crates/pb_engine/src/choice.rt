//! What the machine does next by itself.

ghost use Rattle.std.specs.Prelude.{◌≡◌, ◌<◌, length, slice_get, Some, true};
ghost use Rattle.pb_state.specs.Machine.{possible, ready};
ghost use Rattle.pb_engine.specs.Choice.{IsChoice, host_of};
ghost use Rattle.pb_state.specs.Over.{IsPlaced, IsGoing};

use crate::picker::Picker;
use pb_ids::{HostNo, Ticket};
use pb_planes::HostSet;
use pb_state::{EngineState, Event, Plan};

/// What the machine does next.
#[derive(Drop)]
pub enum Choice {
    /// This event is possible.
    Take(Event),
    /// Nothing is possible but the report of a job that is out.
    Waiting,
    /// Nothing is possible.
    Finished,
}

/// An event that the machine takes by itself, if there is one: a send or a start where a host is ready, else a turn, a
/// close or an open. `ready` is a set of as many hosts as the state has, whose members don't matter.
#[tactic(auto, using(pb_state::proofs::Quiet::length_ready))]
pub fn choose<P: Picker>(
    plan: &Plan,
    state: &EngineState,
    ready: &mut HostSet,
    picker: &mut P,
) -> Choice
    requires width { length ready.old ≡ length state.now.rows }
    requires placed { IsPlaced plan.now state.now }
    requires going { IsGoing state.now }
    requires forks { 0 < state.now.forks }
    ensures choice { IsChoice plan.now state.now P.picks picker.old picker.new result }
    ensures width { length ready.new ≡ length state.now.rows }
{
    match state.kept_ready(plan) {
        Some(due) => choose_among(plan, state, due, picker),
        None => {
            state.ready(plan, ready);
            choose_among(plan, state, ready, picker)
        }
    }
}

/// The same where these hosts are ready.
#[tactic(auto, using(pb_state::proofs::Quiet::quiet, pb_state::proofs::Quiet::finished_now, crate::proofs::Picked::picked, pb_state::proofs::Stuck::over_now))]
fn choose_among<P: Picker>(
    plan: &Plan,
    state: &EngineState,
    due: &HostSet,
    picker: &mut P,
) -> Choice
    requires due { due.now ≡ ready plan.now state.now }
    requires placed { IsPlaced plan.now state.now }
    requires going { IsGoing state.now }
    requires forks { 0 < state.now.forks }
    ensures { IsChoice plan.now state.now P.picks picker.old picker.new result }
{
    if !due.is_empty() {
        let host = picker.pick(due);
        return Choice::Take(event_of(plan, state, host));
    }
    if state.may_turn(plan) {
        return Choice::Take(Event::Turn);
    }
    if state.may_close(plan) {
        return Choice::Take(Event::Close);
    }
    if state.may_open(plan) {
        return Choice::Take(Event::Open);
    }
    if state.some_out() {
        Choice::Waiting
    } else {
        Choice::Finished
    }
}

/// What a host that is ready does: it sends the job of its next item if it has one to send, else it starts.
#[tactic(auto, using(pb_state::proofs::Quiet::ready_starts, pb_state::proofs::Quiet::idle_starts))]
fn event_of(plan: &Plan, state: &EngineState, host: HostNo) -> Event
    requires going { IsGoing state.now }
    requires ready { slice_get (ready plan.now state.now) host.0 ≡ Some true }
    ensures possible { possible plan.now state.now result ≡ true }
    ensures host { host_of result ≡ Some host }
{
    let ticket = Ticket(state.sends());
    match state.item(host) {
        Some(item) => {
            let attempt = state.attempt(host);
            if state.may_send(plan, host, item, attempt, ticket) {
                Event::Send {
                    host,
                    item,
                    attempt,
                    ticket,
                }
            } else {
                Event::Start(host)
            }
        }
        None => Event::Start(host),
    }
}
