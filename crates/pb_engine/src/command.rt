//! What an engine may be commanded.

ghost use Rattle.std.specs.Prelude.{◌≡◌, length, not};
ghost use Rattle.pb_planes.specs.Set.{has_some};
ghost use Rattle.pb_state.specs.Machine.{ready};
ghost use Rattle.pb_engine.specs.Commands.{event_for, is_in_range, is_finished};

use pb_planes::HostSet;
use pb_state::{EngineState, Event, Plan};
use std::alloc::AllocError;
use thiserror::Error;

/// What an engine may be commanded.
#[derive(Clone, Copy, Debug, PartialEq, Eq)]
pub enum Command {
    /// No more is started or sent, and no batch opens or closes: what is out is still collected.
    Stop,
    /// From now on so many hosts may run at once. Those that run go on.
    Forks(u32),
}

/// Why a command wasn't taken.
#[derive(Clone, Copy, Debug, PartialEq, Eq, Error)]
pub enum CommandFault {
    /// The forks aren't 1 to the size of the pool.
    #[error("1 BadForks")]
    BadForks,
    /// The run is at its end.
    #[error("2 Finished")]
    Finished,
    /// Memory was refused.
    #[error("3 Memory")]
    Memory,
}

impl From<AllocError> for CommandFault {
    ghost use Rattle.std.specs.Prelude.{◌≡◌};
    ghost use Rattle.pb_engine.specs.declared.command.CommandFault.TheVariants.{Memory};

    ghost from_gives = { λ _ e. e ≡ Memory };

    fn from(_: AllocError) -> CommandFault {
        CommandFault::Memory
    }
}

/// The event that a command is.
pub(crate) fn event_for(command: Command) -> Event
    ensures { result ≡ event_for command }
{
    match command {
        Command::Stop => Event::Stop,
        Command::Forks(forks) => Event::Forks(forks),
    }
}

/// Whether the forks that are asked for are 1 to the size of the pool.
pub(crate) fn is_in_range(pool: u32, command: Command) -> bool
    ensures { result ≡ is_in_range pool command }
{
    match command {
        Command::Stop => true,
        Command::Forks(forks) => 1 <= forks && forks <= pool,
    }
}

/// Whether no host is ready. `set` is one of as many hosts as the state has, whose members don't matter.
#[tactic(auto, using(pb_state::proofs::Quiet::length_ready))]
fn none_ready(plan: &Plan, state: &EngineState, set: &mut HostSet) -> bool
    requires { length set.old ≡ length state.now.rows }
    ensures value { result ≡ not (has_some (ready plan.now state.now)) }
    ensures width { length set.new ≡ length state.now.rows }
{
    match state.kept_ready(plan) {
        Some(due) => due.is_empty(),
        None => {
            state.ready(plan, set);
            set.is_empty()
        }
    }
}

/// Whether a run is at its end. `ready` is a set of as many hosts as the state has, whose members don't matter.
pub(crate) fn is_finished(plan: &Plan, state: &EngineState, ready: &mut HostSet) -> bool
    requires { length ready.old ≡ length state.now.rows }
    ensures value { result ≡ is_finished plan.now state.now }
    ensures width { length ready.new ≡ length state.now.rows }
{
    none_ready(plan, state, ready)
        && !state.may_turn(plan)
        && !state.may_close(plan)
        && !state.may_open(plan)
        && !state.some_out()
}
