//! Why a report is refused.

ghost use Rattle.std.specs.Prelude.{◌≡◌};
ghost use Rattle.pb_engine.specs.Refusals.{refusal_of};

use pb_outcome::job::Report;
use pb_state::EngineState;
use thiserror::Error;

/// Why a report was refused.
#[derive(Clone, Copy, Debug, PartialEq, Eq, Error)]
pub enum Refusal {
    /// No job was sent under its ticket.
    #[error("1 UnknownTicket")]
    UnknownTicket,
    /// The job of its ticket was reported before.
    #[error("2 AlreadyReported")]
    AlreadyReported,
    /// The job of its ticket is out for another host, item or attempt.
    #[error("3 WrongItem")]
    WrongItem,
    /// Memory was refused.
    #[error("4 Memory")]
    Memory,
}

/// Why a report is refused, but for memory.
pub(crate) fn refusal_for(state: &EngineState, report: &Report) -> Option<Refusal>
    ensures { result ≡ refusal_of state.now report.now }
{
    if report.ticket.0 >= state.sends() {
        return Some(Refusal::UnknownTicket);
    }
    if !state.is_ticket_out(report.ticket) {
        return Some(Refusal::AlreadyReported);
    }
    if !state.awaits(report.host, report.item, report.attempt, report.ticket) {
        return Some(Refusal::WrongItem);
    }
    None
}
