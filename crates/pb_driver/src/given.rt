//! The commands that a run is given.

ghost use Rattle.std.specs.Prelude.{◌≡◌, ◌<◌, ◌-◌, ◌^◌, IfSome, None, Some, drop, length, slice_get, true};
ghost use Rattle.std.specs.Option.{option_copied, option_map_or};
ghost use Rattle.pb_driver.specs.Commanded.{is_due, none_due, count_report};

use pb_engine::Command;
use pb_state::Event;

/// A command, and how many reports come before it.
#[derive(Clone, Copy, Debug, PartialEq, Eq)]
pub struct Given {
    /// The command is given once so many reports came, and those before it in the list were given.
    pub after: u32,
    pub command: Command,
}

/// How far a run has come with its commands: how many of them were given, and how many reports came.
#[derive(Clone, Copy)]
pub(crate) struct CommandCursor {
    pub given: usize,
    pub reports: u64,
}

/// Whether so many reports came as a command says.
fn is_due(reports: u64, given: Given) -> bool
    ensures { result ≡ is_due reports given }
{
    given.after as u64 <= reports
}

/// The next command, if it is due.
pub(crate) fn next_due(commands: &[Given], cursor: CommandCursor) -> Option<Given>
    ensures next { IfSome result (λ given. slice_get commands.now cursor.given ≡ Some given) }
    ensures due { IfSome result (λ given. is_due cursor.reports given ≡ true) }
    ensures within { IfSome result (λ given. cursor.given < length commands.now) }
    ensures below { IfSome result (λ given. cursor.given < 2 ^ 64 - 1) }
    ensures none { result ≡ None → none_due cursor.reports (drop cursor.given commands.now) ≡ true }
{
    if cursor.given >= commands.len() {
        return None;
    }
    let given = commands[cursor.given];
    if is_due(cursor.reports, given) {
        Some(given)
    } else {
        None
    }
}

/// How many reports came, with the last event.
pub(crate) fn count_last(reports: u64, last: Option<&Event>) -> u64
    requires { reports < 2 ^ 64 - 1 }
    ensures { result ≡ option_map_or (count_report reports) (option_copied last.entry) reports }
{
    match last {
        Some(Event::Report(_)) => reports + 1,
        _ => reports,
    }
}
