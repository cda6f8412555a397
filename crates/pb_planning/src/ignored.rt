//! Warnings of keys that a play's strategy ignores.
ghost use Rattle.std.specs.Prelude.{◌≡◌, ◌++◌, OnOk};
ghost use Rattle.pb_planning.specs.Ignored.{ignored_lines, line_of, lines_of, name_of};

use pb_roles::LinearKeys;
use pb_strategies::Strategy;
use pb_value::items::Items;
use pb_value::text::Text;
use std::alloc::{AllocError, Global};

/// The name of a strategy, as a play writes it.
fn name_of(strategy: Strategy) -> &'static str
    ensures { result.now ≡ name_of strategy }
{
    match strategy {
        Strategy::Linear => "linear",
        Strategy::Free => "free",
        Strategy::HostPinned => "host_pinned",
    }
}

/// Adds the line of a key, where it is written.
fn push_line(
    alloc: Global,
    lines: &mut Items<Text>,
    strategy: Strategy,
    is_written: bool,
    key: &str,
) -> Result<(), AllocError>
    ensures { OnOk result (lines.new ≡ lines.old ++ line_of strategy is_written key.now) }
{
    if is_written {
        let mut line = String::from_str(alloc, "warning: ")?;
        line.push_str(key)?;
        line.push_str(" is ignored under ")?;
        line.push_str(name_of(strategy))?;
        lines.push(Text::from_string(line))?;
    }
    Ok(())
}

/// Adds a line for each key that is written, in the order of their bytes.
fn push_each(
    alloc: Global,
    lines: &mut Items<Text>,
    strategy: Strategy,
    keys: LinearKeys,
) -> Result<(), AllocError>
    ensures { OnOk result (lines.new ≡ lines.old ++ lines_of strategy keys) }
{
    push_line(
        alloc,
        lines,
        strategy,
        keys.any_errors_fatal,
        "any_errors_fatal",
    )?;
    push_line(
        alloc,
        lines,
        strategy,
        keys.max_fail_percentage,
        "max_fail_percentage",
    )?;
    push_line(alloc, lines, strategy, keys.run_once, "run_once")
}

/// Adds lines for the keys that the strategy ignores.
pub(crate) fn push_ignored(
    alloc: Global,
    lines: &mut Items<Text>,
    strategy: Strategy,
    keys: LinearKeys,
) -> Result<(), AllocError>
    ensures { OnOk result (lines.new ≡ lines.old ++ ignored_lines strategy keys) }
{
    match strategy {
        Strategy::Linear => Ok(()),
        Strategy::Free => push_each(alloc, lines, Strategy::Free, keys),
        Strategy::HostPinned => push_each(alloc, lines, Strategy::HostPinned, keys),
    }
}
