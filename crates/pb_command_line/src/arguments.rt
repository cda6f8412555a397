ghost use Rattle.std.specs.Prelude.{◌≡◌, map, false, codes, IfOk};
ghost use Rattle.clap.specs.Words.{app_of, new_app, rule_of};
ghost use Rattle.pb_command_line.specs.CommandLine.{rules, with_rules, program};
ghost use Rattle.pb_command_line.specs.Table.{rule_of_row};

use clap::{Arg, ArgAction, Command};
use std::alloc::{AllocError, Global};

/// How an argument is told from the others on the command line.
#[derive(Clone, Copy)]
enum Written {
    /// `-x`.
    Letter(char),
    /// `--name`.
    Name(&'static str),
    /// By its position alone.
    Position,
}

/// An argument of the program: its name in the code, how it is written, what help calls its value if it takes one, what help says of it, and
/// whether it has to be there. One that takes no value is a flag.
#[derive(Clone, Copy)]
struct Row {
    id: &'static str,
    written: Written,
    value: Option<&'static str>,
    help: &'static str,
    is_required: bool,
}

/// The arguments in the order of the help.
const ROWS: [Row; 17] = [
    Row {
        id: "inventory",
        written: Written::Letter('i'),
        value: Some("FILE"),
        help: "The inventory, a JSON file",
        is_required: true,
    },
    Row {
        id: "playbook",
        written: Written::Position,
        value: Some("PLAYBOOK"),
        help: "The playbook, a JSON file",
        is_required: true,
    },
    Row {
        id: "forks",
        written: Written::Letter('f'),
        value: Some("N"),
        help: "How many hosts run at once, 1 to 256; 5 if not given",
        is_required: false,
    },
    Row {
        id: "outcomes",
        written: Written::Name("outcomes"),
        value: Some("FILE"),
        help: "What comes of the jobs, a JSON file; no program is run then",
        is_required: false,
    },
    Row {
        id: "limit",
        written: Written::Letter('l'),
        value: Some("PATTERN"),
        help: "The hosts that the plays are limited to",
        is_required: false,
    },
    Row {
        id: "extra",
        written: Written::Letter('e'),
        value: Some("JSON"),
        help: "Variables over all others, a JSON object",
        is_required: false,
    },
    Row {
        id: "roles",
        written: Written::Name("roles"),
        value: Some("DIR"),
        help: "The folder that the roles stand in",
        is_required: false,
    },
    Row {
        id: "facts_program",
        written: Written::Name("facts-program"),
        value: Some("PATH"),
        help: "The program that prints a host's facts, a JSON object",
        is_required: false,
    },
    Row {
        id: "stop_after",
        written: Written::Name("stop-after"),
        value: Some("N"),
        help: "After how many reports of jobs the run is stopped",
        is_required: false,
    },
    Row {
        id: "same_under",
        written: Written::Name("same-under"),
        value: Some("M"),
        help: "Run it once more with M forks, and tell whether that ends in the same",
        is_required: false,
    },
    Row {
        id: "failed",
        written: Written::Name("failed"),
        value: Some("FILE"),
        help: "The file that the hosts that didn't get through are written to, as -l takes them",
        is_required: false,
    },
    Row {
        id: "trail",
        written: Written::Name("trail"),
        value: Some("FILE"),
        help: "The file that the run's events are written to, a line each",
        is_required: false,
    },
    Row {
        id: "audit",
        written: Written::Name("audit"),
        value: Some("TRAIL"),
        help: "Runs nothing: tells whether the events in this file are a legal run",
        is_required: false,
    },
    Row {
        id: "syntax_check",
        written: Written::Name("syntax-check"),
        value: None,
        help: "Runs nothing: tells whether the files are a plan",
        is_required: false,
    },
    Row {
        id: "list_hosts",
        written: Written::Name("list-hosts"),
        value: None,
        help: "Runs nothing: lists the hosts of each play",
        is_required: false,
    },
    Row {
        id: "strict",
        written: Written::Name("strict"),
        value: None,
        help: "Runs nothing where there is a warning",
        is_required: false,
    },
    Row {
        id: "where",
        written: Written::Name("where"),
        value: None,
        help: "Tells the place of a fault in the playbook or in a role's file",
        is_required: false,
    },
];

/// The argument of a row.
fn argument<'a>(alloc: Global, row: &Row) -> Arg<'a>
    ensures { (rule_of result ≡ rule_of_row row.now) × (result.global ≡ false) }
{
    let arg = Arg::new(alloc, row.id)
        .help(row.help)
        .required(row.is_required);
    let arg = match row.value {
        Some(name) => arg.value_name(name),
        None => arg.action(ArgAction::SetTrue),
    };
    match row.written {
        Written::Letter(letter) => arg.short(letter),
        Written::Name(name) => arg.long(name),
        Written::Position => arg,
    }
}

/// The program with the arguments of these rows.
fn program_of<'a>(alloc: Global, rows: &[Row]) -> Result<Command<'a>, AllocError>
    ensures { IfOk result (λ c. app_of c ≡ with_rules (new_app (codes "pb-play")) (map rule_of_row rows.now)) }
{
    let mut command = Command::new(alloc, "pb-play");
    for row in rows {
        command = command.arg(argument(alloc, row))?;
    }
    Ok(command)
}

/// The table of the arguments.
fn rows() -> [Row; 17]
    ensures { map rule_of_row result ≡ rules }
{
    ROWS
}

/// The program with all its arguments.
pub(crate) fn command<'a>(alloc: Global) -> Result<Command<'a>, AllocError>
    ensures { IfOk result (λ c. app_of c ≡ program) }
{
    program_of(alloc, &rows())
}
