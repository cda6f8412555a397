ghost use Rattle.std.specs.Prelude.{◌≡◌, ◌++◌, ℕ, List, IfOk, IfSome, Some, string_bytes};
ghost use Rattle.pb_cli.specs.Messages.{message, file_message, part_name, place_line, placed_message, part_of, IsBundleMessage};

use crate::files::FileFault;
use crate::places::place_if;
use pb_state::BundleFault;
use pb_value::text::Text;
use std::alloc::{AllocError, Global};
use std::fmt;
use std::fmt::Display;

/// The part of the program's work that a fault belongs to, in the order in which faults are met.
#[derive(Clone, Copy, Debug, PartialEq, Eq)]
pub enum Part {
    Words,
    File,
    Bundle,
    Inventory,
    Extra,
    Playbook,
    Limit,
    Roles,
    Outcomes,
    Trail,
    Run,
}

impl Part {
    /// The part's name in messages.
    pub fn name(self) -> &'static str
        ensures { result.now ≡ part_name self }
    {
        match self {
            Part::Words => "words",
            Part::File => "file",
            Part::Bundle => "bundle",
            Part::Inventory => "inventory",
            Part::Extra => "extra",
            Part::Playbook => "playbook",
            Part::Limit => "limit",
            Part::Roles => "roles",
            Part::Outcomes => "outcomes",
            Part::Trail => "trail",
            Part::Run => "run",
        }
    }
}

impl fmt::Display for Part {
    ghost output = { λ p. Some (part_name p) };

    fn fmt<W: fmt::Write>(&self, f: &mut fmt::Formatter<W>) -> fmt::Result {
        f.write_str(self.name())
    }
}

/// The line for standard error that tells a fault of a part.
pub fn message<F: Display>(alloc: Global, part: Part, fault: &F) -> Result<String, AllocError>
    ensures { IfOk result (λ s. IfSome (F.output fault.now) (λ text. string_bytes s ≡ message part text)) }
{
    format!(in alloc; "pb-play: {part}: {fault}\n")
}

/// The line for standard error that tells the fault of a file: with its path in front of what the system says.
pub fn file_message(alloc: Global, fault: &FileFault) -> Result<String, AllocError>
    ensures { IfOk result (λ line. IfSome fault.now.path (λ path. (said : List ℕ) × (string_bytes line ≡ file_message path said))) }
{
    let said = format!(in alloc; "{}", fault.error)?;
    let mut line = String::from_str(alloc, "pb-play: file: ")?;
    if let Some(path) = &fault.path {
        line.push_str(path.as_str())?;
        line.push_str(": ")?;
    }
    line.push_str(said.as_str())?;
    line.push('\n')?;
    Ok(line)
}

/// The line that says this of a part.
fn said_line(alloc: Global, part: Part, said: &str) -> Result<String, AllocError>
    ensures { IfOk result (λ line. string_bytes line ≡ message part said.now) }
{
    format!(in alloc; "pb-play: {part}: {said}\n")
}

/// Adds a place on a line of its own, if there is one.
fn push_place(text: &mut String, place: &Option<Text>) -> Result<(), AllocError>
    ensures { IfOk result (λ _. string_bytes text.new ≡ string_bytes text.old ++ place_line place.now) }
{
    let Some(place) = place else {
        return Ok(());
    };
    text.push_str("at ")?;
    text.push_str(place.as_str())?;
    text.push('\n')?;
    Ok(())
}

/// The line that says this of a part, and behind it one with its place, if there is one.
fn placed_message(
    alloc: Global,
    part: Part,
    said: &str,
    place: &Option<Text>,
) -> Result<String, AllocError>
    ensures { IfOk result (λ text. string_bytes text ≡ placed_message part said.now place.now) }
{
    let mut text = said_line(alloc, part, said)?;
    push_place(&mut text, place)?;
    Ok(text)
}

/// The part that a bundle's fault belongs to.
fn part_of(fault: &BundleFault) -> Part
    ensures { result ≡ part_of fault.now }
{
    match fault {
        BundleFault::Inventory(_) => Part::Inventory,
        BundleFault::Playbook(_) => Part::Playbook,
        BundleFault::Roles(_) => Part::Roles,
        BundleFault::Limit(_) => Part::Limit,
        BundleFault::Extra(_) => Part::Extra,
        BundleFault::BadForks => Part::Bundle,
        BundleFault::TooLarge => Part::Bundle,
        BundleFault::Memory => Part::Bundle,
    }
}

/// What is said of a bundle's fault behind its part.
fn said_of(alloc: Global, fault: &BundleFault) -> Result<String, AllocError> {
    match fault {
        BundleFault::Inventory(fault) => format!(in alloc; "{fault}"),
        BundleFault::Playbook(fault) => format!(in alloc; "{fault}"),
        BundleFault::Roles(fault) => format!(in alloc; "{fault}"),
        BundleFault::Limit(fault) => format!(in alloc; "{fault}"),
        BundleFault::Extra(fault) => format!(in alloc; "{fault}"),
        BundleFault::BadForks | BundleFault::TooLarge | BundleFault::Memory => {
            format!(in alloc; "{fault}")
        }
    }
}

/// The line for standard error that tells a fault of a bundle, by its part, and behind it, where places are asked for, one with the place in the playbook or in a
/// role's file at which the fault stands.
pub fn bundle_message(
    alloc: Global,
    fault: &BundleFault,
    places: bool,
) -> Result<String, AllocError>
    ensures { IfOk result (λ text. IsBundleMessage places fault.now (string_bytes text)) }
{
    let said = said_of(alloc, fault)?;
    let place = place_if(alloc, places, fault)?;
    placed_message(alloc, part_of(fault), said.as_str(), &place)
}
