ghost use Rattle.std.specs.Prelude.{◌≡◌, ℕ, List};
ghost use Rattle.pb_reading.specs.Reading as reading;
ghost use Rattle.pb_reading.specs.Reading.{Gives, Own};
ghost use Rattle.pb_reading.specs.declared.stop.Stop.TheVariants.{Memory, WrongShape, Fault};
ghost use Rattle.std.specs.Option.{option_copied};
ghost use Rattle.pb_written.specs.Faults.{as_load_fault, refused_key, refused_below, no_expression, place_at, place_of};

use pb_reading::stop::Stop;
use pb_value::path::child;
use pb_value::text::Text;
use std::alloc::Global;
use std::fmt;
use thiserror::Error;

/// What there may be so many of and no more.
#[derive(Clone, Copy, Debug, PartialEq, Eq)]
pub enum Limit {
    /// The blocks that stand inside one another, the outermost counted too: 32.
    Blocks,
    /// The plays of a playbook: 256.
    Plays,
}

impl fmt::Display for Limit {
    ghost use Rattle.std.specs.Prelude.{Some};
    ghost use Rattle.pb_written.specs.Faults.{limit_name};

    ghost output = { λ l. Some (limit_name l) };

    fn fmt<W: fmt::Write>(&self, f: &mut fmt::Formatter<W>) -> fmt::Result {
        match self {
            Limit::Blocks => f.write_str("blocks"),
            Limit::Plays => f.write_str("plays"),
        }
    }
}

/// Why bytes are no playbook.
#[derive(Debug, Drop, Error)]
pub enum LoadFault {
    /// The bytes aren't JSON (RFC 8259), or nest deeper than 127.
    #[error("1 NotJson")]
    NotJson,
    /// A value of a wrong kind, or an object without a key that it has to have, stands at this path.
    #[error("2 WrongShape {path}")]
    WrongShape { path: Text },
    /// A key that isn't read, or a value of it that isn't provided for, stands at this path.
    #[error("3 NotInProfile {key}")]
    NotInProfile { key: Text, path: Text },
    /// The task at this path names no module.
    #[error("4 NoModule")]
    NoModule { path: Text },
    /// The task at this path names two modules.
    #[error("5 TwoModules")]
    TwoModules { path: Text },
    /// A text that isn't a template or an expression, where one is read, stands in the value at this path.
    #[error("6 BadExpression")]
    BadExpression { path: Text },
    /// What stands at this path is no batch size.
    #[error("7 BadSerial")]
    BadSerial { path: Text },
    /// What stands at this path is no strategy.
    #[error("8 BadStrategy")]
    BadStrategy { path: Text },
    /// The list at this path has more members than it may have, or the block there stands inside of too many.
    #[error("9 TooLarge {which}")]
    TooLarge { which: Limit, path: Text },
    /// What stands at this path is no pattern of hosts: it has no element, or one with wrong square brackets or a refused regular expression,
    /// or `{{` stands in it.
    #[error("10 BadPattern")]
    BadPattern { path: Text },
    /// Memory was wanting.
    #[error("11 Memory")]
    Memory,
}

impl LoadFault {
    /// Where in its file the fault stands: keys and numbers in lists, with `/` between. A fault of the whole file has no such place.
    pub fn place(&self) -> Option<&Text>
        ensures { option_copied result ≡ place_of self.now }
    {
        match self {
            LoadFault::NotJson => None,
            LoadFault::WrongShape { path } => place_at(path),
            LoadFault::NotInProfile { key: _, path } => place_at(path),
            LoadFault::NoModule { path } => place_at(path),
            LoadFault::TwoModules { path } => place_at(path),
            LoadFault::BadExpression { path } => place_at(path),
            LoadFault::BadSerial { path } => place_at(path),
            LoadFault::BadStrategy { path } => place_at(path),
            LoadFault::TooLarge { which: _, path } => place_at(path),
            LoadFault::BadPattern { path } => place_at(path),
            LoadFault::Memory => None,
        }
    }
}

/// The place at a path, unless that is the whole file.
fn place_at(path: &Text) -> Option<&Text>
    ensures { option_copied result ≡ place_at path.now }
{
    if path.is_empty() {
        return None;
    }
    Some(path)
}

/// A key that isn't read, or a value of it, at the path.
pub fn not_in_profile<T>(alloc: Global, path: &Text, key: &str) -> Result<T, Stop<LoadFault>>
    ensures { Gives result (refused_key path.now key.now) }
{
    let key = Text::from_str(alloc, key)?;
    let path = path.try_clone()?;
    Err(Stop::Fault(LoadFault::NotInProfile { key, path }))
}

/// A key that isn't read, in the object at the path.
pub fn refused_below<T>(alloc: Global, path: &Text, key: &str) -> Result<T, Stop<LoadFault>>
    ensures { Gives result (refused_below path.now key.now) }
{
    let here = child(alloc, path, key)?;
    not_in_profile(alloc, &here, key)
}

/// A text that isn't a template or an expression, at the path.
pub(crate) fn no_expression<T>(path: &Text) -> Result<T, Stop<LoadFault>>
    ensures { Gives result (no_expression path.now) }
{
    let path = path.try_clone()?;
    Err(Stop::Fault(LoadFault::BadExpression { path }))
}

/// The fault that stopped a reader.
pub fn fault_of(stop: Stop<LoadFault>) -> LoadFault
    ensures memory { stop ≡ Memory → result ≡ LoadFault.Memory }
    ensures wrong { (path : List ℕ) → stop ≡ WrongShape path → result ≡ as_load_fault (reading.WrongShape path) }
    ensures fault { (f : LoadFault) → stop ≡ Fault f → result ≡ as_load_fault (Own f) }
{
    match stop {
        Stop::Memory => LoadFault::Memory,
        Stop::WrongShape { path } => LoadFault::WrongShape { path },
        Stop::Fault(fault) => fault,
    }
}
