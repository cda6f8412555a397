ghost use Rattle.std.specs.Prelude.{◌≡◌, ◌≢◌, IfOk, IfErr, Ok, Err};
ghost use Rattle.serde_json.specs.Data as json;
ghost use Rattle.serde_json.specs.View.{view, members_view};
ghost use Rattle.pb_outcome.specs.declared.outcome.Form.TheVariants.{Ran};
ghost use Rattle.pb_reading.specs.Ahead.{ahead};
ghost use Rattle.pb_reading.specs.Fields.{value_of};
ghost use Rattle.pb_reading.specs.Reading.{Gives};
ghost use Rattle.pb_outcome.specs.Reading.{text, status, cause, facts, not_started, unreachable, told_by_unknown, no_unknown, ran, and_form, the_form, met_with, whole, rest_of_outcome, outcome, outcome_of};

use crate::cause::Cause;
use crate::fault::OutcomeFault;
use crate::outcome::{Form, Outcome};
use crate::short::ShortText;
use pb_reading::keys::{Keys, Others};
use pb_reading::reads::Reads;
use pb_reading::stop::{Stop, required, wrong};
use pb_value::fault::ValFault;
use pb_value::from_json::from_json;
use pb_value::text::Text;
use serde_json::{Map, Value};
use std::alloc::Global;

/// The first key that no form has, by its path.
enum FirstUnknown {
    NoKey,
    At { path: Text },
}

impl Drop for FirstUnknown {
    fn drop(self) {
        match self {
            FirstUnknown::NoKey => {}
            FirstUnknown::At { path } => drop(path),
        }
    }
}

impl Others for FirstUnknown {
    type Fault = OutcomeFault;

    ghost tells = { told_by_unknown };

    #[tactic(auto, unfolding(crate::specs::Reading::told_by_unknown))]
    fn tell(
        &mut self,
        _alloc: Global,
        path: &Text,
        _key: &str,
        _json: &Value,
    ) -> Result<(), Stop<OutcomeFault>> {
        if matches!(self, FirstUnknown::NoKey) {
            let path = path.try_clone()?;
            *self = FirstUnknown::At { path };
        }
        Ok(())
    }
}

impl FirstUnknown {
    /// Refuses an unknown key.
    fn finish(self) -> Result<(), Stop<OutcomeFault>>
        ensures { Gives result (no_unknown self) }
    {
        match self {
            FirstUnknown::NoKey => Ok(()),
            FirstUnknown::At { path } => Err(Stop::WrongShape { path }),
        }
    }
}

/// Reads a text of at most 1,048,576 bytes.
struct LimitedText;

/// Reads an exit status.
struct Status;

/// Reads the value of a facts program, as its outcome.
struct Facts;

/// Reads a cause, as the outcome that has it.
struct NoAnswer;

/// Reads a connector's words, as the outcome of a target that can't be reached.
struct Lost;

impl Reads<OutcomeFault> for LimitedText {
    type Value = ShortText;

    ghost reads = { text };

    #[tactic(auto, unfolding(crate::specs::Reading::text))]
    fn read(alloc: Global, path: &Text, json: &Value) -> Result<ShortText, Stop<OutcomeFault>> {
        match json {
            Value::String(words) => match ShortText::of(alloc, words.as_str())? {
                Some(words) => Ok(words),
                None => wrong(path),
            },
            _ => wrong(path),
        }
    }
}

impl Reads<OutcomeFault> for Status {
    type Value = i64;

    ghost reads = { status };

    #[tactic(auto, unfolding(crate::specs::Reading::status))]
    fn read(_alloc: Global, path: &Text, json: &Value) -> Result<i64, Stop<OutcomeFault>> {
        match json {
            Value::Number(number) => required(path, number.as_i64()),
            _ => wrong(path),
        }
    }
}

impl Reads<OutcomeFault> for Facts {
    type Value = Outcome;

    ghost reads = { facts };

    #[tactic(auto, unfolding(crate::specs::Reading::facts))]
    fn read(alloc: Global, path: &Text, json: &Value) -> Result<Outcome, Stop<OutcomeFault>> {
        match from_json(alloc, json) {
            Ok(value) => match Outcome::module(value) {
                Ok(outcome) => Ok(outcome),
                Err(_) => wrong(path),
            },
            Err(ValFault::Memory) => Err(Stop::Memory),
            Err(_) => wrong(path),
        }
    }
}

fn read_cause(path: &Text, json: &Value) -> Result<Cause, Stop<OutcomeFault>>
    ensures { Gives result (cause path.now (view json.now)) }
{
    match json {
        Value::Number(number) => match number.as_u64() {
            Some(number) => required(path, Cause::of_number(number)),
            None => wrong(path),
        },
        _ => wrong(path),
    }
}

impl Reads<OutcomeFault> for NoAnswer {
    type Value = Outcome;

    ghost reads = { not_started };

    #[tactic(auto, unfolding(crate::specs::Reading::not_started))]
    fn read(_alloc: Global, path: &Text, json: &Value) -> Result<Outcome, Stop<OutcomeFault>> {
        Ok(Outcome::not_started(read_cause(path, json)?))
    }
}

impl Reads<OutcomeFault> for Lost {
    type Value = Outcome;

    ghost reads = { unreachable };

    #[tactic(auto, unfolding(crate::specs::Reading::unreachable))]
    fn read(alloc: Global, path: &Text, json: &Value) -> Result<Outcome, Stop<OutcomeFault>> {
        let msg = LimitedText::read(alloc, path, json)?.into_text();
        Ok(Outcome {
            form: Form::Unreachable { msg },
        })
    }
}

/// The forms whose keys were met.
#[derive(Drop)]
enum Met {
    Nothing,
    One(Outcome),
    /// Keys of two forms, or some of a program's end.
    Mixed,
}

/// A program's end has all its parts.
fn ran(err: Option<ShortText>, out: Option<ShortText>, rc: Option<i64>) -> Met
    ensures { result ≡ ran err out rc }
{
    match (err, out, rc) {
        (Some(err), Some(out), Some(rc)) => Met::One(ended(rc, out, err)),
        (None, None, None) => Met::Nothing,
        _ => Met::Mixed,
    }
}

fn ended(rc: i64, out: ShortText, err: ShortText) -> Outcome
    ensures { result ≡ Ran rc out err }
{
    Outcome {
        form: Form::Ran {
            rc,
            out: out.into_text(),
            err: err.into_text(),
        },
    }
}

impl Met {
    fn and(self, form: Option<Outcome>) -> Met
        ensures { result ≡ and_form form self }
    {
        let Some(form) = form else {
            return self;
        };
        match self {
            Met::Nothing => Met::One(form),
            Met::One(_) | Met::Mixed => Met::Mixed,
        }
    }

    fn the_one(self, path: &Text) -> Result<Outcome, Stop<OutcomeFault>>
        ensures { Gives result (the_form path.now self) }
    {
        match self {
            Met::One(form) => Ok(form),
            Met::Nothing | Met::Mixed => wrong(path),
        }
    }
}

/// What the keys up to `not_started` hold.
struct FirstKeys {
    err: Option<ShortText>,
    facts: Option<Outcome>,
    not_started: Option<Outcome>,
}

impl Drop for FirstKeys {
    fn drop(self) {
        let FirstKeys {
            err,
            facts,
            not_started,
        } = self;
        drop(err);
        drop(facts);
        drop(not_started);
    }
}

impl FirstKeys {
    /// The forms whose keys were met, with what the keys behind these hold.
    fn with(self, out: Option<ShortText>, rc: Option<i64>, unreachable: Option<Outcome>) -> Met
        ensures { result ≡ met_with self out rc unreachable }
    {
        let FirstKeys {
            err,
            facts,
            not_started,
        } = self;
        ran(err, out, rc)
            .and(facts)
            .and(not_started)
            .and(unreachable)
    }

    /// The outcome, if there is no unknown key.
    #[tactic(auto, unfolding(crate::specs::Reading::whole))]
    fn finish(
        self,
        path: &Text,
        out: Option<ShortText>,
        rc: Option<i64>,
        unreachable: Option<Outcome>,
        unknown: FirstUnknown,
    ) -> Result<Outcome, Stop<OutcomeFault>>
        ensures { Gives result (whole path.now self out rc unreachable unknown) }
    {
        let met = self.with(out, rc, unreachable);
        unknown.finish()?;
        met.the_one(path)
    }
}

/// Reads an outcome.
struct AnOutcome;

impl Reads<OutcomeFault> for AnOutcome {
    type Value = Outcome;

    ghost reads = { outcome };

    #[tactic(auto, unfolding(crate::specs::Reading::outcome))]
    fn read(alloc: Global, path: &Text, json: &Value) -> Result<Outcome, Stop<OutcomeFault>> {
        match json {
            Value::Object(members) => read_members(alloc, path, members),
            _ => wrong(path),
        }
    }
}

/// The outcome that the members of an object make.
#[tactic(auto, unfolding(crate::specs::Reading::outcome))]
fn read_members(
    alloc: Global,
    path: &Text,
    members: &Map<String, Value>,
) -> Result<Outcome, Stop<OutcomeFault>>
    ensures { Gives result (outcome path.now (json.object (members_view members.now.entries))) }
{
    let mut keys = Keys::of(path, members, FirstUnknown::NoKey);
    let err = keys.field::<LimitedText>(alloc, "err")?;
    let facts = keys.field::<Facts>(alloc, "facts")?;
    let not_started = keys.field::<NoAnswer>(alloc, "not_started")?;
    let first = FirstKeys {
        err,
        facts,
        not_started,
    };
    read_rest(alloc, keys, path, first)
}

/// The outcome, from the keys behind `not_started` on.
#[tactic(auto, unfolding(crate::specs::Reading::rest_of_outcome))]
fn read_rest(
    alloc: Global,
    mut keys: Keys<'_, FirstUnknown>,
    path: &Text,
    first: FirstKeys,
) -> Result<Outcome, Stop<OutcomeFault>>
    ensures { Gives result (value_of (rest_of_outcome path.now first (ahead keys.entry))) }
{
    let out = keys.field::<LimitedText>(alloc, "out")?;
    let rc = keys.field::<Status>(alloc, "rc")?;
    let unreachable = keys.field::<Lost>(alloc, "unreachable")?;
    let unknown = keys.others(alloc)?;
    Ok(first.finish(path, out, rc, unreachable, unknown)?)
}

/// The outcome that stands at the path of a file, or the first fault in it. It is an object with exactly the keys
/// of one of four forms: `err`, `out` and `rc`; `facts`; `unreachable`; `not_started`, a number from 1 to 6. What
/// the constructors refuse as too large is a wrong shape here.
#[tactic(auto, unfolding(crate::specs::Reading::outcome_of))]
pub fn read_outcome(alloc: Global, path: &Text, json: &Value) -> Result<Outcome, OutcomeFault>
    ensures value { IfOk result (λ o. outcome_of path.now (view json.now) ≡ Ok o) }
    ensures fault { IfErr result
        (λ e. e ≢ OutcomeFault.Memory → outcome_of path.now (view json.now) ≡ Err e) }
{
    match AnOutcome::read(alloc, path, json) {
        Ok(outcome) => Ok(outcome),
        Err(Stop::Memory) => Err(OutcomeFault::Memory),
        Err(Stop::WrongShape { path }) => Err(OutcomeFault::WrongShape { path }),
        Err(Stop::Fault(fault)) => Err(fault),
    }
}
