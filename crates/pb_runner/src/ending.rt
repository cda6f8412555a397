//! What the end of a program gives.
ghost use Rattle.std.specs.Prelude.{◌≡◌, ◌≢◌, ◌≤◌, ◌⊎◌, ◌↔◌, ◌||◌, true, IfOk, IfErr, length};
ghost use Rattle.pb_outcome.specs.Output.{stripped};
ghost use Rattle.pb_outcome.specs.Results.{is_nonzero};
ghost use Rattle.pb_outcome.specs.declared.cause.Cause.TheVariants.{NotUtf8, TooLarge, OutOfMemory};
ghost use Rattle.pb_outcome.specs.declared.outcome.Form.TheVariants.{Ran, Module, Unreachable, NotStarted};
ghost use Rattle.pb_value.specs.Depth.{depth};
ghost use Rattle.pb_value.specs.Limits.{max_text, max_depth};
ghost use Rattle.pb_value.specs.Bytes.{json_in};
ghost use Rattle.pb_runner.specs.Kept.{IsWhole, IsNoText};
ghost use Rattle.pb_runner.specs.Local.{LocalAllows, Ends, IsGivenBy, answer, facts_in, is_lost};

use crate::caught::Caught;
use crate::launcher::Ending;
use pb_outcome::cause::Cause;
use pb_outcome::job::{Call, Job};
use pb_outcome::outcome::Outcome;
use pb_outcome::output::stripped;
use pb_value::fault::ValFault;
use pb_value::from_json::from_json;
use pb_value::read_json::{JsonFault, read_json};
use pb_value::text::Text;
use pb_value::val::Val;
use serde_json::Value;
use std::alloc::Global;

/// What a program wrote to its two streams.
#[derive(Drop)]
struct Texts {
    out: Text,
    err: Text,
}

/// The outcome that what came of a job's program gives.
pub(crate) fn given(alloc: Global, job: &Job, ending: Ending) -> Outcome
    ensures given { IsGivenBy job.now ending result }
    ensures allowed { LocalAllows job.now result }
{
    match ending {
        Ending::Refused | Ending::Lost => Outcome::not_started(Cause::CannotStart),
        Ending::Ended { status, out, err } => ended(alloc, job, status, out, err),
    }
}

/// The outcome of a program's end: the first cause that fits, else its answer.
fn ended(alloc: Global, job: &Job, status: Option<i32>, out: Caught, err: Caught) -> Outcome
    ensures first { Ends job.now status out err result }
    ensures allowed { LocalAllows job.now result }
{
    let Some(code) = status else {
        return Outcome::not_started(Cause::KilledBySignal);
    };
    match both_texts(out, err) {
        Ok(texts) => answered(alloc, job, i64::from(code), texts),
        Err(cause) => Outcome::not_started(cause),
    }
}

/// The texts of both streams, or the first cause that fits.
fn both_texts(out: Caught, err: Caught) -> Result<Texts, Cause>
    ensures whole { IfOk result (λ t. IsWhole out × IsWhole err × (t.out ≡ out.bytes) × (t.err ≡ err.bytes)) }
    ensures short { IfOk result (λ t. (length t.out ≤ max_text) × (length t.err ≤ max_text)) }
    ensures large { IfErr result (λ c. (c ≡ TooLarge) ↔ ((out.over || err.over) ≡ true)) }
    ensures others { IfErr result (λ c. c ≢ TooLarge → ((c ≡ NotUtf8) × IsNoText out err) ⊎ (c ≡ OutOfMemory)) }
{
    if out.is_over() || err.is_over() {
        return Err(Cause::TooLarge);
    }
    match (out.into_text(), err.into_text()) {
        (Ok(out), Ok(err)) => Ok(Texts { out, err }),
        (Err(Cause::NotUtf8), _) | (_, Err(Cause::NotUtf8)) => Err(Cause::NotUtf8),
        _ => Err(Cause::OutOfMemory),
    }
}

/// The outcome of a program that ended by itself: status 255 behind a connector is that of the connector.
fn answered(alloc: Global, job: &Job, rc: i64, texts: Texts) -> Outcome
    requires { (length texts.out ≤ max_text) × (length texts.err ≤ max_text) }
    ensures answer { (result ≡ answer job.now rc texts.out texts.err) ⊎ (result ≡ NotStarted OutOfMemory) }
    ensures allowed { LocalAllows job.now result }
{
    if !job.connector.is_empty() && is_lost(rc) {
        return unreachable(alloc, texts.err.as_str());
    }
    match &job.call {
        Call::Command { words: _ } | Call::Shell { text: _ } => ran(rc, texts),
        Call::Setup => {
            if rc == 0 {
                gathered(alloc, texts.out.as_str())
            } else {
                ran(rc, texts)
            }
        }
    }
}

fn is_lost(rc: i64) -> bool
    ensures { result ≡ is_lost rc }
{
    rc == 255
}

fn unreachable(alloc: Global, err: &str) -> Outcome
    requires { length err.now ≤ max_text }
    ensures { (result ≡ Unreachable (stripped err.now)) ⊎ (result ≡ NotStarted OutOfMemory) }
{
    let Ok(msg) = Text::from_str(alloc, stripped(err)) else {
        return Outcome::not_started(Cause::OutOfMemory);
    };
    match Outcome::unreachable(msg) {
        Ok(outcome) => outcome,
        Err(_) => Outcome::not_started(Cause::TooLarge),
    }
}

fn ran(rc: i64, texts: Texts) -> Outcome
    requires { (length texts.out ≤ max_text) × (length texts.err ≤ max_text) }
    ensures { result ≡ Ran rc texts.out texts.err }
{
    let Texts { out, err } = texts;
    match Outcome::ran(rc, out, err) {
        Ok(outcome) => outcome,
        Err(_) => Outcome::not_started(Cause::TooLarge),
    }
}

/// The facts that a program wrote.
fn gathered(alloc: Global, out: &str) -> Outcome
    ensures { (result ≡ facts_in (json_in out.now)) ⊎ (result ≡ NotStarted OutOfMemory) }
{
    let json = match read_json(alloc, out.as_bytes()) {
        Ok(json) => json,
        Err(JsonFault::NotJson) => return Outcome::not_started(Cause::FactsNotObject),
        Err(JsonFault::Memory) => return Outcome::not_started(Cause::OutOfMemory),
    };
    let Value::Object(_) = &json else {
        return Outcome::not_started(Cause::FactsNotObject);
    };
    match from_json(alloc, &json) {
        Ok(value) => facts(value),
        Err(ValFault::Memory) => Outcome::not_started(Cause::OutOfMemory),
        Err(_) => Outcome::not_started(Cause::FactsNotObject),
    }
}

fn facts(value: Val) -> Outcome
    requires { depth value ≤ max_depth }
    ensures { result ≡ Module value }
{
    match Outcome::module(value) {
        Ok(outcome) => outcome,
        Err(_) => Outcome::not_started(Cause::FactsNotObject),
    }
}
