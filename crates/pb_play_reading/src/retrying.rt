ghost use Rattle.std.specs.Prelude.{◌≡◌};
ghost use Rattle.serde_json.specs.View.{view};
ghost use Rattle.pb_reading.specs.Ahead.{ahead, Takes};
ghost use Rattle.pb_reading.specs.Reading.{Gives};
ghost use Rattle.pb_play_reading.specs.Retrying.{within, up_to, retries, delay, tries, may_retry, retrying_of};

use crate::couplings::{Runs, read_runs};
use pb_expr_syntax::tree::Expr;
use pb_play::modules::Module;
use pb_play::retrying::Retrying;
use pb_reading::keys::{Keys, Others};
use pb_reading::reads::Reads;
use pb_reading::stop::{Stop, required, wrong};
use pb_value::items::Items;
use pb_value::text::Text;
use pb_written::conditions::Conditions;
use pb_written::fault::{LoadFault, refused_below};
use serde_json::Value;
use std::alloc::Global;

/// Where a task says these: it is tried once where it says neither until when nor how often.
pub(crate) fn retrying_of(
    until: Option<Items<Expr>>,
    retries: Option<u32>,
    delay: Option<u32>,
) -> Option<Retrying>
    ensures { result ≡ retrying_of until retries delay }
{
    match (until, retries) {
        (None, None) => None,
        (None, Some(retries)) => Some(Retrying {
            until: None,
            retries,
            delay: delay.unwrap_or(5),
        }),
        (Some(until), retries) => Some(Retrying {
            until: Some(until),
            retries: retries.unwrap_or(3),
            delay: delay.unwrap_or(5),
        }),
    }
}

/// The number, where it is none below 0 and at most this.
fn within(most: u32, number: i64) -> Option<u32>
    ensures { result ≡ within most number }
{
    match u32::try_from(number) {
        Ok(count) if count <= most => Some(count),
        _ => None,
    }
}

fn read_up_to(most: u32, path: &Text, json: &Value) -> Result<u32, Stop<LoadFault>>
    ensures { Gives result (up_to most path.now (view json.now)) }
{
    match json {
        Value::Number(number) => match number.as_i64() {
            Some(number) => required(path, within(most, number)),
            None => wrong(path),
        },
        _ => wrong(path),
    }
}

/// Reads how many attempts may follow the first one: 0 to 100.
struct Retries;

impl Reads<LoadFault> for Retries {
    type Value = u32;

    ghost reads = { retries };

    fn read(_alloc: Global, path: &Text, json: &Value) -> Result<u32, Stop<LoadFault>> {
        read_up_to(100, path, json)
    }
}

/// Reads how many seconds lie between two attempts: 0 to 3,600.
pub(crate) struct Delay;

impl Reads<LoadFault> for Delay {
    type Value = u32;

    ghost reads = { delay };

    fn read(_alloc: Global, path: &Text, json: &Value) -> Result<u32, Stop<LoadFault>> {
        read_up_to(3600, path, json)
    }
}

/// How often a task says that it is tried, and until what holds; and how its hosts run it.
#[derive(Drop)]
pub(crate) struct Tries {
    pub(crate) retries: Option<u32>,
    pub(crate) runs: Runs,
    pub(crate) until: Option<Items<Expr>>,
}

impl Tries {
    /// Only a program is tried more than once: the task at the path does this.
    pub(crate) fn check(
        &self,
        alloc: Global,
        path: &Text,
        called: &Module,
    ) -> Result<(), Stop<LoadFault>>
        ensures { Gives result (may_retry path.now called.now self.now) }
    {
        if called.is_program() {
            return Ok(());
        }
        match (&self.until, self.retries) {
            (None, None) => Ok(()),
            (None, Some(_)) => refused_below(alloc, path, "retries"),
            (Some(_), _) => refused_below(alloc, path, "until"),
        }
    }
}

pub(crate) fn read_tries<O: Others<Fault = LoadFault>>(
    alloc: Global,
    keys: &mut Keys<'_, O>,
) -> Result<Tries, Stop<LoadFault>>
    ensures value { Takes (λ v. v) result (ahead keys.new) (tries O.tells (ahead keys.old)) }
    ensures path { (ahead keys.new).path ≡ (ahead keys.old).path }
{
    let retries = keys.field::<Retries>(alloc, "retries")?;
    let runs = read_runs(alloc, keys)?;
    let until = keys.field::<Conditions>(alloc, "until")?;
    Ok(Tries {
        retries,
        runs,
        until,
    })
}
