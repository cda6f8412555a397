ghost use Rattle.std.specs.Prelude.{◌≡◌, ◌≢◌, ◌≤◌, length, IfOk, IfErr, OnOk, Ok, Err, nat_lt, decimal};
ghost use Rattle.serde_json.specs.View.{view, items_view};
ghost use Rattle.pb_value.specs.Reading.{below};
ghost use Rattle.pb_reading.specs.Reading.{each};
ghost use Rattle.pb_play_reading.specs.Refusals.{AllTaken, IsFirstFaultAt, GivesOf};
ghost use Rattle.pb_play_reading.specs.Plays.{play, expressions_of_play};
ghost use Rattle.pb_play_reading.specs.Playbooks.{count, max_plays, plays, playbook_of, each_expression, expressions_of_plays, expressions_of_book};

use crate::play::{Play, read_play};
use pb_reading::stop::{Stop, wrong};
use pb_value::items::Items;
use pb_value::path::child_at;
use pb_value::read_json::{JsonFault, read_json};
use pb_value::text::Text;
use pb_written::fault::{Limit, LoadFault, fault_of};
use serde_json::Value;
use std::alloc::Global;

/// How many plays a playbook may have.
const MAX_PLAYS: usize = 256;

/// A playbook: its plays are run in this order.
#[derive(Drop)]
pub struct Playbook {
    pub plays: Items<Play>,
}

impl Playbook {
    /// The playbook that the bytes spell, or the first fault in them.
    /// See Ansible's documentation, "Playbook Keywords"; the file is JSON in place of YAML.
    pub fn read(alloc: Global, bytes: &[u8]) -> Result<Playbook, LoadFault>
        ensures value { IfOk result (λ playbook. playbook_of bytes.now ≡ Ok playbook) }
        ensures taken { OnOk result (AllTaken (expressions_of_book bytes.now)) }
        ensures limit { IfOk result (λ playbook. length playbook.plays ≤ max_plays) }
        ensures fault { IfErr result (λ e. e ≢ LoadFault.Memory → IsFirstFaultAt (expressions_of_book bytes.now) (playbook_of bytes.now) LoadFault.BadPattern e) }
    {
        let json = match read_json(alloc, bytes) {
            Ok(json) => json,
            Err(JsonFault::NotJson) => return Err(LoadFault::NotJson),
            Err(JsonFault::Memory) => return Err(LoadFault::Memory),
        };
        match read_plays(alloc, &json) {
            Ok(plays) => Ok(Playbook { plays }),
            Err(stop) => Err(fault_of(stop)),
        }
    }
}

#[tactic(auto, using(crate::proofs::Counts::count_items))]
fn are_too_many(items: &[Value]) -> bool
    ensures count { result ≡ nat_lt max_plays (count (items_view items.now)) }
    ensures length { result ≡ nat_lt max_plays (length items.now) }
{
    items.len() > MAX_PLAYS
}

#[tactic(auto, using(crate::proofs::Counts::each_length))]
fn read_plays(alloc: Global, json: &Value) -> Result<Items<Play>, Stop<LoadFault>>
    ensures value { GivesOf result (expressions_of_plays (view json.now)) (plays (view json.now)) }
    ensures limit { IfOk result (λ ps. length ps ≤ max_plays) }
{
    let path = Text::from_str(alloc, "")?;
    match json {
        Value::Array(items) => {
            if are_too_many(items.as_slice()) {
                return Err(Stop::Fault(LoadFault::TooLarge {
                    which: Limit::Plays,
                    path,
                }));
            }
            read_each(alloc, &path, items.as_slice())
        }
        _ => wrong(&path),
    }
}

/// The play with this number in the list at the path.
fn read_at(alloc: Global, path: &Text, i: usize, json: &Value) -> Result<Play, Stop<LoadFault>>
    ensures { GivesOf result (expressions_of_play (below path.now (decimal i)) (view json.now)) (play (below path.now (decimal i)) (view json.now)) }
{
    let here = child_at(alloc, path, i)?;
    read_play(alloc, &here, json)
}

fn read_each(alloc: Global, path: &Text, items: &[Value]) -> Result<Items<Play>, Stop<LoadFault>>
    ensures { GivesOf result (each_expression path.now 0 (items_view items.now)) (each play path.now 0 (items_view items.now)) }
{
    let mut read = Vec::with_capacity(alloc, items.len())?;
    for (i, item) in items.iter().enumerate() {
        match read_at(alloc, path, i, item) {
            Ok(play) => read.push(play)?,
            Err(stop) => return Err(stop),
        }
    }
    Ok(Items::from_vec(read))
}
