//! What an attempt at an item comes to, where its task may be tried more than once.
ghost use Rattle.std.specs.Prelude.{◌≡◌, ◌≢◌, IfOk, IfErr, Ok, Err, pos};
ghost use Rattle.pb_value.specs.Datum.{int};
ghost use Rattle.pb_operators.specs.declared.fault.EvalFault.TheVariants as fault;
ghost use Rattle.pb_conditions.specs.ResultConditions.{sees};
ghost use Rattle.pb_conditions.specs.Attempts.{with_attempt, counted, is_enough, by_until, came, attempted};

use crate::result_conditions::{Sight, failed_to, holds_seeing, or_faulty, with_conditions};
use pb_expr_syntax::tree::Expr;
use pb_operators::fault::EvalFault;
use pb_outcome::gather::{Ending, ItemResult};
use pb_value::items::Items;
use pb_value::val::{Node, Val};
use std::alloc::{AllocError, Global};

/// What a task says of the result of an attempt, in the order in which it is read.
#[derive(Drop)]
pub struct Terms<'a> {
    pub changed_when: &'a Option<Items<Expr>>,
    pub failed_when: &'a Option<Items<Expr>>,
    /// What has to hold so that no further attempt is wanted: each of these. Without it the result may not be failed.
    pub until: &'a Option<Items<Expr>>,
}

/// What an attempt at an item comes to.
#[derive(Drop)]
pub enum Back {
    /// The item has this result.
    Ends(ItemResult),
    /// The item is tried again; the result is that of the attempt alone.
    Again(ItemResult),
}

/// The number of an attempt as a value.
fn number(attempt: u32) -> Val
    ensures { result ≡ int (pos attempt) }
{
    Val::int(i64::from(attempt))
}

/// A result with the number of its attempt.
fn with_attempt(alloc: Global, attempt: u32, shown: Val) -> Result<Val, AllocError>
    ensures { IfOk result (λ v. v ≡ with_attempt attempt shown) }
{
    match shown.into_node() {
        Node::Dict(mut members) => {
            members.put(alloc, "attempts", number(attempt))?;
            Ok(Val::dict(members))
        }
        node => Ok(Val { node }),
    }
}

/// The item with the number of its attempt, where its program ran.
fn counted(alloc: Global, attempt: u32, item: ItemResult) -> Result<ItemResult, AllocError>
    ensures { IfOk result (λ i. i ≡ counted attempt item) }
{
    match item.ending {
        Ending::Ran {
            changed: _,
            failed: _,
        } => Ok(ItemResult {
            ending: item.ending,
            result: with_attempt(alloc, attempt, item.result)?,
        }),
        _ => Ok(item),
    }
}

/// Whether no further attempt is wanted.
fn is_enough(
    alloc: Global,
    sight: &Sight,
    until: &Option<Items<Expr>>,
    item: &ItemResult,
) -> Result<bool, EvalFault>
    ensures value { IfOk result (λ b. is_enough (sees sight.now.layers.now sight.now.magic.now sight.now.loop_variable.now) sight.now.register.now until.now item.now ≡ Ok b) }
    ensures fault { IfErr result (λ e. e ≢ fault.Memory → is_enough (sees sight.now.layers.now sight.now.magic.now sight.now.loop_variable.now) sight.now.register.now until.now item.now ≡ Err e) }
{
    match until {
        Some(conditions) => holds_seeing(alloc, conditions.as_slice(), sight, &item.result),
        None => Ok(!item.ending.is_failed()),
    }
}

/// What becomes of the item by whether its result is enough.
fn by_until(
    alloc: Global,
    enough: Result<bool, EvalFault>,
    is_last: bool,
    item: ItemResult,
) -> Result<Back, AllocError>
    ensures { IfOk result (λ b. (enough ≢ Err fault.Memory) × (b ≡ by_until enough is_last item)) }
{
    match enough {
        Ok(true) => Ok(Back::Ends(item)),
        Ok(false) if is_last => Ok(Back::Ends(failed_to(alloc, item, true)?)),
        Ok(false) => Ok(Back::Again(item)),
        Err(fault) => Ok(Back::Ends(or_faulty(alloc, Err(fault))?)),
    }
}

/// The item with its final result: another attempt follows only where the program ran and no condition was faulty.
fn came(
    alloc: Global,
    sight: &Sight,
    until: &Option<Items<Expr>>,
    is_last: bool,
    item: ItemResult,
) -> Result<Back, AllocError>
    ensures { IfOk result (λ b. b ≡ came (sees sight.now.layers.now sight.now.magic.now sight.now.loop_variable.now) sight.now.register.now until.now is_last item) }
{
    match item.ending {
        Ending::Ran {
            changed: _,
            failed: _,
        } => by_until(alloc, is_enough(alloc, sight, until, &item), is_last, item),
        _ => Ok(Back::Ends(item)),
    }
}

/// What an attempt at an item of a task that may be tried more than once comes to, from the result of its job. Where the program ran,
/// the result gets the attempt's number, counted from 1, under `attempts`; then it is changed as by `with_conditions`, and then `until`
/// is read, which sees it as it is by then. The item is tried again where `until` doesn't hold, unless the attempt is the last
/// one: the item then fails with that result. A condition that can't be read makes the item faulty. A faulty item, and one whose program
/// didn't run, is tried no more and isn't numbered. The only error is want of memory. See Ansible's documentation, "Retrying
/// a task until a condition is met".
pub fn attempted(
    alloc: Global,
    sight: &Sight,
    terms: &Terms,
    attempt: u32,
    is_last: bool,
    judged: ItemResult,
) -> Result<Back, AllocError>
    ensures { IfOk result (λ b. b ≡ attempted (sees sight.now.layers.now sight.now.magic.now sight.now.loop_variable.now) sight.now.register.now terms.now.changed_when.now terms.now.failed_when.now terms.now.until.now attempt is_last judged) }
{
    let item = counted(alloc, attempt, judged)?;
    let item = with_conditions(alloc, sight, terms.changed_when, terms.failed_when, item)?;
    came(alloc, sight, terms.until, is_last, item)
}
