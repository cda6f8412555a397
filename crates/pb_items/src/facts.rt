//! The facts that tasks of `set_fact` set.
ghost use Rattle.std.specs.Prelude.{◌≡◌, ◌≢◌, IfOk, IfErr, Ok, Err};
ghost use Rattle.pb_items.specs.Facts.{facts_of, each_given, facts_in_row};
ghost use Rattle.pb_items.specs.declared.fault.ItemFault.TheVariants as item;

use crate::fault::ItemFault;
use pb_expr_eval::eval::{render_prepared, render_value};
use pb_layers::scope::Scope;
use pb_prepared::dict::{PreparedDict, PreparedRow};
use pb_prepared::prepared::Prepared;
use pb_value::val::{Dict, Val};
use std::alloc::Global;

/// What values give, of which each is read whole before the next.
fn each_given(alloc: Global, values: &[Prepared], scope: &Scope) -> Result<Vec<Val>, ItemFault>
    ensures value { IfOk result (λ vs. each_given scope.now values.now ≡ Ok vs.items) }
    ensures fault { IfErr result (λ e. e ≢ item.Memory → each_given scope.now values.now ≡ Err e) }
{
    let mut given = Vec::with_capacity(alloc, values.len())?;
    for value in values {
        given.push(render_prepared(alloc, value, scope)?)?;
    }
    Ok(given)
}

/// Facts with their texts rendered, whose values were prepared. They have no names of their own.
fn facts_in_row(alloc: Global, row: &PreparedRow, scope: &Scope) -> Result<Dict, ItemFault>
    ensures value { IfOk result (λ fs. facts_in_row scope.now row.now.names row.now.values ≡ Ok fs) }
    ensures fault { IfErr result (λ e. e ≢ item.Memory → facts_in_row scope.now row.now.names row.now.values ≡ Err e) }
{
    let values = each_given(alloc, row.values.as_slice(), scope)?;
    Ok(Dict::of_names(&row.names, values)?)
}

/// Facts with their texts rendered, of which each is read whole before the next.
fn facts_in(alloc: Global, facts: &Dict, scope: &Scope) -> Result<Dict, ItemFault>
    ensures value { IfOk result (λ fs. facts_of scope.now facts.now ≡ Ok fs) }
    ensures fault { IfErr result (λ e. e ≢ item.Memory → facts_of scope.now facts.now ≡ Err e) }
{
    let mut rendered = Dict::new(alloc);
    for (name, value) in facts.iter() {
        let value = render_value(alloc, value, scope)?;
        rendered.insert(name.clone()?, value)?;
    }
    Ok(rendered)
}

/// The facts that a task sets.
#[tactic(auto, using(crate::proofs::Rendered::facts_by_row))]
pub(crate) fn facts_of(
    alloc: Global,
    facts: &PreparedDict,
    scope: &Scope,
) -> Result<Dict, ItemFault>
    ensures value { IfOk result (λ fs. facts_of scope.now facts.now ≡ Ok fs) }
    ensures fault { IfErr result (λ e. e ≢ item.Memory → facts_of scope.now facts.now ≡ Err e) }
{
    match facts.row() {
        Some(row) => facts_in_row(alloc, row, scope),
        None => facts_in(alloc, facts.dict(), scope),
    }
}
