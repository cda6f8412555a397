//! The names of results that are decided as a task starts, kept once for the results of many hosts.
ghost use Rattle.std.specs.Prelude.{◌≡◌, ◌≤◌, ◌∷◌, [], false, IfOk, codes, length};
ghost use Rattle.std.specs.Map.{keys_of};
ghost use Rattle.pb_value.specs.Datum.{boolean, null, put};
ghost use Rattle.pb_outcome.specs.ResultNames.{facts_names, said_names, skipped_names};

use crate::members::flagged;
use pb_value::names::Names;
use pb_value::val::{Dict, Val};
use std::alloc::{AllocError, Global};
use std::marker::Model;

/// The names of a result that says something, of one that gives facts, and of one of an item that is left out. Contracts
/// see nothing of them.
pub struct ResultNames {
    said: Names,
    facts: Names,
    skipped: Names,
}

impl Drop for ResultNames {
    fn drop(self) {
        let ResultNames {
            said,
            facts,
            skipped,
        } = self;
        drop(said);
        drop(facts);
        drop(skipped);
    }
}

impl Model for ResultNames {
    ghost use Rattle.std.specs.Prelude.{◌≡◌, ⊤};
    ghost use Rattle.pb_outcome.specs.ResultNames.{facts_names, said_names, skipped_names};

    ghost Value = { ⊤ };

    ghost view = { λ _. tt };

    ghost invariant = { λ n. (n.said ≡ said_names) × (n.facts ≡ facts_names) × (n.skipped ≡ skipped_names) };
}

/// The names of a dict of few.
fn names_in(alloc: Global, members: &Dict) -> Result<Names, AllocError>
    requires { length members.now ≤ 64 }
    ensures { IfOk result (λ names. names ≡ keys_of members.now) }
{
    match Names::of(alloc, members)? {
        Some(names) => Ok(names),
        None => unreachable!(),
    }
}

/// `changed`, `failed`, and this name.
fn flags_and(alloc: Global, name: &str) -> Result<Dict, AllocError>
    ensures { IfOk result (λ d. d ≡ put name.now null ((codes "changed", boolean false) ∷ (codes "failed", boolean false) ∷ [])) }
{
    let mut members = flagged(alloc, false, false)?;
    members.put(alloc, name, Val::null())?;
    Ok(members)
}

fn said_names(alloc: Global) -> Result<Names, AllocError>
    ensures { IfOk result (λ names. names ≡ said_names) }
{
    let members = flags_and(alloc, "msg")?;
    names_in(alloc, &members)
}

fn facts_names(alloc: Global) -> Result<Names, AllocError>
    ensures { IfOk result (λ names. names ≡ facts_names) }
{
    let members = flags_and(alloc, "ansible_facts")?;
    names_in(alloc, &members)
}

fn skipped_names(alloc: Global) -> Result<Names, AllocError>
    ensures { IfOk result (λ names. names ≡ skipped_names) }
{
    let mut members = flags_and(alloc, "skip_reason")?;
    members.put(alloc, "skipped", Val::null())?;
    names_in(alloc, &members)
}

impl ResultNames {
    /// The names, made once.
    pub fn new(alloc: Global) -> Result<ResultNames, AllocError> {
        Ok(ResultNames {
            said: said_names(alloc)?,
            facts: facts_names(alloc)?,
            skipped: skipped_names(alloc)?,
        })
    }

    /// `changed`, `failed` and `msg`.
    pub fn said(&self) -> &Names
        ensures { result.now ≡ said_names }
    {
        &self.said
    }

    /// `ansible_facts`, `changed` and `failed`.
    pub fn facts(&self) -> &Names
        ensures { result.now ≡ facts_names }
    {
        &self.facts
    }

    /// `changed`, `failed`, `skip_reason` and `skipped`.
    pub fn skipped(&self) -> &Names
        ensures { result.now ≡ skipped_names }
    {
        &self.skipped
    }
}
