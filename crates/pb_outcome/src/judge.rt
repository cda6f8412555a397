ghost use Rattle.std.specs.Prelude.{◌≡◌, [], IfOk, OnOk, true, pos, codes};
ghost use Rattle.pb_value.specs.Datum.{boolean, text, list, dict, items_of, members_of, put};
ghost use Rattle.pb_value.specs.Names.{names_of};
ghost use Rattle.pb_outcome.specs.Output.{stripped, line_values};
ghost use Rattle.pb_outcome.specs.Putting.{put_end};
ghost use Rattle.pb_outcome.specs.Results.{is_nonzero, rc_message, shown_lines, ran_members, ran_result, unanswered, does_not_fit, lost, facts_result, gathered_facts, facts_ran, judged_command, judged_setup, judged};

use crate::gather::{Ending, ItemResult};
use crate::job::Call;
use crate::members::{flagged, put_text};
use crate::outcome::{Form, Outcome};
use crate::output::{lines, stripped};
use pb_value::names::Names;
use pb_value::text::Text;
use pb_value::val::{Dict, Node, Val};
use std::alloc::{AllocError, Global};

/// The result of one item, from what was run and what came of it. An outcome of another kind than the module gives
/// counts as no answer. See Ansible's documentation, "Return Values".
pub fn judge(alloc: Global, call: &Call, outcome: &Outcome) -> Result<ItemResult, AllocError>
    ensures { IfOk result (λ r. r ≡ judged call.now outcome.now) }
{
    match call {
        Call::Command { words: _ } => judge_command(alloc, outcome),
        Call::Shell { text: _ } => judge_command(alloc, outcome),
        Call::Setup => judge_setup(alloc, outcome),
    }
}

fn judge_command(alloc: Global, outcome: &Outcome) -> Result<ItemResult, AllocError>
    ensures { IfOk result (λ r. r ≡ judged_command outcome.now) }
{
    match outcome.form() {
        Form::Ran { rc, out, err } => ran_result(alloc, true, *rc, out, err),
        Form::Module(_) => does_not_fit(alloc),
        Form::Unreachable { msg } => lost(alloc, msg),
        Form::NotStarted { cause } => unanswered(alloc, cause.message()),
    }
}

fn judge_setup(alloc: Global, outcome: &Outcome) -> Result<ItemResult, AllocError>
    ensures { IfOk result (λ r. r ≡ judged_setup outcome.now) }
{
    match outcome.form() {
        Form::Ran { rc, out, err } => {
            if is_nonzero(*rc) {
                ran_result(alloc, false, *rc, out, err)
            } else {
                does_not_fit(alloc)
            }
        }
        Form::Module(value) => gathered_facts(alloc, value),
        Form::Unreachable { msg } => lost(alloc, msg),
        Form::NotStarted { cause } => unanswered(alloc, cause.message()),
    }
}

fn is_nonzero(rc: i64) -> bool
    ensures { result ≡ is_nonzero rc }
{
    rc != 0
}

/// Puts the lines of a text under a key.
fn put_lines(alloc: Global, members: &mut Dict, key: &str, words: &str) -> Result<(), AllocError>
    ensures { OnOk result (members.new ≡ put key.now (shown_lines words.now) members.old) }
{
    let value = Val::list(lines(alloc, words)?);
    members.put(alloc, key, value)
}

fn rc_message(rc: i64) -> &'static str
    ensures { result.now ≡ rc_message rc }
{
    if is_nonzero(rc) {
        "non-zero return code"
    } else {
        ""
    }
}

/// Puts in what a program wrote, and with which status it ended.
fn put_end(
    alloc: Global,
    members: &mut Dict,
    rc: i64,
    out: &str,
    err: &str,
) -> Result<(), AllocError>
    ensures { OnOk result (members.new ≡ put_end rc out.now err.now members.old) }
{
    put_text(alloc, members, "msg", rc_message(rc))?;
    members.put(alloc, "rc", Val::int(rc))?;
    put_text(alloc, members, "stderr", err)?;
    put_lines(alloc, members, "stderr_lines", err)?;
    put_text(alloc, members, "stdout", out)?;
    put_lines(alloc, members, "stdout_lines", out)
}

/// The members of the result of a program that ran.
fn ran_members(
    alloc: Global,
    changed: bool,
    rc: i64,
    out: &str,
    err: &str,
) -> Result<Dict, AllocError>
    ensures { IfOk result (λ d. d ≡ ran_members changed rc out.now err.now) }
{
    let mut members = flagged(alloc, changed, is_nonzero(rc))?;
    put_end(alloc, &mut members, rc, stripped(out), stripped(err))?;
    Ok(members)
}

/// The names of the result of a program that ran, to be kept once for the results of many hosts.
pub fn ran_names(alloc: Global) -> Result<Option<Names>, AllocError>
    ensures { IfOk result (λ names. names ≡ names_of (ran_members true (pos 0) [] [])) }
{
    let members = ran_members(alloc, true, 0, "", "")?;
    Names::of(alloc, &members)
}

fn ran_result(
    alloc: Global,
    changed: bool,
    rc: i64,
    out: &Text,
    err: &Text,
) -> Result<ItemResult, AllocError>
    ensures { IfOk result (λ r. r ≡ ran_result changed rc out.now err.now) }
{
    let members = ran_members(alloc, changed, rc, out.as_str(), err.as_str())?;
    let failed = is_nonzero(rc);
    Ok(ItemResult {
        ending: Ending::Ran { changed, failed },
        result: Val::dict(members),
    })
}

fn unanswered(alloc: Global, msg: &str) -> Result<ItemResult, AllocError>
    ensures { IfOk result (λ r. r ≡ unanswered msg.now) }
{
    let mut members = flagged(alloc, false, true)?;
    put_text(alloc, &mut members, "msg", msg)?;
    Ok(ItemResult {
        ending: Ending::NotStarted,
        result: Val::dict(members),
    })
}

fn does_not_fit(alloc: Global) -> Result<ItemResult, AllocError>
    ensures { IfOk result (λ r. r ≡ does_not_fit) }
{
    unanswered(alloc, "outcome does not fit the module")
}

/// Puts in what a connector says of a target that it doesn't reach.
fn put_lost(alloc: Global, members: &mut Dict, msg: &str) -> Result<(), AllocError>
    ensures { OnOk result (members.new ≡ put (codes "unreachable") (boolean true) (put (codes "msg") (text msg.now) members.old)) }
{
    put_text(alloc, members, "msg", msg)?;
    members.put(alloc, "unreachable", Val::boolean(true))
}

fn lost(alloc: Global, msg: &Text) -> Result<ItemResult, AllocError>
    ensures { IfOk result (λ r. r ≡ lost msg.now) }
{
    let mut members = flagged(alloc, false, false)?;
    put_lost(alloc, &mut members, msg.as_str())?;
    Ok(ItemResult {
        ending: Ending::Unreachable,
        result: Val::dict(members),
    })
}

fn gathered_facts(alloc: Global, facts: &Val) -> Result<ItemResult, AllocError>
    ensures { IfOk result (λ r. r ≡ gathered_facts facts.now) }
{
    match &facts.node {
        Node::Dict(facts) => facts_result(alloc, Val::dict(facts.try_clone(alloc)?)),
        _ => does_not_fit(alloc),
    }
}

/// The result of an item that gives these facts, as one of `set_fact` or `setup`, and changed nothing.
pub fn facts_result(alloc: Global, facts: Val) -> Result<ItemResult, AllocError>
    ensures { IfOk result (λ r. r ≡ facts_result facts) }
{
    let mut members = flagged(alloc, false, false)?;
    members.put(alloc, "ansible_facts", facts)?;
    Ok(ItemResult {
        ending: Ending::Ran {
            changed: false,
            failed: false,
        },
        result: Val::dict(members),
    })
}
