//! What `hostvars` stands for, with what the rows say that their hosts have learnt.

ghost use Rattle.std.specs.Prelude.{◌≡◌, ◌+◌, ◌<◌, [], length, drop, true, false, None, IfOk, IfSome};
ghost use Rattle.pb_variables.specs.Learnt.{facts_in};
ghost use Rattle.pb_facts.specs.Book.{row_of};
ghost use Rattle.pb_variables.specs.Magic.{hostvars, hosts_magic};
ghost use Rattle.pb_variables.specs.Renewed.{IsRenewedBetween};
ghost use Rattle.pb_state.specs.Learners.{is_among, each_once, is_higher, rises, IsRenewedInTurn};
ghost use Rattle.pb_state.specs.Machine.{learnt_by};

use pb_facts::facts::Facts;
use pb_facts::update::FactsUndo;
use pb_host::Host;
use pb_ids::HostNo;
use pb_plan::Plan;
use pb_task_vars::hostvars::hosts_known;
use pb_value::val::Dict;
use pb_variables::hostvars::{Learner, renewed_between};
use std::alloc::{AllocError, Global};

/// The map of `hostvars` as a task sees it, and whether it is the one that each task may see.
pub(crate) struct Shown {
    pub(crate) hosts: Dict,
    pub(crate) is_whole: bool,
}

// (by hand: it is then let go by one call, and not by the kind of its map at each exit)
impl Drop for Shown {
    fn drop(self) {
        let Shown { hosts, is_whole: _ } = self;
        drop(hosts);
    }
}

impl Shown {
    /// The map itself.
    pub(crate) fn into_hosts(self) -> Dict
        ensures { result ≡ self.hosts }
    {
        let Shown { hosts, is_whole: _ } = self;
        hosts
    }
}

/// What each host has learnt, by its number.
fn learnt_in<'a>(alloc: Global, rows: &'a [Host]) -> Result<Vec<&'a Facts>, AllocError>
    ensures { IfOk result (λ learnt. facts_in learnt.items ≡ learnt_by rows.now) }
{
    let mut learnt = Vec::with_capacity(alloc, rows.len())?;
    for row in rows {
        learnt.push(row.facts())?;
    }
    Ok(learnt)
}

/// The variable `hostvars` with what the hosts have learnt, as each task may see it.
pub(crate) fn whole(alloc: Global, plan: &Plan, rows: &[Host]) -> Result<Shown, AllocError>
    ensures hosts { IfOk result (λ shown. shown.hosts ≡ hosts_magic (hostvars plan.now.inventory plan.now.extra (learnt_by rows.now))) }
    ensures whole { IfOk result (λ shown. shown.is_whole ≡ true) }
{
    let learnt = learnt_in(alloc, rows)?;
    let hosts = hosts_known(alloc, plan, learnt.as_slice())?;
    Ok(Shown {
        hosts,
        is_whole: true,
    })
}

/// What a host has learnt, if it has a row.
fn learnt_at<'a>(rows: &'a [Host], host: HostNo) -> Option<&'a Facts>
    ensures { IfSome result (λ facts. facts.now ≡ row_of (learnt_by rows.now) host.0) }
{
    match rows.get(host.0 as usize) {
        Some(row) => Some(row.facts()),
        None => None,
    }
}

/// The variable `hostvars` with what this learner alone has learnt put anew, by the names under which it did, where it can be.
fn renewed_by(alloc: Global, plan: &Plan, hosts: Dict, learner: &Learner) -> Option<Dict>
    ensures { IfSome result (IsRenewedBetween plan.now.inventory plan.now.extra learner.now.past.now learner.now.facts.now learner.now.host.0 hosts) }
{
    match renewed_between(alloc, hosts, plan.inventory(), plan.extra(), learner) {
        Ok(kept) => kept,
        Err(_) => None,
    }
}

/// The same of a host that has learnt what its row says, where this tells what lies between.
fn renewed_alone(
    alloc: Global,
    plan: &Plan,
    rows: &[Host],
    hosts: Dict,
    past: &FactsUndo,
    host: HostNo,
) -> Option<Dict>
    ensures { IfSome result (IsRenewedBetween plan.now.inventory plan.now.extra past.now (row_of (learnt_by rows.now) host.0) host.0 hosts) }
{
    match learnt_at(rows, host) {
        Some(facts) => renewed_by(alloc, plan, hosts, &Learner { host, facts, past }),
        None => {
            drop(hosts);
            None
        }
    }
}

/// Whether a host's number is over that of the last one, if there was one.
fn is_higher(last: Option<HostNo>, host: HostNo) -> bool
    ensures { result ≡ is_higher last host }
{
    match last {
        Some(last) => last.0 < host.0,
        None => true,
    }
}

/// Whether the numbers of the hosts that learnt something rise, so that each did so once.
fn rises(log: &[(HostNo, FactsUndo)]) -> bool
    ensures { result ≡ rises None log.now }
{
    let mut last = None;
    for entry in log {
        if !is_higher(last, entry.0) {
            return false;
        }
        last = Some(entry.0);
    }
    true
}

/// Whether a host is among those that learnt something.
fn is_among(log: &[(HostNo, FactsUndo)], host: HostNo) -> bool
    ensures { result ≡ is_among log.now host.0 }
{
    log.iter().any(|one| one.0.0 == host.0)
}

/// What stands in a log behind this entry.
fn behind(log: &[(HostNo, FactsUndo)], at: usize) -> &[(HostNo, FactsUndo)]
    requires { at < length log.now }
    ensures { result.now ≡ drop (at + 1) log.now }
{
    &log[at + 1..]
}

/// Whether none of the hosts that learnt something is among those behind it.
fn each_once(log: &[(HostNo, FactsUndo)]) -> bool
    ensures { result ≡ each_once log.now }
{
    for at in 0..log.len() {
        if is_among(behind(log, at), log[at].0) {
            return false;
        }
    }
    true
}

/// The same, where rising numbers tell it at once.
fn learn_once(log: &[(HostNo, FactsUndo)]) -> bool
    ensures { result ≡ each_once log.now }
{
    if rises(log) {
        return true;
    }
    each_once(log)
}

/// The variable `hostvars` with what these hosts have learnt put anew, one after another, by the names alone under which each did, where it can be. What a
/// host's row says now is what it was behind its own entry, since no later one is its own.
fn renewed_in_turn(
    alloc: Global,
    plan: &Plan,
    rows: &[Host],
    hosts: Dict,
    log: &[(HostNo, FactsUndo)],
) -> Option<Dict>
    requires { each_once log.now ≡ true }
    ensures { IfSome result (IsRenewedInTurn plan.now.inventory plan.now.extra log.now (learnt_by rows.now) hosts) }
{
    let mut known = hosts;
    for one in log {
        known = renewed_alone(alloc, plan, rows, known, &one.1, one.0)?;
    }
    Some(known)
}

/// The variable `hostvars` once these hosts have learnt something, where it can be put anew: where each did so once.
pub(crate) fn renewed_once_learnt(
    alloc: Global,
    plan: &Plan,
    rows: &[Host],
    hosts: Dict,
    log: &[(HostNo, FactsUndo)],
) -> Option<Dict>
    ensures { IfSome result (IsRenewedInTurn plan.now.inventory plan.now.extra log.now (learnt_by rows.now) hosts) }
{
    if learn_once(log) {
        return renewed_in_turn(alloc, plan, rows, hosts, log);
    }
    drop(hosts);
    None
}

/// No variable `hostvars`, as a task may see it that doesn't look it up.
pub(crate) fn unread(alloc: Global) -> Shown
    ensures { result ≡ record { hosts = []; is_whole = false } }
{
    Shown {
        hosts: Dict::new(alloc),
        is_whole: false,
    }
}
