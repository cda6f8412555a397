//! Which hosts a play calls.

ghost use Rattle.std.specs.Prelude.{◌≡◌, ◌≤◌, length, map, drop, IfOk, IfSome};
ghost use Rattle.std.specs.List.{list_any};
ghost use Rattle.pb_host.specs.Host.{is_play_host, as_play_begins};
ghost use Rattle.pb_hosts.specs.Batches.{play_host_count};
ghost use Rattle.pb_hosts.specs.Hosts.{first_play};

use pb_host::{Host, PlanPlay};
use pb_ids::HostNo;
use pb_planes::HostSet;
use std::alloc::{AllocError, Global};

/// Whether a host of a set is active.
fn some_play_host(rows: &[Host], hosts: &HostSet) -> bool
    ensures { result ≡ list_any (is_play_host hosts.now) rows.now }
{
    rows.iter().any(|row| row.is_play_host(hosts))
}

/// How many hosts of a set are active.
pub fn play_host_count(rows: &[Host], hosts: &HostSet) -> u32
    requires { length rows.now ≤ 1048576 }
    ensures { result ≡ play_host_count hosts.now rows.now }
{
    rows.iter().filter(|row| row.is_play_host(hosts)).count() as u32
}

/// The number of the first play from this one on that has hosts: some host of its own is active.
pub fn first_play(rows: &[Host], plays: &[PlanPlay], from: usize) -> Option<usize>
    ensures value { result ≡ first_play rows.now from (drop from plays.now) }
    ensures least { IfSome result (λ number. from ≤ number) }
{
    for number in from..plays.len() {
        if some_play_host(rows, plays[number].hosts()) {
            return Some(number);
        }
    }
    None
}

/// Puts those of a play's own hosts that are active into a set.
fn play_hosts_into(rows: &[Host], hosts: &HostSet, set: &mut HostSet)
    requires { length set.old ≡ length rows.now }
    ensures { set.new ≡ map (is_play_host hosts.now) rows.now }
{
    let width = set.width();
    for i in 0..width {
        let is_in = rows[i as usize].is_play_host(hosts);
        set.put(HostNo(i), is_in);
    }
}

/// Those of a play's own hosts that are active, of so many hosts.
pub(crate) fn play_hosts_set(
    alloc: Global,
    rows: &Vec<Host>,
    width: u32,
    hosts: &HostSet,
) -> Result<HostSet, AllocError>
    requires { width ≡ length rows.now.items }
    ensures { IfOk result (λ calls. calls ≡ map (is_play_host hosts.now) rows.now.items) }
{
    let mut calls = HostSet::empty(alloc, width)?;
    play_hosts_into(rows.as_slice(), hosts, &mut calls);
    Ok(calls)
}

/// A play begins that has these hosts of its own: each of them that is active waits for its batch.
pub(crate) fn begin_all(rows: &mut Vec<Host>, hosts: &HostSet)
    ensures { rows.new.items ≡ map (as_play_begins hosts.now) rows.old.items }
{
    begin_each(rows.as_mut_slice(), hosts);
}

/// Each of these hosts that is active waits for its batch.
fn begin_each(rows: &mut [Host], hosts: &HostSet)
    ensures { rows.new ≡ map (as_play_begins hosts.now) rows.old }
{
    for row in rows.iter_mut() {
        row.begin_play(hosts);
    }
}
