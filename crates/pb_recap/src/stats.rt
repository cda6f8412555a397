//! The line of statistics.

ghost use Rattle.std.specs.Prelude.{◌≡◌, ◌++◌, ◌∷◌, [], IfOk, OnOk, decimal, map, slice_get, string_bytes};
ghost use Rattle.json.specs.Print.{print};
ghost use Rattle.json.specs.Token.{begin_object, key as key_token, number};
ghost use Rattle.json.specs.Tree.{json_tokens, members_tokens};
ghost use Rattle.serde_json.specs.Data.{no_members};
ghost use Rattle.serde_json.specs.Written.{outline, members_outline};
ghost use Rattle.pb_recap.specs.InColumns.{rows_of};
ghost use Rattle.pb_recap.specs.Hosts.{hosts_with_count, host_if_counted};
ghost use Rattle.pb_recap.specs.Named.{line_with, members_of, named_in};
ghost use Rattle.pb_recap.specs.Stats.{stats_line, with_hosts, counts_data};

use crate::columns::{counts_at, counts_of, has_count};
use json::Writer;
use pb_ids::HostNo;
use pb_lanes::Columns;
use pb_state::{Counts, Plan};
use std::alloc::{AllocError, Global};
use std::collections::BTreeMap;

/// The line of the hosts that have a count. The order of their names and the line itself are all that takes memory.
pub fn line_of(alloc: Global, plan: &Plan, counts: &Columns) -> Result<String, AllocError>
    ensures { IfOk result (λ s. string_bytes s ≡ stats_line plan.now.inventory.hosts (rows_of counts.now)) }
{
    let hosts = by_name(alloc, plan, counts)?;
    let mut out = Writer::new(Vec::new(alloc));
    write_line(&hosts, counts, &mut out)?;
    ended(out)
}

/// The hosts that have a count, in the order of their names.
fn by_name<'a>(
    alloc: Global,
    plan: &'a Plan,
    counts: &Columns,
) -> Result<BTreeMap<&'a str, HostNo>, AllocError>
    ensures { IfOk result (λ hosts. members_of (map (named_in counts.now) hosts.entries) ≡ with_hosts no_members (hosts_with_count plan.now.inventory.hosts (rows_of counts.now))) }
{
    let mut hosts = BTreeMap::new(alloc);
    for host in 0..plan.host_count() {
        let name = plan.host_name(HostNo(host));
        add_host(&mut hosts, name, HostNo(host), counts)?;
    }
    Ok(hosts)
}

/// Adds a host, if it has a count.
fn add_host<'a>(
    hosts: &mut BTreeMap<&'a str, HostNo>,
    name: &'a str,
    host: HostNo,
    counts: &Columns,
) -> Result<(), AllocError>
    ensures { OnOk result (members_of (map (named_in counts.now) hosts.new.entries)
        ≡ with_hosts (members_of (map (named_in counts.now) hosts.old.entries)) (host_if_counted name.now (slice_get (rows_of counts.now) host.0))) }
{
    match counts_at(counts, host) {
        Some(own) if has_count(&own) => {
            hosts.insert(name, host)?;
            Ok(())
        }
        _ => Ok(()),
    }
}

/// Writes the line's object, with these hosts.
fn write_line(
    hosts: &BTreeMap<&str, HostNo>,
    counts: &Columns,
    out: &mut Writer,
) -> Result<(), AllocError>
    ensures tokens { OnOk result (out.new.tokens ≡ out.old.tokens ++ json_tokens (outline (line_with (members_of (map (named_in counts.now) hosts.now.entries))))) }
    ensures before { out.new.before ≡ out.old.before }
{
    out.begin_object()?;
    out.key("event")?;
    out.string("playbook_on_stats")?;
    out.key("stats")?;
    write_hosts(hosts, counts, out)?;
    out.end_object()
}

/// Writes each host's counts under its name, between braces.
fn write_hosts(
    hosts: &BTreeMap<&str, HostNo>,
    counts: &Columns,
    out: &mut Writer,
) -> Result<(), AllocError>
    ensures tokens { OnOk result (out.new.tokens ≡ out.old.tokens ++ begin_object ∷ members_tokens (members_outline (members_of (map (named_in counts.now) hosts.now.entries)))) }
    ensures before { out.new.before ≡ out.old.before }
{
    out.begin_object()?;
    for (name, host) in hosts.iter() {
        out.key(*name)?;
        write_counts(&counts_of(counts, *host), out)?;
    }
    out.end_object()
}

/// Writes the seven counts under their names.
fn write_counts(counts: &Counts, out: &mut Writer) -> Result<(), AllocError>
    ensures tokens { OnOk result (out.new.tokens ≡ out.old.tokens ++ json_tokens (outline (counts_data counts.now))) }
    ensures before { out.new.before ≡ out.old.before }
{
    out.begin_object()?;
    put_count(out, "changed", counts.changed)?;
    put_count(out, "failed", counts.failed)?;
    put_count(out, "ignored", counts.ignored)?;
    put_count(out, "ok", counts.ok)?;
    put_count(out, "rescued", counts.rescued)?;
    put_count(out, "skipped", counts.skipped)?;
    put_count(out, "unreachable", counts.unreachable)?;
    out.end_object()
}

/// Puts a count under a key.
fn put_count(out: &mut Writer, key: &str, count: u64) -> Result<(), AllocError>
    ensures tokens { OnOk result (out.new.tokens ≡ out.old.tokens ++ key_token key.now ∷ number (decimal count) ∷ []) }
    ensures before { out.new.before ≡ out.old.before }
{
    out.key(key)?;
    out.u64(count)
}

/// What was written, and a line end.
fn ended(out: Writer) -> Result<String, AllocError>
    requires { out.before ≡ [] }
    ensures { IfOk result (λ s. string_bytes s ≡ print out.tokens ++ 10 ∷ []) }
{
    let mut text = String::from_utf8(out.into_inner()).unwrap();
    text.push('\n')?;
    Ok(text)
}
