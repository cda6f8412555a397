//! The counts of hosts in columns: those of a state, those of one host, and those of all hosts.

ghost use Rattle.std.specs.Prelude.{◌≡◌, ◌<◌, ◌-◌, ◌^◌, IfOk, map, slice_get, slice_index, sum_by};
ghost use Rattle.std.specs.List.{list_any};
ghost use Rattle.pb_lanes.specs.ColumnsOf.{column, hosts_in};
ghost use Rattle.pb_host.specs.Ends.{IsAtMost};
ghost use Rattle.pb_host.specs.Host.{HostOf};
ghost use Rattle.pb_recap.specs.InColumns.{counts_of, rows_of, with_counts};
ghost use Rattle.pb_recap.specs.Kinds.{count_of, has, has_count};

use pb_ids::HostNo;
use pb_lanes::{Columns, CountKind};
use pb_state::{Counts, EngineState};
use std::alloc::{AllocError, Global};

/// Puts down the counts of a host.
fn put_counts(columns: &mut Columns, host: HostNo, counts: Counts)
    requires host { host.0 < hosts_in columns.old }
    requires few { IsAtMost counts (2 ^ 32 - 2) }
    ensures { columns.new ≡ with_counts host.0 counts columns.old }
{
    columns.put(host, CountKind::Okay, counts.ok as u32);
    columns.put(host, CountKind::Changed, counts.changed as u32);
    columns.put(host, CountKind::Unreachable, counts.unreachable as u32);
    columns.put(host, CountKind::Failed, counts.failed as u32);
    columns.put(host, CountKind::Skipped, counts.skipped as u32);
    columns.put(host, CountKind::Rescued, counts.rescued as u32);
    columns.put(host, CountKind::Ignored, counts.ignored as u32);
}

/// The counts of a state's hosts. The only error is want of memory.
pub(crate) fn columns_of(alloc: Global, state: &EngineState) -> Result<Columns, AllocError>
    ensures { IfOk result (λ columns. rows_of columns ≡ map (λ (row : HostOf). row.counts) state.now.rows) }
{
    let hosts = state.hosts() as u32;
    let mut columns = Columns::new(alloc, hosts)?;
    for host in 0..hosts {
        put_counts(&mut columns, HostNo(host), state.host_counts(HostNo(host)));
    }
    Ok(columns)
}

/// How many tasks of a host count under a kind: none where there is no such host.
fn count_at(columns: &Columns, host: HostNo, kind: CountKind) -> u64
    ensures { result ≡ slice_index (column kind columns.now) host.0 }
{
    match columns.column(kind).get(host.0 as usize) {
        Some(count) => u64::from(*count),
        None => 0,
    }
}

/// The counts of a host: none where there is no such host.
pub(crate) fn counts_of(columns: &Columns, host: HostNo) -> Counts
    ensures { result ≡ counts_of columns.now host.0 }
{
    Counts {
        ok: count_at(columns, host, CountKind::Okay),
        changed: count_at(columns, host, CountKind::Changed),
        unreachable: count_at(columns, host, CountKind::Unreachable),
        failed: count_at(columns, host, CountKind::Failed),
        skipped: count_at(columns, host, CountKind::Skipped),
        rescued: count_at(columns, host, CountKind::Rescued),
        ignored: count_at(columns, host, CountKind::Ignored),
    }
}

/// The counts of a host, if there is such a host.
pub(crate) fn counts_at(columns: &Columns, host: HostNo) -> Option<Counts>
    ensures { result ≡ slice_get (rows_of columns.now) host.0 }
{
    if host.0 < columns.hosts() {
        Some(counts_of(columns, host))
    } else {
        None
    }
}

/// Whether some count isn't 0.
pub(crate) fn has_count(counts: &Counts) -> bool
    ensures { result ≡ has_count counts.now }
{
    counts.ok > 0
        || counts.changed > 0
        || counts.unreachable > 0
        || counts.failed > 0
        || counts.skipped > 0
        || counts.rescued > 0
        || counts.ignored > 0
}

/// Whether some host has a count of a kind.
pub(crate) fn some_has(columns: &Columns, kind: CountKind) -> bool
    ensures { result ≡ list_any (has kind) (rows_of columns.now) }
{
    // (the proof needs to know that the columns are of one length)
    let _hosts = columns.hosts();
    columns.nonzero(kind)
}

/// The sum of the counts of a kind.
pub(crate) fn total(columns: &Columns, kind: CountKind) -> u64
    ensures { result ≡ sum_by (count_of kind) (rows_of columns.now) }
{
    // (as above)
    let _hosts = columns.hosts();
    columns.total(kind)
}
