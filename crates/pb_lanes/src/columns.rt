//! How the finished tasks of each host count.

ghost use Rattle.std.specs.Prelude.{◌≡◌, ◌<◌, ◌+◌, ◌-◌, ◌^◌, length, replicate, slice_get, slice_set, slice_index, Some, IfOk};
ghost use Rattle.std.specs.List.{sum};
ghost use Rattle.pb_lanes.specs.ColumnsOf.{AreOfHosts, hosts_in, column, no_counts, bumped, with_count, has_some};

use crate::kind::CountKind;
use crate::sums::sum_of;
use pb_ids::HostNo;
use std::alloc::{AllocError, Global};
use std::marker::Model;

/// How many finished tasks of each host count under each kind, for any number of hosts below 2^32: seven columns, one
/// for each kind, with a count for each host. A count is at most 2^32 - 1 and takes four bytes.
#[derive(Debug, Drop)]
pub struct Columns {
    ok: Vec<u32>,
    changed: Vec<u32>,
    unreachable: Vec<u32>,
    failed: Vec<u32>,
    skipped: Vec<u32>,
    rescued: Vec<u32>,
    ignored: Vec<u32>,
}

impl Model for Columns {
    ghost use Rattle.pb_lanes.specs.ColumnsOf.{ColumnsOf, AreOfHosts};

    ghost Value = { ColumnsOf };

    ghost view = { λ c. record {
      ok = c.ok.items;
      changed = c.changed.items;
      unreachable = c.unreachable.items;
      failed = c.failed.items;
      skipped = c.skipped.items;
      rescued = c.rescued.items;
      ignored = c.ignored.items;
    } };

    ghost invariant = { λ c. AreOfHosts (record {
      ok = c.ok.items;
      changed = c.changed.items;
      unreachable = c.unreachable.items;
      failed = c.failed.items;
      skipped = c.skipped.items;
      rescued = c.rescued.items;
      ignored = c.ignored.items;
    }) };
}

/// A column of zeros.
fn zeros(alloc: Global, hosts: u32) -> Result<Vec<u32>, AllocError>
    ensures { IfOk result (λ column. column.items ≡ replicate hosts 0) }
{
    Ok(vec![in alloc; 0; hosts as usize]?)
}

/// One more task of a host.
fn one_more(column: &mut Vec<u32>, host: HostNo)
    requires host { host.0 < length column.old.items }
    requires room { slice_index column.old.items host.0 < 2 ^ 32 - 1 }
    ensures { column.new.items ≡ slice_set column.old.items host.0 (slice_index column.old.items host.0 + 1) }
{
    column[host.0 as usize] += 1;
}

/// So many tasks of a host.
fn set_count(column: &mut Vec<u32>, host: HostNo, count: u32)
    requires { host.0 < length column.old.items }
    ensures { column.new.items ≡ slice_set column.old.items host.0 count }
{
    column[host.0 as usize] = count;
}

impl Columns {
    /// Columns of this many hosts, of which no task counts yet. The only error is want of memory.
    pub fn new(alloc: Global, hosts: u32) -> Result<Columns, AllocError>
        ensures { IfOk result (λ columns. columns ≡ no_counts hosts) }
    {
        Ok(Columns {
            ok: zeros(alloc, hosts)?,
            changed: zeros(alloc, hosts)?,
            unreachable: zeros(alloc, hosts)?,
            failed: zeros(alloc, hosts)?,
            skipped: zeros(alloc, hosts)?,
            rescued: zeros(alloc, hosts)?,
            ignored: zeros(alloc, hosts)?,
        })
    }

    /// How many hosts there are. Each column has a count for each of them.
    pub fn hosts(&self) -> u32
        ensures count { result ≡ hosts_in self.now }
        ensures columns { AreOfHosts self.now }
    {
        self.ok.len() as u32
    }

    /// One more task of a host counts under a kind, under which fewer than 2^32 - 1 have counted.
    pub fn bump(&mut self, host: HostNo, kind: CountKind)
        requires host { host.0 < hosts_in self.old }
        requires room { slice_index (column kind self.old) host.0 < 2 ^ 32 - 1 }
        ensures { self.new ≡ bumped kind host.0 self.old }
    {
        match kind {
            CountKind::Okay => one_more(&mut self.ok, host),
            CountKind::Changed => one_more(&mut self.changed, host),
            CountKind::Unreachable => one_more(&mut self.unreachable, host),
            CountKind::Failed => one_more(&mut self.failed, host),
            CountKind::Skipped => one_more(&mut self.skipped, host),
            CountKind::Rescued => one_more(&mut self.rescued, host),
            CountKind::Ignored => one_more(&mut self.ignored, host),
        }
    }

    /// So many tasks of a host count under a kind from now on, however many did before.
    pub fn put(&mut self, host: HostNo, kind: CountKind, count: u32)
        requires { host.0 < hosts_in self.old }
        ensures { self.new ≡ with_count kind host.0 count self.old }
    {
        match kind {
            CountKind::Okay => set_count(&mut self.ok, host, count),
            CountKind::Changed => set_count(&mut self.changed, host, count),
            CountKind::Unreachable => set_count(&mut self.unreachable, host, count),
            CountKind::Failed => set_count(&mut self.failed, host, count),
            CountKind::Skipped => set_count(&mut self.skipped, host, count),
            CountKind::Rescued => set_count(&mut self.rescued, host, count),
            CountKind::Ignored => set_count(&mut self.ignored, host, count),
        }
    }

    /// The counts of a kind, one for each host, in the order of their numbers.
    pub fn column(&self, kind: CountKind) -> &[u32]
        ensures value { result.now ≡ column kind self.now }
        ensures width { length result.now ≡ hosts_in self.now }
    {
        match kind {
            CountKind::Okay => self.ok.as_slice(),
            CountKind::Changed => self.changed.as_slice(),
            CountKind::Unreachable => self.unreachable.as_slice(),
            CountKind::Failed => self.failed.as_slice(),
            CountKind::Skipped => self.skipped.as_slice(),
            CountKind::Rescued => self.rescued.as_slice(),
            CountKind::Ignored => self.ignored.as_slice(),
        }
    }

    /// How many tasks of a host count under a kind.
    pub fn get(&self, host: HostNo, kind: CountKind) -> u32
        requires { host.0 < hosts_in self.now }
        ensures { slice_get (column kind self.now) host.0 ≡ Some result }
    {
        self.column(kind)[host.0 as usize]
    }

    /// How many tasks of all hosts together count under a kind.
    pub fn total(&self, kind: CountKind) -> u64
        ensures { result ≡ sum (column kind self.now) }
    {
        // (the invariant is known to the proof once a field is read)
        let _ok = &self.ok;
        sum_of(self.column(kind))
    }

    /// Whether some task of some host counts under a kind.
    pub fn nonzero(&self, kind: CountKind) -> bool
        ensures { result ≡ has_some (column kind self.now) }
    {
        self.total(kind) != 0
    }
}
