//! The status of each host.

ghost use Rattle.std.specs.Prelude.{◌≡◌, ◌<◌, length, map, count_by, replicate, slice_get, slice_set, Some, IfOk};
ghost use Rattle.pb_lanes.specs.Codes.{code_of, status_of, is_status};

use crate::bytes;
use pb_ids::HostNo;
use pb_planes::HostSet;
use pb_tree::Status;
use std::alloc::{AllocError, Global};
use std::marker::Model;

/// The status of each host, for any number of hosts below 2^32. It takes one byte a host.
#[derive(Debug, Drop)]
pub struct StatusRow {
    codes: Vec<u8>,
}

impl Model for StatusRow {
    ghost use Rattle.std.specs.Prelude.{List, map};
    ghost use Rattle.pb_tree.specs.declared.tree.Status.{Status};
    ghost use Rattle.pb_lanes.specs.Codes.{status_of, AreCodes};

    ghost Value = { List Status };

    ghost view = { λ r. map status_of r.codes.items };

    ghost invariant = { λ r. AreCodes r.codes.items };
}

/// The byte of a status.
fn code_of(status: Status) -> u8
    ensures value { result ≡ code_of status }
    ensures code { result < 4 }
{
    match status {
        Status::Active => 0,
        Status::Failed => 1,
        Status::Halted => 2,
        Status::Gone => 3,
    }
}

/// The status of a byte.
fn status_of(code: u8) -> Status
    ensures { result ≡ status_of code }
{
    match code {
        0 => Status::Active,
        1 => Status::Failed,
        2 => Status::Halted,
        _ => Status::Gone,
    }
}

impl StatusRow {
    /// A row of this many hosts, all of one status. The only error is want of memory.
    #[tactic(auto, using(crate::proofs::Coded::all_of))]
    pub fn new(alloc: Global, hosts: u32, status: Status) -> Result<StatusRow, AllocError>
        ensures { IfOk result (λ row. row ≡ replicate hosts status) }
    {
        let codes = vec![in alloc; code_of(status); hosts as usize]?;
        Ok(StatusRow { codes })
    }

    /// How many hosts there are.
    pub fn hosts(&self) -> u32
        ensures { result ≡ length self.now }
    {
        self.codes.len() as u32
    }

    /// The status of a host.
    pub fn get(&self, host: HostNo) -> Status
        requires { host.0 < length self.now }
        ensures { slice_get self.now host.0 ≡ Some result }
    {
        status_of(self.codes[host.0 as usize])
    }

    /// From now on a host has this status.
    pub fn put(&mut self, host: HostNo, status: Status)
        requires { host.0 < length self.old }
        ensures { self.new ≡ slice_set self.old host.0 status }
    {
        self.codes[host.0 as usize] = code_of(status);
    }

    /// Puts the hosts of a status into a set of the same width: these and no others, whatever it held before.
    pub fn select(&self, status: Status, set: &mut HostSet)
        requires { length set.old ≡ length self.now }
        ensures { set.new ≡ map (is_status status) self.now }
    {
        bytes::select_in(self.codes.as_slice(), code_of(status), set);
    }

    /// How many hosts have a status.
    pub fn count(&self, status: Status) -> u32
        ensures { result ≡ count_by (is_status status) self.now }
    {
        bytes::count_in(self.codes.as_slice(), code_of(status))
    }
}
