//! Each call of a row of statuses at each width, against a plain list.

use crate::widths::WIDTHS;
use pb_ids::HostNo;
use pb_lanes::StatusRow;
use pb_planes::HostSet;
use pb_tree::Status;
use std::alloc::Global;
use std::test::Fail;

const STATUSES: [Status; 4] = [Status::Active, Status::Failed, Status::Halted, Status::Gone];

/// The status that a host is given: all four come, and none of them at every number of one remainder.
fn status_for(number: u32) -> Status {
    if number % 7 == 3 {
        Status::Gone
    } else if number % 5 == 1 {
        Status::Halted
    } else if number % 2 == 1 {
        Status::Failed
    } else {
        Status::Active
    }
}

fn list_of(alloc: Global, width: u32) -> Result<Vec<Status>, Fail> {
    let mut list = Vec::new(alloc);
    for number in 0..width {
        list.push(status_for(number))?;
    }
    Ok(list)
}

/// A row in which each host was put down, one by one.
fn row_of(alloc: Global, width: u32) -> Result<StatusRow, Fail> {
    let mut row = StatusRow::new(alloc, width, Status::Halted)?;
    for number in 0..width {
        if number < row.hosts() {
            row.put(HostNo(number), status_for(number));
        }
    }
    Ok(row)
}

fn has_the_same(row: &StatusRow, list: &[Status]) -> bool {
    for number in 0..row.hosts() {
        if list.get(number as usize) != Some(&row.get(HostNo(number))) {
            return false;
        }
    }
    row.hosts() as usize == list.len()
}

/// Whether a set has just the hosts of this status.
fn is_of(set: &HostSet, list: &[Status], status: Status) -> bool {
    for number in 0..set.width() {
        let is_in = list.get(number as usize) == Some(&status);
        if set.has(HostNo(number)) != is_in {
            return false;
        }
    }
    set.width() as usize == list.len()
}

/// Whether `select`, into a set that had all hosts, and `count` say what the list says.
fn selects_the_same(
    alloc: Global,
    row: &StatusRow,
    list: &[Status],
    status: Status,
) -> Result<bool, Fail> {
    let mut set = HostSet::full(alloc, row.hosts())?;
    row.select(status, &mut set);
    Ok(is_of(&set, list, status) && row.count(status) == set.count())
}

#[test]
fn every_status(rt: HostRuntime) -> Result<(), Fail> {
    let alloc = rt.alloc();
    for width in WIDTHS {
        let list = list_of(alloc, width)?;
        let row = row_of(alloc, width)?;
        assert!(rt; has_the_same(&row, list.as_slice()), "{width}");
        for status in STATUSES {
            let selects = selects_the_same(alloc, &row, list.as_slice(), status)?;
            assert!(rt; selects, "{width}");
        }
    }
    Ok(())
}

#[test]
fn a_fresh_row(rt: HostRuntime) -> Result<(), Fail> {
    let alloc = rt.alloc();
    for width in WIDTHS {
        let row = StatusRow::new(alloc, width, Status::Active)?;
        assert!(rt; row.count(Status::Active) == width, "{width}");
        assert!(rt; row.count(Status::Failed) == 0, "{width}");
    }
    Ok(())
}
