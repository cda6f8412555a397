//! Each call of the columns of counts at each width, against a plain list.

use crate::widths::WIDTHS;
use pb_ids::HostNo;
use pb_lanes::{Columns, CountKind};
use std::alloc::Global;
use std::test::Fail;

const KINDS: [CountKind; 7] = [
    CountKind::Okay,
    CountKind::Changed,
    CountKind::Unreachable,
    CountKind::Failed,
    CountKind::Skipped,
    CountKind::Rescued,
    CountKind::Ignored,
];

/// How often a host is to count under a kind: of some kinds all hosts have counts, of some a few, and of one none has.
fn times(kind: CountKind, number: u32) -> u32 {
    match kind {
        CountKind::Okay => number % 4,
        CountKind::Changed => number % 2 * 3,
        CountKind::Unreachable => 0,
        CountKind::Failed => number % 2,
        CountKind::Skipped => 1,
        CountKind::Rescued => (number % 512 == 511) as u32,
        CountKind::Ignored => (number == 62) as u32 * 2,
    }
}

fn bump(columns: &mut Columns, number: u32, kind: CountKind) {
    if number < columns.hosts() && columns.get(HostNo(number), kind) < u32::MAX {
        columns.bump(HostNo(number), kind);
    }
}

fn columns_of(alloc: Global, width: u32) -> Result<Columns, Fail> {
    let mut columns = Columns::new(alloc, width)?;
    for number in 0..width {
        for kind in KINDS {
            for _ in 0..times(kind, number) {
                bump(&mut columns, number, kind);
            }
        }
    }
    Ok(columns)
}

fn put(columns: &mut Columns, number: u32, kind: CountKind, count: u32) {
    if number < columns.hosts() {
        columns.put(HostNo(number), kind, count);
    }
}

/// Puts down so many skipped tasks of each host.
fn put_skipped(columns: &mut Columns, width: u32, count: u32) {
    for number in 0..width {
        put(columns, number, CountKind::Skipped, count);
    }
}

/// Whether each host has the counts that it was given.
fn has_the_same(columns: &Columns, width: u32) -> bool {
    for number in 0..columns.hosts() {
        for kind in KINDS {
            if columns.get(HostNo(number), kind) != times(kind, number) {
                return false;
            }
        }
    }
    columns.hosts() == width
}

/// Whether `total` and `nonzero` say what the hosts were given.
fn sums_the_same(columns: &Columns, width: u32) -> bool {
    for kind in KINDS {
        let mut total = 0u64;
        for number in 0..width {
            total = total.wrapping_add(u64::from(times(kind, number)));
        }
        if columns.total(kind) != total || columns.nonzero(kind) != (total != 0) {
            return false;
        }
    }
    true
}

#[test]
fn every_kind(rt: HostRuntime) -> Result<(), Fail> {
    let alloc = rt.alloc();
    for width in WIDTHS {
        let columns = columns_of(alloc, width)?;
        assert!(rt; has_the_same(&columns, width), "{width}");
        assert!(rt; sums_the_same(&columns, width), "{width}");
    }
    Ok(())
}

/// Counts that are put down replace those that were there, of each kind alone.
#[test]
fn counts_are_put_down(rt: HostRuntime) -> Result<(), Fail> {
    let alloc = rt.alloc();
    for width in WIDTHS {
        let mut columns = columns_of(alloc, width)?;
        put_skipped(&mut columns, width, 7);
        put_skipped(&mut columns, width, 1);
        assert!(rt; has_the_same(&columns, width), "{width}");
        assert!(rt; sums_the_same(&columns, width), "{width}");
    }
    Ok(())
}

/// The totals of a command that fails on every odd host number.
#[test]
fn odd_hosts_fail(rt: HostRuntime) -> Result<(), Fail> {
    let alloc = rt.alloc();
    let rows = [
        (0, 0),
        (1, 0),
        (63, 31),
        (64, 32),
        (65, 32),
        (511, 255),
        (512, 256),
        (513, 256),
        (65_536, 32_768),
        (1_048_576, 524_288),
    ];
    for (width, failed) in rows {
        let columns = columns_of(alloc, width)?;
        assert!(rt; columns.total(CountKind::Failed) == failed, "{width}");
        assert!(rt;
            columns.total(CountKind::Skipped) == u64::from(width),
            "{width}"
        );
        assert!(rt; !columns.nonzero(CountKind::Unreachable), "{width}");
    }
    Ok(())
}
