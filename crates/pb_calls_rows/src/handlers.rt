//! Which handlers are pending on hosts.

use pb_handlers::Notes;
use pb_ids::HostNo;
use std::test::Fail;

const A: HostNo = HostNo(0);

const B: HostNo = HostNo(1);

/// Before anything has happened nothing is pending.
#[test]
fn pending_handlers(rt: HostRuntime) -> Result<(), Fail> {
    let notes = Notes::new(rt.alloc(), 2, 2)?;
    assert!(rt; notes.pending(A) == [false, false].as_slice());
    assert!(rt; notes.pending(B) == [false, false].as_slice());
    Ok(())
}
