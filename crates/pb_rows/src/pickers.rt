//! A failure that is fatal for all hosts, under any forks and by each picker.

use crate::kept::Kept;
use crate::trails::plan_on;
use pb_driver::{Lowest, Picker, RoundRobin, run_plain};
use pb_runner::table::TableRunner;
use std::alloc::Global;
use std::test::Fail;

const THREE_HOSTS: &str = "{\"all\":[\"a\",\"b\",\"c\"]}";

const FATAL: &str =
    "[{\"hosts\":\"all\",\"gather_facts\":false,\"any_errors_fatal\":true,\"tasks\":[{\"command\":\"run it\"},{\"debug\":{}}]}]";

const A_FAILS: &[u8] =
    b"{\"rows\":[{\"host\":\"a\",\"outcome\":{\"err\":\"\",\"out\":\"\",\"rc\":1}}]}";

/// The hosts run the command, and none of them the task behind it.
const RECAP: &[u8] =
    b"PLAY RECAP\na : ok=0 changed=0 unreachable=0 failed=1 skipped=0 rescued=0 ignored=0\nb : ok=1 changed=1 unreachable=0 failed=0 skipped=0 rescued=0 ignored=0\nc : ok=1 changed=1 unreachable=0 failed=0 skipped=0 rescued=0 ignored=0\n";

/// Runs the play under so many forks. What it wrote, where a task failed.
fn written<P: Picker>(alloc: Global, picker: &mut P, forks: u32) -> Result<Vec<u8>, Fail> {
    let plan = plan_on(alloc, THREE_HOSTS, FATAL, forks)?;
    let Ok(mut runner) = TableRunner::read(alloc, A_FAILS) else {
        return Err(Fail::new("a table"));
    };
    let mut out = Kept::new(alloc);
    match run_plain(alloc, plan, &mut runner, picker, &[], &mut out) {
        Ok(ended) => {
            if ended.status != 2 {
                return Err(Fail::new("a failure"));
            }
        }
        Err(_) => return Err(Fail::new("an end")),
    }
    Ok(out.into_bytes())
}

#[test]
fn fatal_for_all(rt: HostRuntime) -> Result<(), Fail> {
    let alloc = rt.alloc();
    for forks in [1, 2, 256].as_slice() {
        let lowest = written(alloc, &mut Lowest, *forks)?;
        assert!(rt; lowest.ends_with(RECAP), "{forks}");
        let in_turn = written(alloc, &mut RoundRobin::new(), *forks)?;
        assert!(rt; in_turn.ends_with(RECAP), "{forks}");
    }
    Ok(())
}
