//! Results whose names are made once for many.

use pb_outcome::decided::{debug_result, fail_result, set_result};
use pb_outcome::result_names::ResultNames;
use pb_value::text::Text;
use pb_value::val::{Dict, Val};
use std::alloc::{AllocError, Global};
use std::test::Fail;

fn text(alloc: Global, text: &str) -> Result<Val, AllocError> {
    Ok(Val::text(Text::from_str(alloc, text)?))
}

/// Facts of this port.
fn port(alloc: Global, number: i64) -> Result<Val, AllocError> {
    let mut facts = Dict::new(alloc);
    facts.put(alloc, "port", Val::int(number))?;
    Ok(Val::dict(facts))
}

#[test]
fn results_of_names(rt: HostRuntime) -> Result<(), Fail> {
    let alloc = rt.alloc();
    let names = ResultNames::new(alloc)?;
    let shown = debug_result(alloc, &names, text(alloc, "up")?)?;
    assert_eq!(rt;
        shown.result.compact(alloc)?.as_str(),
        "{\"changed\":false,\"failed\":false,\"msg\":\"up\"}"
    );
    let failed = fail_result(alloc, &names, text(alloc, "down")?)?;
    assert_eq!(rt;
        failed.result.compact(alloc)?.as_str(),
        "{\"changed\":false,\"failed\":true,\"msg\":\"down\"}"
    );
    let set = set_result(alloc, &names, port(alloc, 80)?)?;
    assert_eq!(rt;
        set.result.compact(alloc)?.as_str(),
        "{\"ansible_facts\":{\"port\":80},\"changed\":false,\"failed\":false}"
    );
    Ok(())
}
