//! What hosts learn, kept for all of them in one book.

ghost use Rattle.std.specs.Prelude.{◌≡◌, length, OnOk};

use pb_facts::book::FactBook;
use pb_ids::HostNo;
use pb_value::text::Text;
use pb_value::val::{Dict, Val};
use std::alloc::{AllocError, Global};
use std::test::Fail;

const A: HostNo = HostNo(0);

const B: HostNo = HostNo(1);

fn text(alloc: Global, text: &str) -> Result<Val, AllocError> {
    Ok(Val::text(Text::from_str(alloc, text)?))
}

/// One fact of this name.
fn fact(alloc: Global, name: &str, value: &str) -> Result<Dict, AllocError> {
    let mut facts = Dict::new(alloc);
    facts.put(alloc, name, text(alloc, value)?)?;
    Ok(facts)
}

/// Whether there is such a text under a name.
fn has(alloc: Global, known: &Dict, name: &str, wanted: &str) -> Result<bool, AllocError> {
    match known.get(name) {
        Some(value) => Ok(value.text_of(alloc)?.as_str() == wanted),
        None => Ok(false),
    }
}

/// Host a gathers one fact, sets another and registers a result, which then goes to host b too.
fn teach(alloc: Global, book: &mut FactBook) -> Result<(), AllocError>
    requires { length book.old ≡ 2 }
    ensures { OnOk result (length book.new ≡ 2) }
{
    let gathered = fact(alloc, "os", "linux")?;
    let given = fact(alloc, "port", "80")?;
    let shown = text(alloc, "up")?;
    book.merge(alloc, A, &gathered)?;
    book.set(alloc, A, &given)?;
    book.register(alloc, A, "state", shown)?;
    book.share(alloc, A, B, "state")
}

#[test]
fn what_hosts_learn(rt: HostRuntime) -> Result<(), Fail> {
    let alloc = rt.alloc();
    let mut book = FactBook::new(alloc, 2)?;
    teach(alloc, &mut book)?;
    let (a, b) = (book.row(A), book.row(B));
    assert!(rt; has(alloc, a.gathered_layer(), "os", "linux")?);
    assert!(rt; has(alloc, a.set_layer(), "port", "80")?);
    assert!(rt; has(alloc, a.set_layer(), "state", "up")?);
    assert!(rt; has(alloc, b.set_layer(), "state", "up")?);
    assert!(rt; b.gathered_layer().is_empty());
    assert!(rt; b.set_layer().len() == 1);
    Ok(())
}
