//! `hostvars`, in which the variables of a host follow what it learns.

use pb_facts::facts::Facts;
use pb_facts::update::FactsUpdate;
use pb_ids::HostNo;
use pb_inventory::inventory::Inventory;
use pb_value::text::Text;
use pb_value::val::{Dict, Node, Val};
use pb_variables::hostvars::{Learner, hosts_magic, hostvars, renewed_between};
use std::alloc::{AllocError, Global};
use std::test::Fail;

/// The map that a name stands for.
fn map_at<'a>(known: &'a Dict, name: &str) -> Option<&'a Dict> {
    match &known.get(name)?.node {
        Node::Dict(map) => Some(map),
        _ => None,
    }
}

/// Whether a host's variable of this name is this text.
fn has(
    alloc: Global,
    hosts: &Dict,
    host: &str,
    name: &str,
    wanted: &str,
) -> Result<bool, AllocError> {
    let Some(known) = map_at(hosts, "hostvars") else {
        return Ok(false);
    };
    let Some(variables) = map_at(known, host) else {
        return Ok(false);
    };
    match variables.get(name) {
        Some(value) => Ok(value.text_of(alloc)?.as_str() == wanted),
        None => Ok(false),
    }
}

/// A text under a name.
fn entry(alloc: Global, name: &str, text: &str) -> Result<Vec<(String, Val)>, AllocError> {
    let mut entries = Vec::new(alloc);
    let name = String::from_str(alloc, name)?;
    entries.push((name, Val::text(Text::from_str(alloc, text)?)))?;
    Ok(entries)
}

/// `hostvars` once the first host has learnt something.
fn once_learnt(
    alloc: Global,
    inventory: &Inventory,
    facts: &mut Facts,
    hosts: Dict,
    update: FactsUpdate,
) -> Result<Dict, Fail> {
    let extra = Dict::new(alloc);
    let past = facts.apply(alloc, update)?;
    let learner = Learner {
        host: HostNo(0),
        facts,
        past: &past,
    };
    match renewed_between(alloc, hosts, inventory, &extra, &learner)? {
        Some(hosts) => Ok(hosts),
        None => Err(Fail::new("hostvars")),
    }
}

#[test]
fn variables_follow_what_is_learnt(rt: HostRuntime) -> Result<(), Fail> {
    let alloc = rt.alloc();
    let Ok(inventory) = Inventory::read(alloc, "{\"all\": {\"hosts\": [\"web1\"]}}".as_bytes())
    else {
        return Err(Fail::new("an inventory"));
    };
    let mut facts = Facts::new(alloc);
    let none = Dict::new(alloc);
    let hosts = hosts_magic(alloc, hostvars(alloc, &inventory, &none, &[])?)?;
    let set = FactsUpdate::More(entry(alloc, "port", "80")?);
    let hosts = once_learnt(alloc, &inventory, &mut facts, hosts, set)?;
    assert!(rt; has(alloc, &hosts, "web1", "port", "80")?);
    let gathered = FactsUpdate::Gathered {
        more: entry(alloc, "port", "8080")?,
        facts: entry(alloc, "os", "linux")?,
    };
    let hosts = once_learnt(alloc, &inventory, &mut facts, hosts, gathered)?;
    assert!(rt; has(alloc, &hosts, "web1", "port", "8080")?);
    assert!(rt; has(alloc, &hosts, "web1", "os", "linux")?);
    Ok(())
}
