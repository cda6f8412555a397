//! Large files.

use std::alloc::{AllocError, Global};

/// An inventory of this many hosts.
pub fn inventory(alloc: Global, hosts: u32) -> Result<String, AllocError> {
    let mut text = String::from_str(alloc, "{\"all\":{\"hosts\":[\"h0\"")?;
    for host in 1..hosts {
        write!(text, ",\"h{host}\"")?;
    }
    text.push_str("]}}")?;
    Ok(text)
}

/// A playbook of one play of this many tasks, but of one at least.
pub fn playbook(alloc: Global, tasks: u32) -> Result<String, AllocError> {
    let mut text = String::from_str(
        alloc,
        "[{\"hosts\":\"all\",\"gather_facts\":false,\"tasks\":[{\"debug\":{}}",
    )?;
    for _ in 1..tasks {
        text.push_str(",{\"debug\":{}}")?;
    }
    text.push_str("]}]")?;
    Ok(text)
}

/// A playbook of one play of this many blocks: in each body so many tasks that go well and one that fails, and a rescue of one task.
pub fn blocks(alloc: Global, blocks: u32, tasks: u32) -> Result<String, AllocError> {
    let mut text = String::from_str(
        alloc,
        "[{\"hosts\":\"all\",\"gather_facts\":false,\"tasks\":[{\"debug\":{}}",
    )?;
    for _ in 0..blocks {
        text.push_str(",{\"block\":[")?;
        for _ in 0..tasks {
            text.push_str("{\"debug\":{}},")?;
        }
        text.push_str("{\"fail\":{}}],\"rescue\":[{\"debug\":{}}]}")?;
    }
    text.push_str("]}]")?;
    Ok(text)
}
