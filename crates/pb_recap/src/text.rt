//! The text of the recap.

ghost use Rattle.std.specs.Prelude.{◌≡◌, ◌++◌, IfOk, codes, string_bytes};
ghost use Rattle.pb_recap.specs.InColumns.{rows_of};
ghost use Rattle.pb_recap.specs.Hosts.{hosts_with_count, host_if_counted};
ghost use Rattle.pb_recap.specs.Text.{recap_text, host_lines, host_line, shown};

use crate::columns::{counts_at, has_count};
use pb_ids::HostNo;
use pb_lanes::Columns;
use pb_state::{Counts, Plan};
use std::alloc::{AllocError, Global};

/// The heading, and the lines of the hosts that have a count.
pub fn text_of(alloc: Global, plan: &Plan, counts: &Columns) -> Result<String, AllocError>
    ensures { IfOk result (λ s. string_bytes s ≡ recap_text plan.now.inventory.hosts (rows_of counts.now)) }
{
    let mut text = String::from_str(alloc, "PLAY RECAP\n")?;
    push_hosts(alloc, &mut text, plan, counts)?;
    Ok(text)
}

fn push_hosts(
    alloc: Global,
    text: &mut String,
    plan: &Plan,
    counts: &Columns,
) -> Result<(), AllocError>
    ensures { IfOk result (λ _. string_bytes text.new ≡ string_bytes text.old ++ host_lines (hosts_with_count plan.now.inventory.hosts (rows_of counts.now))) }
{
    for host in 0..plan.host_count() {
        let name = plan.host_name(HostNo(host));
        push_host(alloc, text, name, counts_at(counts, HostNo(host)))?;
    }
    Ok(())
}

/// Adds the line of a host, if it has a count.
fn push_host(
    alloc: Global,
    text: &mut String,
    name: &str,
    counts: Option<Counts>,
) -> Result<(), AllocError>
    ensures { IfOk result (λ _. string_bytes text.new ≡ string_bytes text.old ++ host_lines (host_if_counted name.now counts)) }
{
    match counts {
        Some(counts) if has_count(&counts) => {
            text.push_str(host_line(alloc, name, &counts)?.as_str())?;
            Ok(())
        }
        _ => Ok(()),
    }
}

/// The line of a host.
fn host_line(alloc: Global, name: &str, counts: &Counts) -> Result<String, AllocError>
    ensures { IfOk result (λ s. string_bytes s ≡ host_line name.now counts.now) }
{
    let mut line = String::from_str(alloc, name)?;
    push_first(alloc, &mut line, counts)?;
    push_last(alloc, &mut line, counts)?;
    Ok(line)
}

/// Adds the counts of tasks that went well or failed.
fn push_first(alloc: Global, line: &mut String, counts: &Counts) -> Result<(), AllocError>
    ensures { IfOk result (λ _. string_bytes line.new
        ≡ string_bytes line.old ++ shown (codes " : ok=") counts.now.ok ++ shown (codes " changed=") counts.now.changed
        ++ shown (codes " unreachable=") counts.now.unreachable ++ shown (codes " failed=") counts.now.failed) }
{
    push_count(alloc, line, " : ok=", counts.ok)?;
    push_count(alloc, line, " changed=", counts.changed)?;
    push_count(alloc, line, " unreachable=", counts.unreachable)?;
    push_count(alloc, line, " failed=", counts.failed)
}

/// Adds the other counts, and a line end.
fn push_last(alloc: Global, line: &mut String, counts: &Counts) -> Result<(), AllocError>
    ensures { IfOk result (λ _. string_bytes line.new
        ≡ string_bytes line.old ++ shown (codes " skipped=") counts.now.skipped ++ shown (codes " rescued=") counts.now.rescued
        ++ shown (codes " ignored=") counts.now.ignored ++ codes "\n") }
{
    push_count(alloc, line, " skipped=", counts.skipped)?;
    push_count(alloc, line, " rescued=", counts.rescued)?;
    push_count(alloc, line, " ignored=", counts.ignored)?;
    line.push('\n')?;
    Ok(())
}

/// Adds a label and a number.
fn push_count(alloc: Global, line: &mut String, label: &str, count: u64) -> Result<(), AllocError>
    ensures { IfOk result (λ _. string_bytes line.new ≡ string_bytes line.old ++ shown label.now count) }
{
    let digits = format!(in alloc; "{count}")?;
    line.push_str(label)?;
    line.push_str(digits.as_str())?;
    Ok(())
}
