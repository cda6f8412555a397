//! The hosts of each play, listed.

ghost use Rattle.std.specs.Prelude.{◌≡◌, ◌++◌, IfOk, string_bytes, decimal, count_by};
ghost use Rattle.pb_planes.specs.Set.{is_in};
ghost use Rattle.pb_cli.specs.Listing.{listing, plays_from, play_lines, heading, host_lines, host_if};

use pb_ids::HostNo;
use pb_planes::HostSet;
use pb_state::{Plan, PlanPlay};
use std::alloc::{AllocError, Global};

/// For each play its number and how many hosts it has, and under them the hosts' names.
pub fn listing(alloc: Global, plan: &Plan) -> Result<String, AllocError>
    ensures { IfOk result (λ text. string_bytes text ≡ listing plan.now) }
{
    let mut text = String::new(alloc);
    for (number, play) in plan.plays().iter().enumerate() {
        push_play(alloc, &mut text, plan, number, play)?;
    }
    Ok(text)
}

fn push_play(
    alloc: Global,
    text: &mut String,
    plan: &Plan,
    number: usize,
    play: &PlanPlay,
) -> Result<(), AllocError>
    ensures { IfOk result (λ _. string_bytes text.new ≡ string_bytes text.old ++ play_lines plan.now.inventory.hosts number play.now) }
{
    let heading = heading(alloc, number, play.hosts().count())?;
    text.push_str(heading.as_str())?;
    push_hosts(text, plan, play.hosts())
}

fn heading(alloc: Global, number: usize, count: u32) -> Result<String, AllocError>
    ensures { IfOk result (λ text. string_bytes text ≡ heading number count) }
{
    let mut text = String::from_str(alloc, "play ")?;
    push_number(alloc, &mut text, number as u64)?;
    text.push_str(" (")?;
    push_number(alloc, &mut text, count as u64)?;
    text.push_str(" hosts)\n")?;
    Ok(text)
}

/// Adds a number in decimal.
pub(crate) fn push_number(alloc: Global, text: &mut String, number: u64) -> Result<(), AllocError>
    ensures { IfOk result (λ _. string_bytes text.new ≡ string_bytes text.old ++ decimal number) }
{
    let digits = format!(in alloc; "{number}")?;
    text.push_str(digits.as_str())?;
    Ok(())
}

/// Adds the names of the hosts that are in the set, a line each.
fn push_hosts(text: &mut String, plan: &Plan, hosts: &HostSet) -> Result<(), AllocError>
    ensures { IfOk result (λ _. string_bytes text.new ≡ string_bytes text.old ++ host_lines plan.now.inventory.hosts hosts.now) }
{
    for host in 0..plan.host_count() {
        let name = plan.host_name(HostNo(host));
        push_host(text, name, hosts.contains(HostNo(host)))?;
    }
    Ok(())
}

fn push_host(text: &mut String, name: &str, listed: bool) -> Result<(), AllocError>
    ensures { IfOk result (λ _. string_bytes text.new ≡ string_bytes text.old ++ host_if name.now listed) }
{
    if !listed {
        return Ok(());
    }
    text.push_str("  ")?;
    text.push_str(name)?;
    text.push('\n')?;
    Ok(())
}
