ghost use Rattle.std.specs.Prelude.{◌≡◌, IfOk, map};
ghost use Rattle.std.specs.Str.{chars};
ghost use Rattle.regex.specs.Patterns.{find_str};
ghost use Rattle.regex.specs.Strings.{regex_pattern, regex_source, matcher_pattern};
ghost use Rattle.regex.specs.declared.string.regex.Regex.{Regex};
ghost use Rattle.pb_patterns.specs.Globs.{fits};
ghost use Rattle.pb_patterns.specs.Sets.{starts, begins_as};
ghost use Rattle.pb_patterns.specs.Built.{IsRegexOf};

use crate::glob::{chars_of, fits};
use pb_ids::{GroupNo, HostNo};
use pb_inventory::inventory::Inventory;
use regex::{Matcher, Regex};
use std::alloc::{AllocError, Global};

/// Whether a name fits.
fn name_fits(alloc: Global, term: &[char], name: &str) -> Result<bool, AllocError>
    ensures { IfOk result (λ b. b ≡ fits term.now (chars name.now)) }
{
    let name = chars_of(alloc, name)?;
    fits(alloc, term, name.as_slice())
}

/// Of each host whether its name fits.
pub fn hosts_that_fit(
    alloc: Global,
    inventory: &Inventory,
    term: &[char],
) -> Result<Vec<bool>, AllocError>
    ensures { IfOk result (λ hits. hits.items ≡ map (λ name. fits term.now (chars name)) inventory.now.hosts) }
{
    let mut hits = Vec::new(alloc);
    for host in 0..inventory.hosts() {
        hits.push(name_fits(alloc, term, inventory.name(HostNo(host)))?)?;
    }
    Ok(hits)
}

/// Of each group whether its name fits.
pub fn groups_that_fit(
    alloc: Global,
    inventory: &Inventory,
    term: &[char],
) -> Result<Vec<bool>, AllocError>
    ensures { IfOk result (λ hits. hits.items ≡ map (λ name. fits term.now (chars name)) inventory.now.groups) }
{
    let mut hits = Vec::new(alloc);
    for group in 0..inventory.groups() {
        hits.push(name_fits(alloc, term, inventory.group_name(GroupNo(group)))?)?;
    }
    Ok(hits)
}

/// Whether the first match in the name begins at its first character.
fn starts(matcher: &mut Matcher<'_>, name: &str) -> bool
    ensures value { result ≡ starts (matcher_pattern matcher.old) name.now }
    ensures same { matcher_pattern matcher.new ≡ matcher_pattern matcher.old }
{
    match matcher.find(name) {
        Some(found) => found.start() == 0,
        None => false,
    }
}

/// Whether the name begins with what an expression matches, where the matcher is of the pattern that was built for it.
fn begins(matcher: &mut Matcher<'_>, name: &str) -> bool
    ensures read { (r : Regex) → IsRegexOf (regex_source r) r → matcher_pattern matcher.old ≡ regex_pattern r → result ≡ begins_as (regex_source r) name.now }
    ensures same { matcher_pattern matcher.new ≡ matcher_pattern matcher.old }
{
    starts(matcher, name)
}

/// Of each host whether the expression matches from the first character of its name on.
pub fn hosts_that_match(
    alloc: Global,
    inventory: &Inventory,
    regex: &Regex,
) -> Result<Vec<bool>, AllocError>
    requires { IsRegexOf (regex_source regex.now) regex.now }
    ensures { IfOk result (λ hits. hits.items ≡ map (begins_as (regex_source regex.now)) inventory.now.hosts) }
{
    let mut matcher = regex.matcher(alloc)?;
    let mut hits = Vec::new(alloc);
    for host in 0..inventory.hosts() {
        hits.push(begins(&mut matcher, inventory.name(HostNo(host))))?;
    }
    Ok(hits)
}

/// Of each group whether the expression matches from the first character of its name on.
pub fn groups_that_match(
    alloc: Global,
    inventory: &Inventory,
    regex: &Regex,
) -> Result<Vec<bool>, AllocError>
    requires { IsRegexOf (regex_source regex.now) regex.now }
    ensures { IfOk result (λ hits. hits.items ≡ map (begins_as (regex_source regex.now)) inventory.now.groups) }
{
    let mut matcher = regex.matcher(alloc)?;
    let mut hits = Vec::new(alloc);
    for group in 0..inventory.groups() {
        hits.push(begins(&mut matcher, inventory.group_name(GroupNo(group))))?;
    }
    Ok(hits)
}
