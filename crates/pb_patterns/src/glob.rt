ghost use Rattle.std.specs.Prelude.{◌≡◌, ◌<◌, ◌+◌, ◌^◌, ℕ, length, List, [], ◌∷◌, IfOk};
ghost use Rattle.std.specs.Str.{chars};
ghost use Rattle.pb_patterns.specs.Globs.{fits, is_wild};
ghost use Rattle.pb_patterns.specs.Fitting.{IsRow, fits_none, fits_more};

use std::alloc::{AllocError, Global};

/// Whether a term stands for several names.
#[tactic(auto, using(crate::proofs::Wild::wild_first, crate::proofs::Wild::wild_second))]
pub fn is_wild(term: &[u8]) -> bool
    ensures { result ≡ is_wild term.now }
{
    term.contains(&b'*') || term.contains(&b'?')
}

/// The characters of a text.
pub fn chars_of(alloc: Global, text: &str) -> Result<Vec<char>, AllocError>
    ensures { IfOk result (λ v. v.items ≡ chars text.now) }
{
    text.chars().collect(alloc)
}

/// Whether an end of a pattern that begins with this character fits no character.
fn fits_none(sign: char, behind: bool) -> bool
    ensures { result ≡ fits_none sign behind }
{
    sign == '*' && behind
}

/// Sets which ends of the pattern fit no character.
fn begin(pattern: &[char], row: &mut [bool])
    requires { length row.old ≡ length pattern.now + 1 }
    ensures { IsRow pattern.now [] row.new }
{
    let last = pattern.len();
    row[last] = true;
    for back in 0..pattern.len() {
        let at = last - 1 - back;
        row[at] = fits_none(pattern[at], row[at + 1]);
    }
}

/// Whether an end of a pattern that begins with this character fits one character more.
fn fits_more(sign: char, c: char, behind: bool, old: bool, old_behind: bool) -> bool
    ensures { result ≡ fits_more sign c behind old old_behind }
{
    if sign == '*' {
        behind || old
    } else {
        (sign == '?' || sign == c) && old_behind
    }
}

/// Sets which ends of the pattern fit one character more in front.
fn step(pattern: &[char], c: char, row: &mut [bool])
    requires { length row.old ≡ length pattern.now + 1 }
    ensures { (cs : List ℕ) → IsRow pattern.now cs row.old → IsRow pattern.now (c ∷ cs) row.new }
{
    let last = pattern.len();
    let mut old_behind = row[last];
    row[last] = false;
    for back in 0..pattern.len() {
        let at = last - 1 - back;
        let old = row[at];
        row[at] = fits_more(pattern[at], c, row[at + 1], old, old_behind);
        old_behind = old;
    }
}

fn fits_in(pattern: &[char], name: &[char], row: &mut [bool]) -> bool
    requires { length row.old ≡ length pattern.now + 1 }
    ensures { result ≡ fits pattern.now name.now }
{
    begin(pattern, row);
    for back in 0..name.len() {
        step(pattern, name[name.len() - 1 - back], row);
    }
    row[0]
}

/// Whether the characters of a name fit the pattern.
pub fn fits(alloc: Global, pattern: &[char], name: &[char]) -> Result<bool, AllocError>
    ensures { IfOk result (λ b. b ≡ fits pattern.now name.now) }
{
    let mut row = vec![in alloc; false; pattern.len()]?;
    row.push(false)?;
    Ok(fits_in(pattern, name, row.as_mut_slice()))
}
