ghost use Rattle.std.specs.Prelude.{◌≡◌, ◌≢◌, length, IfOk, IfErr, OnOk, Ok, Err};
ghost use Rattle.pb_patterns.specs.Sets.{element_set};
ghost use Rattle.pb_patterns.specs.Reading.{is_regex, what_of, expression_in};
ghost use Rattle.pb_patterns.specs.Expressions.{IsTaken, IsRefused, AreTaken, IsFirstFault};
ghost use Rattle.pb_patterns.specs.Subscripts.{term_of, closes_none, plain_term, bracket_term};
ghost use Rattle.pb_patterns.specs.Built.{IsRegexOf};

use crate::element::What;
use crate::fault::PatFault;
use crate::order::subscripted;
use crate::sets::{matched, term_set};
use crate::subscript::{bracketed, place_of};
use pb_inventory::inventory::Inventory;
use pb_planes::HostSet;
use pb_value::text::Text;
use regex::Regex;
use std::alloc::{AllocError, Global};
use std::marker::Model;

/// What an element tells of names, with the pattern that was built for its regular expression.
pub struct Meaning {
    what: What,
    regex: Option<Regex>,
}

impl Drop for Meaning {
    fn drop(self) {
        let Meaning { what, regex } = self;
        drop(what);
        drop(regex);
    }
}

impl Model for Meaning {
    ghost use Rattle.pb_patterns.specs.declared.element.What.{What};
    ghost use Rattle.pb_patterns.specs.Built.{IsBuilt};

    ghost Value = { What };

    ghost view = { λ m. m.what };

    ghost invariant = { λ m. IsBuilt m.what m.regex };
}

fn compiled(alloc: Global, source: &str) -> Result<Regex, PatFault>
    ensures value { IfOk result (λ r. IsRegexOf source.now r) }
    ensures fault { IfErr result (λ e. e ≢ PatFault.Memory → (e ≡ PatFault.BadRegex) × IsRefused source.now) }
{
    match Regex::new(alloc, source) {
        Ok(regex) => Ok(regex),
        Err(regex::Error::OutOfMemory) => Err(PatFault::Memory),
        Err(_) => Err(PatFault::BadRegex),
    }
}

fn regex_meaning(alloc: Global, source: &str) -> Result<Meaning, PatFault>
    ensures value { IfOk result (λ m. m ≡ What.Regex source.now) }
    ensures taken { OnOk result (IsTaken source.now) }
    ensures fault { IfErr result (λ e. e ≢ PatFault.Memory → (e ≡ PatFault.BadRegex) × IsRefused source.now) }
{
    match compiled(alloc, source) {
        Ok(regex) => Ok(Meaning {
            what: What::Regex {
                source: Text::from_str(alloc, source)?,
            },
            regex: Some(regex),
        }),
        Err(fault) => Err(fault),
    }
}

fn closes_none(bytes: &[u8]) -> bool
    ensures { result ≡ closes_none bytes.now }
{
    bytes.contains(&b']')
}

fn plain_term(alloc: Global, text: &str) -> Result<What, PatFault>
    ensures value { IfOk result (λ w. plain_term text.now ≡ Ok w) }
    ensures fault { IfErr result (λ e. e ≢ PatFault.Memory → plain_term text.now ≡ Err e) }
{
    if closes_none(text.as_bytes()) {
        return Err(PatFault::BadSubscript);
    }
    Ok(What::Term {
        term: Text::from_str(alloc, text)?,
        subscript: None,
    })
}

fn bracket_term(alloc: Global, name: &str, bytes: &[u8]) -> Result<What, PatFault>
    ensures value { IfOk result (λ w. bracket_term name.now bytes.now ≡ Ok w) }
    ensures fault { IfErr result (λ e. e ≢ PatFault.Memory → bracket_term name.now bytes.now ≡ Err e) }
{
    if name.is_empty() || closes_none(name.as_bytes()) {
        return Err(PatFault::BadSubscript);
    }
    match bracketed(bytes) {
        Some(subscript) => Ok(What::Term {
            term: Text::from_str(alloc, name)?,
            subscript: Some(subscript),
        }),
        None => Err(PatFault::BadSubscript),
    }
}

fn term(alloc: Global, text: &str) -> Result<What, PatFault>
    ensures value { IfOk result (λ w. term_of text.now ≡ Ok w) }
    ensures fault { IfErr result (λ e. e ≢ PatFault.Memory → term_of text.now ≡ Err e) }
{
    let bytes = text.as_bytes();
    match place_of(bytes, b'[') {
        Some(at) => bracket_term(alloc, &text[..at], &bytes[at + 1..]),
        None => plain_term(alloc, text),
    }
}

fn term_meaning(alloc: Global, text: &str) -> Result<Meaning, PatFault>
    ensures value { IfOk result (λ m. term_of text.now ≡ Ok m) }
    ensures fault { IfErr result (λ e. e ≢ PatFault.Memory → term_of text.now ≡ Err e) }
{
    match term(alloc, text) {
        Ok(what) => Ok(Meaning { what, regex: None }),
        Err(fault) => Err(fault),
    }
}

fn is_regex(bytes: &[u8]) -> bool
    ensures { result ≡ is_regex bytes.now }
{
    match bytes {
        [] => false,
        [first, ..] => *first == b'~',
    }
}

/// What an element means, from what stands behind its mark.
pub fn read_meaning(alloc: Global, text: &str) -> Result<Meaning, PatFault>
    ensures value { IfOk result (λ m. what_of text.now ≡ Ok m) }
    ensures taken { OnOk result (AreTaken (expression_in text.now)) }
    ensures fault { IfErr result (λ e. e ≢ PatFault.Memory → IsFirstFault (expression_in text.now) (what_of text.now) PatFault.BadRegex e) }
{
    if text.is_empty() {
        Err(PatFault::Empty)
    } else if is_regex(text.as_bytes()) {
        regex_meaning(alloc, &text[1..])
    } else {
        term_meaning(alloc, text)
    }
}

impl Meaning {
    /// The hosts that are meant in the inventory.
    pub fn set(&self, alloc: Global, inventory: &Inventory) -> Result<HostSet, AllocError>
        ensures width { IfOk result (λ set. length set ≡ length inventory.now.hosts) }
        ensures set { IfOk result (λ set. set ≡ element_set inventory.now self.now) }
    {
        match &self.what {
            What::Term { term, subscript } => match subscript {
                Some(subscript) => subscripted(alloc, inventory, term.as_str(), *subscript),
                None => term_set(alloc, inventory, term.as_str()),
            },
            What::Regex { .. } => match &self.regex {
                Some(regex) => matched(alloc, inventory, regex),
                None => HostSet::empty(alloc, inventory.hosts()),
            },
        }
    }
}
