ghost use Rattle.std.specs.Prelude.{◌≡◌, ◌≢◌, ◌++◌, IfOk};
ghost use Rattle.std.specs.List.{list_any};
ghost use Rattle.serde_json.specs.View.{view};
ghost use Rattle.pb_patterns.specs.declared.fault.PatFault.TheVariants as pattern_fault;
ghost use Rattle.pb_reading.specs.declared.stop.Stop.TheVariants.{Memory, Fault};
ghost use Rattle.pb_play_reading.specs.Refusals.{met_at, GivesOf};
ghost use Rattle.pb_play_reading.specs.Hosts.{has_braces, pattern, expressions_in, behind_commas, joined, hosts, expressions_of_hosts};
ghost use Rattle.pb_written.specs.declared.fault.LoadFault.TheVariants.{BadPattern};

use pb_patterns::fault::PatFault;
use pb_patterns::pattern::Pattern;
use pb_reading::reads::Reads;
use pb_reading::stop::Stop;
use pb_value::items::Items;
use pb_value::text::Text;
use pb_written::fault::LoadFault;
use pb_written::texts::Texts;
use serde_json::Value;
use std::alloc::{AllocError, Global};

/// The hosts of a play.
#[derive(Drop)]
pub(crate) struct PlayHosts {
    /// The texts as they are written, with `,` between.
    pub(crate) text: Text,
    /// What they mean, taken together.
    pub(crate) pattern: Pattern,
}

/// Whether `{{` stands in the text.
fn has_braces(text: &[u8]) -> bool
    ensures { result ≡ has_braces text.now }
{
    let mut rest = text;
    while let [_, after @ ..] = rest {
        if rest.starts_with(b"{{") {
            return true;
        }
        rest = after;
    }
    false
}

/// Whether `{{` stands in one of the texts.
fn some_has_braces(texts: &[Text]) -> bool
    ensures { result ≡ list_any has_braces texts.now }
{
    for text in texts {
        if has_braces(text.as_str().as_bytes()) {
            return true;
        }
    }
    false
}

/// The hosts at the path are no pattern.
fn bad_pattern(path: &Text) -> Stop<LoadFault>
    ensures { result ≢ Memory → result ≡ Fault (BadPattern path.now) }
{
    match path.try_clone() {
        Ok(path) => Stop::Fault(LoadFault::BadPattern { path }),
        Err(_) => Stop::Memory,
    }
}

/// The stop of a playbook for the fault of the pattern at the path.
fn refusal(path: &Text, fault: PatFault) -> Stop<LoadFault>
    ensures memory { fault ≡ pattern_fault.Memory → result ≡ Memory }
    ensures fault { fault ≢ pattern_fault.Memory → result ≢ Memory → result ≡ Fault (BadPattern path.now) }
{
    match fault {
        PatFault::Memory => Stop::Memory,
        _ => bad_pattern(path),
    }
}

fn read_pattern(alloc: Global, path: &Text, texts: &[Text]) -> Result<Pattern, Stop<LoadFault>>
    ensures { GivesOf result (met_at path.now (expressions_in texts.now)) (pattern path.now texts.now) }
{
    if some_has_braces(texts) {
        return Err(bad_pattern(path));
    }
    match Pattern::parse_all(alloc, texts) {
        Ok(pattern) => Ok(pattern),
        Err(fault) => Err(refusal(path, fault)),
    }
}

/// The first text, and the others, each behind a `,`.
fn with_others(alloc: Global, first: &str, others: &[Text]) -> Result<Text, AllocError>
    ensures { IfOk result (λ t. t ≡ first.now ++ behind_commas others.now) }
{
    let mut text = String::from_str(alloc, first)?;
    for other in others {
        text.push_str(",")?;
        text.push_str(other.as_str())?;
    }
    Ok(Text::from_string(text))
}

fn joined(alloc: Global, texts: &[Text]) -> Result<Text, AllocError>
    ensures { IfOk result (λ t. t ≡ joined texts.now) }
{
    match texts {
        [] => Ok(Text::new(alloc)),
        [first, others @ ..] => with_others(alloc, first.as_str(), others),
    }
}

/// The hosts of a play, as a text or a list of texts spells them.
pub(crate) fn read_hosts(
    alloc: Global,
    path: &Text,
    json: &Value,
) -> Result<PlayHosts, Stop<LoadFault>>
    ensures { GivesOf result (expressions_of_hosts path.now (view json.now)) (hosts path.now (view json.now)) }
{
    let texts = match Texts::read(alloc, path, json) {
        Ok(texts) => texts,
        Err(stop) => return Err(stop),
    };
    let pattern = match read_pattern(alloc, path, texts.as_slice()) {
        Ok(pattern) => pattern,
        Err(stop) => return Err(stop),
    };
    let text = joined(alloc, texts.as_slice())?;
    Ok(PlayHosts { text, pattern })
}
