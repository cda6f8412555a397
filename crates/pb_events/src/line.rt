//! One line, and what stands in it.

ghost use Rattle.std.specs.Prelude.{◌≡◌, ◌++◌, ◌∷◌, [], ℕ, List, codes, pos, IfOk, OnOk};
ghost use Rattle.std.specs.Fmt.{signed_decimal};
ghost use Rattle.json.specs.Token.{begin_object, key as key_token, string, number, boolean};
ghost use Rattle.pb_value.specs.Datum.{Datum};
ghost use Rattle.pb_compact.specs.Tokens.{tokens_of};
ghost use Rattle.pb_events.specs.Line.{line};
ghost use Rattle.pb_events.specs.Members.{tokens_in};

use json::Writer;
use pb_compact::write;
use pb_value::val::Val;
use std::alloc::AllocError;

/// Begins a line behind these lines.
pub fn begin(lines: Vec<u8>) -> Result<Writer, AllocError>
    ensures before { IfOk result (λ out. out.before ≡ lines.items) }
    ensures tokens { IfOk result (λ out. out.tokens ≡ begin_object ∷ []) }
{
    let mut out = Writer::new(lines);
    out.begin_object()?;
    Ok(out)
}

/// Begins a line behind these lines: of this event, and of this host.
pub fn begin_host(lines: Vec<u8>, event: &str, host: &str) -> Result<Writer, AllocError>
    ensures before { IfOk result (λ out. out.before ≡ lines.items) }
    ensures tokens { IfOk result (λ out. out.tokens ≡ begin_object ∷ key_token (codes "event") ∷ string event.now ∷ key_token (codes "host") ∷ string host.now ∷ []) }
{
    let mut out = begin(lines)?;
    put_text(&mut out, "event", event)?;
    put_text(&mut out, "host", host)?;
    Ok(out)
}

/// Puts a text under a key, which is above those that were put.
pub fn put_text(out: &mut Writer, key: &str, words: &str) -> Result<(), AllocError>
    ensures tokens { OnOk result (out.new.tokens ≡ out.old.tokens ++ key_token key.now ∷ string words.now ∷ []) }
    ensures before { out.new.before ≡ out.old.before }
{
    out.key(key)?;
    out.string(words)
}

/// Puts a number under a key.
pub fn put_number(out: &mut Writer, key: &str, value: u32) -> Result<(), AllocError>
    ensures tokens { OnOk result (out.new.tokens ≡ out.old.tokens ++ key_token key.now ∷ number (signed_decimal (pos value)) ∷ []) }
    ensures before { out.new.before ≡ out.old.before }
{
    out.key(key)?;
    out.i64(i64::from(value))
}

/// Puts a Bool under a key.
pub fn put_bool(out: &mut Writer, key: &str, value: bool) -> Result<(), AllocError>
    ensures tokens { OnOk result (out.new.tokens ≡ out.old.tokens ++ key_token key.now ∷ boolean value ∷ []) }
    ensures before { out.new.before ≡ out.old.before }
{
    out.key(key)?;
    out.boolean(value)
}

/// Puts a value under a key.
pub fn put_value(out: &mut Writer, key: &str, value: &Val) -> Result<(), AllocError>
    ensures tokens { OnOk result (out.new.tokens ≡ out.old.tokens ++ key_token key.now ∷ tokens_of value.now) }
    ensures before { out.new.before ≡ out.old.before }
{
    out.key(key)?;
    write(value, out)
}

/// Ends a line: the lines before it, and the line of the members that were put.
#[tactic(auto, unfolding(crate::specs::Line::line))]
pub fn end(mut out: Writer) -> Result<Vec<u8>, AllocError>
    ensures { IfOk result (λ bytes. (members : List (List ℕ × Datum)) → out.tokens ≡ begin_object ∷ tokens_in members → bytes.items ≡ out.before ++ line members) }
{
    out.end_object()?;
    let mut bytes = out.into_inner();
    bytes.push(b'\n')?;
    Ok(bytes)
}
