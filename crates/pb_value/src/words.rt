ghost use Rattle.std.specs.Prelude.{◌≡◌};
ghost use Rattle.std.specs.List.{list_all};
ghost use Rattle.std.specs.Str.{str_eq_ignore_ascii_case};
ghost use Rattle.serde_json.specs.View.{view};
ghost use Rattle.pb_value.specs.Words.{begins_name, continues_name, is_name, is_on, is_off, switch_of};

use serde_json::Value;

fn begins_name(byte: u8) -> bool
    ensures { result ≡ begins_name byte }
{
    byte.is_ascii_alphabetic() || byte == b'_'
}

fn continues_name(byte: u8) -> bool
    ensures { result ≡ continues_name byte }
{
    byte.is_ascii_alphanumeric() || byte == b'_'
}

fn all_continue(bytes: &[u8]) -> bool
    ensures { result ≡ list_all continues_name bytes.now }
{
    bytes.iter().all(|byte| continues_name(*byte))
}

/// Whether a text may name a variable: a letter or `_`, then letters, digits and `_`, all ASCII.
pub fn is_name(text: &str) -> bool
    ensures { result ≡ is_name text.now }
{
    match text.as_bytes() {
        [] => false,
        [first, rest @ ..] => begins_name(*first) && all_continue(rest),
    }
}

fn is_word(text: &str, word: &str) -> bool
    ensures { result ≡ str_eq_ignore_ascii_case text.now word.now }
{
    text.eq_ignore_ascii_case(word)
}

fn is_on(text: &str) -> bool
    ensures { result ≡ is_on text.now }
{
    is_word(text, "yes") || is_word(text, "true") || is_word(text, "on")
}

fn is_off(text: &str) -> bool
    ensures { result ≡ is_off text.now }
{
    is_word(text, "no") || is_word(text, "false") || is_word(text, "off")
}

/// Whether a switch of a play or task is on: a Boolean, or one of the texts yes, no, true, false,
/// on and off in any case of their letters. Any other value is no switch.
pub fn switch(json: &Value) -> Option<bool>
    ensures { result ≡ switch_of (view json.now) }
{
    match json {
        Value::Bool(on) => Some(*on),
        Value::String(word) => {
            if is_on(word.as_str()) {
                Some(true)
            } else if is_off(word.as_str()) {
                Some(false)
            } else {
                None
            }
        }
        _ => None,
    }
}
