ghost use Rattle.std.specs.Prelude.{◌≡◌, true};
ghost use Rattle.serde_json.specs.View.{view, items_view};
ghost use Rattle.pb_written.specs.Tags.{ends_tag, is_never, never_from, is_never_text, some_never, has_never};

use serde_json::Value;

/// Whether a tag ends here: at the text's end or at a comma, perhaps behind spaces.
fn ends_tag(bytes: &[u8]) -> bool
    ensures { result ≡ ends_tag bytes.now }
{
    let mut rest = bytes;
    while let [byte, after @ ..] = rest {
        if *byte == b',' {
            return true;
        }
        if *byte != b' ' {
            return false;
        }
        rest = after;
    }
    true
}

/// Whether the tag `never` stands at the front, and no more of a tag.
fn is_never(bytes: &[u8]) -> bool
    ensures { result ≡ is_never bytes.now }
{
    bytes.starts_with(b"never") && ends_tag(&bytes[5..])
}

/// Whether the tag `never` is among the tags of a text, which have commas between them.
fn has_never_tag(text: &[u8]) -> bool
    ensures { result ≡ never_from true text.now }
{
    let mut rest = text;
    let mut begins = true;
    while let [byte, after @ ..] = rest {
        if begins && is_never(rest) {
            return true;
        }
        begins = *byte == b',' || (begins && *byte == b' ');
        rest = after;
    }
    false
}

fn is_never_text(json: &Value) -> bool
    ensures { result ≡ is_never_text (view json.now) }
{
    match json {
        Value::String(text) => has_never_tag(text.as_bytes()),
        _ => false,
    }
}

fn some_never(items: &Vec<Value>) -> bool
    ensures { result ≡ some_never (items_view items.now.items) }
{
    for item in items {
        if is_never_text(item) {
            return true;
        }
    }
    false
}

/// Whether the tag `never` is among the tags of a text, or of a text in a list.
pub fn has_never(json: &Value) -> bool
    ensures { result ≡ has_never (view json.now) }
{
    match json {
        Value::Array(items) => some_never(items),
        _ => is_never_text(json),
    }
}
