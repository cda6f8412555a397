//! Between which words the members of a set lie.

ghost use Rattle.std.specs.Prelude.{◌<◌, ◌≤◌, ◌+◌, ◌*◌, ◌^◌, ℕ, length};
ghost use Rattle.pb_planes.specs.Words.{AreBetween};

/// Words from `low` on and below `high`: no bit of another word is set. Where `low` isn't below `high`, none is set at all.
#[derive(Clone, Copy, Debug)]
pub(crate) struct Span {
    pub low: usize,
    pub high: usize,
}

/// The span with one more word.
pub(crate) fn with_word(span: Span, index: usize) -> Span
    requires { index + 1 < 2 ^ 64 }
    ensures low { result.low ≤ index }
    ensures high { index < result.high }
    ensures all { span.low < span.high → (result.low ≤ span.low) × (span.high ≤ result.high) }
    ensures within { (n : ℕ) → span.high ≤ n → index < n → result.high ≤ n }
{
    if span.low < span.high {
        Span {
            low: span.low.min(index),
            high: span.high.max(index + 1),
        }
    } else {
        Span {
            low: index,
            high: index + 1,
        }
    }
}

/// The words of two spans, and those between them.
pub(crate) fn of_both(span: Span, other: Span) -> Span
    ensures one { (result.low ≤ span.low) × (span.high ≤ result.high) }
    ensures other { (result.low ≤ other.low) × (other.high ≤ result.high) }
    ensures within { (n : ℕ) → span.high ≤ n → other.high ≤ n → result.high ≤ n }
{
    Span {
        low: span.low.min(other.low),
        high: span.high.max(other.high),
    }
}

/// Where a walk through the bits from a number on begins: the word and the place in it.
pub(crate) fn begin(span: Span, from: u32) -> (usize, u32)
    ensures place { result.1 < 64 }
    ensures ahead { from ≤ 64 * result.0 + result.1 }
    ensures skipped { (i : ℕ) → from ≤ i → i < 64 * result.0 + result.1 → i < 64 * span.low }
{
    let at = (from / 64) as usize;
    if at < span.low {
        (span.low, 0)
    } else {
        (at, from % 64)
    }
}

/// The first word of a span that has a bit, or its end.
fn first_word(words: &[u64], span: Span) -> usize
    requires { span.high ≤ length words.now }
    ensures { AreBetween words.now span.low span.high → AreBetween words.now result span.high }
{
    let mut low = span.low;
    while low < span.high && words[low] == 0 {
        low += 1;
    }
    low
}

/// What comes behind the last word of a span that has a bit, or its beginning.
fn end_word(words: &[u64], span: Span) -> usize
    requires { span.high ≤ length words.now }
    ensures span { AreBetween words.now span.low span.high → AreBetween words.now span.low result }
    ensures within { result ≤ span.high }
{
    let mut high = span.high;
    while span.low < high && words[high - 1] == 0 {
        high -= 1;
    }
    high
}

/// The span without the words at both ends that have no bit.
pub(crate) fn tightened(words: &[u64], span: Span) -> Span
    requires { span.high ≤ length words.now }
    ensures span { AreBetween words.now span.low span.high → AreBetween words.now result.low result.high }
    ensures within { result.high ≤ length words.now }
{
    let low = first_word(words, span);
    let high = end_word(
        words,
        Span {
            low,
            high: span.high,
        },
    );
    Span { low, high }
}
