//! A text that grows at its end.

ghost use Rattle.std.specs.Prelude.{◌≡◌, [], ◌++◌, ◌∷◌, ◌-◌, ◌+◌, ◌<◌, ◌%◌, OnOk, codes, decimal, length, max, replicate};
ghost use Rattle.std.specs.Fmt.{signed_decimal};
ghost use Rattle.pb_show.specs.Escaped.{is_hidden, hex_digit, by_number, shown_char, escaped, stars};

use pb_value::text::Text;
use std::alloc::{AllocError, Global};
use std::marker::Model;

/// A text that is written from its front on.
#[derive(Drop)]
pub(crate) struct Line {
    text: String,
}

impl Model for Line {
    ghost use Rattle.std.specs.Prelude.{ℕ, List, string_bytes};

    ghost Value = { List ℕ };

    ghost view = { λ l. string_bytes l.text };
}

/// Whether a terminal may act on a character in place of showing it, or a text end a line or turn its direction by it: the marks of
/// UAX #9, and Unicode's separators of lines and paragraphs.
fn is_hidden(c: char) -> bool
    ensures { result ≡ is_hidden c }
{
    let n = c as u32;
    n < 32
        || (127 <= n && n < 160)
        || n == 1564
        || (8206 <= n && n < 8208)
        || (8232 <= n && n < 8239)
        || (8294 <= n && n < 8298)
}

/// The digit for a number below 16, in hexadecimal; of a larger one its last digit.
fn hex_digit(n: u32) -> char
    ensures { result ≡ hex_digit n }
{
    let digit = (n % 16) as u8;
    if digit < 10 {
        char::from(48 + digit)
    } else {
        char::from(87 + digit)
    }
}

impl Line {
    /// The empty text.
    pub(crate) fn new(alloc: Global) -> Line
        ensures { result ≡ [] }
    {
        Line {
            text: String::new(alloc),
        }
    }

    /// Writes a text as it is.
    pub(crate) fn put(&mut self, text: &str) -> Result<(), AllocError>
        ensures { OnOk result (self.new ≡ self.old ++ text.now) }
    {
        self.text.push_str(text)
    }

    /// Writes a number in decimal.
    pub(crate) fn put_number(&mut self, alloc: Global, number: u64) -> Result<(), AllocError>
        ensures { OnOk result (self.new ≡ self.old ++ decimal number) }
    {
        let digits = format!(in alloc; "{number}")?;
        self.text.push_str(digits.as_str())
    }

    /// Writes a number in decimal, with its sign where it is below 0.
    pub(crate) fn put_signed(&mut self, alloc: Global, number: i64) -> Result<(), AllocError>
        ensures { OnOk result (self.new ≡ self.old ++ signed_decimal number) }
    {
        let digits = format!(in alloc; "{number}")?;
        self.text.push_str(digits.as_str())
    }

    /// Writes a digit.
    fn put_digit(&mut self, digit: u32) -> Result<(), AllocError>
        ensures { OnOk result (self.new ≡ self.old ++ hex_digit digit ∷ []) }
    {
        self.text.push(hex_digit(digit))
    }

    /// Writes a character by its number.
    fn put_by_number(&mut self, c: char) -> Result<(), AllocError>
        ensures { OnOk result (self.new ≡ self.old ++ by_number c) }
    {
        let n = c as u32;
        self.put("\\u")?;
        self.put_digit(n / 4096)?;
        self.put_digit(n / 256)?;
        self.put_digit(n / 16)?;
        self.put_digit(n)
    }

    /// Writes a character, or what is shown in its place.
    fn put_char(&mut self, c: char) -> Result<(), AllocError>
        ensures { OnOk result (self.new ≡ self.old ++ shown_char c) }
    {
        if c == '\n' {
            self.put("\\n")
        } else if c == '\r' {
            self.put("\\r")
        } else if c == '\t' {
            self.put("\\t")
        } else if c == '\\' {
            self.put("\\\\")
        } else if is_hidden(c) {
            self.put_by_number(c)
        } else {
            self.text.push(c)
        }
    }

    /// Writes a text with what is shown in place of its control characters.
    pub(crate) fn put_escaped(&mut self, text: &str) -> Result<(), AllocError>
        ensures { OnOk result (self.new ≡ self.old ++ escaped text.now) }
    {
        for c in text.chars() {
            self.put_char(c)?;
        }
        Ok(())
    }

    /// Writes a space and stars up to column 79, three of them at least, and ends the line.
    pub(crate) fn put_stars(&mut self, title: usize) -> Result<(), AllocError>
        ensures { OnOk result (self.new ≡ self.old ++ stars title) }
    {
        self.put(" ***")?;
        for _ in title..76 {
            self.put("*")?;
        }
        self.put("\n")
    }

    /// The number of bytes.
    pub(crate) fn len(&self) -> usize
        ensures { result ≡ length self.now }
    {
        self.text.len()
    }

    /// The whole text.
    pub(crate) fn into_text(self) -> Text
        ensures { result ≡ self }
    {
        let Line { text } = self;
        Text::from_string(text)
    }
}
