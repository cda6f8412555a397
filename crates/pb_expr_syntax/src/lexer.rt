//! Cuts a text into tokens.
ghost use Rattle.std.specs.Prelude.{◌≡◌, ◌≢◌, ◌^◌, ◌+◌, ◌≤◌, ◌<◌, ◌++◌, ◌∷◌, [], pos, false, nat_le, if◌then◌else◌, Ok, Err, Some, None, IfOk, IfErr, length, drop, get_or, string_bytes};
ghost use Rattle.std.specs.Char.{is_ascii_digit};
ghost use Rattle.std.specs.List.{prefix_len};
ghost use Rattle.pb_value.specs.Reading.{map_ok};
ghost use Rattle.pb_value.specs.Words.{begins_name, continues_name};
ghost use Rattle.pb_expr_syntax.specs.Tokens.{is_space, joining_word, standing_word, word_kind, word_at, number_after, number_at, escaped, text_from, quoted, double_sign, single_sign, sign, begins_equal, sign_at, begins_space, class_of, lexeme_at, tokens_of};

use crate::fault::ExprFault;
use crate::grammar::Kind;
use crate::token::Token;
use pb_value::text::Text;
use std::alloc::Global;

/// A token, and how many bytes of the text it takes.
#[derive(Drop)]
pub struct Lexeme {
    token: Token,
    size: usize,
}

/// The content of a text, and how many bytes it takes with its closing quote.
#[derive(Drop)]
struct Inside {
    bytes: Vec<u8>,
    size: usize,
}

/// What a token is, by its first byte.
#[derive(Clone, Copy)]
pub enum Class {
    Word,
    Number,
    Quoted,
    Sign,
}

fn is_space(byte: u8) -> bool
    ensures { result ≡ is_space byte }
{
    byte == b' ' || byte == b'\t' || byte == b'\n' || byte == b'\r'
}

fn begins_name(byte: u8) -> bool
    ensures { result ≡ begins_name byte }
{
    byte.is_ascii_alphabetic() || byte == b'_'
}

fn continues_name(byte: u8) -> bool
    ensures { result ≡ continues_name byte }
{
    byte.is_ascii_alphanumeric() || byte == b'_'
}

fn word_length(bytes: &[u8]) -> usize
    ensures { result ≡ prefix_len continues_name bytes.now }
{
    let mut n = 0;
    while n < bytes.len() && continues_name(bytes[n]) {
        n += 1;
    }
    n
}

fn digits_length(bytes: &[u8]) -> usize
    ensures { result ≡ prefix_len is_ascii_digit bytes.now }
{
    let mut n = 0;
    while n < bytes.len() && bytes[n].is_ascii_digit() {
        n += 1;
    }
    n
}

/// What a word is that joins operands or turns them.
fn joining_word(word: &str) -> Option<Kind>
    ensures { result ≡ joining_word word.now }
{
    if word == "and" {
        Some(Kind::And)
    } else if word == "or" {
        Some(Kind::Or)
    } else if word == "not" {
        Some(Kind::Not)
    } else if word == "in" {
        Some(Kind::In)
    } else if word == "is" {
        Some(Kind::Is)
    } else {
        None
    }
}

/// What any other word is.
fn standing_word(word: &str) -> Kind
    ensures { result ≡ standing_word word.now }
{
    if word == "true" || word == "True" {
        Kind::True
    } else if word == "false" || word == "False" {
        Kind::False
    } else if word == "none" || word == "None" {
        Kind::Null
    } else {
        Kind::Name
    }
}

fn word_kind(word: &str) -> Kind
    ensures { result ≡ word_kind word.now }
{
    match joining_word(word) {
        Some(kind) => kind,
        None => standing_word(word),
    }
}

/// The word at the front of bytes that begin with one.
fn word_at(alloc: Global, at: usize, bytes: &[u8]) -> Result<Lexeme, ExprFault>
    ensures value { IfOk result (λ l. l ≡ word_at at bytes.now) }
    ensures fault { IfErr result (λ e. e ≡ ExprFault.Memory) }
{
    let size = word_length(bytes);
    let Ok(word) = str::from_utf8(&bytes[..size]) else {
        return Err(ExprFault::Unexpected { at });
    };
    let token = Token {
        kind: word_kind(word),
        at,
        text: Text::from_str(alloc, word)?,
        number: 0,
    };
    Ok(Lexeme { token, size })
}

/// The number that digits write, where it is below 2 to the 63rd.
fn number_of(digits: &[u8]) -> Option<i64>
    ensures { result ≡ (if nat_le (number_after 0 digits.now) 9223372036854775807 then Some (pos (number_after 0 digits.now)) else None) }
{
    let mut number: u128 = 0;
    for digit in digits {
        number = number * 10 + digit.saturating_sub(b'0') as u128;
        if number > 9223372036854775807 {
            return None;
        }
    }
    Some(number as i64)
}

fn number_at(alloc: Global, at: usize, bytes: &[u8]) -> Result<Lexeme, ExprFault>
    ensures value { IfOk result (λ l. number_at at bytes.now ≡ Ok l) }
    ensures fault { IfErr result (λ e. e ≢ ExprFault.Memory → number_at at bytes.now ≡ Err e) }
{
    let size = digits_length(bytes);
    let Some(number) = number_of(&bytes[..size]) else {
        return Err(ExprFault::NumberTooLarge);
    };
    let token = Token {
        kind: Kind::Digits,
        at,
        text: Text::new(alloc),
        number,
    };
    Ok(Lexeme { token, size })
}

/// What a backslash and this byte stand for.
fn escaped(byte: u8) -> Option<u8>
    ensures { result ≡ escaped byte }
{
    match byte {
        b'\\' | b'\'' | b'"' => Some(byte),
        b'n' => Some(b'\n'),
        b't' => Some(b'\t'),
        _ => None,
    }
}

/// The content of a text that begins at this byte, from behind its opening quote on.
fn content(alloc: Global, at: usize, quote: u8, bytes: &[u8]) -> Result<Inside, ExprFault>
    ensures value { IfOk result (λ c. text_from at quote false bytes.now ≡ Ok (c.bytes.items, c.size)) }
    ensures sized { IfOk result (λ c. c.size ≤ length bytes.now) }
    ensures fault { IfErr result (λ e. e ≢ ExprFault.Memory → text_from at quote false bytes.now ≡ Err e) }
{
    let mut content = Vec::new(alloc);
    let mut is_escape = false;
    let mut size = 0;
    while size < bytes.len() {
        let byte = bytes[size];
        size += 1;
        if is_escape {
            let Some(stands_for) = escaped(byte) else {
                return Err(ExprFault::Unexpected { at });
            };
            content.push(stands_for)?;
            is_escape = false;
        } else if byte == quote {
            return Ok(Inside {
                bytes: content,
                size,
            });
        } else if byte == b'\\' {
            is_escape = true;
        } else {
            content.push(byte)?;
        }
    }
    Err(ExprFault::End)
}

/// The text that begins with a quote at this byte.
fn text_at(alloc: Global, text: &str, at: usize, quote: u8) -> Result<Lexeme, ExprFault>
    requires inside { at < length text.now }
    requires front { get_or text.now at 0 ≡ quote }
    requires ascii { quote < 128 }
    requires room { length text.now < 2 ^ 63 }
    ensures value { IfOk result (λ l. map_ok (quoted at) (text_from at quote false (drop (at + 1) text.now)) ≡ Ok l) }
    ensures fault { IfErr result (λ e. e ≢ ExprFault.Memory → map_ok (quoted at) (text_from at quote false (drop (at + 1) text.now)) ≡ Err e) }
{
    let after = &text[at + 1..];
    let Inside { bytes, size } = match content(alloc, at, quote, after.as_bytes()) {
        Ok(content) => content,
        Err(fault) => return Err(fault),
    };
    let Ok(content) = String::from_utf8(bytes) else {
        return Err(ExprFault::End);
    };
    let token = Token {
        kind: Kind::Text,
        at,
        text: Text::from_string(content),
        number: 0,
    };
    Ok(Lexeme {
        token,
        size: size + 1,
    })
}

/// The sign that a byte makes with `=` behind it.
fn double_sign(byte: u8) -> Option<Kind>
    ensures { result ≡ double_sign byte }
{
    match byte {
        b'=' => Some(Kind::Equal),
        b'!' => Some(Kind::NotEqual),
        b'<' => Some(Kind::AtMost),
        b'>' => Some(Kind::AtLeast),
        _ => None,
    }
}

/// The sign that a byte makes alone.
fn single_sign(byte: u8) -> Option<Kind>
    ensures { result ≡ single_sign byte }
{
    match byte {
        b'<' => Some(Kind::Less),
        b'>' => Some(Kind::Greater),
        b'+' => Some(Kind::Plus),
        b'-' => Some(Kind::Minus),
        b'~' => Some(Kind::Tilde),
        b'|' => Some(Kind::Bar),
        b'.' => Some(Kind::Dot),
        b',' => Some(Kind::Comma),
        b'(' => Some(Kind::Open),
        b')' => Some(Kind::Close),
        b'[' => Some(Kind::ListOpen),
        b']' => Some(Kind::ListClose),
        _ => None,
    }
}

/// The sign at the front and its length, where `=` follows its byte or not.
fn sign(byte: u8, is_equal: bool) -> Option<(Kind, usize)>
    ensures { result ≡ sign byte is_equal }
{
    if is_equal {
        if let Some(kind) = double_sign(byte) {
            return Some((kind, 2));
        }
    }
    match single_sign(byte) {
        Some(kind) => Some((kind, 1)),
        None => None,
    }
}

fn begins_equal(bytes: &[u8]) -> bool
    ensures { result ≡ begins_equal bytes.now }
{
    match bytes {
        [] => false,
        [first, ..] => *first == b'=',
    }
}

fn sign_at(alloc: Global, at: usize, byte: u8, is_equal: bool) -> Result<Lexeme, ExprFault>
    ensures value { IfOk result (λ l. sign_at at (sign byte is_equal) ≡ Ok l) }
    ensures fault { IfErr result (λ e. e ≢ ExprFault.Memory → sign_at at (sign byte is_equal) ≡ Err e) }
{
    let Some((kind, size)) = sign(byte, is_equal) else {
        return Err(ExprFault::Unexpected { at });
    };
    let token = Token {
        kind,
        at,
        text: Text::new(alloc),
        number: 0,
    };
    Ok(Lexeme { token, size })
}

/// What a token that begins with this byte is.
fn class_of(byte: u8) -> Class
    ensures { result ≡ class_of byte }
{
    if begins_name(byte) {
        Class::Word
    } else if byte.is_ascii_digit() {
        Class::Number
    } else if byte == b'\'' || byte == b'"' {
        Class::Quoted
    } else {
        Class::Sign
    }
}

/// The bytes of a text from this one on.
fn rest_from(text: &str, at: usize) -> &[u8]
    requires { at < length text.now }
    ensures { result.now ≡ drop at text.now }
{
    &text.as_bytes()[at..]
}

/// The token that begins at this byte of a text.
fn lexeme_at(alloc: Global, text: &str, at: usize) -> Result<Lexeme, ExprFault>
    requires inside { at < length text.now }
    requires room { length text.now < 2 ^ 63 }
    ensures value { IfOk result (λ l. lexeme_at at (drop at text.now) ≡ Ok l) }
    ensures fault { IfErr result (λ e. e ≢ ExprFault.Memory → lexeme_at at (drop at text.now) ≡ Err e) }
{
    let rest = rest_from(text, at);
    match rest {
        [] => Err(ExprFault::End),
        [first, after @ ..] => match class_of(*first) {
            Class::Word => word_at(alloc, at, rest),
            Class::Number => number_at(alloc, at, rest),
            Class::Quoted => text_at(alloc, text, at, *first),
            Class::Sign => sign_at(alloc, at, *first, begins_equal(after)),
        },
    }
}

fn begins_space(bytes: &[u8]) -> bool
    ensures { result ≡ begins_space bytes.now }
{
    match bytes {
        [] => false,
        [first, ..] => is_space(*first),
    }
}

/// The tokens of a text, or the fault of the first that is bad.
pub fn tokens_of(alloc: Global, text: &str) -> Result<Vec<Token>, ExprFault>
    requires { length text.now < 2 ^ 63 }
    ensures value { IfOk result (λ ts. tokens_of text.now ≡ Ok ts.items) }
    ensures fault { IfErr result (λ e. e ≢ ExprFault.Memory → tokens_of text.now ≡ Err e) }
{
    let mut tokens = Vec::new(alloc);
    let mut at = 0;
    while at < text.len() {
        let rest = rest_from(text, at);
        if begins_space(rest) {
            at += 1;
        } else {
            match lexeme_at(alloc, text, at) {
                Ok(lexeme) => {
                    tokens.push(lexeme.token)?;
                    at += lexeme.size;
                }
                Err(fault) => return Err(fault),
            }
        }
    }
    Ok(tokens)
}
