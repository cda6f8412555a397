//! Cuts a text into plain pieces and expressions.
ghost use Rattle.std.specs.Prelude.{true, ◌≡◌, ◌≢◌, ◌≤◌, ◌<◌, ◌+◌, ◌^◌, ◌∷◌, [], Ok, Err, Some, None, IfOk, IfErr, length, drop};
ghost use Rattle.std.specs.Str.{IsCharBoundary};
ghost use Rattle.pb_expr_syntax.specs.declared.fault.ExprFault.{ExprFault};
ghost use Rattle.pb_expr_syntax.specs.declared.fault.ExprFault.TheVariants as fault;
ghost use Rattle.pb_template.specs.declared.pieces.State.TheVariants as state;
ghost use Rattle.pb_template.specs.Pieces.{begins_one, begins_two, begins_three, begins_open, begins_refused, begins_special, plain_size, moved, closes, code_size, plain_front, code_front, front_at, pieces_of};

use pb_expr_syntax::fault::ExprFault;
use pb_value::text::Text;
use std::alloc::Global;

/// A piece of a template's text.
#[derive(Drop)]
pub enum Piece {
    /// Bytes that stand for themselves.
    Plain(Text),
    /// What stands between `{{` and `}}`.
    Code(Text),
}

/// A text cut into its pieces.
#[derive(Drop)]
pub struct Pieces {
    /// All of them, or those before the first place at which no piece can begin.
    pub pieces: Vec<Piece>,
    /// The fault at that place.
    pub fault: Option<ExprFault>,
}

/// The piece at the front of a text, and how many bytes it takes with its braces.
#[derive(Drop)]
pub struct Front {
    piece: Piece,
    size: usize,
}

/// Where in an expression its bytes are read.
#[derive(Clone, Copy)]
pub enum State {
    /// Outside of its texts.
    Outside,
    /// In a text with this quote.
    Inside(u8),
    /// In a text with this quote, behind a backslash.
    Escaped(u8),
}

fn begins_one(bytes: &[u8], x: u8) -> bool
    ensures { result ≡ begins_one x bytes.now }
{
    match bytes {
        [] => false,
        [first, ..] => *first == x,
    }
}

fn begins_two(bytes: &[u8], x: u8, y: u8) -> bool
    ensures { result ≡ begins_two x y bytes.now }
{
    match bytes {
        [] => false,
        [first, rest @ ..] => *first == x && begins_one(rest, y),
    }
}

fn begins_three(bytes: &[u8], x: u8, y: u8, z: u8) -> bool
    ensures { result ≡ begins_three x y z bytes.now }
{
    match bytes {
        [] => false,
        [first, rest @ ..] => *first == x && begins_two(rest, y, z),
    }
}

fn begins_open(bytes: &[u8]) -> bool
    ensures { result ≡ begins_open bytes.now }
{
    begins_two(bytes, b'{', b'{')
}

fn begins_refused(bytes: &[u8]) -> bool
    ensures { result ≡ begins_refused bytes.now }
{
    begins_three(bytes, b'{', b'{', b'-')
        || begins_two(bytes, b'{', b'%')
        || begins_two(bytes, b'{', b'#')
        || begins_three(bytes, b'-', b'}', b'}')
}

fn begins_special(bytes: &[u8]) -> bool
    ensures { result ≡ begins_special bytes.now }
{
    begins_open(bytes) || begins_refused(bytes)
}

fn rest_from(bytes: &[u8], at: usize) -> &[u8]
    requires { at < length bytes.now }
    ensures { result.now ≡ drop at bytes.now }
{
    &bytes[at..]
}

pub(crate) fn plain_size(bytes: &[u8]) -> usize
    ensures { result ≡ plain_size bytes.now }
{
    let mut n = 0;
    while n < bytes.len() && !begins_special(rest_from(bytes, n)) {
        n += 1;
    }
    n
}

fn moved(state: State, byte: u8) -> State
    ensures { result ≡ moved state byte }
{
    match state {
        State::Outside => {
            if byte == b'\'' || byte == b'"' {
                State::Inside(byte)
            } else {
                State::Outside
            }
        }
        State::Inside(quote) => {
            if byte == quote {
                State::Outside
            } else if byte == b'\\' {
                State::Escaped(quote)
            } else {
                State::Inside(quote)
            }
        }
        State::Escaped(quote) => State::Inside(quote),
    }
}

fn closes(state: State, bytes: &[u8]) -> bool
    ensures { result ≡ closes state bytes.now }
{
    match state {
        State::Outside => begins_two(bytes, b'}', b'}'),
        _ => false,
    }
}

/// How many bytes stand before the `}}` that ends an expression.
fn code_size(bytes: &[u8]) -> Option<usize>
    ensures { result ≡ code_size state.Outside bytes.now }
{
    let mut state = State::Outside;
    let mut n = 0;
    while n < bytes.len() {
        if closes(state, rest_from(bytes, n)) {
            return Some(n);
        }
        state = moved(state, bytes[n]);
        n += 1;
    }
    None
}

fn plain_at(alloc: Global, text: &str) -> Result<Front, ExprFault>
    ensures value { IfOk result (λ f. f ≡ plain_front text.now) }
    ensures cut { IfOk result (λ f. IsCharBoundary text.now f.size) }
    ensures fault { IfErr result (λ e. e ≡ fault.Memory) }
{
    let size = plain_size(text.as_bytes());
    let piece = Piece::Plain(Text::from_str(alloc, &text[..size])?);
    Ok(Front { piece, size })
}

fn code_at(alloc: Global, text: &str) -> Result<Front, ExprFault>
    requires { begins_open text.now ≡ true }
    ensures value { IfOk result (λ f. code_front text.now ≡ Ok f) }
    ensures cut { IfOk result (λ f. IsCharBoundary text.now f.size) }
    ensures fault { IfErr result (λ e. e ≢ fault.Memory → code_front text.now ≡ Err e) }
{
    let code = &text[2..];
    let Some(size) = code_size(code.as_bytes()) else {
        return Err(ExprFault::End);
    };
    let piece = Piece::Code(Text::from_str(alloc, &code[..size])?);
    Ok(Front {
        piece,
        size: size + 4,
    })
}

/// The piece at the front of a text, which begins at this byte of the whole.
fn front_at(alloc: Global, at: usize, text: &str) -> Result<Front, ExprFault>
    ensures value { IfOk result (λ f. front_at at text.now ≡ Ok f) }
    ensures cut { IfOk result (λ f. IsCharBoundary text.now f.size) }
    ensures fault { IfErr result (λ e. e ≢ fault.Memory → front_at at text.now ≡ Err e) }
{
    let bytes = text.as_bytes();
    if begins_refused(bytes) {
        Err(ExprFault::Unexpected { at })
    } else if begins_open(bytes) {
        code_at(alloc, text)
    } else {
        plain_at(alloc, text)
    }
}

/// The pieces of a text, as far as it can be cut. The one error is want of memory.
pub fn pieces_of(alloc: Global, text: &str) -> Result<Pieces, ExprFault>
    ensures value { IfOk result (λ cut. pieces_of text.now ≡ (cut.pieces.items, cut.fault)) }
    ensures fault { IfErr result (λ e. e ≡ fault.Memory) }
{
    let mut pieces = Vec::new(alloc);
    let mut rest = text;
    while !rest.is_empty() {
        match front_at(alloc, text.len() - rest.len(), rest) {
            Ok(front) => {
                pieces.push(front.piece)?;
                rest = &rest[front.size..];
            }
            Err(ExprFault::Memory) => return Err(ExprFault::Memory),
            Err(fault) => {
                let fault = Some(fault);
                return Ok(Pieces { pieces, fault });
            }
        }
    }
    let fault = None;
    Ok(Pieces { pieces, fault })
}
