//! The parser: a stack of symbols that are still to be read, and a stack of parts.
ghost use Rattle.std.specs.Prelude.{drop, ◌<◌, MatchBool, ◌≡◌, ◌≤◌, ◌+◌, ◌∷◌, [], ◌++◌, length, OnOk, IfOk, IfErr, IfSome, IfNone, Some, None, MatchResult};
ghost use Rattle.pb_expr_syntax.specs.Tree.{Tree};
ghost use Rattle.pb_expr_syntax.specs.Grammar.{takes, taken, made, leaf, One, Many, Called, Spells};
ghost use Rattle.pb_expr_syntax.specs.Grammar.{filter_of as named_filter};
ghost use Rattle.pb_expr_syntax.specs.Machine.{StepsTo, head_of};
ghost use Rattle.pb_expr_syntax.specs.declared.grammar.Make.{Make};
ghost use Rattle.pb_expr_syntax.specs.declared.grammar.How.{How};
ghost use Rattle.pb_expr_syntax.specs.Views.{CallFault, Refuses, StopsAtEnd, Points, StopsWith, part_of, NotOne, NotMany, NotCalled, parts_onto, symbols_onto, state_of, Faults};

use crate::alternative::alternative;
use crate::grammar::{How, Kind, Make, Rule, Symbol};
use crate::token::Token;
use crate::tree::{
    Expr, ExprList, Filter, Form, Op, apply, binary, index, is_defined, list, member, negate, not,
};
use std::alloc::{AllocError, AllocFailed, Global};

/// Why tokens are no expression.
#[derive(Drop)]
pub enum Refusal {
    Unexpected { at: usize },
    End,
    Memory,
}

impl From<AllocError> for Refusal {
    ghost use Rattle.std.specs.Prelude.{◌≡◌};
    ghost use Rattle.pb_expr_syntax.specs.declared.parser.Refusal.TheVariants.{Memory};

    ghost from_gives = { λ _ e. e ≡ Memory };

    fn from(_e: AllocError) -> Self {
        Refusal::Memory
    }
}

impl<T: Drop> From<AllocFailed<T>> for Refusal {
    ghost use Rattle.std.specs.Prelude.{◌≡◌};
    ghost use Rattle.pb_expr_syntax.specs.declared.parser.Refusal.TheVariants.{Memory};

    ghost from_gives = { λ _ e. e ≡ Memory };

    fn from(_e: AllocFailed<T>) -> Self {
        Refusal::Memory
    }
}

/// What was built so far: an expression, the members of a list or the arguments of a filter, or a filter that is called, with the byte at which it stands.
#[derive(Drop)]
pub enum Part {
    One(Expr),
    Many(ExprList),
    Called(Filter, usize),
}

/// The parser: what is still wanted, what was built, and how far the tokens were read.
#[derive(Drop)]
pub struct Machine {
    symbols: Vec<Symbol>,
    parts: Vec<Part>,
    next: usize,
}

/// Puts symbols on the stack, the first on top.
fn put(symbols: &mut Vec<Symbol>, alternative: &[Symbol]) -> Result<(), AllocError>
    ensures { OnOk result (symbols_onto [] symbols.new.items ≡ alternative.now ++ symbols_onto [] symbols.old.items) }
{
    let mut i = alternative.len();
    while i > 0 {
        i -= 1;
        symbols.push(alternative[i])?;
    }
    Ok(())
}

fn pop_symbol(symbols: &mut Vec<Symbol>) -> Option<Symbol>
    ensures some { IfSome result (λ s. symbols_onto [] symbols.old.items ≡ s ∷ symbols_onto [] symbols.new.items) }
    ensures none { IfNone result (symbols_onto [] symbols.old.items ≡ []) }
{
    symbols.pop()
}

fn filter_of(name: &str) -> Option<Filter>
    ensures { result ≡ named_filter name.now }
{
    if name == "default" {
        Some(Filter::Default)
    } else if name == "length" {
        Some(Filter::Length)
    } else if name == "bool" {
        Some(Filter::Bool)
    } else if name == "int" {
        Some(Filter::Int)
    } else if name == "join" {
        Some(Filter::Join)
    } else {
        None
    }
}

fn leaf_of(token: &Token) -> Result<Expr, AllocError>
    ensures { IfOk result (λ x. x ≡ leaf token.now) }
{
    let form = match token.kind {
        Kind::Digits => Form::Int(token.number),
        Kind::Text => Form::Text(token.text.try_clone()?),
        Kind::True => Form::Truth(true),
        Kind::False => Form::Truth(false),
        Kind::Null => Form::Null,
        _ => Form::Name(token.text.try_clone()?),
    };
    Ok(Expr { form })
}

fn push_part(parts: &mut Vec<Part>, part: Part) -> Result<(), AllocError>
    ensures { OnOk result (parts_onto [] parts.new.items ≡ part_of part ∷ parts_onto [] parts.old.items) }
{
    parts.push(part)?;
    Ok(())
}

fn pop_part(parts: &mut Vec<Part>) -> Option<Part>
    ensures some { IfSome result (λ p. parts_onto [] parts.old.items ≡ part_of p ∷ parts_onto [] parts.new.items) }
    ensures none { IfNone result (parts_onto [] parts.old.items ≡ []) }
{
    parts.pop()
}

fn pop_one(parts: &mut Vec<Part>) -> Option<Expr>
    ensures some { IfSome result (λ x. parts_onto [] parts.old.items ≡ One x ∷ parts_onto [] parts.new.items) }
    ensures none { IfNone result (NotOne (parts_onto [] parts.old.items)) }
{
    match pop_part(parts) {
        Some(Part::One(x)) => Some(x),
        _ => None,
    }
}

fn pop_many(parts: &mut Vec<Part>) -> Option<ExprList>
    ensures some { IfSome result (λ xs. parts_onto [] parts.old.items ≡ Many xs ∷ parts_onto [] parts.new.items) }
    ensures none { IfNone result (NotMany (parts_onto [] parts.old.items)) }
{
    match pop_part(parts) {
        Some(Part::Many(xs)) => Some(xs),
        _ => None,
    }
}

fn pop_called(parts: &mut Vec<Part>) -> Option<(Filter, usize)>
    ensures some { IfSome result (λ c. parts_onto [] parts.old.items ≡ Called c.0 c.1 ∷ parts_onto [] parts.new.items) }
    ensures none { IfNone result (NotCalled (parts_onto [] parts.old.items)) }
{
    match pop_part(parts) {
        Some(Part::Called(filter, at)) => Some((filter, at)),
        _ => None,
    }
}

fn next_token<'a>(tokens: &'a [Token], next: usize) -> Option<&'a Token>
    ensures some { IfSome result (λ t. (next < length tokens.now) × (drop next tokens.now ≡ t.now ∷ drop (next + 1) tokens.now)) }
    ensures none { IfNone result (drop next tokens.now ≡ []) }
{
    if next < tokens.len() {
        Some(&tokens[next])
    } else {
        None
    }
}

fn look(tokens: &[Token], next: usize) -> Option<Kind>
    ensures { result ≡ head_of (drop next tokens.now) }
{
    match next_token(tokens, next) {
        Some(token) => Some(token.kind),
        None => None,
    }
}

fn fault_at(tokens: &[Token], next: usize) -> Refusal
    ensures { Points result (drop next tokens.now) }
{
    match next_token(tokens, next) {
        Some(token) => Refusal::Unexpected { at: token.at },
        None => Refusal::End,
    }
}

/// What the token adds to the parts. An unknown filter adds nothing, and is `None`.
fn part_of_token(
    alloc: Global,
    how: How,
    token: &Token,
    parts: &mut Vec<Part>,
) -> Result<bool, AllocError>
    ensures { IfOk result (λ known. MatchBool known (taken how token.now (parts_onto [] parts.old.items) ≡ Some (parts_onto [] parts.new.items)) (taken how token.now (parts_onto [] parts.old.items) ≡ None)) }
{
    match how {
        How::Skip => Ok(true),
        How::Leaf => {
            let tree = leaf_of(token)?;
            push_part(parts, Part::One(tree))?;
            Ok(true)
        }
        How::Call => match filter_of(token.text.as_str()) {
            Some(filter) => {
                push_part(parts, Part::Called(filter, token.at))?;
                Ok(true)
            }
            None => Ok(false),
        },
        How::Member => add_member(alloc, token, parts),
        How::Defined => Ok(token.text.as_str() == "defined"),
    }
}

fn add_member(alloc: Global, token: &Token, parts: &mut Vec<Part>) -> Result<bool, AllocError>
    ensures { IfOk result (λ known. MatchBool known (taken How.Member token.now (parts_onto [] parts.old.items) ≡ Some (parts_onto [] parts.new.items)) (taken How.Member token.now (parts_onto [] parts.old.items) ≡ None)) }
{
    let Some(x) = pop_one(parts) else {
        return Ok(false);
    };
    let name = token.text.try_clone()?;
    let tree = member(alloc, x, name)?;
    push_part(parts, Part::One(tree))?;
    Ok(true)
}

fn build_binary(alloc: Global, op: Op, parts: &mut Vec<Part>) -> Result<(), Refusal>
    ensures ok { OnOk result (made (Make.Binary op) (parts_onto [] parts.old.items) ≡ Some (parts_onto [] parts.new.items)) }
    ensures fault { IfErr result (λ e. Faults e (made (Make.Binary op) (parts_onto [] parts.old.items) ≡ None)) }
{
    let Some(y) = pop_one(parts) else {
        return Err(Refusal::End);
    };
    let Some(x) = pop_one(parts) else {
        return Err(Refusal::End);
    };
    let tree = binary(alloc, op, x, y)?;
    push_part(parts, Part::One(tree))?;
    Ok(())
}

fn build_inverted(alloc: Global, parts: &mut Vec<Part>) -> Result<(), Refusal>
    ensures ok { OnOk result (made Make.Inverted (parts_onto [] parts.old.items) ≡ Some (parts_onto [] parts.new.items)) }
    ensures fault { IfErr result (λ e. Faults e (made Make.Inverted (parts_onto [] parts.old.items) ≡ None)) }
{
    let Some(x) = pop_one(parts) else {
        return Err(Refusal::End);
    };
    let tree = not(alloc, x)?;
    push_part(parts, Part::One(tree))?;
    Ok(())
}

fn build_negated(alloc: Global, parts: &mut Vec<Part>) -> Result<(), Refusal>
    ensures ok { OnOk result (made Make.Negated (parts_onto [] parts.old.items) ≡ Some (parts_onto [] parts.new.items)) }
    ensures fault { IfErr result (λ e. Faults e (made Make.Negated (parts_onto [] parts.old.items) ≡ None)) }
{
    let Some(x) = pop_one(parts) else {
        return Err(Refusal::End);
    };
    let tree = negate(alloc, x)?;
    push_part(parts, Part::One(tree))?;
    Ok(())
}

fn build_present(alloc: Global, present: bool, parts: &mut Vec<Part>) -> Result<(), Refusal>
    ensures ok { OnOk result (made (Make.Present present) (parts_onto [] parts.old.items) ≡ Some (parts_onto [] parts.new.items)) }
    ensures fault { IfErr result (λ e. Faults e (made (Make.Present present) (parts_onto [] parts.old.items) ≡ None)) }
{
    let Some(x) = pop_one(parts) else {
        return Err(Refusal::End);
    };
    let tree = is_defined(alloc, x, present)?;
    push_part(parts, Part::One(tree))?;
    Ok(())
}

fn build_indexed(alloc: Global, parts: &mut Vec<Part>) -> Result<(), Refusal>
    ensures ok { OnOk result (made Make.Indexed (parts_onto [] parts.old.items) ≡ Some (parts_onto [] parts.new.items)) }
    ensures fault { IfErr result (λ e. Faults e (made Make.Indexed (parts_onto [] parts.old.items) ≡ None)) }
{
    let Some(y) = pop_one(parts) else {
        return Err(Refusal::End);
    };
    let Some(x) = pop_one(parts) else {
        return Err(Refusal::End);
    };
    let tree = index(alloc, x, y)?;
    push_part(parts, Part::One(tree))?;
    Ok(())
}

fn build_listed(parts: &mut Vec<Part>) -> Result<(), Refusal>
    ensures ok { OnOk result (made Make.Listed (parts_onto [] parts.old.items) ≡ Some (parts_onto [] parts.new.items)) }
    ensures fault { IfErr result (λ e. Faults e (made Make.Listed (parts_onto [] parts.old.items) ≡ None)) }
{
    let Some(xs) = pop_many(parts) else {
        return Err(Refusal::End);
    };
    push_part(parts, Part::One(list(xs)))?;
    Ok(())
}

fn build_item(parts: &mut Vec<Part>) -> Result<(), Refusal>
    ensures ok { OnOk result (made Make.Item (parts_onto [] parts.old.items) ≡ Some (parts_onto [] parts.new.items)) }
    ensures fault { IfErr result (λ e. Faults e (made Make.Item (parts_onto [] parts.old.items) ≡ None)) }
{
    let Some(x) = pop_one(parts) else {
        return Err(Refusal::End);
    };
    let Some(mut xs) = pop_many(parts) else {
        return Err(Refusal::End);
    };
    xs.push(x)?;
    push_part(parts, Part::Many(xs))?;
    Ok(())
}

/// Whether the filter takes as many arguments.
fn takes_count(filter: Filter, args: &ExprList) -> bool
    ensures { result ≡ takes filter (length args.now) }
{
    match filter {
        Filter::Default => args.len() == 1 || args.len() == 2,
        Filter::Length | Filter::Bool | Filter::Int => args.len() == 0,
        Filter::Join => args.len() <= 1,
    }
}

fn build_filtered(alloc: Global, parts: &mut Vec<Part>) -> Result<(), Refusal>
    ensures ok { OnOk result (made Make.Filtered (parts_onto [] parts.old.items) ≡ Some (parts_onto [] parts.new.items)) }
    ensures fault { IfErr result (λ e. Faults e (made Make.Filtered (parts_onto [] parts.old.items) ≡ None)) }
    ensures call { IfErr result (λ e. CallFault e Make.Filtered (parts_onto [] parts.old.items)) }
{
    let Some(xs) = pop_many(parts) else {
        return Err(Refusal::End);
    };
    let Some((filter, at)) = pop_called(parts) else {
        return Err(Refusal::End);
    };
    let Some(x) = pop_one(parts) else {
        return Err(Refusal::End);
    };
    if !takes_count(filter, &xs) {
        return Err(Refusal::Unexpected { at });
    }
    let tree = apply(alloc, filter, x, xs)?;
    push_part(parts, Part::One(tree))?;
    Ok(())
}

fn build(alloc: Global, make: Make, parts: &mut Vec<Part>) -> Result<(), Refusal>
    ensures ok { OnOk result (made make (parts_onto [] parts.old.items) ≡ Some (parts_onto [] parts.new.items)) }
    ensures fault { IfErr result (λ e. Faults e (made make (parts_onto [] parts.old.items) ≡ None)) }
    ensures call { IfErr result (λ e. CallFault e make (parts_onto [] parts.old.items)) }
{
    match make {
        Make::Binary(op) => build_binary(alloc, op, parts),
        Make::Inverted => build_inverted(alloc, parts),
        Make::Negated => build_negated(alloc, parts),
        Make::NoItems => {
            push_part(parts, Part::Many(ExprList::new(alloc)))?;
            Ok(())
        }
        Make::Item => build_item(parts),
        Make::Filtered => build_filtered(alloc, parts),
        Make::Listed => build_listed(parts),
        Make::Indexed => build_indexed(alloc, parts),
        Make::Present(present) => build_present(alloc, present, parts),
    }
}

impl Machine {
    ghost use Rattle.std.specs.Prelude.{◌≡◌, ◌∷◌, [], OnOk, IfErr, IfOk};
    ghost use Rattle.pb_expr_syntax.specs.Machine.{StepsTo};
    ghost use Rattle.pb_expr_syntax.specs.Views.{state_of, StopsWith};

    /// Does what the symbol says.
    fn step(&mut self, alloc: Global, symbol: Symbol, tokens: &[Token]) -> Result<(), Refusal>
        ensures ok { OnOk result (StepsTo tokens.now symbol (state_of self.old) (state_of self.new)) }
        ensures fault { IfErr result (λ e. StopsWith tokens.now symbol (state_of self.old) e) }
    {
        match symbol {
            Symbol::Go(rule) => match alternative(rule, look(tokens, self.next)) {
                Some(symbols) => {
                    put(&mut self.symbols, symbols)?;
                    Ok(())
                }
                None => Err(fault_at(tokens, self.next)),
            },
            Symbol::Take(kind, how) => self.take(alloc, kind, how, tokens),
            Symbol::Do(make) => build(alloc, make, &mut self.parts),
        }
    }

    fn take(&mut self, alloc: Global, kind: Kind, how: How, tokens: &[Token]) -> Result<(), Refusal>
        ensures ok { OnOk result (StepsTo tokens.now (Symbol.Take kind how) (state_of self.old) (state_of self.new)) }
        ensures fault { IfErr result (λ e. StopsWith tokens.now (Symbol.Take kind how) (state_of self.old) e) }
    {
        let Some(token) = next_token(tokens, self.next) else {
            return Err(Refusal::End);
        };
        if token.kind != kind {
            return Err(Refusal::Unexpected { at: token.at });
        }
        if !part_of_token(alloc, how, token, &mut self.parts)? {
            return Err(Refusal::Unexpected { at: token.at });
        }
        self.next += 1;
        Ok(())
    }
}

/// The tree that the tokens spell.
pub fn parse_tokens(alloc: Global, tokens: &[Token]) -> Result<Expr, Refusal>
    ensures ok { IfOk result (λ x. Spells tokens.now x) }
    ensures only { IfOk result (λ x. (t : Tree) → Spells tokens.now t → t ≡ x) }
    ensures none { IfErr result (λ e. Faults e ((t : Tree) → Spells tokens.now t → ⊥)) }
    ensures fault { IfErr result (λ e. Faults e (Refuses tokens.now e)) }
{
    let mut symbols = Vec::new(alloc);
    symbols.push(Symbol::Go(Rule::Expr))?;
    let mut machine = Machine {
        symbols,
        parts: Vec::new(alloc),
        next: 0,
    };
    while let Some(symbol) = pop_symbol(&mut machine.symbols) {
        if let Err(fault) = machine.step(alloc, symbol, tokens) {
            return Err(fault);
        }
    }
    let Machine {
        symbols: _,
        parts,
        next,
    } = machine;
    finish(parts, next, tokens)
}

/// The one part that is left, if no token is.
fn finish(mut parts: Vec<Part>, next: usize, tokens: &[Token]) -> Result<Expr, Refusal>
    ensures ok { IfOk result (λ x. (drop next tokens.now ≡ []) × (parts_onto [] parts.items ≡ One x ∷ [])) }
    ensures fault { IfErr result (λ e. Faults e (StopsAtEnd e (drop next tokens.now) (parts_onto [] parts.items))) }
{
    if next_token(tokens, next).is_some() {
        return Err(fault_at(tokens, next));
    }
    let Some(tree) = pop_one(&mut parts) else {
        return Err(Refusal::End);
    };
    let None = pop_part(&mut parts) else {
        return Err(Refusal::End);
    };
    Ok(tree)
}
