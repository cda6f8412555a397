//! Expressions of templates and conditions: their text, their tokens, their grammar, their trees.
//!
//! `Expr::parse` reads a text as an expression. To the crates above an `Expr` is a plain tree,
//! `Tree` of `specs/Tree.antt`, so clauses compare expressions by `≡`. `specs/Spelling.antt` says
//! which trees a text spells, by the grammar of `specs/Grammar.antt`, and which fault is the first
//! of a text that spells none. Parsing gives the one tree that is spelt, or that first fault; only
//! want of memory may come in place of either.
#![tactic(auto)]

pub mod alternative;
pub mod depth;
pub mod fault;
pub mod grammar;
pub mod lexer;
pub mod parse;
pub mod parser;
pub mod token;
pub mod tree;
