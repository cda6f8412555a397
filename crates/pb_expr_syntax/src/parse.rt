//! Reads a text as an expression.
ghost use Rattle.std.specs.Prelude.{◌≡◌, ◌≢◌, ◌≤◌, IfOk, IfErr, Ok, Some, None, length};
ghost use Rattle.pb_expr_syntax.specs.Computed.{tree_of, first_fault_of};
ghost use Rattle.pb_expr_syntax.specs.Tree.{Tree};
ghost use Rattle.pb_expr_syntax.specs.Spelling.{spells, fault_of, FirstFault};

use crate::fault::ExprFault;
use crate::lexer::tokens_of;
use crate::parser::{Refusal, parse_tokens};
use crate::tree::Expr;
use std::alloc::Global;

/// The most bytes that the text of an expression has.
pub const MAX_BYTES: usize = 4096;

/// The most levels that an expression has.
pub const MAX_LEVELS: u32 = 64;

fn fault_of(refusal: Refusal) -> ExprFault
    ensures { result ≡ fault_of refusal }
{
    match refusal {
        Refusal::Unexpected { at } => ExprFault::Unexpected { at },
        Refusal::End => ExprFault::End,
        Refusal::Memory => ExprFault::Memory,
    }
}

impl Expr {
    /// The expression that a text spells, or its first fault, in this order: a text longer than
    /// 4,096 bytes; the first bad token; the first token that can't go on, or a text that stops
    /// short; a tree deeper than 64. The grammar follows "Using filters to manipulate data" and
    /// "Tests" of Ansible's documentation and Jinja's template designer documentation.
    ///
    /// No text has two first faults. `tree_of` computes the same tree and `first_fault_of` the same
    /// fault, for what is said of texts in the crates above.
    #[tactic(auto, using(crate::proofs::Computed::tree_is, crate::proofs::Computed::tree_is_none, crate::proofs::OneFault::one_fault))]
    pub fn parse(alloc: Global, text: &str) -> Result<Expr, ExprFault>
        ensures spelt { IfOk result (λ x. spells text.now x) }
        ensures only { IfOk result (λ x. (t : Tree) → spells text.now t → t ≡ x) }
        ensures none { IfErr result (λ e. e ≢ ExprFault.Memory → (t : Tree) → spells text.now t → ⊥) }
        ensures fault { IfErr result (λ e. e ≢ ExprFault.Memory → FirstFault text.now e) }
        ensures first { IfErr result (λ e. e ≢ ExprFault.Memory → (other : ExprFault) → FirstFault text.now other → other ≡ e) }
        ensures computed { IfOk result (λ x. tree_of text.now ≡ Some x) }
        ensures computed_fault { IfErr result (λ e. e ≢ ExprFault.Memory → first_fault_of text.now ≡ Some e) }
        ensures not_computed { IfErr result (λ e. e ≢ ExprFault.Memory → tree_of text.now ≡ None) }
    {
        if text.len() > MAX_BYTES {
            return Err(ExprFault::TooDeep);
        }
        let tokens = match tokens_of(alloc, text) {
            Ok(tokens) => tokens,
            Err(fault) => return Err(fault),
        };
        let expr = match parse_tokens(alloc, tokens.as_slice()) {
            Ok(expr) => expr,
            Err(refusal) => return Err(fault_of(refusal)),
        };
        if expr.is_within(MAX_LEVELS) {
            Ok(expr)
        } else {
            Err(ExprFault::TooDeep)
        }
    }
}
