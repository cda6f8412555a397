//! Templates and their parts.
ghost use Rattle.std.specs.Prelude.{◌≡◌, ◌≢◌, List, IfOk, IfErr, Some, None};
ghost use Rattle.pb_template.specs.Computed.{part_in, parts_in, fault_in, first_among, template_of, template_fault_of};
ghost use Rattle.std.specs.Option.{option_copied};
ghost use Rattle.pb_expr_syntax.specs.declared.fault.ExprFault.TheVariants as fault;
ghost use Rattle.pb_template.specs.declared.template.Part.{Part};
ghost use Rattle.pb_template.specs.Parts.{IsPart, AreParts, IsBad, HasBad, IsTemplate, FirstBad, single_of};

use crate::pieces::{Piece, pieces_of};
use pb_expr_syntax::fault::ExprFault;
use pb_expr_syntax::tree::Expr;
use pb_value::items::Items;
use pb_value::text::Text;
use std::alloc::Global;

/// A part of a template.
#[derive(Drop)]
pub enum Part {
    /// Bytes that stand for themselves.
    Plain(Text),
    /// An expression, which stands for its value.
    Code(Expr),
}

/// A text in which expressions may stand: its parts in their order.
#[derive(Drop)]
pub struct Template {
    pub parts: Items<Part>,
}

fn part_of(alloc: Global, piece: &Piece) -> Result<Part, ExprFault>
    ensures part { IfOk result (λ p. IsPart piece.now p) }
    ensures only { IfOk result (λ p. (q : Part) → IsPart piece.now q → q ≡ p) }
    ensures none { IfErr result (λ e. e ≢ fault.Memory → (q : Part) → IsPart piece.now q → ⊥) }
    ensures fault { IfErr result (λ e. e ≢ fault.Memory → IsBad piece.now e) }
    ensures computed { IfOk result (λ p. part_in piece.now ≡ Some p) }
    ensures not_computed { IfErr result (λ e. e ≢ fault.Memory → part_in piece.now ≡ None) }
    ensures no_fault { IfOk result (λ p. fault_in piece.now ≡ None) }
    ensures computed_fault { IfErr result (λ e. e ≢ fault.Memory → fault_in piece.now ≡ Some e) }
{
    match piece {
        Piece::Plain(text) => Ok(Part::Plain(text.try_clone()?)),
        Piece::Code(text) => match Expr::parse(alloc, text.as_str()) {
            Ok(expr) => Ok(Part::Code(expr)),
            Err(fault) => Err(fault),
        },
    }
}

impl Template {
    /// The parts of a text, or the fault that stands first in it: `{{-`, `{%`, `{#` or `-}}` outside
    /// of expressions is Unexpected at its byte, an expression without `}}` is End, and the fault
    /// of another expression counts from behind its `{{`. The `}}` that ends an expression is the
    /// first outside of the expression's texts. The meaning of the braces is Jinja's, as in
    /// "Templating (Jinja2)" of Ansible's documentation.
    ///
    /// `template_of` computes the same parts and `template_fault_of` the same fault, for what is said
    /// of texts in the crates above.
    #[tactic(auto, unfolding(crate::specs::Computed::template_of, crate::specs::Computed::template_fault_of))]
    pub fn parse(alloc: Global, text: &str) -> Result<Template, ExprFault>
        ensures parts { IfOk result (λ t. IsTemplate text.now t.parts) }
        ensures only { IfOk result (λ t. (parts : List Part) → IsTemplate text.now parts → parts ≡ t.parts) }
        ensures none { IfErr result (λ e. e ≢ fault.Memory → (parts : List Part) → IsTemplate text.now parts → ⊥) }
        ensures fault { IfErr result (λ e. e ≢ fault.Memory → FirstBad text.now e) }
        ensures computed { IfOk result (λ t. template_of text.now ≡ Some t.parts) }
        ensures not_computed { IfErr result (λ e. e ≢ fault.Memory → template_of text.now ≡ None) }
        ensures computed_fault { IfErr result (λ e. e ≢ fault.Memory → template_fault_of text.now ≡ Some e) }
    {
        let cut = match pieces_of(alloc, text) {
            Ok(cut) => cut,
            Err(fault) => return Err(fault),
        };
        let parts = match parts_of(alloc, cut.pieces.as_slice()) {
            Ok(parts) => parts,
            Err(fault) => return Err(fault),
        };
        match cut.fault {
            Some(fault) => Err(fault),
            None => Ok(Template {
                parts: Items::from_vec(parts),
            }),
        }
    }

    /// The expression of a text that is just one, whose value such a template gives.
    pub fn single(&self) -> Option<&Expr>
        ensures { option_copied result ≡ single_of self.now.parts }
    {
        match self.parts.as_slice() {
            [Part::Code(expr)] => Some(expr),
            _ => None,
        }
    }
}

fn parts_of(alloc: Global, pieces: &[Piece]) -> Result<Vec<Part>, ExprFault>
    ensures parts { IfOk result (λ ps. AreParts pieces.now ps.items) }
    ensures only { IfOk result (λ ps. (qs : List Part) → AreParts pieces.now qs → qs ≡ ps.items) }
    ensures none { IfErr result (λ e. e ≢ fault.Memory → (qs : List Part) → AreParts pieces.now qs → ⊥) }
    ensures fault { IfErr result (λ e. e ≢ fault.Memory → HasBad pieces.now e) }
    ensures computed { IfOk result (λ ps. parts_in pieces.now ≡ Some ps.items) }
    ensures not_computed { IfErr result (λ e. e ≢ fault.Memory → parts_in pieces.now ≡ None) }
    ensures no_fault { IfOk result (λ ps. first_among pieces.now ≡ None) }
    ensures computed_fault { IfErr result (λ e. e ≢ fault.Memory → first_among pieces.now ≡ Some e) }
{
    let mut parts = Vec::new(alloc);
    for piece in pieces {
        match part_of(alloc, piece) {
            Ok(part) => parts.push(part)?,
            Err(fault) => return Err(fault),
        }
    }
    Ok(parts)
}
