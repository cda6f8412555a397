//! The values of expressions and templates in a scope.
//!
//! For the layer above: `eval` gives an expression's value, `render` what a template gives,
//! `render_value` a value whose texts are rendered, or the one named fault that comes
//! first; `render_prepared` gives the same of a value that was parsed before.
//! `fault_message` is what a result says of a fault. `specs/Value.antt` says what each form is worth
//! where it is known what names stand for, `specs/Rendering.antt` what a text with expressions gives,
//! and `specs/Scoped.antt` what names stand for in a scope, with the number of look-ups that may be
//! nested. Only want of memory may come in place of the answer.
#![tactic(auto)]

pub mod eval;
mod forms;
pub mod messages;
mod operand;
mod outcomes;
mod reading;
