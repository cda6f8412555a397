//! What the operators and filters of expressions give for values.
//!
//! For the layer above: `binary` is every operator of two values but `and` and `or`, which may leave
//! their second operand alone; `negate`, `member`, `index`, `length`, `to_bool`, `to_int` and `join`
//! are the other forms. Each gives the value that `specs/Operators.antt` computes, or the one fault
//! that it names; only want of memory may come in place of either.
#![tactic(auto)]

pub mod compare;
pub mod convert;
pub mod fault;
pub mod join;
pub mod operators;
pub mod parts;
