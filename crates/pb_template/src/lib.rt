//! Templates: texts in which expressions stand between `{{` and `}}`.
//!
//! `Template::parse` cuts a text into its parts. `specs/Pieces.antt` says where a plain piece and an
//! expression begin and end; `specs/Parts.antt` says which parts a text has, by the grammar of
//! expressions, and which fault is the first of a text that has none. Parsing gives the one list of
//! parts, or that first fault; only want of memory may come in place of either. `is_plain` says
//! whether a value has no expression in its texts (`specs/Plain.antt`).
#![tactic(auto)]

pub mod pieces;
pub mod plain;
pub mod template;
