//! What is written at a key of a playbook or of a role's files: switches, names, texts, tags, templates and conditions, and why such a file isn't
//! read.
//!
//! For the crates above: `Switch` and `VariableName` read such values, with faults of any type, and `Texts`, `PlainValue`, `TemplateValue`,
//! `TemplateText` and `Conditions` with the faults of a playbook (`LoadFault`); `read_expression` reads an expression that stands without braces, and
//! `not_in_profile` and `refused_below` refuse a key by its name. A fault says at which path of its file it stands, and `LoadFault::place` gives that. `has_never` tells whether
//! tags have the one that is run only where it is asked for; `is_template` and `are_templates` tell whether a text is a template, and whether every text of a
//! value is one. Each answers what its definition says.
#![tactic(auto)]

pub mod conditions;
pub mod fault;
pub mod simple;
pub mod tags;
pub mod templates;
pub mod texts;
pub mod values;
