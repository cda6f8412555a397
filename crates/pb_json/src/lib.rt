//! Values and outcomes by their methods of JSON: `Val::from_json`, `Val::to_json`, `Outcome::read` and `Outcome::to_json`.
//!
//! They are methods of traits that stand here, above the types. A method of the type itself would have each crate that names the type load
//! `serde_json`'s `Value` with all that it can do, and a call of a trait of another crate doesn't. The engine's own crates call the functions of
//! pb_value and pb_outcome that these methods are.
#![tactic(auto)]

pub mod outcome;
pub mod val;
