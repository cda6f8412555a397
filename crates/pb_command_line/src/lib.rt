//! The command line of the program `pb-play`.
//!
//! For the layer above: `read_words` says what the words ask for, by clap's own definition of the command line of
//! `specs/CommandLine.antt`, or why they ask for no play.
#![tactic(auto)]

mod arguments;
pub mod words;
