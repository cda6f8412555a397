//! What a task of `command` or `shell` calls.
//!
//! For the layer above: `words_of` cuts a command's text into words, exactly as `specs/Words.antt` says. `line_call`,
//! `argv_call` and `shell_call` make a task's arguments the call of a job, or give the first fault in them, exactly as
//! `specs/Calls.antt` says; `CallFault::message` is what the result of a faulty item says. Want of memory may come at any
//! point, in place of that answer.
#![tactic(auto)]

pub mod calls;
pub mod fault;
pub mod words;
