//! Calls that are made of words and of a text.

use pb_outcome::job::Call;
use pb_value::text::Text;
use pb_value::val::Val;
use pb_words::calls::{argv_call, shell_call};
use std::alloc::{AllocError, Global};
use std::test::Fail;

/// The words `echo` and `a b`.
fn words(alloc: Global) -> Result<Vec<Val>, AllocError> {
    let mut words = Vec::new(alloc);
    words.push(Val::text(Text::from_str(alloc, "echo")?))?;
    words.push(Val::text(Text::from_str(alloc, "a b")?))?;
    Ok(words)
}

/// Whether a call is of these two words.
fn is_command(call: &Call, first: &str, second: &str) -> bool {
    match call {
        Call::Command { words } => match (words.get(0), words.get(1)) {
            (Some(program), Some(argument)) => {
                words.len() == 2 && program.as_str() == first && argument.as_str() == second
            }
            _ => false,
        },
        _ => false,
    }
}

#[test]
fn calls_of_words(rt: HostRuntime) -> Result<(), Fail> {
    let alloc = rt.alloc();
    let words = words(alloc)?;
    let command = match argv_call(alloc, words.as_slice()) {
        Ok(call) => call,
        Err(_) => return Err(Fail::new("a command")),
    };
    assert!(rt; is_command(&command, "echo", "a b"));
    let shell = match shell_call(alloc, "echo a | cat") {
        Ok(call) => call,
        Err(_) => return Err(Fail::new("a text for the shell")),
    };
    match &shell {
        Call::Shell { text } => assert_eq!(rt; text.as_str(), "echo a | cat"),
        _ => return Err(Fail::new("the shell")),
    }
    Ok(())
}
