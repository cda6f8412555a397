//! The program `pb-show`: its words and its streams, handed to the library.
#![tactic(auto)]

use pb_show::{Counted, Look, show};
use std::env;
use std::io::{BufReader, IsTerminal};
use std::process::ExitCode;

fn main(rt: HostRuntime) -> ExitCode {
    let out = rt.stdout();
    let mut err = rt.stderr();
    let words = match env::args(&rt) {
        Ok(args) => args.skip(1).collect(rt.alloc()),
        Err(_) => return ExitCode::from(1),
    };
    let words: Vec<String> = match words {
        Ok(words) => words,
        Err(_) => return ExitCode::from(1),
    };
    let Ok(reader) = BufReader::new(rt.alloc(), rt.stdin()) else {
        return ExitCode::from(1);
    };
    let look = Look {
        color: out.is_terminal(),
        starts: false,
        progress: err.is_terminal(),
    };
    let shown = show(
        rt.alloc(),
        words.as_slice(),
        look,
        &mut Counted::new(reader),
        &mut Counted::new(out),
        &mut err,
    );
    match shown {
        Ok(()) => ExitCode::from(0),
        Err(_) => ExitCode::from(1),
    }
}
