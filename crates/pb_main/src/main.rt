//! The program `pb-play`: its words and its streams, handed to the library.
#![tactic(auto)]

use pb_cli::Printed;
use pb_cli::program::play;
use pb_cli::workers::system_launchers;
use std::env;
use std::process::ExitCode;

fn main(rt: HostRuntime) -> ExitCode {
    let mut out = Printed::new(rt.stdout());
    let mut err = Printed::new(rt.stderr());
    let Ok(mut launchers) = system_launchers(&rt) else {
        return ExitCode::from(1);
    };
    let words = match env::args(&rt) {
        Ok(args) => args.collect(rt.alloc()),
        Err(_) => return ExitCode::from(1),
    };
    let words: Vec<String> = match words {
        Ok(words) => words,
        Err(_) => return ExitCode::from(1),
    };
    ExitCode::from(play(&rt, words.as_slice(), &mut launchers, &mut out, &mut err))
}
