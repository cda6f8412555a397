//! The launcher of this machine's programs.
ghost use Rattle.std.specs.Prelude.{None};

use crate::caught::Caught;
use crate::command::Words;
use crate::launcher::{Ending, Launcher};
use crate::pipes::read_both;
use std::alloc::{AllocError, Global};
use std::io::ErrorKind;
use std::process::{Child, Command, Processes, Stdio, SystemProcess};
use std::time::{Clock, Duration};
use std::{io, thread};

/// A launcher that has this machine start programs, which tells no contract what it started. A program isn't ended for what
/// it writes: what comes behind the first 1,048,576 bytes of a stream is read and dropped.
#[derive(Drop)]
pub struct SystemLauncher<R> {
    rt: R,
}

impl<R: Processes<Started = SystemProcess>> SystemLauncher<R> {
    /// The launcher that starts programs by this handle.
    pub fn new(rt: R) -> SystemLauncher<R> {
        SystemLauncher { rt }
    }

    /// Starts a command without input, with its two output streams to be read.
    fn start(&self, mut command: Command) -> io::Result<Child> {
        command.stdin(Stdio::null());
        command.stdout(Stdio::piped());
        command.stderr(Stdio::piped());
        command.spawn(&self.rt)
    }
}

/// Reads a program's two streams to their ends.
fn read_streams(child: &mut Child, out: &mut Caught, err: &mut Caught) -> io::Result<()> {
    let (Some(mut stdout), Some(mut stderr)) = (child.stdout.take(), child.stderr.take()) else {
        return Err(io::Error::from(ErrorKind::BrokenPipe));
    };
    read_both(&mut stdout, out, &mut stderr, err)
}

/// Reads a program's streams and waits for its end. Where the system refuses to read, the program is killed.
fn finished(alloc: Global, mut child: Child) -> Ending {
    let mut out = Caught::new(alloc);
    let mut err = Caught::new(alloc);
    let read = read_streams(&mut child, &mut out, &mut err);
    if read.is_err() {
        let _ = child.kill();
    }
    match child.wait() {
        Ok(status) if read.is_ok() => Ending::Ended {
            status: status.code(),
            out,
            err,
        },
        _ => Ending::Lost,
    }
}

impl<R: Processes<Started = SystemProcess> + Clock> Launcher for SystemLauncher<R> {
    ghost launched = { λ _. None };

    fn launch(&mut self, alloc: Global, words: Words) -> Result<Ending, AllocError> {
        let Some(command) = words.into_command() else {
            return Ok(Ending::Refused);
        };
        match self.start(command) {
            Ok(child) => Ok(finished(alloc, child)),
            Err(error) if error.kind() == ErrorKind::OutOfMemory => Err(AllocError),
            Err(_) => Ok(Ending::Refused),
        }
    }

    fn pause(&mut self, seconds: u32) {
        if seconds > 0 {
            thread::sleep(&self.rt, Duration::from_secs(seconds as u64));
        }
    }
}
