//! The two output streams of a program, read by turns, so that a program that waits on the one is never waited for on the other.
use crate::caught::Caught;
use libc::net::{POLLIN, poll};
use libc::types::pollfd;
use std::io;
use std::io::{ErrorKind, Read};
use std::os::fd::AsRawFd;

/// How many bytes one read takes.
const READ_LEN: usize = 8192;

/// Reads both streams to their ends. An error of the system ends it.
pub(crate) fn read_both<O: Read + AsRawFd, E: Read + AsRawFd>(
    stdout: &mut O,
    out: &mut Caught,
    stderr: &mut E,
    err: &mut Caught,
) -> io::Result<()> {
    let mut out_is_open = true;
    let mut err_is_open = true;
    // (counted, so that it is proved to end; no machine lives for so many rounds)
    for _ in 0..u64::MAX {
        if !out_is_open && !err_is_open {
            return Ok(());
        }
        let (out_is_ready, err_is_ready) = ready(
            watched(stdout, out_is_open),
            watched(stderr, err_is_open),
        )?;
        if out_is_ready {
            out_is_open = read_some(stdout, out)?;
        }
        if err_is_ready {
            err_is_open = read_some(stderr, err)?;
        }
    }
    Err(io::Error::from(ErrorKind::TimedOut))
}

/// The descriptor of a stream that is open, and -1 of one that has ended.
fn watched<S: AsRawFd>(stream: &S, is_open: bool) -> i32 {
    if is_open { stream.as_raw_fd() } else { -1 }
}

/// Waits until a read of one of the two descriptors won't wait, or a signal comes; tells which is ready. A negative one isn't waited for.
fn ready(first: i32, second: i32) -> io::Result<(bool, bool)> {
    let ask = |fd| pollfd {
        fd,
        events: POLLIN,
        revents: 0,
    };
    let mut asked = [ask(first), ask(second)];
    if poll(&mut asked, -1) >= 0 {
        return Ok((asked[0].revents != 0, asked[1].revents != 0));
    }
    let error = io::Error::from_raw_os_error(os::errno());
    if error.kind() == ErrorKind::Interrupted {
        Ok((false, false))
    } else {
        Err(error)
    }
}

/// One read, of which the bytes are added. It tells whether more may come.
fn read_some<R: Read>(reader: &mut R, caught: &mut Caught) -> io::Result<bool> {
    let mut buffer = [0u8; READ_LEN];
    match reader.read(&mut buffer) {
        Ok(count) => {
            caught.add(&buffer[..count]);
            Ok(count > 0)
        }
        Err(error) if error.kind() == ErrorKind::Interrupted => Ok(true),
        Err(error) => Err(error),
    }
}
