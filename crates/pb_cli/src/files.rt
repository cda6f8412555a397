ghost use Rattle.std.specs.Prelude.{◌≡◌, ◌≤◌, ◌<◌, ◌^◌, ◌+◌, vec_len, IfOk, IfErr, IfSome};
ghost use Rattle.pb_cli.specs.Files.{up_to};

use pb_value::text::Text;
use std::alloc::{AllocError, AllocFailed, Allocator, Global};
use std::fs::{File, Files};
use std::io;
use std::io::Read;

/// Why a file couldn't be read or written: its path, as the words give it, and what the system says. There is no path where memory was
/// refused for it.
#[derive(Debug, Drop)]
pub struct FileFault {
    pub path: Option<Text>,
    pub error: io::Error,
}

impl FileFault {
    /// The fault of the file at a path.
    pub fn at(alloc: Global, path: &str, error: io::Error) -> FileFault
        ensures { IfSome result.path (λ named. named ≡ path.now) }
    {
        let path = match Text::from_str(alloc, path) {
            Ok(path) => Some(path),
            Err(_) => None,
        };
        FileFault { path, error }
    }
}

impl From<AllocError> for FileFault {
    ghost use Rattle.std.specs.Prelude.{◌≡◌, None};

    ghost from_gives = { λ _ fault. fault.path ≡ None };

    fn from(error: AllocError) -> FileFault {
        FileFault {
            path: None,
            error: io::Error::from(error),
        }
    }
}

impl<T: Drop> From<AllocFailed<T>> for FileFault {
    ghost use Rattle.std.specs.Prelude.{◌≡◌, None};

    ghost from_gives = { λ _ fault. fault.path ≡ None };

    fn from(error: AllocFailed<T>) -> FileFault {
        FileFault::from(AllocError::from(error))
    }
}

/// What the reader gives up to its end, or up to one byte over the limit, which tells that there is too much.
/// An error of the reader ends it, but for an interruption, after which it goes on.
pub fn read_up_to<A: Allocator, R: Read + Drop>(
    alloc: A,
    reader: R,
    limit: usize,
) -> io::Result<Vec<u8, A>>
    requires { limit < 2 ^ 62 }
    ensures bound { IfOk result (λ v. vec_len v ≤ limit + 1) }
    ensures bytes { IfOk result (λ v. IfSome (R.remaining reader) (λ xs. v.items ≡ up_to limit xs)) }
{
    let mut bytes = Vec::new(alloc);
    let mut limited = reader.take(limit as u64 + 1);
    limited.read_to_end(&mut bytes)?;
    bytes.truncate(limit + 1);
    Ok(bytes)
}

/// The bytes of a file up to its end, or up to one byte over the limit.
pub fn read_file<R: Files + AllocGlobal>(rt: &R, path: &str, limit: usize) -> io::Result<Vec<u8>>
    requires { limit < 2 ^ 62 }
    ensures { IfOk result (λ v. vec_len v ≤ limit + 1) }
{
    read_up_to(rt.alloc(), File::open(rt, path)?, limit)
}

/// The same, with the path where it is a fault.
pub fn read_named<R: Files + AllocGlobal>(
    rt: &R,
    path: &str,
    limit: usize,
) -> Result<Vec<u8>, FileFault>
    requires { limit < 2 ^ 62 }
    ensures bound { IfOk result (λ v. vec_len v ≤ limit + 1) }
    ensures named { IfErr result (λ fault. IfSome fault.path (λ named. named ≡ path.now)) }
{
    match read_file(rt, path, limit) {
        Ok(bytes) => Ok(bytes),
        Err(error) => Err(FileFault::at(rt.alloc(), path, error)),
    }
}
