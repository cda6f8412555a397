//! All lines of a reader, shown on a writer.

ghost use Rattle.std.specs.Prelude.{◌≡◌, IfSome, IfErr, OnOk, OnErr};
ghost use Rattle.std.specs.Io.KnownBytes.{Appends};
ghost use Rattle.pb_show.specs.declared.output.ShowFault.TheVariants as fault;
ghost use Rattle.pb_show.specs.Faults.{IsCut, IsWhy};
ghost use Rattle.pb_show.specs.Showing.{start, shown};
ghost use Rattle.pb_show.specs.Closing.{closing};
ghost use Rattle.pb_show.specs.Whole.{all_shown, AppendsFront};

use crate::look::Look;
use crate::showing::Showing;
use crate::streams::{BytesOut, Failed, LinesIn, put_all};
use pb_value::text::Text;
use std::alloc::{AllocError, Global};
use std::io::Write;
use thiserror::Error;

/// Why lines aren't shown to their end.
#[derive(Clone, Copy, Debug, PartialEq, Eq, Error)]
pub enum ShowFault {
    /// A call of the reader failed.
    #[error("the lines can't be read")]
    Read,
    /// The reader has 2^64 - 1 lines or more.
    #[error("there are too many lines")]
    TooLong,
    /// A call of the writer failed.
    #[error("what is shown can't be written")]
    Write,
    #[error("out of memory")]
    Memory,
    /// A word isn't one of the program's; of `show` alone.
    #[error("a word is not one of the program's")]
    Word,
}

impl From<AllocError> for ShowFault {
    ghost from_gives = { λ _ e. e ≡ fault.Memory };

    fn from(_e: AllocError) -> ShowFault {
        ShowFault::Memory
    }
}

impl From<Failed> for ShowFault {
    ghost from_gives = { λ _ e. e ≡ fault.Write };

    fn from(_e: Failed) -> ShowFault {
        ShowFault::Write
    }
}

/// Writes what a line becomes: the whole of it, or a front of it at a fault.
fn show_one<W: BytesOut>(
    alloc: Global,
    look: Look,
    showing: &mut Showing,
    line: &[u8],
    writer: &mut W,
) -> Result<(), ShowFault>
    ensures ok { OnOk result (Appends (W.taken writer.old) (W.taken writer.new) (shown look showing.old line.now).text) }
    ensures state { OnOk result (showing.new ≡ (shown look showing.old line.now).state) }
    ensures err { OnErr result (AppendsFront (W.taken writer.old) (W.taken writer.new) (shown look showing.old line.now).text) }
    ensures quiet { OnOk result (W.failures writer.new ≡ W.failures writer.old) }
    ensures fault { IfErr result (λ e. IsCut e (W.failures writer.old) (W.failures writer.new)) }
{
    match showing.show_line(alloc, look, line)? {
        Some(text) => writer.put(text.as_str().as_bytes())?,
        None => writer.put(line)?,
    }
    Ok(())
}

/// Writes the line at the end.
fn show_closing<W: BytesOut>(
    alloc: Global,
    look: Look,
    showing: &Showing,
    writer: &mut W,
) -> Result<(), ShowFault>
    ensures ok { OnOk result (Appends (W.taken writer.old) (W.taken writer.new) (closing look showing.now)) }
    ensures err { OnErr result (AppendsFront (W.taken writer.old) (W.taken writer.new) (closing look showing.now)) }
    ensures quiet { OnOk result (W.failures writer.new ≡ W.failures writer.old) }
    ensures fault { IfErr result (λ e. IsCut e (W.failures writer.old) (W.failures writer.new)) }
{
    let text = showing.closing(alloc, look)?;
    writer.put(text.as_str().as_bytes())?;
    Ok(())
}

/// Writes how many hosts have ended the task, where that is asked for; what can't be written is left out.
fn show_progress<E: Write>(alloc: Global, look: Look, showing: &Showing, err: &mut E) {
    if !look.progress {
        return;
    }
    if let Ok(text) = showing.progress(alloc) {
        let _ = put_all(err, text.as_str().as_bytes());
    }
}

/// Wipes the count off the terminal's line.
fn wipe<E: Write>(look: Look, err: &mut E) {
    if look.progress {
        let _ = put_all(err, b"\r\x1b[K");
    }
}

/// Shows all lines of a reader on a writer, in order, each as soon as it is read, and behind them how the run went. Of the lines no more
/// than one is held at a time, and of those before it the tasks of a play. Where that is asked for, `err` has a count of the hosts that have
/// ended the task, which is wiped off before more is shown.
///
/// # Errors
/// `Read` where a call of the reader failed, `TooLong` where it has 2^64 - 1 lines or more, `Write` where a call of the writer failed,
/// `Memory` where memory was refused. What was written is then a front of what would have been.
pub fn show_lines<R: LinesIn, W: BytesOut, E: Write>(
    alloc: Global,
    look: Look,
    reader: &mut R,
    writer: &mut W,
    err: &mut E,
) -> Result<(), ShowFault>
    ensures whole { OnOk result (IfSome (R.left reader.old) (λ bytes. Appends (W.taken writer.old) (W.taken writer.new) (all_shown look bytes))) }
    ensures begun { IfSome (R.left reader.old) (λ bytes. AppendsFront (W.taken writer.old) (W.taken writer.new) (all_shown look bytes)) }
    ensures read { OnOk result (R.failures reader.new ≡ R.failures reader.old) }
    ensures written { OnOk result (W.failures writer.new ≡ W.failures writer.old) }
    ensures fault { IfErr result (λ e. IsWhy e (R.left reader.old) (R.failures reader.old) (R.failures reader.new) (W.failures writer.old) (W.failures writer.new)) }
{
    let mut showing = Showing::new(alloc);
    let mut line = Vec::new(alloc);
    let mut lines = 0;
    while lines < u64::MAX {
        let Ok(()) = reader.next_line(&mut line) else {
            return Err(ShowFault::Read);
        };
        wipe(look, err);
        if line.is_empty() {
            show_closing(alloc, look, &showing, writer)?;
            return Ok(());
        }
        show_one(alloc, look, &mut showing, line.as_slice(), writer)?;
        show_progress(alloc, look, &showing, err);
        lines += 1;
    }
    Err(ShowFault::TooLong)
}
