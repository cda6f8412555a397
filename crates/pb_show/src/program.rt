//! The program, but for its words' and its streams' making.

ghost use Rattle.std.specs.Prelude.{◌≡◌, map, string_bytes, IfErr, OnOk};
ghost use Rattle.std.specs.Io.KnownBytes.{Appends};
ghost use Rattle.pb_show.specs.declared.output.ShowFault.TheVariants as fault;
ghost use Rattle.pb_show.specs.Faults.{one_more, IsWhyAsked};
ghost use Rattle.pb_show.specs.Whole.{AppendsFront};
ghost use Rattle.pb_show.specs.Words.{asked, IsDone, IsBegun};

use crate::look::Look;
use crate::output::{ShowFault, show_lines};
use crate::streams::{BytesOut, LinesIn, put_all};
use crate::words::{Asked, read_words};
use std::alloc::Global;
use std::fmt::Display;
use std::io::Write;

/// What `--help` prints.
pub const HELP: &str = "Shows the lines of pb-play as people read them.

Usage: pb-play .. | pb-show [--color] [--plain] [--starts]

      --color   Colours, also where standard output is no terminal
      --plain   No colours and no count, also where it is one
      --starts  Shows too that the run and its hosts start
  -h, --help    Prints this

Where standard error is a terminal, it counts there how many hosts have ended the task.

The status says whether all was read and written, and nothing of the run. For that of pb-play:

    set -o pipefail
    pb-play .. | pb-show
";

/// Tells on standard error what is wrong.
fn tell<E: Write, F: Display>(alloc: Global, err: &mut E, what: &F) {
    if let Ok(message) = format!(in alloc; "pb-show: {what}\n") {
        let _ = put_all(err, message.as_str().as_bytes());
    }
}

/// Tells a fault, if there is one, and passes it on.
fn told<E: Write>(alloc: Global, err: &mut E, shown: Result<(), ShowFault>) -> Result<(), ShowFault>
    ensures { result ≡ shown }
{
    if let Err(fault) = shown {
        tell(alloc, err, &fault);
    }
    shown
}

/// Tells which word isn't the program's.
fn tell_unknown<E: Write>(alloc: Global, err: &mut E, words: &[String], index: usize) {
    if let Some(word) = words.get(index) {
        let what = format!(in alloc;
            "there is no word '{word}'; --help prints those that there are"
        );
        if let Ok(what) = what {
            tell(alloc, err, &what);
        }
    }
}

/// Writes the words of the program.
#[tactic(auto, using(crate::proofs::Fronts::whole_front))]
fn show_help<O: BytesOut>(out: &mut O) -> Result<(), ShowFault>
    ensures ok { OnOk result (Appends (O.taken out.old) (O.taken out.new) HELP.now) }
    ensures begun { AppendsFront (O.taken out.old) (O.taken out.new) HELP.now }
    ensures quiet { OnOk result (O.failures out.new ≡ O.failures out.old) }
    ensures fault { IfErr result (λ e. (e ≡ fault.Write) × (O.failures out.new ≡ one_more (O.failures out.old))) }
{
    out.put(HELP.as_bytes())?;
    Ok(())
}

/// The program `pb-show`: shows the lines of a reader on `out`, as the words behind its name ask, and tells on `err` what is wrong. Lines
/// look as the words say, and as `look` where they don't say.
///
/// # Errors
/// `Word` where a word isn't the program's; nothing is read or written then. `Write` where the help can't be written. Where lines are
/// shown, as `show_lines`.
pub fn show<R: LinesIn, O: BytesOut, E: Write>(
    alloc: Global,
    words: &[String],
    look: Look,
    reader: &mut R,
    out: &mut O,
    err: &mut E,
) -> Result<(), ShowFault>
    ensures done { OnOk result (IsDone HELP.now (asked look 0 (map string_bytes words.now)) (R.left reader.old) (O.taken out.old) (O.taken out.new)) }
    ensures begun { IsBegun HELP.now (asked look 0 (map string_bytes words.now)) (R.left reader.old) (O.taken out.old) (O.taken out.new) }
    ensures read { OnOk result (R.failures reader.new ≡ R.failures reader.old) }
    ensures written { OnOk result (O.failures out.new ≡ O.failures out.old) }
    ensures fault { IfErr result (λ e. IsWhyAsked (asked look 0 (map string_bytes words.now)) e (R.left reader.old) (R.failures reader.old) (R.failures reader.new) (O.failures out.old) (O.failures out.new)) }
{
    match read_words(words, look) {
        Asked::Help => {
            let shown = show_help(out);
            told(alloc, err, shown)
        }
        Asked::Show(wanted) => {
            let shown = show_lines(alloc, wanted, reader, out, err);
            told(alloc, err, shown)
        }
        Asked::Unknown(index) => {
            tell_unknown(alloc, err, words, index);
            Err(ShowFault::Word)
        }
    }
}
