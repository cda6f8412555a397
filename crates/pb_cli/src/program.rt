//! The program, but for its words' and its streams' making.

ghost use Rattle.std.specs.Prelude.{◌≡◌, ◌≢◌, ◌⊎◌, ◌<◌, ◌≤◌, IfOk, IfErr, IfSome, OnErr, Some, is_some, length, map, true, string_bytes};
ghost use Rattle.pb_cli.specs.Again.{IsSameUnderPut};
ghost use Rattle.pb_cli.specs.Done.{is_too_long, IsShownAs, IsDone, IsCutOrUnkept, IsBroken, IsHelped, IsAnswered, IsUnended};
ghost use Rattle.pb_cli.specs.Messages.{IsBundleReported};
ghost use Rattle.pb_cli.specs.World.{stream_of, stage_of, world_of, IsPut, IsQuiet, IsUntouched};

use crate::again::put_same_under;
use crate::asked::{Asked, read_files};
use crate::failed::keep_failed;
use crate::files::FileFault;
use crate::messages::{Part, bundle_message, file_message, message};
use crate::playing::{PlayFault, Played, play_bundle};
use pb_audit::trail_text;
use pb_command_line::words::{Request, WordsFault, read_words};
use pb_driver::{LineOut, RunFault, put_all};
use pb_runner::launcher::Launcher;
use pb_state::{Bundle, BundleFault, Event, MAX_BYTES};
use pb_value::items::Items;
use pb_value::text::Text;
use std::alloc::{AllocError, Global};
use std::fmt::Display;
use std::fs;
use std::fs::Files;
use std::sync::Wait;
use std::thread::Threads;

/// What is wrong with a file of outcomes that has more bytes than one may have.
const TOO_LONG: &str = "the outcomes have more than 64 MiB";

/// The program `pb-play`: what its words ask for, with its output on `out` and its faults on `err`. Each worker of a run has one of
/// the launchers start its programs. It answers the exit status: that of the run's recap, 0 where
/// help was asked for or nothing is run, and 1 at a fault, which is reported on `err`, or where a warning is
/// one.
#[tactic(auto, using(crate::proofs::Ending::under_asked))]
pub fn play<
    R: Files + AllocGlobal + Threads + Wait + Sync,
    L: Launcher + Send + Drop,
    O: LineOut,
    E: LineOut,
>(rt: &R, words: &[String], launchers: &mut Vec<L>, out: &mut O, err: &mut E) -> u8
    requires { 256 ≤ length launchers.old.items }
    ensures done { result ≢ 1 → IsHelped (map string_bytes words.now) (stage_of L.Launcher O.LineOut launchers.old.items out.old) (stage_of L.Launcher O.LineOut launchers.new.items out.new) result
        ⊎ IsAnswered (map string_bytes words.now) (world_of L.Launcher O.LineOut E.LineOut launchers.old.items out.old err.old) (world_of L.Launcher O.LineOut E.LineOut launchers.new.items out.new err.new) result }
    ensures fault { result ≡ 1 → IsUntouched (stage_of L.Launcher O.LineOut launchers.old.items out.old) (stage_of L.Launcher O.LineOut launchers.new.items out.new)
        ⊎ IsUnended (map string_bytes words.now) (world_of L.Launcher O.LineOut E.LineOut launchers.old.items out.old err.old) (world_of L.Launcher O.LineOut E.LineOut launchers.new.items out.new err.new) }
{
    let alloc = rt.alloc();
    match read_words(alloc, words) {
        Ok(request) => play_request(rt, request, launchers, out, err),
        Err(WordsFault::Help { text }) => match put_all(out, text.as_str().as_bytes()) {
            Ok(()) => 0,
            Err(_) => report_fault(alloc, err, Part::Run, &RunFault::Write),
        },
        Err(WordsFault::Wrong { text }) => report_fault(alloc, err, Part::Words, &text),
        Err(WordsFault::Missing) => report_fault(
            alloc,
            err,
            Part::Words,
            &"the inventory or the playbook is missing",
        ),
        Err(WordsFault::Memory) => report_fault(alloc, err, Part::Words, &"out of memory"),
    }
}

/// Reads the files that were asked for, and plays them.
fn play_request<
    R: Files + AllocGlobal + Threads + Wait + Sync,
    L: Launcher + Send + Drop,
    O: LineOut,
    E: LineOut,
>(rt: &R, request: Request, launchers: &mut Vec<L>, out: &mut O, err: &mut E) -> u8
    requires launchers { 256 ≤ length launchers.old.items }
    requires under { IfSome request.same_under (λ n. (0 < n) × (n ≤ 256)) }
    ensures done { result ≢ 1 → IsDone request (world_of L.Launcher O.LineOut E.LineOut launchers.old.items out.old err.old) (world_of L.Launcher O.LineOut E.LineOut launchers.new.items out.new err.new) result }
    ensures fault { result ≡ 1 → IsUntouched (stage_of L.Launcher O.LineOut launchers.old.items out.old) (stage_of L.Launcher O.LineOut launchers.new.items out.new)
        ⊎ IsBroken request (world_of L.Launcher O.LineOut E.LineOut launchers.old.items out.old err.old) (world_of L.Launcher O.LineOut E.LineOut launchers.new.items out.new err.new) }
{
    let alloc = rt.alloc();
    let mut asked = match read_files(rt, request) {
        Ok(asked) => asked,
        Err(fault) => return report_file_fault(alloc, err, &fault),
    };
    if is_too_long(&asked.wanted.outcomes) {
        return report_too_long(alloc, err, &asked.outcomes_path);
    }
    play_asked(rt, &mut asked, launchers, out, err)
}

/// Plays what was asked for, keeps the hosts that didn't get through and its trail, and tells a fault.
#[tactic(auto, using(crate::proofs::Running::untouched))]
fn play_asked<
    R: Files + AllocGlobal + Threads + Wait + Sync,
    L: Launcher + Send + Drop,
    O: LineOut,
    E: LineOut,
>(rt: &R, asked: &mut Asked, launchers: &mut Vec<L>, out: &mut O, err: &mut E) -> u8
    requires facts { asked.old.bundle.has_facts_program ≡ is_some asked.old.wanted.facts_program }
    requires launchers { 256 ≤ length launchers.old.items }
    requires under { IfSome asked.old.same_under (λ n. (0 < n) × (n ≤ 256)) }
    ensures done { result ≢ 1 → IsShownAs result asked.old.bundle asked.old.wanted asked.old.same_under (world_of L.Launcher O.LineOut E.LineOut launchers.old.items out.old err.old) (world_of L.Launcher O.LineOut E.LineOut launchers.new.items out.new err.new) }
    ensures fault { result ≡ 1 → IsUntouched (stage_of L.Launcher O.LineOut launchers.old.items out.old) (stage_of L.Launcher O.LineOut launchers.new.items out.new)
        ⊎ IsCutOrUnkept asked.old.bundle asked.old.wanted asked.old.trail asked.old.same_under asked.old.failed (world_of L.Launcher O.LineOut E.LineOut launchers.old.items out.old err.old) (world_of L.Launcher O.LineOut E.LineOut launchers.new.items out.new err.new) }
{
    let alloc = rt.alloc();
    match play_bundle(rt, &asked.bundle, &asked.wanted, launchers, out, err) {
        Ok(played) => end(rt, asked, &played, err),
        Err(PlayFault::Run(fault, trail)) => report_run_fault(rt, asked, err, fault, &trail),
        Err(PlayFault::Outcomes(fault)) => report_fault(alloc, err, Part::Outcomes, &fault),
        Err(PlayFault::Trail(fault)) => report_fault(alloc, err, Part::Trail, &fault),
        Err(PlayFault::Bundle(fault)) => {
            let status = report_bundle_fault(alloc, err, &fault, asked.places);
            drop(fault);
            status
        }
    }
}

/// Tells whether another run ends in the same, where that is asked for, and keeps the hosts that didn't get through and the trail.
#[tactic(auto, using(crate::proofs::Ending::same_under_before, crate::proofs::Ending::unkept))]
fn end<R: Files + AllocGlobal, E: LineOut>(
    rt: &R,
    asked: &mut Asked,
    played: &Played,
    err: &mut E,
) -> u8
    requires { IfSome asked.old.same_under (λ n. (0 < n) × (n ≤ 256)) }
    ensures done { result ≢ 1 → (played.now.status ≡ result) × IsSameUnderPut asked.old.same_under played.now.trail asked.old.bundle asked.old.wanted (stream_of E.LineOut err.old) (stream_of E.LineOut err.new) }
    ensures fault { result ≡ 1 → (played.now.status ≡ 1) ⊎ (((is_some asked.old.trail ≡ true) ⊎ (is_some asked.old.same_under ≡ true) ⊎ (is_some asked.old.failed ≡ true)) × (is_some played.now.trail ≡ true)) }
{
    let alloc = rt.alloc();
    let under = asked.same_under;
    if put_same_under(
        alloc,
        &mut asked.bundle,
        &asked.wanted,
        under,
        &played.trail,
        err,
    )
    .is_err()
    {
        return report_run_fault(rt, asked, err, RunFault::Memory, &played.trail);
    }
    keep_all(rt, asked, &played.trail, played.status, err)
}

/// Tells why a run stopped early, and then keeps the hosts that didn't get through and its trail, if it began.
fn report_run_fault<R: Files + AllocGlobal, E: LineOut>(
    rt: &R,
    asked: &Asked,
    err: &mut E,
    fault: RunFault,
    trail: &Option<Items<Event>>,
) -> u8
    ensures { result ≡ 1 }
{
    let status = report_fault(rt.alloc(), err, Part::Run, &fault);
    keep_all(rt, asked, trail, status, err)
}

/// Keeps the hosts that didn't get through, and the trail also where that can't be done. It answers this status, or that of a fault, which is reported.
#[tactic(auto, using(crate::proofs::Ending::trail_unkept))]
fn keep_all<R: Files + AllocGlobal, E: LineOut>(
    rt: &R,
    asked: &Asked,
    trail: &Option<Items<Event>>,
    status: u8,
    err: &mut E,
) -> u8
    ensures kept { result ≢ 1 → (status ≡ result) × IsQuiet (stream_of E.LineOut err.old) (stream_of E.LineOut err.new) }
    ensures fault { result ≡ 1 → (status ≡ 1) ⊎ (((is_some asked.now.trail ≡ true) ⊎ (is_some asked.now.failed ≡ true)) × (is_some trail.now ≡ true)) }
{
    match keep_failed(rt, &asked.bundle, &asked.failed, trail) {
        Ok(()) => keep_or_report(rt, &asked.trail, trail, status, err),
        Err(fault) => {
            let status = report_file_fault(rt.alloc(), err, &fault);
            keep_or_report(rt, &asked.trail, trail, status, err)
        }
    }
}

/// Keeps the trail. It answers this status, or that of a fault, which is reported.
fn keep_or_report<R: Files + AllocGlobal, E: LineOut>(
    rt: &R,
    path: &Option<Text>,
    trail: &Option<Items<Event>>,
    status: u8,
    err: &mut E,
) -> u8
    ensures kept { result ≢ 1 → (status ≡ result) × IsQuiet (stream_of E.LineOut err.old) (stream_of E.LineOut err.new) }
    ensures fault { result ≡ 1 → (status ≡ 1) ⊎ ((is_some path.now ≡ true) × (is_some trail.now ≡ true)) }
{
    match keep(rt, path, trail) {
        Ok(()) => status,
        Err(fault) => report_file_fault(rt.alloc(), err, &fault),
    }
}

/// Writes the text of a run's trail to the file at a path, in the place of what stood there, if there are both.
fn keep<R: Files + AllocGlobal>(
    rt: &R,
    path: &Option<Text>,
    trail: &Option<Items<Event>>,
) -> Result<(), FileFault>
    ensures named { OnErr result (is_some path.now ≡ true) }
    ensures run { OnErr result (is_some trail.now ≡ true) }
    ensures fault { IfErr result (λ fault. IfSome fault.path (λ named. path.now ≡ Some named)) }
{
    let (Some(path), Some(trail)) = (path, trail) else {
        return Ok(());
    };
    // (the text first, so that the file stays as it was where memory is refused)
    let text = trail_text(rt.alloc(), trail.as_slice())?;
    match fs::write(rt, path.as_str(), text.as_slice()) {
        Ok(()) => Ok(()),
        Err(error) => Err(FileFault::at(rt.alloc(), path.as_str(), error)),
    }
}

/// Whether a file of outcomes has more than 64 MiB.
fn is_too_long(outcomes: &Option<Items<u8>>) -> bool
    ensures { result ≡ is_too_long outcomes.now }
{
    match outcomes {
        Some(bytes) => bytes.len() > MAX_BYTES,
        None => false,
    }
}

/// Tells a bundle's fault, by its part, and its place, where that is asked for.
#[tactic(auto, using(crate::proofs::Telling::bundle_reported))]
fn report_bundle_fault<E: LineOut>(
    alloc: Global,
    err: &mut E,
    fault: &BundleFault,
    places: bool,
) -> u8
    ensures status { result ≡ 1 }
    ensures reported { IsBundleReported places fault.now (stream_of E.LineOut err.old) (stream_of E.LineOut err.new) }
{
    report_line(err, bundle_message(alloc, fault, places))
}

/// Tells that the file of outcomes at a path is too long.
fn report_too_long<E: LineOut>(alloc: Global, err: &mut E, path: &Option<Text>) -> u8
    ensures { result ≡ 1 }
{
    let Some(path) = path else {
        return report_fault(alloc, err, Part::File, &TOO_LONG);
    };
    match format!(in alloc; "{path}: {TOO_LONG}") {
        Ok(text) => report_fault(alloc, err, Part::File, &text.as_str()),
        Err(_) => report_fault(alloc, err, Part::File, &TOO_LONG),
    }
}

/// Tells the fault of a file, by its path.
fn report_file_fault<E: LineOut>(alloc: Global, err: &mut E, fault: &FileFault) -> u8
    ensures { result ≡ 1 }
{
    report_line(err, file_message(alloc, fault))
}

/// Tells a fault of a part.
fn report_fault<E: LineOut, F: Display>(alloc: Global, err: &mut E, part: Part, fault: &F) -> u8
    ensures { result ≡ 1 }
{
    report_line(err, message(alloc, part, fault))
}

/// Writes the line of a fault, if there is memory for it. That standard error fails changes nothing: the status is 1.
fn report_line<E: LineOut>(err: &mut E, line: Result<String, AllocError>) -> u8
    ensures status { result ≡ 1 }
    ensures reported { IfOk line (λ text. IsPut (string_bytes text) (stream_of E.LineOut err.old) (stream_of E.LineOut err.new)) }
    ensures quiet { OnErr line (E.taken err.new ≡ E.taken err.old) }
{
    if let Ok(line) = line {
        let _ = put_all(err, line.as_bytes());
    }
    1
}
