ghost use Rattle.pb_command_line.specs.declared.words.WordsFault.TheVariants.{Memory};
ghost use Rattle.std.specs.Prelude.{◌≡◌, ◌⊎◌, None, IfOk, IfErr, OnOk, map, codes, string_bytes};
ghost use Rattle.clap.specs.Words.{kind_of, found_of, first_value};
ghost use Rattle.pb_command_line.specs.CommandLine.{is_true, purpose_of, AreNumbers, texts_of, flags_of, request_of, AskFor, AreRefused, Asks, IsCount, IsNoCount, AreForks, NoForks, IsStop, NoStop, IsSameUnder, IsReportCount, IsNoReportCount, IsBadNumber, IsRefused, TellsKind};

use crate::arguments;
use clap::error::ErrorKind;
use clap::{ArgMatches, Error};
use pb_value::text::Text;
use std::alloc::{AllocError, Global};

/// What the words ask for: a play of one playbook.
#[derive(Drop)]
pub struct Request {
    /// The path of the inventory's file.
    pub inventory: Text,
    /// The path of the playbook's file.
    pub playbook: Text,
    /// How many hosts may run at once: 1 to 256.
    pub forks: u32,
    /// The path of the outcomes' file, if one is given.
    pub outcomes: Option<Text>,
    /// The pattern of the hosts that the plays are limited to, if one is given.
    pub limit: Option<Text>,
    /// The extra variables, an object in JSON, if some are given.
    pub extra: Option<Text>,
    /// The path of the folder that roles stand in, if one is given.
    pub roles: Option<Text>,
    /// The program that gathers the facts of hosts, if one is given.
    pub facts_program: Option<Text>,
    /// After how many reports the run is stopped, if it is to be.
    pub stop_after: Option<u32>,
    /// With how many forks the run is done once more, if it is to be: 1 to 256.
    pub same_under: Option<u32>,
    /// The path of the file that the names of the hosts that the run didn't bring through are written to, if they are to be kept.
    pub failed: Option<Text>,
    /// The path of the file that the run's trail is written to, if it is to be kept.
    pub trail: Option<Text>,
    /// The path of the trail that is looked at in place of a run, if one is given.
    pub audit: Option<Text>,
    /// Whether a warning is a fault.
    pub strict: bool,
    /// Whether a fault of the playbook or of a role's file is reported with the place at which it stands.
    pub places: bool,
    /// What is to be done with the plan.
    pub purpose: Purpose,
}

/// What a plan is made for.
#[derive(Clone, Copy, Debug, PartialEq, Eq)]
pub enum Purpose {
    /// Its run, or the audit of a trail.
    Run,
    /// To tell that it can be made.
    CheckSyntax,
    /// To list the hosts of each play.
    ListHosts,
}

/// How many hosts may run at once, where the words don't say.
const FORKS: u32 = 5;

/// Why the words ask for no play.
#[derive(Drop)]
pub enum WordsFault {
    /// Help was asked for: this text, for standard output.
    Help { text: Text },
    /// The words aren't the program's: a text that says why, for standard error, with no line end after it.
    Wrong { text: Text },
    /// The inventory or the playbook isn't among the words. (clap tells it as `Wrong` before that.)
    Missing,
    /// Memory was wanting.
    Memory,
}

impl From<AllocError> for WordsFault {
    ghost from_gives = { λ _ e. e ≡ Memory };

    fn from(_e: AllocError) -> WordsFault {
        WordsFault::Memory
    }
}

fn fault(alloc: Global, error: &Error) -> WordsFault
    ensures { TellsKind (kind_of error.now) result }
{
    let Ok(shown) = format!(in alloc; "{error}") else {
        return WordsFault::Memory;
    };
    match error.kind() {
        ErrorKind::OutOfMemory => WordsFault::Memory,
        ErrorKind::DisplayHelp => WordsFault::Help {
            text: Text::from_string(shown),
        },
        _ => match Text::from_str(alloc, shown.as_str().trim_end()) {
            Ok(text) => WordsFault::Wrong { text },
            Err(_) => WordsFault::Memory,
        },
    }
}

/// A number that isn't one as it is wanted, reported.
fn bad_number(alloc: Global, written: &str, wanted: &str) -> WordsFault
    ensures { IsBadNumber result }
{
    match format!(in alloc; "'{written}' isn't a number {wanted}") {
        Ok(text) => WordsFault::Wrong {
            text: Text::from_string(text),
        },
        Err(_) => WordsFault::Memory,
    }
}

/// A number from 1 to 256; `wanted` is what one that isn't is reported with.
fn read_count(alloc: Global, text: &str, wanted: &str) -> Result<u32, WordsFault>
    ensures value { IfOk result (IsCount text.now) }
    ensures fault { IfErr result (λ e. IsBadNumber e × IsNoCount text.now) }
{
    match text.parse::<u32>() {
        Ok(count) => {
            if 1 <= count && count <= 256 {
                Ok(count)
            } else {
                Err(bad_number(alloc, text, wanted))
            }
        }
        Err(_) => Err(bad_number(alloc, text, wanted)),
    }
}

/// How many hosts may run at once: a number from 1 to 256, or 5 where none is written.
fn forks_in(alloc: Global, matches: &ArgMatches<'_>) -> Result<u32, WordsFault>
    ensures value { IfOk result (AreForks (first_value (found_of matches.now) (codes "forks"))) }
    ensures fault { IfErr result (λ e. IsBadNumber e × NoForks (first_value (found_of matches.now) (codes "forks"))) }
{
    match matches.get_str("forks") {
        None => Ok(FORKS),
        Some(text) => read_count(alloc, text, "from 1 to 256, as -f wants"),
    }
}

/// A number from 0 to 4,294,967,295.
fn read_report_count(alloc: Global, text: &str) -> Result<u32, WordsFault>
    ensures value { IfOk result (IsReportCount text.now) }
    ensures fault { IfErr result (λ e. IsBadNumber e × IsNoReportCount text.now) }
{
    match text.parse::<u32>() {
        Ok(count) => Ok(count),
        Err(_) => Err(bad_number(alloc, text, "from 0 to 4294967295, as --stop-after wants")),
    }
}

/// After how many reports the run is stopped, if that is written.
fn stop_in(alloc: Global, matches: &ArgMatches<'_>) -> Result<Option<u32>, WordsFault>
    ensures value { IfOk result (IsStop (first_value (found_of matches.now) (codes "stop_after"))) }
    ensures fault { IfErr result (λ e. IsBadNumber e × NoStop (first_value (found_of matches.now) (codes "stop_after"))) }
{
    let Some(text) = matches.get_str("stop_after") else {
        return Ok(None);
    };
    match read_report_count(alloc, text) {
        Ok(count) => Ok(Some(count)),
        Err(fault) => Err(fault),
    }
}

/// With how many forks the run is done once more, if that is written: a number from 1 to 256.
fn same_under_in(alloc: Global, matches: &ArgMatches<'_>) -> Result<Option<u32>, WordsFault>
    ensures value { IfOk result (IsSameUnder (first_value (found_of matches.now) (codes "same_under"))) }
    ensures fault { IfErr result (λ e. IsBadNumber e × NoForks (first_value (found_of matches.now) (codes "same_under"))) }
{
    let Some(text) = matches.get_str("same_under") else {
        return Ok(None);
    };
    match read_count(alloc, text, "from 1 to 256, as --same-under wants") {
        Ok(forks) => Ok(Some(forks)),
        Err(fault) => Err(fault),
    }
}

/// The text that an argument is given, if it is given one.
fn text_in(alloc: Global, matches: &ArgMatches<'_>, id: &str) -> Result<Option<Text>, AllocError>
    ensures { IfOk result (λ text. first_value (found_of matches.now) id.now ≡ text) }
{
    match matches.get_str(id) {
        Some(text) => Ok(Some(Text::from_str(alloc, text)?)),
        None => Ok(None),
    }
}

/// Whether a flag is given.
fn is_given(matches: &ArgMatches<'_>, flag: &str) -> bool
    ensures { result ≡ is_true (first_value (found_of matches.now) flag.now) }
{
    match matches.get_str(flag) {
        Some(text) => text == "true",
        None => false,
    }
}

/// What the plan is made for: the check of the syntax goes before the list of hosts.
fn purpose_in(matches: &ArgMatches<'_>) -> Purpose
    ensures { result ≡ purpose_of (is_true (first_value (found_of matches.now) (codes "syntax_check"))) (is_true (first_value (found_of matches.now) (codes "list_hosts"))) }
{
    if is_given(matches, "syntax_check") {
        return Purpose::CheckSyntax;
    }
    if is_given(matches, "list_hosts") {
        return Purpose::ListHosts;
    }
    Purpose::Run
}

/// The numbers among the values.
#[derive(Drop)]
struct Numbers {
    forks: u32,
    stop_after: Option<u32>,
    same_under: Option<u32>,
}

fn numbers_in(alloc: Global, matches: &ArgMatches<'_>) -> Result<Numbers, WordsFault>
    ensures value { IfOk result (AreNumbers (first_value (found_of matches.now))) }
    ensures fault { IfErr result (AreRefused (first_value (found_of matches.now))) }
{
    let forks = forks_in(alloc, matches)?;
    let stop_after = stop_in(alloc, matches)?;
    let same_under = same_under_in(alloc, matches)?;
    Ok(Numbers {
        forks,
        stop_after,
        same_under,
    })
}

/// The flags among the values.
#[derive(Drop)]
struct Flags {
    strict: bool,
    places: bool,
    purpose: Purpose,
}

fn flags_in(matches: &ArgMatches<'_>) -> Flags
    ensures { result ≡ flags_of (first_value (found_of matches.now)) }
{
    Flags {
        strict: is_given(matches, "strict"),
        places: is_given(matches, "where"),
        purpose: purpose_in(matches),
    }
}

/// The texts among the values.
struct Texts {
    inventory: Text,
    playbook: Text,
    outcomes: Option<Text>,
    limit: Option<Text>,
    extra: Option<Text>,
    roles: Option<Text>,
    facts_program: Option<Text>,
    failed: Option<Text>,
    trail: Option<Text>,
    audit: Option<Text>,
}

// (by hand: they are then let go by one call, and not text by text at each exit)
impl Drop for Texts {
    fn drop(self) {
        let Texts {
            inventory: _inventory,
            playbook: _playbook,
            outcomes: _outcomes,
            limit: _limit,
            extra: _extra,
            roles: _roles,
            facts_program: _facts_program,
            failed: _failed,
            trail: _trail,
            audit: _audit,
        } = self;
    }
}

impl Texts {
    /// Those of the two files alone.
    fn of_files(inventory: Text, playbook: Text) -> Texts
        ensures { result ≡ texts_of (λ _. None) inventory playbook }
    {
        Texts {
            inventory,
            playbook,
            outcomes: None,
            limit: None,
            extra: None,
            roles: None,
            facts_program: None,
            failed: None,
            trail: None,
            audit: None,
        }
    }

    /// The request that they make with these numbers and flags.
    fn asked(self, numbers: Numbers, flags: Flags) -> Request
        ensures { result ≡ request_of self numbers flags }
    {
        let Texts {
            inventory,
            playbook,
            outcomes,
            limit,
            extra,
            roles,
            facts_program,
            failed,
            trail,
            audit,
        } = self;
        let Numbers {
            forks,
            stop_after,
            same_under,
        } = numbers;
        let Flags {
            strict,
            places,
            purpose,
        } = flags;
        Request {
            inventory,
            playbook,
            forks,
            outcomes,
            limit,
            extra,
            roles,
            facts_program,
            stop_after,
            same_under,
            failed,
            trail,
            audit,
            strict,
            places,
            purpose,
        }
    }

    /// Takes in what a plan is made of.
    fn take_sources(&mut self, alloc: Global, matches: &ArgMatches<'_>) -> Result<(), AllocError>
        ensures { OnOk result (self.new ≡ record self.old { outcomes = first_value (found_of matches.now) (codes "outcomes"); limit = first_value (found_of matches.now) (codes "limit"); extra = first_value (found_of matches.now) (codes "extra"); roles = first_value (found_of matches.now) (codes "roles") }) }
    {
        self.outcomes = text_in(alloc, matches, "outcomes")?;
        self.limit = text_in(alloc, matches, "limit")?;
        self.extra = text_in(alloc, matches, "extra")?;
        self.roles = text_in(alloc, matches, "roles")?;
        Ok(())
    }

    /// Takes in what a run starts and writes.
    fn take_ends(&mut self, alloc: Global, matches: &ArgMatches<'_>) -> Result<(), AllocError>
        ensures { OnOk result (self.new ≡ record self.old { facts_program = first_value (found_of matches.now) (codes "facts_program"); failed = first_value (found_of matches.now) (codes "failed"); trail = first_value (found_of matches.now) (codes "trail"); audit = first_value (found_of matches.now) (codes "audit") }) }
    {
        self.facts_program = text_in(alloc, matches, "facts_program")?;
        self.failed = text_in(alloc, matches, "failed")?;
        self.trail = text_in(alloc, matches, "trail")?;
        self.audit = text_in(alloc, matches, "audit")?;
        Ok(())
    }
}

fn texts_in(
    alloc: Global,
    matches: &ArgMatches<'_>,
    inventory: &str,
    playbook: &str,
) -> Result<Texts, AllocError>
    ensures { IfOk result (λ texts. texts ≡ texts_of (first_value (found_of matches.now)) inventory.now playbook.now) }
{
    let inventory = Text::from_str(alloc, inventory)?;
    let playbook = Text::from_str(alloc, playbook)?;
    let mut texts = Texts::of_files(inventory, playbook);
    texts.take_sources(alloc, matches)?;
    texts.take_ends(alloc, matches)?;
    Ok(texts)
}

/// What the values of the arguments ask for.
fn request_in(alloc: Global, matches: &ArgMatches<'_>) -> Result<Request, WordsFault>
    ensures value { IfOk result (AskFor (first_value (found_of matches.now))) }
    ensures fault { IfErr result (AreRefused (first_value (found_of matches.now))) }
{
    let Some(inventory) = matches.get_str("inventory") else {
        return Err(WordsFault::Missing);
    };
    let Some(playbook) = matches.get_str("playbook") else {
        return Err(WordsFault::Missing);
    };
    let numbers = numbers_in(alloc, matches)?;
    let texts = texts_in(alloc, matches, inventory, playbook)?;
    Ok(texts.asked(numbers, flags_in(matches)))
}

/// What the words ask for. The first of them is the program's name.
pub fn read_words(alloc: Global, words: &[String]) -> Result<Request, WordsFault>
    ensures value { IfOk result (Asks (map string_bytes words.now)) }
    ensures fault { IfErr result (IsRefused (map string_bytes words.now)) }
{
    let command = arguments::command(alloc)?;
    match command.try_get_matches_from(words) {
        Ok(matches) => request_in(alloc, &matches),
        Err(error) => Err(fault(alloc, &error)),
    }
}
