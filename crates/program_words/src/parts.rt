//! The parts that commands share: options, numbers, the log and the mirror.
ghost use Rattle.std.specs.Prelude.{◌≡◌, ◌↔◌, ℕ, IsTrue, List, map, option_map};
ghost use Rattle.std.specs.Str.{bytes_eq};
ghost use Rattle.clap.specs.Words.{found_of, rows_of};
ghost use Rattle.program_words.specs.Spelling.{FindsPart};
ghost use Rattle.program_words.specs.Commands.{AreFiles, Given, HasFlag, HasNumber, HasNumberOr, IsAhead, IsCopyArgs, IsLog, IsOutputArgs, IsPace, IsStateArgs, IsWait};
ghost use Rattle.program_words.specs.Refusals.{JudgesPart};
ghost use Rattle.program_words.specs.Readings.{IsSource, IsWordAlone};

use crate::bad::BadWord;
use crate::number::number_in;
use crate::refusals::Refusals;
use clap::ArgMatches;
use mirror_client::Pace;
use std::alloc::Global;
use tlog_shape::MAX_SIZE;

/// A log: its origin and its key file.
#[derive(Drop, Clone, Copy)]
pub struct Log<'a> {
    /// The origin line of the log's checkpoints.
    pub origin: &'a str,
    /// The file of the keys that open its checkpoints.
    pub keys: &'a str,
}

/// A mirror in a state file.
#[derive(Drop, Clone, Copy)]
pub struct StateArgs<'a> {
    /// The log of the mirror.
    pub log: Log<'a>,
    /// The state file.
    pub state: &'a str,
}

/// A copy of a log in a folder.
#[derive(Drop, Clone, Copy)]
pub struct CopyArgs<'a> {
    /// The log of the copy.
    pub log: Log<'a>,
    /// The folder.
    pub folder: &'a str,
}

/// A mirror whose state will be written to a file.
#[derive(Drop, Clone, Copy)]
pub struct OutputArgs<'a> {
    /// The log of the mirror.
    pub log: Log<'a>,
    /// The file for the state.
    pub out: &'a str,
}

/// The state or the copy that a command uses.
#[derive(Drop, Clone, Copy)]
pub(crate) enum Source<'a> {
    /// `--state`.
    State(StateArgs<'a>),
    /// `--dir`.
    Copy(CopyArgs<'a>),
}

/// The value of an option, if it is given.
pub(crate) fn word_given<'a>(found: &ArgMatches<'a>, name: &str) -> Option<&'a str>
    ensures { FindsPart (Given (rows_of (found_of found.now)) name.now)
        (option_map (λ word. word.now) result) }
{
    found.get_str(name)
}

/// The value of an option that must be given.
pub(crate) fn word_of<'a>(
    found: &ArgMatches<'a>,
    name: &'static str,
    refusals: &mut Refusals,
) -> &'a str
    ensures part { JudgesPart (Given (rows_of (found_of found.now)) name.now) refusals.old
        refusals.new result.now }
    ensures one { (word : List ℕ) → Given (rows_of (found_of found.now)) name.now word
        → result.now ≡ word }
{
    match found.get_str(name) {
        Some(word) => word,
        // It never gets here: `clap` reports a missing option.
        None => {
            refusals.note(BadWord::new(name, "it is due"));
            ""
        }
    }
}

fn is_same(word: &str, other: &str) -> bool
    ensures { result ≡ bytes_eq word.now other.now }
{
    word == other
}

/// Whether an option without a value is given.
pub fn has_flag(found: &ArgMatches<'_>, name: &str) -> bool
    ensures { IsTrue result ↔ HasFlag (rows_of (found_of found.now)) name.now }
{
    match found.get_str(name) {
        Some(word) => is_same(word, "true"),
        None => false,
    }
}

/// The number from `least` to `most` that the option's value spells, if it spells one.
pub(crate) fn number_of(found: &ArgMatches<'_>, name: &str, least: u64, most: u64) -> Option<u64>
    ensures { FindsPart (HasNumber (rows_of (found_of found.now)) name.now least most) result }
{
    match found.get_str(name) {
        Some(word) => number_in(word, least, most),
        None => None,
    }
}

/// The size or the index that the option's value spells. Else `word`, its name in the help, is noted as bad.
pub(crate) fn size_of(
    found: &ArgMatches<'_>,
    name: &str,
    word: &'static str,
    refusals: &mut Refusals,
) -> u64
    ensures { JudgesPart (HasNumber (rows_of (found_of found.now)) name.now 0 MAX_SIZE)
        refusals.old refusals.new result }
{
    match number_of(found, name, 0, MAX_SIZE) {
        Some(size) => size,
        None => {
            refusals.note(BadWord::new(word, "a number from 0 to 9223372036854775807 is due"));
            0
        }
    }
}

// The number from 0 to `most` that the option's value spells, or `other` if the option is missing.
fn number_or(found: &ArgMatches<'_>, name: &str, most: u64, other: u64) -> Option<u64>
    ensures { FindsPart (HasNumberOr (rows_of (found_of found.now)) name.now 0 most other) result }
{
    match found.get_str(name) {
        Some(word) => number_in(word, 0, most),
        None => Some(other),
    }
}

// Reads the number of requests that may be sent ahead.
fn ahead_of(found: &ArgMatches<'_>, refusals: &mut Refusals) -> usize
    ensures { JudgesPart (IsAhead (rows_of (found_of found.now))) refusals.old refusals.new result }
{
    match number_or(found, "ahead", 64, 6) {
        Some(ahead) => ahead as usize,
        None => {
            refusals.note(BadWord::new("--ahead", "a number from 0 to 64 is due"));
            0
        }
    }
}

// Reads the number of seconds that a run waits for a busy place.
fn wait_of(found: &ArgMatches<'_>, refusals: &mut Refusals) -> u64
    ensures { JudgesPart (IsWait (rows_of (found_of found.now))) refusals.old refusals.new result }
{
    match number_or(found, "wait", 86_400, 60) {
        Some(wait) => wait,
        None => {
            refusals.note(BadWord::new("--wait", "a number from 0 to 86400 is due"));
            0
        }
    }
}

/// Reads how servers are asked: how many requests are sent ahead, and how long a busy one is waited for.
pub(crate) fn pace_of(found: &ArgMatches<'_>, refusals: &mut Refusals) -> Pace
    ensures { JudgesPart (IsPace (rows_of (found_of found.now))) refusals.old refusals.new result }
{
    let ahead = ahead_of(found, refusals);
    let wait = wait_of(found, refusals);
    Pace { ahead, wait }
}

/// Reads the log: its origin and its key file.
pub(crate) fn log_of<'a>(found: &ArgMatches<'a>, refusals: &mut Refusals) -> Log<'a>
    ensures { JudgesPart (IsLog (rows_of (found_of found.now))) refusals.old refusals.new result }
{
    let origin = word_of(found, "origin", refusals);
    let keys = word_of(found, "keys", refusals);
    Log { origin, keys }
}

/// Reads the mirror in a state file.
pub(crate) fn state_args<'a>(found: &ArgMatches<'a>, refusals: &mut Refusals) -> StateArgs<'a>
    ensures { JudgesPart (IsStateArgs (rows_of (found_of found.now))) refusals.old refusals.new
        result }
{
    let log = log_of(found, refusals);
    let state = word_of(found, "state", refusals);
    StateArgs { log, state }
}

/// Reads the copy in a folder.
pub(crate) fn copy_args<'a>(found: &ArgMatches<'a>, refusals: &mut Refusals) -> CopyArgs<'a>
    ensures { JudgesPart (IsCopyArgs (rows_of (found_of found.now))) refusals.old refusals.new
        result }
{
    let log = log_of(found, refusals);
    let folder = word_of(found, "dir", refusals);
    CopyArgs { log, folder }
}

/// Reads the mirror whose state will be written.
pub(crate) fn output_args<'a>(found: &ArgMatches<'a>, refusals: &mut Refusals) -> OutputArgs<'a>
    ensures { JudgesPart (IsOutputArgs (rows_of (found_of found.now))) refusals.old refusals.new
        result }
{
    let log = log_of(found, refusals);
    let out = word_of(found, "out", refusals);
    OutputArgs { log, out }
}

// The value of an option, if the other option is missing.
fn word_alone<'a>(found: &ArgMatches<'a>, name: &str, other: &str) -> Option<&'a str>
    ensures { FindsPart (IsWordAlone (rows_of (found_of found.now)) name.now other.now)
        (option_map (λ word. word.now) result) }
{
    match found.get_str(other) {
        Some(_) => None,
        None => found.get_str(name),
    }
}

/// Reads the state or the copy. Exactly one of them must be given.
pub(crate) fn source_of<'a>(found: &ArgMatches<'a>, refusals: &mut Refusals) -> Source<'a>
    ensures { JudgesPart (IsSource (rows_of (found_of found.now))) refusals.old refusals.new
        result }
{
    let log = log_of(found, refusals);
    if let Some(state) = word_alone(found, "state", "dir") {
        return Source::State(StateArgs { log, state });
    }
    match word_alone(found, "dir", "state") {
        Some(folder) => Source::Copy(CopyArgs { log, folder }),
        None => {
            refusals.note(BadWord::new("--state or --dir", "one of them is due"));
            Source::Copy(CopyArgs { log, folder: "" })
        }
    }
}

/// The named files, possibly none.
pub(crate) fn files_of<'a>(
    alloc: Global,
    found: &ArgMatches<'a>,
    refusals: &mut Refusals,
) -> Vec<&'a str>
    ensures { JudgesPart (AreFiles (rows_of (found_of found.now))) refusals.old refusals.new
        (map (λ f. f.now) result.items) }
{
    let Some(files) = found.get_strs("file") else {
        return Vec::new(alloc);
    };
    match Vec::from_slice(alloc, files) {
        Ok(files) => files,
        Err(_) => {
            refusals.lack_memory();
            Vec::new(alloc)
        }
    }
}
