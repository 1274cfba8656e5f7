//! Reads the words of a command line.
ghost use Rattle.std.specs.Prelude.{◌≡◌, ◌↔◌, IfErr, IfOk, IsTrue, codes, map, option_map, string_bytes};
ghost use Rattle.clap.specs.Words.{first_of, found_of, kind_of, rows_of};
ghost use Rattle.program_words.specs.Program.{Calls};
ghost use Rattle.program_words.specs.Commands.{HasFlag};
ghost use Rattle.program_words.specs.Refusals.{ReadsPart};
ghost use Rattle.program_words.specs.LineReadings.{IsMatched, Reads, ReadsKeyFile, IsFaultOf, no_keys};
ghost use Rattle.program_words.specs.Readings.{IsSaid};
ghost use Rattle.program_words.specs.Lines.{IsLine, NamesBad};

use crate::readers::{command_of, parser};
use crate::{BadWord, Command, CommandFault, Refusals, has_flag, judged};
use clap::ArgMatches;
use clap::error::ErrorKind;
use std::alloc::Global;

// The fault of the program for an error of `clap`.
fn fault_of(alloc: Global, error: &clap::Error) -> CommandFault
    ensures { IsFaultOf (kind_of error.now) result }
{
    if error.kind() == ErrorKind::OutOfMemory {
        return CommandFault::OutOfMemory;
    }
    match error.to_string(alloc) {
        Ok(text) => {
            if error.use_stderr() {
                CommandFault::Words(text)
            } else {
                CommandFault::Help(text)
            }
        }
        Err(_) => CommandFault::OutOfMemory,
    }
}

// The matches that the parser finds in the words.
fn matches_of<'a>(alloc: Global, words: &'a [String]) -> Result<ArgMatches<'a>, CommandFault>
    ensures matches { IfOk result (IsMatched (map string_bytes words.now)) }
    ensures refused { IfErr result (λ fault. ReadsKeyFile (map string_bytes words.now)
        (no_keys fault)) }
{
    match parser(alloc)?.try_get_matches_from(words) {
        Ok(matches) => Ok(matches),
        Err(error) => {
            let fault = fault_of(alloc, &error);
            drop(error);
            Err(fault)
        }
    }
}

/// The name of the command that the words call, and its options. It checks no option.
///
/// # Errors
///
/// `Help` and `Words` come with the text of `clap`. `OutOfMemory` if memory was refused.
pub(crate) fn command_found<'a>(
    alloc: Global,
    words: &'a [String],
) -> Result<(&'a str, ArgMatches<'a>), CommandFault>
    ensures called { IfOk result (λ found. Calls (map string_bytes words.now) found.0.now
        (rows_of (found_of found.1))) }
    ensures refused { IfErr result (λ fault. ReadsKeyFile (map string_bytes words.now)
        (no_keys fault)) }
{
    match matches_of(alloc, words) {
        Ok(mut matches) => {
            let called = matches.remove_subcommand();
            drop(matches);
            match called {
                Some((name, found)) => Ok((name, found)),
                // It never gets here: words in which `clap` finds no fault name a command.
                None => Err(CommandFault::BadArgument),
            }
        }
        Err(fault) => Err(fault),
    }
}

/// The contents of a command line. Only the command holds the values of its options.
#[derive(Drop)]
pub struct Line<'a> {
    /// The key file for the command: the word after `--keys`, or None for `root` and `check`, which have none.
    pub keys: Option<&'a str>,
    /// Whether the option `--why` asks that a fault names the thing that it is about. Every command except `root` and `check` has it.
    pub why: bool,
    /// The command of the words. `BadArgument` if the value of an option has a wrong spelling or is out of range, or if the words
    /// of a command do not fit together. `OutOfMemory` if memory was refused.
    pub command: Result<Command<'a>, CommandFault>,
    /// For `BadArgument`: the first option or word that has a wrong spelling or is out of range.
    pub bad: Option<BadWord>,
}

/// The contents of the words after the program's name. It borrows from the words. It gives the key file even if other options
/// have bad values, so that the key file is read before these are refused.
///
/// ```text
/// read_line(alloc, &words)?.command   // Ok(Command::Report(ReportCommand::Check))
/// ```
///
/// # Errors
///
/// `Help` and `Words` come with the text of `clap`. `OutOfMemory` if memory was refused. `BadArgument` never comes here: it is
/// reported after the faults of the key file.
pub fn read_line<'a>(alloc: Global, words: &'a [String]) -> Result<Line<'a>, CommandFault>
    ensures line { IfOk result (λ line. IsLine (map string_bytes words.now) line) }
    ensures bad { IfOk result NamesBad }
    ensures none { IfErr result (λ fault. Reads (map string_bytes words.now) (Err fault)) }
    ensures refused { IfErr result (λ fault. ReadsKeyFile (map string_bytes words.now)
        (no_keys fault)) }
{
    match command_found(alloc, words) {
        Ok((name, found)) => {
            let line = line_of(alloc, name, &found);
            drop(found);
            Ok(line)
        }
        Err(fault) => Err(fault),
    }
}

// Reads the line of the command with this name from its options.
fn line_of<'a>(alloc: Global, name: &str, found: &ArgMatches<'a>) -> Line<'a>
    ensures keys { first_of (codes "keys") (rows_of (found_of found.now))
        ≡ option_map (λ keys. keys.now) result.keys }
    ensures why { IsTrue result.why ↔ HasFlag (rows_of (found_of found.now)) (codes "why") }
    ensures command { ReadsPart (IsSaid name.now (rows_of (found_of found.now))) result.command }
    ensures bad { NamesBad result }
{
    let keys = found.get_str("keys");
    let why = has_flag(found, "why");
    let mut refusals = Refusals::none();
    let read = command_of(alloc, name, found, &mut refusals);
    let command = judged(&refusals, read);
    Line {
        keys,
        why,
        command,
        bad: refusals.bad,
    }
}
