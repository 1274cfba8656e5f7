//! `audit`: verifies a complete log at a place, file by file.
ghost use Rattle.std.specs.Prelude.{codes};
ghost use Rattle.clap.specs.Words.{found_of, rows_of};
ghost use Rattle.program_words.specs.Refusals.{JudgesPart};
ghost use Rattle.program_words.specs.Readings.{IsSaid};

use crate::commands::{Command, PlaceCommand};
use crate::line::{AHEAD, Argument, Base, CommandLine, PROGRESS, WAIT};
use crate::parts::{Log, has_flag, log_of, pace_of};
use crate::place::{Place, place_given};
use crate::refusals::Refusals;
use clap::ArgMatches;
use mirror_client::Pace;
use std::alloc::Global;

/// `audit`: verifies a complete log at a place, file by file.
#[derive(Drop, Clone, Copy)]
pub struct Audit<'a> {
    /// The log.
    pub log: Log<'a>,
    /// How a server is asked. A folder ignores it.
    pub pace: Pace,
    /// Whether lines report the progress.
    pub progress: bool,
    /// The place of the log.
    pub place: Place<'a>,
}

// The text of the long help: input, output, statuses, faults and an example.
const HELP: &str = "\
The place is a log, or a copy of one, for example one's own. Its checkpoint is verified, and then every
file of a log of that size, one after the other. A partial file may have given way to its full one.
The output is 'audited SIZE ROOT', where every file has the bytes that the log has there.
With --progress lines like 'audit: 1,024 of 7,832 files, 23 MB' go to standard error, from the first
second on, and one at the end.
'http' is plain HTTP, with no TLS and no redirects: a proxy beside it ends HTTPS. A server that is busy,
which answers 429 or 503, is asked again: all waits for it together take at most SECONDS.

Exit status: 0 done, 1 a fault, 2 a usage error, or a bad value (BadArgument).
Faults of O and K: see 'tlogmirror --help'. Of the place:
  NoCheckpoint        it has no checkpoint: see PLACE
  NoEdge              it lacks a tile of the checkpoint's edge: --why names that of a folder
  NoFile              it lacks another file, which --why names
  FalseFile           a file has other bytes than the log has there: --why names the file
  Source              it could not be read, did not answer, or stayed busy: try again
  NoteTooLong, NotText, NoSignatures, TooManySignatures, BadSignatureLine
                      the checkpoint is no signed note
  TooFewLines, EmptyLine, BadSize, SizeTooLarge, BadRoot
                      the note is no checkpoint
  OtherOrigin         the checkpoint is of another log
  NoTrustedSignature  no key of K signed the checkpoint: add the log's key or a pin

Example: tlogmirror audit --origin example.com/log --keys examples/log.keys dir examples/log";

/// The command line.
pub const LINE: CommandLine<'static> = CommandLine {
    name: "audit",
    about: "Reads a whole log at a place, and verifies every file of it, in little memory",
    help: HELP,
    base: Base::Log,
    arguments: &[
        AHEAD,
        WAIT,
        PROGRESS,
        Argument::Place(
            "kind",
            "KIND",
            "Where it is: dir, or http, which is plain HTTP",
        ),
        Argument::Place(
            "place",
            "PLACE",
            "The folder, or host:port with an optional /prefix; an IPv6 address in brackets",
        ),
    ],
};

/// Reads the command from its options.
pub fn read<'a>(alloc: Global, found: &ArgMatches<'a>, refusals: &mut Refusals) -> Command<'a>
    ensures { JudgesPart (IsSaid (codes "audit") (rows_of (found_of found.now))) refusals.old
        refusals.new result }
{
    let log = log_of(found, refusals);
    let pace = pace_of(found, refusals);
    let progress = has_flag(found, "progress");
    let place = place_given(alloc, found, refusals);
    Command::Place(PlaceCommand::Audit(Audit {
        log,
        pace,
        progress,
        place,
    }))
}
