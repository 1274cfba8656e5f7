//! `pull`: fetches what is missing.
ghost use Rattle.std.specs.Prelude.{codes};
ghost use Rattle.clap.specs.Words.{found_of, rows_of};
ghost use Rattle.program_words.specs.Refusals.{JudgesPart};
ghost use Rattle.program_words.specs.Readings.{IsSaid};

use crate::commands::{Command, StateCommand};
use crate::line::{AHEAD, Argument, Base, CommandLine, FIRST_STATE, PROGRESS, WAIT};
use crate::parts::{OutputArgs, has_flag, output_args, pace_of};
use crate::place::{Place, place_given};
use crate::refusals::Refusals;
use clap::ArgMatches;
use mirror_client::Pace;
use std::alloc::Global;

/// `pull`: fetches what is missing.
#[derive(Drop, Clone, Copy)]
pub struct Pull<'a> {
    /// The mirror after the pull.
    pub mirror: OutputArgs<'a>,
    /// The state file to begin with, or None for an empty mirror.
    pub state: Option<&'a str>,
    /// Whether the fetched files are kept if the place fails.
    pub keep: bool,
    /// How a server is asked. A folder ignores it.
    pub pace: Pace,
    /// Whether lines report the progress.
    pub progress: bool,
    /// The place of the log.
    pub place: Place<'a>,
}

// The text of the long help: input, output, statuses, faults and an example.
const HELP: &str = "\
The output is 'pulled SIZE ROOT rounds N refused N', and 'complete' or 'partial'. T is written for a
partial pull too; a later pull with --state T goes on from it. An old checkpoint stays in the state.
Without --state a state that is at T is replaced. A run that is killed writes nothing.
With --keep T is also written at Source, where anything was gained: give it to a first pull of a large
log over a bad line, and call it again with --state T until it ends with 0.
With --progress lines like 'pull: 1,024 files, 23 MB' go to standard error, from the first second on,
and at its end 'pull: 5,000 to 5,300 entries, 4 files, 91 kB'.
'http' is plain HTTP, with no TLS and no redirects: a proxy beside it ends HTTPS. A server that is busy,
which answers 429 or 503, is asked again: all waits for it together take at most SECONDS.

Exit status: 0 complete, 3 partial, 1 a fault, 2 a usage error, or a bad value (BadArgument).
Faults of O, K, S and T: see 'tlogmirror --help'. Of the place:
  NoCheckpoint        it has no checkpoint: see PLACE
  NoEdge              it lacks a tile of the checkpoint's edge: try again, or another place
  Source              it could not be read, did not answer, or stayed busy: try again, with --keep to go on
  NoteTooLong, NotText, NoSignatures, TooManySignatures, BadSignatureLine
                      the checkpoint is no signed note
  TooFewLines, EmptyLine, BadSize, SizeTooLarge, BadRoot
                      the note is no checkpoint
  OtherOrigin         S or the checkpoint is of another log
  NoTrustedSignature  no key of K signed the checkpoint: add the log's key or a pin
  EdgeLength, EdgeMismatch
                      the tiles are not those of the checkpoint: another place may be honest
  Collision           two different strings share a digest: T is not written; keep S and the log's files
  WriteFault          standard output could not be written: T was written before

Example: tlogmirror pull --origin log.example --keys keys --out state http log.example:80/2026";

/// The command line.
pub const LINE: CommandLine<'static> = CommandLine {
    name: "pull",
    about: "Fetches a log's newest checkpoint and what is missing of it, from a folder or over plain HTTP, and writes a state",
    help: HELP,
    base: Base::Output,
    arguments: &[
        FIRST_STATE,
        Argument::Flag(
            "keep",
            "Write the state where the place fails too, as a first pull over a bad line wants it",
        ),
        AHEAD,
        WAIT,
        PROGRESS,
        Argument::Place(
            "kind",
            "KIND",
            "Where from: dir, or http, which is plain HTTP",
        ),
        Argument::Place(
            "place",
            "PLACE",
            "The folder, or host:port with an optional /prefix; an IPv6 address in brackets",
        ),
    ],
};

/// Reads the command from its options.
pub fn read<'a>(alloc: Global, found: &ArgMatches<'a>, refusals: &mut Refusals) -> Command<'a>
    ensures { JudgesPart (IsSaid (codes "pull") (rows_of (found_of found.now))) refusals.old
        refusals.new result }
{
    let mirror = output_args(found, refusals);
    let state = found.get_str("state");
    let keep = has_flag(found, "keep");
    let pace = pace_of(found, refusals);
    let progress = has_flag(found, "progress");
    let place = place_given(alloc, found, refusals);
    Command::State(StateCommand::Pull(Pull {
        mirror,
        state,
        keep,
        pace,
        progress,
        place,
    }))
}
