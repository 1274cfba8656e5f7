//! `follow`: brings a copy to the newest checkpoint of its places.
ghost use Rattle.std.specs.Prelude.{codes};
ghost use Rattle.clap.specs.Words.{found_of, rows_of};
ghost use Rattle.program_words.specs.Commands.{IsPlacesGiven};
ghost use Rattle.program_words.specs.Refusals.{JudgesPart};
ghost use Rattle.program_words.specs.Readings.{IsSaid};

use crate::bad::BadWord;
use crate::commands::{Command, PlaceCommand};
use crate::line::{AHEAD, Argument, Base, CommandLine, PROGRESS, WAIT};
use crate::parts::{CopyArgs, copy_args, has_flag, pace_of};
use crate::place::{Place, places_or_bad};
use crate::refusals::Refusals;
use clap::ArgMatches;
use mirror_client::Pace;
use std::alloc::Global;

/// `follow`: brings a copy to the newest checkpoint of its places.
#[derive(Drop)]
pub struct Follow<'a> {
    /// The copy.
    pub copy: CopyArgs<'a>,
    /// The file of the note to follow. If it is None, the newest one of the places is followed.
    pub checkpoint: Option<&'a str>,
    /// The folder for the evidence of forks, if it is wanted.
    pub forks: Option<&'a str>,
    /// Whether the copy is repaired first.
    pub repair: bool,
    /// How each server is asked. A folder ignores it.
    pub pace: Pace,
    /// Whether lines report the progress.
    pub progress: bool,
    /// Whether lines report the first fault of each place.
    pub why: bool,
    /// The places of the log, at least one, in the order of the words.
    pub places: Vec<Place<'a>>,
}

// The text of the long help: input, output, statuses, faults and an example.
const HELP: &str = "\
D is a copy: the log's files in a folder, as any web server gives them out. It begins empty. No place is
trusted: a file is verified before it is written, and what one place lacks or falsifies is asked of the
others. The checkpoint is written last. So D is whole at each moment, and a run that was cut off goes on
where it ended. Let one run at a time work on D.
The output is 'followed SIZE ROOT from OLD': what D has now, and how many entries it had. Then come
  fork SIZE ROOT SIZE ROOT  two signed checkpoints that contradict each other
  larger SIZE ROOT          a checkpoint that D was not brought to, since a file of it could not be had
  behind SIZE ROOT          the greatest checkpoint of the places, where all are smaller than D's
A fork is the operator's doing. With --forks both notes and the proof that 'check' reads are written to F.
With --checkpoint D is brought to the note in FILE, and no place is asked for one.
With --repair all of D is read first. A file that is missing or false is looked for at the places, verified
and written anew. The output then begins with 'repaired N', the number of files that were written.
With --progress lines like 'follow: 1,024 of 7,832 files, 23 MB' go to standard error, from the first
second on, and at its end 'follow: 5,000 to 5,300 entries, 4 files, 91 kB'.
With --why a line goes to standard error for D and for each place, if something was wrong there.
'http' is plain HTTP, with no TLS and no redirects: a proxy beside it ends HTTPS. A server that is busy,
which answers 429 or 503, is asked again: all waits for it together take at most SECONDS.

Exit status: 0 done, 3 there is a fork, or a larger checkpoint, 1 a fault, 2 a usage error,
or a bad value (BadArgument).
Faults of O and K: see 'tlogmirror --help'. Besides, on standard error:
  FileFault           FILE cannot be read, or F cannot be written: D was brought forward before
  CopyDamaged         a file of D is missing or false, or D is of another log: see O, and give --repair
  CopyInUse           another run has written the checkpoint of D: let one run at a time work on it
  ShelfFault          D cannot be read or written: see the path, the rights and the room
  NoCheckpoint        the first place has no checkpoint, and no other has one of the log
  NoFile              D is empty, or is repaired, and no place has a file of it: try again, or another place
  Source              a place could not be read, did not answer or stayed busy, and no other had what was wanted
  NoteTooLong, NotText, NoSignatures, TooManySignatures, BadSignatureLine
                      the checkpoint is no signed note
  TooFewLines, EmptyLine, BadSize, SizeTooLarge, BadRoot
                      the note is no checkpoint
  OtherOrigin         the checkpoint is of another log
  NoTrustedSignature  no key of K signed the checkpoint: add the log's key or a pin
  Contradiction       a checkpoint of no entries has another root than the empty list's: keep the note
  Collision           two different strings share a digest: keep D and the log's files
  WriteFault          standard output could not be written: D was brought forward before

Example: tlogmirror follow --origin example.com/log --keys examples/log.keys --dir log dir examples/log";

/// The command line.
pub const LINE: CommandLine<'static> = CommandLine {
    name: "follow",
    about: "Brings a copy of a log, in a folder, to the newest checkpoint of some places, and verifies every file",
    help: HELP,
    base: Base::Log,
    arguments: &[
        Argument::Option("dir", "D", "The folder of the copy"),
        Argument::Choice(
            "checkpoint",
            "FILE",
            "The signed note to follow; the newest one of the places where it is left out",
        ),
        Argument::Choice(
            "forks",
            "F",
            "The folder that the evidence of forks is written to",
        ),
        Argument::Flag(
            "repair",
            "Read the whole copy first, and write each missing or false file anew",
        ),
        AHEAD,
        WAIT,
        PROGRESS,
        Argument::Words(
            "place",
            "KIND PLACE",
            "Where from: dir and a folder, or http and host:port with an optional /prefix; one or more",
        ),
    ],
};

// Reads the places from the options.
fn places_given<'a>(
    alloc: Global,
    found: &ArgMatches<'a>,
    refusals: &mut Refusals,
) -> Vec<Place<'a>>
    ensures { JudgesPart (IsPlacesGiven (rows_of (found_of found.now))) refusals.old refusals.new
        result.items }
{
    match found.get_strs("place") {
        Some(words) => places_or_bad(alloc, words, refusals),
        // It never gets here: `clap` requires at least one word.
        None => {
            refusals.note(BadWord::new("PLACE", "one is due"));
            Vec::new(alloc)
        }
    }
}

/// Reads the command from its options.
pub fn read<'a>(alloc: Global, found: &ArgMatches<'a>, refusals: &mut Refusals) -> Command<'a>
    ensures { JudgesPart (IsSaid (codes "follow") (rows_of (found_of found.now))) refusals.old
        refusals.new result }
{
    let copy = copy_args(found, refusals);
    let checkpoint = found.get_str("checkpoint");
    let forks = found.get_str("forks");
    let repair = has_flag(found, "repair");
    let pace = pace_of(found, refusals);
    let progress = has_flag(found, "progress");
    let why = has_flag(found, "why");
    let places = places_given(alloc, found, refusals);
    Command::Place(PlaceCommand::Follow(Follow {
        copy,
        checkpoint,
        forks,
        repair,
        pace,
        progress,
        why,
        places,
    }))
}
