//! `build`: makes a log from the entries on standard input.
ghost use Rattle.std.specs.Prelude.{codes};
ghost use Rattle.clap.specs.Words.{found_of, rows_of};
ghost use Rattle.program_words.specs.Refusals.{JudgesPart};
ghost use Rattle.program_words.specs.Readings.{IsSaid};

use crate::commands::{Command, StateCommand};
use crate::line::{Argument, Base, CommandLine, ORIGIN, PROGRESS, WHY};
use crate::parts::{Log, has_flag, log_of, word_of};
use crate::refusals::Refusals;
use clap::ArgMatches;

/// `build`: makes a log from the entries on standard input.
#[derive(Drop, Clone, Copy)]
pub struct Build<'a> {
    /// The new log.
    pub log: Log<'a>,
    /// The folder for its files.
    pub folder: &'a str,
    /// Whether lines report the progress.
    pub progress: bool,
}

// The text of the long help: input, output, statuses, faults and an example.
const HELP: &str = "\
Each entry on standard input is its length, two bytes with the higher first, and its bytes. The
checkpoint is signed with the first 'hmac' key of K. Tiles and bundles are written before it.
With --progress lines like 'build: 1,024 files, 23 MB' go to standard error, from the first second on,
and one at the end.

Exit status: 0 done, 1 a fault, 2 a usage error.
Faults, on standard error:
  FileFault     K cannot be read: see the path and the rights
  BadKeyLine    a line of K is no key: 'hmac NAME ID SECRET' or 'pin NAME ID DIGEST'
  NoSigningKey  K has no line 'hmac NAME ID SECRET': add one
  BadOrigin     O is empty, too long, or has a control character
  BundleShort   the input ends within an entry: give all of it
  ReadFault     standard input could not be read
  ShelfInUse    D has a checkpoint: name another folder
  ShelfFault    D cannot be written: see the path, the rights and the room
  OutOfMemory   there is not enough memory

Example: printf '\\0\\1a' | tlogmirror build --origin ex --keys examples/ex.keys --dir new";

/// The command line.
pub const LINE: CommandLine<'static> = CommandLine {
    name: "build",
    about: "Makes a log of the entries on standard input, signs its checkpoint, and writes its files to a folder",
    help: HELP,
    base: Base::Nothing,
    arguments: &[
        ORIGIN,
        Argument::Option(
            "keys",
            "K",
            "The file of the keys: the first 'hmac' key signs the checkpoint",
        ),
        WHY,
        Argument::Option("dir", "D", "The folder that the log is written to"),
        PROGRESS,
    ],
};

/// Reads the command from its options.
pub fn read<'a>(found: &ArgMatches<'a>, refusals: &mut Refusals) -> Command<'a>
    ensures { JudgesPart (IsSaid (codes "build") (rows_of (found_of found.now))) refusals.old
        refusals.new result }
{
    let log = log_of(found, refusals);
    let folder = word_of(found, "dir", refusals);
    let progress = has_flag(found, "progress");
    Command::State(StateCommand::Build(Build {
        log,
        folder,
        progress,
    }))
}
