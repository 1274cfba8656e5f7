//! `export` and `export --update`: write the served files to a folder.
ghost use Rattle.std.specs.Prelude.{codes};
ghost use Rattle.clap.specs.Words.{found_of, rows_of};
ghost use Rattle.program_words.specs.Refusals.{JudgesPart};
ghost use Rattle.program_words.specs.Readings.{IsSaid};

use crate::commands::{Command, StateCommand};
use crate::line::{Argument, Base, CommandLine, PROGRESS};
use crate::parts::{StateArgs, has_flag, state_args, word_of};
use crate::refusals::Refusals;
use clap::ArgMatches;

/// `export` and `export --update`: write the served files to a folder.
#[derive(Drop, Clone, Copy)]
pub struct Export<'a> {
    /// The mirror.
    pub mirror: StateArgs<'a>,
    /// The folder.
    pub folder: &'a str,
    /// Whether lines report the progress.
    pub progress: bool,
}

// The text of the long help: input, output, statuses, faults and an example.
const HELP: &str = "\
Tiles and bundles are written before the checkpoint. Any web server can serve the folder.
With --update D may have a checkpoint of this log: what it lacks is written, the checkpoint
last, and no file is taken away. So a folder that is being served is whole at each moment.
With --progress lines like 'export: 3,200 of 7,833 files' go to standard error, from the first second
on, and one at the end.

Exit status: 0 done, 1 a fault, 2 a usage error.
Faults of O, K and S: see 'tlogmirror --help'. Then:
  NothingComplete  no checkpoint is complete: pull what is missing first
  ShelfInUse       D has a checkpoint: name another folder, or give --update
  OtherLog         D has a checkpoint that S does not go on from: see status and forks
  ShelfFault       D cannot be written: see the path, the rights and the room

Example: tlogmirror export --origin log.example --keys keys --state state --dir copy";

/// The command line.
pub const LINE: CommandLine<'static> = CommandLine {
    name: "export",
    about: "Writes the files of the served checkpoint to a folder, as a log publishes them",
    help: HELP,
    base: Base::State,
    arguments: &[
        Argument::Option("dir", "D", "The folder that is written"),
        Argument::Flag(
            "update",
            "Bring a folder up to date that has an older checkpoint of the log",
        ),
        PROGRESS,
    ],
};

/// Reads the command from its options, with or without `--update`.
pub fn read<'a>(found: &ArgMatches<'a>, refusals: &mut Refusals) -> Command<'a>
    ensures { JudgesPart (IsSaid (codes "export") (rows_of (found_of found.now))) refusals.old
        refusals.new result }
{
    let mirror = state_args(found, refusals);
    let folder = word_of(found, "dir", refusals);
    let progress = has_flag(found, "progress");
    let export = Export {
        mirror,
        folder,
        progress,
    };
    if has_flag(found, "update") {
        Command::State(StateCommand::Update(export))
    } else {
        Command::State(StateCommand::Export(export))
    }
}
