//! `notes`: writes the notes of a mirror to a folder.
ghost use Rattle.std.specs.Prelude.{codes};
ghost use Rattle.clap.specs.Words.{found_of, rows_of};
ghost use Rattle.program_words.specs.Refusals.{JudgesPart};
ghost use Rattle.program_words.specs.Readings.{IsSaid};

use crate::commands::{Command, StateCommand};
use crate::line::{Argument, Base, CommandLine};
use crate::parts::{StateArgs, state_args, word_of};
use crate::refusals::Refusals;
use clap::ArgMatches;

/// `notes`: writes the notes of a mirror to a folder.
#[derive(Drop, Clone, Copy)]
pub struct Notes<'a> {
    /// The mirror.
    pub mirror: StateArgs<'a>,
    /// The folder.
    pub folder: &'a str,
}

// The text of the long help: input, output, statuses, faults and an example.
const HELP: &str = "\
Each note is written byte for byte as it came, to SIZE-ROOT-K.note: ROOT in lower case hexadecimal, K
from 0 among the notes of one size and root. So both notes of a fork can be shown to anyone.

Exit status: 0 done, 1 a fault, 2 a usage error.
Faults of O, K and S: see 'tlogmirror --help'. Then:
  FileFault  a note cannot be written, or a file of its name has other bytes

Example: tlogmirror notes --origin log.example --keys keys --state state --dir notes";

/// The command line.
pub const LINE: CommandLine<'static> = CommandLine {
    name: "notes",
    about: "Writes each signed note of a mirror to a file of its own",
    help: HELP,
    base: Base::State,
    arguments: &[Argument::Option("dir", "D", "The folder that is written")],
};

/// Reads the command from its options.
pub fn read<'a>(found: &ArgMatches<'a>, refusals: &mut Refusals) -> Command<'a>
    ensures { JudgesPart (IsSaid (codes "notes") (rows_of (found_of found.now))) refusals.old
        refusals.new result }
{
    let mirror = state_args(found, refusals);
    let folder = word_of(found, "dir", refusals);
    Command::State(StateCommand::Notes(Notes { mirror, folder }))
}
