//! `status`: prints the heads of a mirror, or the checkpoint of a copy. It has only the options of every command over one of
//! these.
ghost use Rattle.std.specs.Prelude.{codes};
ghost use Rattle.clap.specs.Words.{found_of, rows_of};
ghost use Rattle.program_words.specs.Refusals.{JudgesPart};
ghost use Rattle.program_words.specs.Readings.{IsSaid};

use crate::commands::{Command, CopyCommand, ReportCommand};
use crate::line::{Base, CommandLine};
use crate::parts::{Source, source_of};
use crate::refusals::Refusals;
use clap::ArgMatches;

// The text of the long help: input, output, statuses, faults and an example.
const HELP: &str = "\
The output is 'origin O', a line 'head SIZE ROOT complete' or '.. partial' for each checkpoint, and
'served SIZE ROOT' or 'served none'. A copy has one checkpoint, which is complete, or none.

Exit status: 0 done, 3 nothing is complete, 1 a fault, 2 a usage error.
Faults of O, K, S and D: see 'tlogmirror --help'.

Example: tlogmirror status --origin log.example --keys keys --state state";

/// The command line.
pub const LINE: CommandLine<'static> = CommandLine {
    name: "status",
    about: "Prints the checkpoints of a mirror, which of them are complete, and which is served",
    help: HELP,
    base: Base::StateOrCopy,
    arguments: &[],
};

/// Reads the command for a state or a copy from its options.
pub fn read<'a>(found: &ArgMatches<'a>, refusals: &mut Refusals) -> Command<'a>
    ensures { JudgesPart (IsSaid (codes "status") (rows_of (found_of found.now))) refusals.old
        refusals.new result }
{
    match source_of(found, refusals) {
        Source::State(args) => Command::Report(ReportCommand::Status(args)),
        Source::Copy(args) => Command::Copy(CopyCommand::Status(args)),
    }
}
