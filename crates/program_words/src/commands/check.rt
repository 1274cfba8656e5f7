//! `check`: verifies the proof on standard input. It has no options.
ghost use Rattle.std.specs.Prelude.{codes};
ghost use Rattle.clap.specs.Words.{found_of, rows_of};
ghost use Rattle.program_words.specs.Refusals.{JudgesPart};
ghost use Rattle.program_words.specs.Readings.{IsSaid};

use crate::commands::{Command, ReportCommand};
use crate::line::{Base, CommandLine};
use crate::refusals::Refusals;
use clap::ArgMatches;

// The text of the long help: input, output, statuses, faults and an example.
const HELP: &str = "\
The output is 'yes' where the proof holds, else 'no'. Who relies on a yes compares the roots in the
text with checkpoints of the log.

Exit status: 0 for a yes, 3 for a no, 1 a fault, 2 a usage error.
Faults, on standard error:
  BadProofText  the input is not the text of a proof: give it as it was made, to the last newline
  ReadFault     standard input could not be read
  WriteFault    standard output could not be written: a part may have been
  OutOfMemory   there is not enough memory for the text

Example: tlogmirror check <examples/inclusion-2-of-3.proof";

/// The command line.
pub const LINE: CommandLine<'static> = CommandLine {
    name: "check",
    about: "Reads the text of a proof from standard input, and prints whether it holds: yes or no",
    help: HELP,
    base: Base::Nothing,
    arguments: &[],
};

/// Reads the command, which has no options.
pub fn read<'a>(_found: &ArgMatches<'a>, _refusals: &mut Refusals) -> Command<'a>
    ensures { JudgesPart (IsSaid (codes "check") (rows_of (found_of _found.now))) _refusals.old
        _refusals.new result }
{
    Command::Report(ReportCommand::Check)
}
