//! `forks`: prints the forks between a mirror's heads. It has only the options of every command over a state.
ghost use Rattle.std.specs.Prelude.{codes};
ghost use Rattle.clap.specs.Words.{found_of, rows_of};
ghost use Rattle.program_words.specs.Refusals.{JudgesPart};
ghost use Rattle.program_words.specs.Readings.{IsSaid};

use crate::commands::{Command, ReportCommand};
use crate::line::{Base, CommandLine};
use crate::parts::state_args;
use crate::refusals::Refusals;
use clap::ArgMatches;

// The text of the long help: input, output, statuses, faults and an example.
const HELP: &str = "\
The output is 'fork SIZE ROOT SIZE ROOT' for each two checkpoints of one size with different roots, and
for each two complete ones if neither list of entries is a prefix of the other. A fork is the
operator's doing: keep the state, and write both notes with 'notes'.

Exit status: 0 none, 3 there are forks, 1 a fault, 2 a usage error.
Faults of O, K and S: see 'tlogmirror --help'.

Example: tlogmirror forks --origin log.example --keys keys --state state";

/// The command line.
pub const LINE: CommandLine<'static> = CommandLine {
    name: "forks",
    about: "Prints which checkpoints contradict each other: of one size, or both complete",
    help: HELP,
    base: Base::State,
    arguments: &[],
};

/// Reads the command from its options.
pub fn read<'a>(found: &ArgMatches<'a>, refusals: &mut Refusals) -> Command<'a>
    ensures { JudgesPart (IsSaid (codes "forks") (rows_of (found_of found.now))) refusals.old
        refusals.new result }
{
    Command::Report(ReportCommand::Forks(state_args(found, refusals)))
}
