//! `merge`: merges a second mirror into a first.
ghost use Rattle.std.specs.Prelude.{codes};
ghost use Rattle.clap.specs.Words.{found_of, rows_of};
ghost use Rattle.program_words.specs.Refusals.{JudgesPart};
ghost use Rattle.program_words.specs.Readings.{IsSaid};

use crate::commands::{Command, StateCommand};
use crate::line::{Argument, Base, CommandLine};
use crate::parts::{OutputArgs, output_args, word_of};
use crate::refusals::Refusals;
use clap::ArgMatches;

/// `merge`: merges a second mirror into a first.
#[derive(Drop, Clone, Copy)]
pub struct Merge<'a> {
    /// The merged mirror.
    pub mirror: OutputArgs<'a>,
    /// The state file of the first mirror.
    pub first: &'a str,
    /// The state file of the second mirror.
    pub second: &'a str,
}

// The text of the long help: input, output, statuses, faults and an example.
const HELP: &str = "\
What B holds is taken into A. T may be A or B. A state of version 1 is written as version 2.

Exit status: 0 done, 1 a fault, 2 a usage error.
Faults of O, K, A, B and T: see 'tlogmirror --help'. A is read before B. Then:
  Collision  two different strings share a digest: nothing was taken; keep both files

Example: tlogmirror merge --origin log.example --keys keys --out both here there";

/// The command line.
pub const LINE: CommandLine<'static> = CommandLine {
    name: "merge",
    about: "Makes one mirror of two, and writes its state",
    help: HELP,
    base: Base::Output,
    arguments: &[
        Argument::Place("a", "A", "The file of the first state"),
        Argument::Place("b", "B", "The file of the state that is taken into it"),
    ],
};

/// Reads the command from its options.
pub fn read<'a>(found: &ArgMatches<'a>, refusals: &mut Refusals) -> Command<'a>
    ensures { JudgesPart (IsSaid (codes "merge") (rows_of (found_of found.now))) refusals.old
        refusals.new result }
{
    let mirror = output_args(found, refusals);
    let first = word_of(found, "a", refusals);
    let second = word_of(found, "b", refusals);
    Command::State(StateCommand::Merge(Merge {
        mirror,
        first,
        second,
    }))
}
