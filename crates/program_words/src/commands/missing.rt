//! `missing`: prints the paths that the tree of a head lacks.
ghost use Rattle.std.specs.Prelude.{codes};
ghost use Rattle.clap.specs.Words.{found_of, rows_of};
ghost use Rattle.program_words.specs.Commands.{IsRootGiven};
ghost use Rattle.program_words.specs.Spelling.{FindsPart};
ghost use Rattle.program_words.specs.Refusals.{JudgesPart};
ghost use Rattle.program_words.specs.Readings.{IsSaid};

use crate::bad::BadWord;
use crate::commands::{Command, ReportCommand};
use crate::line::{Argument, Base, CommandLine};
use crate::parts::{StateArgs, size_of, state_args};
use crate::refusals::Refusals;
use clap::ArgMatches;
use tlog_hash::Hash;
use tlog_text::read_hash;

/// `missing`: prints the paths that the tree of a head lacks.
#[derive(Drop, Clone, Copy)]
pub struct Missing<'a> {
    /// The mirror.
    pub mirror: StateArgs<'a>,
    /// The head's size.
    pub size: u64,
    /// The head's root.
    pub root: Hash,
}

// The text of the long help: input, output, statuses, faults and an example.
const HELP: &str = "\
The output is one path a line, as a log publishes them; none where the checkpoint is complete.

Exit status: 0 nothing is missing, 3 something is, 1 a fault, 2 a usage error, or a bad value
(BadArgument).
Faults of O, K and S: see 'tlogmirror --help'. Then:
  NoSuchHead  no checkpoint has that size and root: 'status' prints those that are held

Example: tlogmirror missing --origin log.example --keys keys --state state --size 3 --root ROOT";

/// The command line.
pub const LINE: CommandLine<'static> = CommandLine {
    name: "missing",
    about: "Prints the paths that a checkpoint's tree lacks",
    help: HELP,
    base: Base::State,
    arguments: &[
        Argument::Option("size", "N", "The checkpoint's size"),
        Argument::Option("root", "ROOT", "The checkpoint's root, in base64"),
    ],
};

// The root that the option spells, if it is a hash.
fn root_given(found: &ArgMatches<'_>) -> Option<Hash>
    ensures { FindsPart (IsRootGiven (rows_of (found_of found.now))) result }
{
    match found.get_str("root") {
        Some(word) => read_hash(word),
        None => None,
    }
}

// The root from the options. If it is no hash, the word is noted as bad.
fn root_of(found: &ArgMatches<'_>, refusals: &mut Refusals) -> Hash
    ensures { JudgesPart (IsRootGiven (rows_of (found_of found.now))) refusals.old refusals.new
        result }
{
    match root_given(found) {
        Some(root) => root,
        None => {
            refusals.note(BadWord::new("--root", "a hash in base64 is due"));
            [0; 32]
        }
    }
}

/// Reads the command from its options.
pub fn read<'a>(found: &ArgMatches<'a>, refusals: &mut Refusals) -> Command<'a>
    ensures { JudgesPart (IsSaid (codes "missing") (rows_of (found_of found.now))) refusals.old
        refusals.new result }
{
    let mirror = state_args(found, refusals);
    let size = size_of(found, "size", "--size", refusals);
    let root = root_of(found, refusals);
    Command::Report(ReportCommand::Missing(Missing { mirror, size, root }))
}
