//! `entries`: writes a range of entries that a mirror serves, or that a copy has.
ghost use Rattle.std.specs.Prelude.{codes};
ghost use Rattle.clap.specs.Words.{found_of, rows_of};
ghost use Rattle.program_words.specs.Commands.{IsEntryRange};
ghost use Rattle.program_words.specs.Refusals.{JudgesPart};
ghost use Rattle.program_words.specs.Readings.{IsSaid};

use crate::commands::{Command, CopyCommand, ReportCommand};
use crate::line::{Argument, Base, CommandLine};
use crate::parts::{CopyArgs, Source, StateArgs, has_flag, size_of, source_of};
use crate::refusals::Refusals;
use clap::ArgMatches;

/// A range of entries and the format of the output.
#[derive(Drop, Clone, Copy)]
pub struct EntryRange {
    /// The index of the first entry. It may be greater than `to`; that is refused later.
    pub from: u64,
    /// The end of the range: one more than the index of the last entry.
    pub to: u64,
    /// Whether each entry is written as a line in base64.
    pub base64: bool,
}

/// `entries --state`: writes entries that a mirror serves.
#[derive(Drop, Clone, Copy)]
pub struct Entries<'a> {
    /// The mirror.
    pub mirror: StateArgs<'a>,
    /// The range.
    pub range: EntryRange,
}

/// `entries --dir`: writes entries of a copy.
#[derive(Drop, Clone, Copy)]
pub struct CopyEntries<'a> {
    /// The copy.
    pub copy: CopyArgs<'a>,
    /// The range.
    pub range: EntryRange,
}

// The text of the long help: input, output, statuses, faults and an example.
const HELP: &str = "\
The output is the served entries from FROM up to TO, without TO: each is its length, two bytes with the
higher first, and its bytes, as 'build' reads them. With --base64 each is a line. To read what is new
give the last TO as FROM, and the size that 'status' prints as TO.
Of a copy each bundle is verified before its entries are written.

Exit status: 0 done, 1 a fault, 2 a usage error, or a bad value (BadArgument).
Faults of O, K, S and D: see 'tlogmirror --help'. At CopyDamaged a part may have been written. Then:
  NothingComplete  no checkpoint is complete: pull what is missing first, or follow the log
  NoSuchSize       TO is greater than the served size
  Backwards        FROM is greater than TO: turn them round
  WriteFault       standard output could not be written: a part may have been

Example: tlogmirror entries --origin example.com/log --keys examples/log.keys --dir log 12 20";

/// The command line.
pub const LINE: CommandLine<'static> = CommandLine {
    name: "entries",
    about: "Writes a range of entries to standard output",
    help: HELP,
    base: Base::StateOrCopy,
    arguments: &[
        Argument::Flag("base64", "Write each entry as a line in base64"),
        Argument::Place("from", "FROM", "The index of the first entry, from 0 on"),
        Argument::Place("to", "TO", "The index behind the last entry"),
    ],
};

// Reads the range from the options.
fn range_of(found: &ArgMatches<'_>, refusals: &mut Refusals) -> EntryRange
    ensures { JudgesPart (IsEntryRange (rows_of (found_of found.now))) refusals.old refusals.new
        result }
{
    let from = size_of(found, "from", "FROM", refusals);
    let to = size_of(found, "to", "TO", refusals);
    let base64 = has_flag(found, "base64");
    EntryRange { from, to, base64 }
}

/// Reads the command for a state or a copy from its options.
pub fn read<'a>(found: &ArgMatches<'a>, refusals: &mut Refusals) -> Command<'a>
    ensures { JudgesPart (IsSaid (codes "entries") (rows_of (found_of found.now))) refusals.old
        refusals.new result }
{
    let source = source_of(found, refusals);
    let range = range_of(found, refusals);
    match source {
        Source::State(mirror) => Command::Report(ReportCommand::Entries(Entries { mirror, range })),
        Source::Copy(copy) => Command::Copy(CopyCommand::Entries(CopyEntries { copy, range })),
    }
}
