//! `compare`: compares checkpoints with the served one of a mirror, or with a copy.
ghost use Rattle.std.specs.Prelude.{codes};
ghost use Rattle.clap.specs.Words.{found_of, rows_of};
ghost use Rattle.program_words.specs.Refusals.{JudgesPart};
ghost use Rattle.program_words.specs.Readings.{IsSaid};

use crate::commands::{Command, CopyCommand, ReportCommand};
use crate::line::{Argument, Base, CommandLine};
use crate::parts::{CopyArgs, Source, StateArgs, files_of, source_of};
use crate::refusals::Refusals;
use clap::ArgMatches;
use std::alloc::Global;

/// `compare --state`: compares checkpoints with the served one.
#[derive(Drop)]
pub struct Compare<'a> {
    /// The mirror.
    pub mirror: StateArgs<'a>,
    /// The files of the notes to compare. If it is empty, the checkpoints that the mirror holds are compared.
    pub files: Vec<&'a str>,
}

/// `compare --dir`: compares checkpoints with a copy.
#[derive(Drop)]
pub struct CopyCompare<'a> {
    /// The copy.
    pub copy: CopyArgs<'a>,
    /// The files of the notes to compare. If it is empty, the copy's own checkpoint is compared.
    pub files: Vec<&'a str>,
}

// The text of the long help: input, output, statuses, faults and an example.
const HELP: &str = "\
The output is a line for each checkpoint, of those in S by size, or of the FILEs in their order:
'same SIZE ROOT' where as many of the served entries have its root, 'fork SIZE ROOT OWN' where they
have another, OWN, and 'larger SIZE ROOT' where fewer are served. A FILE is a signed note alone. A fork
is the operator's doing: keep the note, and 'prove consistency SIZE N', whose first root is OWN.
With no FILE the one checkpoint of D is compared, which is 'same'.

Exit status: 0 all are the same, 3 one is a fork or larger, 1 a fault, 2 a usage error.
Faults of O, K, S and D: see 'tlogmirror --help'. Besides, on standard error:
  NoteTooLong, NotText, NoSignatures, TooManySignatures, BadSignatureLine
                      a FILE is no signed note
  TooFewLines, EmptyLine, BadSize, SizeTooLarge, BadRoot
                      the note is no checkpoint
  OtherOrigin         S or the checkpoint of a FILE is of another log
  NoTrustedSignature  no key of K signed the note: add the log's key or a pin
  NothingComplete     no checkpoint is complete: pull what is missing first, or follow the log

Example: tlogmirror compare --origin log.example --keys keys --state state other.note";

/// The command line.
pub const LINE: CommandLine<'static> = CommandLine {
    name: "compare",
    about: "Prints which checkpoints contradict the served one, also those without entries",
    help: HELP,
    base: Base::StateOrCopy,
    arguments: &[Argument::List(
        "file",
        "FILE",
        "The signed notes that are compared; those of the state where none is named",
    )],
};

/// Reads the command for a state or a copy from its options.
pub fn read<'a>(alloc: Global, found: &ArgMatches<'a>, refusals: &mut Refusals) -> Command<'a>
    ensures { JudgesPart (IsSaid (codes "compare") (rows_of (found_of found.now))) refusals.old
        refusals.new result }
{
    let source = source_of(found, refusals);
    let files = files_of(alloc, found, refusals);
    match source {
        Source::State(mirror) => Command::Report(ReportCommand::Compare(Compare { mirror, files })),
        Source::Copy(copy) => Command::Copy(CopyCommand::Compare(CopyCompare { copy, files })),
    }
}
