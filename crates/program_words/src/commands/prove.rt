//! `prove`: prints a proof about the entries that a mirror serves, or that a copy has.
ghost use Rattle.std.specs.Prelude.{codes};
ghost use Rattle.clap.specs.Words.{found_of, rows_of};
ghost use Rattle.program_words.specs.Commands.{Given, IsAskGiven};
ghost use Rattle.program_words.specs.Spelling.{FindsPart};
ghost use Rattle.program_words.specs.Refusals.{JudgesPart};
ghost use Rattle.program_words.specs.Readings.{IsSaid, proof_name};

use crate::bad::BadWord;
use crate::commands::{Command, CopyCommand, ReportCommand};
use crate::line::{Argument, Base, CommandLine};
use crate::parts::{CopyArgs, Source, StateArgs, size_of, source_of, word_given};
use crate::refusals::Refusals;
use clap::ArgMatches;
use tlog_proof::Ask;

/// `prove --state`: prints a proof about the served entries.
#[derive(Drop, Clone, Copy)]
pub struct Prove<'a> {
    /// The mirror.
    pub mirror: StateArgs<'a>,
    /// The requested proof.
    pub ask: Ask,
}

/// `prove --dir`: prints a proof about a copy.
#[derive(Drop, Clone, Copy)]
pub struct CopyProve<'a> {
    /// The copy.
    pub copy: CopyArgs<'a>,
    /// The requested proof.
    pub ask: Ask,
}

// The text of the long help: input, output, statuses, faults and an example.
const HELP: &str = "\
'inclusion SIZE INDEX' or 'consistency FIRST SECOND', of what the mirror serves. The output is the
proof's text, which 'check' reads. Of a copy it is checked against D's root before it is printed.

Exit status: 0 done, 1 a fault, 2 a usage error, or a bad value (BadArgument).
Faults of O, K, S and D: see 'tlogmirror --help'. Then:
  NothingComplete  no checkpoint is complete: pull what is missing first, or follow the log
  NoSuchSize       a size is greater than the served one
  NoSuchIndex      the index is not below the size
  FirstIsZero      the smaller size is 0: every tree begins with the empty one
  Backwards        the smaller size is the greater: turn them round

Example: tlogmirror prove --origin log.example --keys keys --state state inclusion 3 2";

/// The command line.
pub const LINE: CommandLine<'static> = CommandLine {
    name: "prove",
    about: "Prints a proof that an entry is in a tree, or that a tree is a prefix of another",
    help: HELP,
    base: Base::StateOrCopy,
    arguments: &[
        Argument::Place("kind", "KIND", "What is proved: inclusion or consistency"),
        Argument::Place("a", "A", "The tree's size, or the smaller size"),
        Argument::Place("b", "B", "The entry's index, or the greater size"),
    ],
};

// A kind of proof.
#[derive(Drop, Clone, Copy)]
enum ProofKind {
    /// An entry is in a tree.
    Inclusion,
    /// A tree is a prefix of another.
    Consistency,
}

// The kind of proof that the option names.
fn kind_of(found: &ArgMatches<'_>) -> Option<ProofKind>
    ensures { FindsPart (λ kind. Given (rows_of (found_of found.now)) (codes "kind")
        (proof_name kind)) result }
{
    match word_given(found, "kind")? {
        "inclusion" => Some(ProofKind::Inclusion),
        "consistency" => Some(ProofKind::Consistency),
        _ => None,
    }
}

// The kind of proof from the options. If it is none, the word is noted as bad.
fn kind_given(found: &ArgMatches<'_>, refusals: &mut Refusals) -> ProofKind
    ensures { JudgesPart (λ kind. Given (rows_of (found_of found.now)) (codes "kind")
        (proof_name kind)) refusals.old refusals.new result }
{
    match kind_of(found) {
        Some(kind) => kind,
        None => {
            refusals.note(BadWord::new("KIND", "inclusion or consistency is due"));
            ProofKind::Inclusion
        }
    }
}

// Reads the requested proof from the options.
fn ask_of(found: &ArgMatches<'_>, refusals: &mut Refusals) -> Ask
    ensures { JudgesPart (IsAskGiven (rows_of (found_of found.now))) refusals.old refusals.new
        result }
{
    let kind = kind_given(found, refusals);
    let a = size_of(found, "a", "A", refusals);
    let b = size_of(found, "b", "B", refusals);
    match kind {
        ProofKind::Inclusion => Ask::Inclusion { size: a, index: b },
        ProofKind::Consistency => Ask::Consistency {
            first: a,
            second: b,
        },
    }
}

/// Reads the command for a state or a copy from its options.
pub fn read<'a>(found: &ArgMatches<'a>, refusals: &mut Refusals) -> Command<'a>
    ensures { JudgesPart (IsSaid (codes "prove") (rows_of (found_of found.now))) refusals.old
        refusals.new result }
{
    let source = source_of(found, refusals);
    let ask = ask_of(found, refusals);
    match source {
        Source::State(mirror) => Command::Report(ReportCommand::Prove(Prove { mirror, ask })),
        Source::Copy(copy) => Command::Copy(CopyCommand::Prove(CopyProve { copy, ask })),
    }
}
