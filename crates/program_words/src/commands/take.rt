//! `take`: takes files into a mirror.
ghost use Rattle.std.specs.Prelude.{◌≡◌, ◌↔◌, List, ℕ, IsTrue, codes, length, map};
ghost use Rattle.clap.specs.Words.{first_of, found_of, rows_of};
ghost use Rattle.program_words.specs.Commands.{AreFiles, Given, IsCount, IsTakeWidth, kind_name};
ghost use Rattle.program_words.specs.Spelling.{FindsPart};
ghost use Rattle.program_words.specs.Refusals.{JudgesPart};
ghost use Rattle.program_words.specs.Readings.{AreFilesOf, IsSaid};

use crate::bad::BadWord;
use crate::commands::{Command, StateCommand};
use crate::line::{Argument, Base, CommandLine, FIRST_STATE};
use crate::number::number_in;
use crate::parts::{OutputArgs, files_of, output_args, word_given};
use crate::refusals::Refusals;
use clap::ArgMatches;
use std::alloc::Global;

/// The kind of item in the files.
#[derive(Drop, Clone, Copy)]
pub enum Kind {
    /// A signed note, and the rows of its tree's right edge.
    Head,
    /// A tile of hashes.
    Tile,
    /// An entry bundle.
    Bundle,
}

/// `take`: takes files into a mirror.
#[derive(Drop)]
pub struct Take<'a> {
    /// The mirror after the take.
    pub mirror: OutputArgs<'a>,
    /// The state file to begin with, or None for an empty mirror.
    pub state: Option<&'a str>,
    /// The number of hashes or entries in the file, 1 to 256.
    pub width: u32,
    /// The kind of item in the files.
    pub kind: Kind,
    /// The files: one, or at least one for a head.
    pub files: Vec<&'a str>,
}

// The text of the long help: input, output, statuses, faults and an example.
const HELP: &str = "\
A head is a signed note, and then the rows of hashes at the right edge of its tree, lowest level
first. A tile is W hashes, a bundle is W entries. Nothing is written where something is refused.

Exit status: 0 done, 1 a fault, 2 a usage error, or a bad value (BadArgument).
Faults of O, K, S and T: see 'tlogmirror --help'. Of the files:
  FileFault           one of them cannot be read, or has over 16,777,472 bytes
  NoteTooLong, NotText, NoSignatures, TooManySignatures, BadSignatureLine
                      the first file is no signed note
  TooFewLines, EmptyLine, BadSize, SizeTooLarge, BadRoot
                      the note is no checkpoint
  OtherOrigin         S or the checkpoint is of another log
  NoTrustedSignature  no key of K signed the note: add the log's key or a pin
  EdgeCount, EdgeLength, EdgeMismatch
                      the rows are not those of the note's tree
  RowLength           the tile is not W hashes: give its own width
  BundleShort, BundleLong
                      the bundle is not W entries: give its own width
  Collision           two different strings share a digest: nothing was taken; keep S and the files

Example: tlogmirror take --origin log.example --keys keys --out state bundle log/tile/entries/000.p/3 --width 3";

/// The command line.
pub const LINE: CommandLine<'static> = CommandLine {
    name: "take",
    about: "Takes what files hold into a mirror, and writes the mirror's state",
    help: HELP,
    base: Base::Output,
    arguments: &[
        FIRST_STATE,
        Argument::Choice(
            "width",
            "W",
            "How many hashes or entries the file has, 1 to 256; 256 where it is left out",
        ),
        Argument::Place("kind", "KIND", "What the files hold: head, tile or bundle"),
        Argument::List(
            "file",
            "FILE",
            "The files: one; for a head the note, then the edge rows",
        ),
    ],
};

// The kind of item that the option names.
fn kind_of(found: &ArgMatches<'_>) -> Option<Kind>
    ensures { FindsPart (λ kind. Given (rows_of (found_of found.now)) (codes "kind")
        (kind_name kind)) result }
{
    match word_given(found, "kind")? {
        "head" => Some(Kind::Head),
        "tile" => Some(Kind::Tile),
        "bundle" => Some(Kind::Bundle),
        _ => None,
    }
}

// The kind of item from the options. If it is none, the word is noted as bad.
fn kind_given(found: &ArgMatches<'_>, refusals: &mut Refusals) -> Kind
    ensures part { JudgesPart (λ kind. Given (rows_of (found_of found.now)) (codes "kind")
        (kind_name kind)) refusals.old refusals.new result }
    ensures one { (k : Kind) → Given (rows_of (found_of found.now)) (codes "kind") (kind_name k)
        → result ≡ k }
{
    match kind_of(found) {
        Some(kind) => kind,
        None => {
            refusals.note(BadWord::new("KIND", "head, tile or bundle is due"));
            Kind::Head
        }
    }
}

// The number from 1 to 256 that the option spells, or 256 if the option is missing.
fn width_given(found: &ArgMatches<'_>) -> Option<u64>
    ensures { FindsPart (IsTakeWidth (first_of (codes "width") (rows_of (found_of found.now))))
        result }
{
    match found.get_str("width") {
        Some(word) => number_in(word, 1, 256),
        None => Some(256),
    }
}

// Reads the width from the options.
fn width_of(found: &ArgMatches<'_>, refusals: &mut Refusals) -> u32
    ensures { JudgesPart (IsTakeWidth (first_of (codes "width") (rows_of (found_of found.now))))
        refusals.old refusals.new result }
{
    match width_given(found) {
        Some(width) => width as u32,
        None => {
            refusals.note(BadWord::new("--width", "a number from 1 to 256 is due"));
            256
        }
    }
}

// Whether the number of files is possible for the kind.
fn is_count(kind: Kind, count: usize) -> bool
    ensures { IsTrue result ↔ IsCount kind count }
{
    match kind {
        Kind::Head => count >= 1,
        Kind::Tile | Kind::Bundle => count == 1,
    }
}

// The text for the number of files that the kind requires.
fn count_due(kind: Kind) -> &'static str {
    match kind {
        Kind::Head => "one or more are due",
        Kind::Tile | Kind::Bundle => "one is due",
    }
}

// The number of named files.
fn count_of(found: &ArgMatches<'_>) -> usize
    ensures { (files : List (List ℕ)) → AreFiles (rows_of (found_of found.now)) files
        → result ≡ length files }
{
    match found.get_strs("file") {
        Some(files) => files.len(),
        None => 0,
    }
}

// The named files. If their number is not possible for the kind, the word is noted as bad.
fn files_given<'a>(
    alloc: Global,
    found: &ArgMatches<'a>,
    kind: Kind,
    refusals: &mut Refusals,
) -> Vec<&'a str>
    ensures { JudgesPart (AreFilesOf kind (rows_of (found_of found.now))) refusals.old refusals.new
        (map (λ f. f.now) result.items) }
{
    if is_count(kind, count_of(found)) {
        files_of(alloc, found, refusals)
    } else {
        refusals.note(BadWord::new("FILE", count_due(kind)));
        Vec::new(alloc)
    }
}

/// Reads the command from its options.
pub fn read<'a>(alloc: Global, found: &ArgMatches<'a>, refusals: &mut Refusals) -> Command<'a>
    ensures { JudgesPart (IsSaid (codes "take") (rows_of (found_of found.now))) refusals.old
        refusals.new result }
{
    let mirror = output_args(found, refusals);
    let state = found.get_str("state");
    let width = width_of(found, refusals);
    let kind = kind_given(found, refusals);
    let files = files_given(alloc, found, kind, refusals);
    Command::State(StateCommand::Take(Take {
        mirror,
        state,
        width,
        kind,
        files,
    }))
}
