//! `root`: prints the tree hash of the entry bundle on standard input.
ghost use Rattle.std.specs.Prelude.{codes};
ghost use Rattle.clap.specs.Words.{found_of, rows_of};
ghost use Rattle.program_words.specs.Commands.{HasNumber};
ghost use Rattle.program_words.specs.Refusals.{JudgesPart};
ghost use Rattle.program_words.specs.Readings.{IsSaid};

use crate::bad::BadWord;
use crate::commands::{Command, ReportCommand};
use crate::line::{Argument, Base, CommandLine};
use crate::parts::number_of;
use crate::refusals::Refusals;
use clap::ArgMatches;

/// `root`: prints the tree hash of the entry bundle on standard input.
#[derive(Drop, Clone, Copy)]
pub struct Root {
    /// The number of entries in the bundle, 0 to 256.
    pub width: u32,
}

// The text of the long help: input, output, statuses, faults and an example.
const HELP: &str = "\
Each entry of the bundle is its length, two bytes with the higher first, and its bytes.
The output is the lines 'size W' and 'root ROOT', the tree hash in base64 (RFC 6962, section 2.1).

Exit status: 0 done, 1 a fault, 2 W is no number from 0 to 256 (BadArgument).
Faults, on standard error:
  BundleShort  the input ends before W entries do: give all of it, or its own width
  BundleLong   bytes follow the W entries: give the bundle alone, or its own width
  ReadFault    standard input could not be read
  WriteFault   standard output could not be written: a part may have been
  OutOfMemory  there is not enough memory for the bundle

Example: printf '\\0\\0' | tlogmirror root --width 1";

/// The command line.
pub const LINE: CommandLine<'static> = CommandLine {
    name: "root",
    about: "Reads an entry bundle from standard input, and prints its size and its tree hash",
    help: HELP,
    base: Base::Nothing,
    arguments: &[Argument::Option("width", "W", "How many entries the bundle has, 0 to 256")],
};

// Reads the number of entries from the options.
fn width_of(found: &ArgMatches<'_>, refusals: &mut Refusals) -> u32
    ensures { JudgesPart (HasNumber (rows_of (found_of found.now)) (codes "width") 0 256)
        refusals.old refusals.new result }
{
    match number_of(found, "width", 0, 256) {
        Some(width) => width as u32,
        None => {
            refusals.note(BadWord::new("--width", "a number from 0 to 256 is due"));
            0
        }
    }
}

/// Reads the command from its options.
pub fn read<'a>(found: &ArgMatches<'a>, refusals: &mut Refusals) -> Command<'a>
    ensures { JudgesPart (IsSaid (codes "root") (rows_of (found_of found.now))) refusals.old
        refusals.new result }
{
    let width = width_of(found, refusals);
    Command::Report(ReportCommand::Root(Root { width }))
}
