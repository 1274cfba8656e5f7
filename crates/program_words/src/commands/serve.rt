//! `serve`: answers over HTTP from a mirror or a copy.
ghost use Rattle.std.specs.Prelude.{codes};
ghost use Rattle.clap.specs.Words.{found_of, rows_of};
ghost use Rattle.program_words.specs.Commands.{HasNumber};
ghost use Rattle.program_words.specs.Refusals.{JudgesPart};
ghost use Rattle.program_words.specs.Readings.{IsSaid};

use crate::bad::BadWord;
use crate::commands::{Command, CopyCommand, ReportCommand};
use crate::line::{Argument, Base, CommandLine};
use crate::parts::{CopyArgs, Source, StateArgs, has_flag, number_of, size_of, source_of};
use crate::refusals::Refusals;
use clap::ArgMatches;

/// `serve --state`: answers over HTTP from a mirror.
#[derive(Drop, Clone, Copy)]
pub struct Serve<'a> {
    /// The mirror.
    pub mirror: StateArgs<'a>,
    /// The port to listen on, 1 to 65535.
    pub port: u16,
    /// The number of connections to answer.
    pub requests: u64,
}

/// `serve --dir`: answers over HTTP from a copy.
#[derive(Drop, Clone, Copy)]
pub struct CopyServe<'a> {
    /// The copy.
    pub copy: CopyArgs<'a>,
    /// The port to listen on, 1 to 65535.
    pub port: u16,
    /// The number of connections to answer.
    pub requests: u64,
    /// Whether a line names the file that a connection's fault is about.
    pub why: bool,
}

// The text of the long help: input, output, statuses, faults and an example.
const HELP: &str = "\
The output is 'listening 127.0.0.1:P' once connections are accepted. They are answered one after the
other, over plain HTTP; a fault of one is printed on standard error, and the next is answered.
The targets:
  /checkpoint, /tile/..              the files of the log, as it publishes them
  /mirror/status, /mirror/forks      what 'status' and 'forks' print
  /mirror/missing/SIZE/ROOT          what 'missing' prints, with ROOT in lower case hexadecimal
  /mirror/inclusion/SIZE/INDEX, /mirror/consistency/FIRST/SECOND
                                     what 'prove' prints
With --dir the checkpoint of D is read at each request, so D may be followed meanwhile. It has to open
under K, which is read again for a new one. Each file and proof is verified up to its root. Where a file
is missing, false or cannot be read, the reply has status 500; --why names the file.

Exit status: 0 done, 1 a fault, 2 a usage error, or a bad value (BadArgument).
Faults of O, K, S and D: see 'tlogmirror --help'. Those of D are printed at the request that meets
them. Then:
  PortFault  the port cannot be had: another program may have it

Example: tlogmirror serve --origin log.example --keys keys --state state --port 8080 --requests 100";

/// The command line.
pub const LINE: CommandLine<'static> = CommandLine {
    name: "serve",
    about: "Answers over plain HTTP what the mirror serves",
    help: HELP,
    base: Base::StateOrCopy,
    arguments: &[
        Argument::Option("port", "P", "The port on 127.0.0.1, 1 to 65535"),
        Argument::Option("requests", "N", "How many connections are answered"),
    ],
};

// Reads the port from the options.
fn port_of(found: &ArgMatches<'_>, refusals: &mut Refusals) -> u16
    ensures { JudgesPart (HasNumber (rows_of (found_of found.now)) (codes "port") 1 65535)
        refusals.old refusals.new result }
{
    match number_of(found, "port", 1, 65_535) {
        Some(port) => port as u16,
        None => {
            refusals.note(BadWord::new("--port", "a number from 1 to 65535 is due"));
            1
        }
    }
}

/// Reads the command for a state or a copy from its options.
pub fn read<'a>(found: &ArgMatches<'a>, refusals: &mut Refusals) -> Command<'a>
    ensures { JudgesPart (IsSaid (codes "serve") (rows_of (found_of found.now))) refusals.old
        refusals.new result }
{
    let source = source_of(found, refusals);
    let port = port_of(found, refusals);
    let requests = size_of(found, "requests", "--requests", refusals);
    let why = has_flag(found, "why");
    match source {
        Source::State(mirror) => Command::Report(ReportCommand::Serve(Serve {
            mirror,
            port,
            requests,
        })),
        Source::Copy(copy) => Command::Copy(CopyCommand::Serve(CopyServe {
            copy,
            port,
            requests,
            why,
        })),
    }
}
