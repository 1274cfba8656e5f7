//! The list of the commands: the parser of all of them, and the reader of each.
ghost use Rattle.std.specs.Prelude.{IfOk};
ghost use Rattle.clap.specs.Words.{found_of, rows_of};
ghost use Rattle.program_words.specs.Refusals.{JudgesPart};
ghost use Rattle.program_words.specs.Readings.{IsSaid};
ghost use Rattle.program_words.specs.LineLaws.{IsOneOf};
ghost use Rattle.program_words.specs.Parser.{IsParserOf};
ghost use Rattle.program_words.specs.Program.{first_app, first_names, mirror_app, second_app, second_names};

use crate::commands::{
    audit, build, check, compare, entries, export, follow, forks, merge, missing, notes, prove,
    pull, root, serve, status, take,
};
use crate::program::{program_parser, with_commands};
use crate::{BadWord, Command, Refusals, ReportCommand};
use clap::ArgMatches;
use std::alloc::{AllocError, Global};

// The parser of the program, with the first of its commands: in three parts they are checked in less time than at once.
fn first_parser<'a>(alloc: Global) -> Result<clap::Command<'a>, AllocError>
    ensures { IfOk result (IsParserOf first_app) }
{
    // Arrays in the bodies, not constants: for one of all of them the checker reaches its limit, and three take it longer.
    let lines = [
        &root::LINE,
        &check::LINE,
        &build::LINE,
        &take::LINE,
        &merge::LINE,
        &pull::LINE,
    ];
    with_commands(alloc, program_parser(alloc), &lines)
}

// The same with the next commands.
fn second_parser<'a>(alloc: Global) -> Result<clap::Command<'a>, AllocError>
    ensures { IfOk result (IsParserOf second_app) }
{
    let lines = [
        &follow::LINE,
        &audit::LINE,
        &status::LINE,
        &missing::LINE,
        &forks::LINE,
        &compare::LINE,
    ];
    with_commands(alloc, first_parser(alloc), &lines)
}

/// The parser of the program's command line.
pub(crate) fn parser<'a>(alloc: Global) -> Result<clap::Command<'a>, AllocError>
    ensures { IfOk result (IsParserOf mirror_app) }
{
    let lines = [
        &prove::LINE,
        &entries::LINE,
        &export::LINE,
        &notes::LINE,
        &serve::LINE,
    ];
    with_commands(alloc, second_parser(alloc), &lines)
}

/// Reads the command of this name from its options. In three parts its match is checked in half the time.
pub(crate) fn command_of<'a>(
    alloc: Global,
    name: &str,
    found: &ArgMatches<'a>,
    refusals: &mut Refusals,
) -> Command<'a>
    ensures { JudgesPart (IsSaid name.now (rows_of (found_of found.now))) refusals.old refusals.new
        result }
{
    match name {
        "root" => root::read(found, refusals),
        "check" => check::read(found, refusals),
        "build" => build::read(found, refusals),
        "take" => take::read(alloc, found, refusals),
        "merge" => merge::read(found, refusals),
        "pull" => pull::read(alloc, found, refusals),
        _ => second_command(alloc, name, found, refusals),
    }
}

// Reads the command of this name, which is none of the first.
fn second_command<'a>(
    alloc: Global,
    name: &str,
    found: &ArgMatches<'a>,
    refusals: &mut Refusals,
) -> Command<'a>
    requires { ¬ IsOneOf first_names name.now }
    ensures { JudgesPart (IsSaid name.now (rows_of (found_of found.now))) refusals.old refusals.new
        result }
{
    match name {
        "follow" => follow::read(alloc, found, refusals),
        "audit" => audit::read(alloc, found, refusals),
        "status" => status::read(found, refusals),
        "missing" => missing::read(found, refusals),
        "forks" => forks::read(found, refusals),
        "compare" => compare::read(alloc, found, refusals),
        _ => third_command(name, found, refusals),
    }
}

// Reads the command of this name, which is none of the first or the second.
fn third_command<'a>(name: &str, found: &ArgMatches<'a>, refusals: &mut Refusals) -> Command<'a>
    requires { ¬ IsOneOf second_names name.now }
    ensures { JudgesPart (IsSaid name.now (rows_of (found_of found.now))) refusals.old refusals.new
        result }
{
    match name {
        "prove" => prove::read(found, refusals),
        "entries" => entries::read(found, refusals),
        "export" => export::read(found, refusals),
        "notes" => notes::read(found, refusals),
        "serve" => serve::read(found, refusals),
        // It never gets here: words in which `clap` finds no fault name a command.
        _ => {
            refusals.note(BadWord::new("COMMAND", "one of those of the help is due"));
            Command::Report(ReportCommand::Check)
        }
    }
}
