//! Makes the parser of the program from the command lines of commands.
ghost use Rattle.std.specs.Prelude.{IfOk, map};
ghost use Rattle.clap.specs.Words.{App, with_subcommand};
ghost use Rattle.program_words.specs.Parser.{IsParserOf, line_app};
ghost use Rattle.program_words.specs.Program.{named_app, program_app, with_commands};

use crate::CommandLine;
use crate::commands::{PROGRAM, VERSION};
use crate::options_parser::parser_of;
use std::alloc::{AllocError, Global};

// The parser of the program, with its name, its help and its version.
fn named_parser<'a>(alloc: Global) -> Result<clap::Command<'a>, AllocError>
    ensures { IfOk result (IsParserOf named_app) }
{
    clap::Command::new(alloc, "tlogmirror")
        .override_help(PROGRAM)
        .version(VERSION)
        .bin_name("tlogmirror")
}

/// The parser of the program, without commands.
pub(crate) fn program_parser<'a>(alloc: Global) -> Result<clap::Command<'a>, AllocError>
    ensures { IfOk result (IsParserOf program_app) }
{
    let program = named_parser(alloc)?
        .no_binary_name(true)
        .subcommand_required(true)
        .disable_help_subcommand(true);
    Ok(program)
}

// The parser with one more subcommand, unless it is an error.
fn with_command<'a>(
    alloc: Global,
    parser: Result<clap::Command<'a>, AllocError>,
    line: &CommandLine<'a>,
) -> Result<clap::Command<'a>, AllocError>
    ensures { (a : App) → IfOk parser.entry (IsParserOf a)
        → IfOk result (IsParserOf (with_subcommand a (line_app line.now).top)) }
{
    match parser {
        Ok(parser) => match parser_of(alloc, line) {
            Ok(below) => parser.subcommand(below),
            Err(fault) => {
                // `drop` is one step for the checker.
                drop(parser);
                Err(fault)
            }
        },
        Err(fault) => Err(fault),
    }
}

/// The parser with these subcommands, in order, unless it is an error.
pub(crate) fn with_commands<'a>(
    alloc: Global,
    parser: Result<clap::Command<'a>, AllocError>,
    lines: &[&CommandLine<'a>],
) -> Result<clap::Command<'a>, AllocError>
    ensures { (a : App) → IfOk parser.entry (IsParserOf a)
        → IfOk result (IsParserOf (with_commands a (map (λ line. line_app line.now) lines.now))) }
{
    let mut made = parser;
    for &line in lines {
        made = with_command(alloc, made, line);
    }
    made
}
