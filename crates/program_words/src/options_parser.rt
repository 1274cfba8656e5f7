//! Makes the parser of a command from its command line: its name, its help, and a table of its arguments.
ghost use Rattle.std.specs.Prelude.{◌≡◌, IfOk, Some, false, map};
ghost use Rattle.clap.specs.Words.{App, new_app, rule_of, with_rule};
ghost use Rattle.program_words.specs.Parser.{IsParserOf, argument_of, base_rules, line_app, with_rules};
ghost use Rattle.program_words.specs.App.{argument_rule, choice_rule, flag_rule};

use crate::{Argument, Base, CommandLine, ORIGIN, WHY};
use clap::{Arg, ArgAction};
use std::alloc::{AllocError, Global};

// The key file of the log, for each command over a log.
const KEYS: Argument<'static> = Argument::Option(
    "keys",
    "K",
    "The file of the keys that its checkpoints are opened with",
);

// The state file, for each command over a mirror in a file.
const STATE: Argument<'static> = Argument::Option("state", "S", "The file of the mirror's state");

// The state file, for each command over a state or a copy.
const STATE_OR_DIR: Argument<'static> = Argument::Choice(
    "state",
    "S",
    "The file of the mirror's state; this or --dir is given",
);

// The folder, for each command over a state or a copy.
const DIR_OR_STATE: Argument<'static> = Argument::Choice(
    "dir",
    "D",
    "The folder of a copy, as 'follow' makes it; this or --state is given",
);

// The file for the new state, for each command that writes a state.
const OUT: Argument<'static> = Argument::Option(
    "out",
    "T",
    "The file that the mirror's state is written to, whole or not at all",
);

// The text after the options in the help of a command for `-h`.
const SHORT: &str = "\
'--help' tells what is read and written, the statuses, the faults and an example.";

// An argument with one value or with many.
fn valued<'a>(
    alloc: Global,
    name: &'a str,
    value: &'a str,
    help: &'a str,
    action: ArgAction,
) -> Arg<'a>
    ensures rule { rule_of result ≡ record (argument_rule name.entry.now) { action = Some action } }
    ensures local { result.global ≡ false }
{
    Arg::new(alloc, name)
        .value_name(value)
        .help(help)
        .action(action)
}

// An option with a value, which may be missing.
fn choice_of<'a>(alloc: Global, name: &'a str, value: &'a str, help: &'a str) -> Arg<'a>
    ensures rule { rule_of result ≡ choice_rule name.entry.now }
    ensures local { result.global ≡ false }
{
    valued(alloc, name, value, help, ArgAction::Set).long(name)
}

// An option without a value.
fn flag_of<'a>(alloc: Global, name: &'a str, help: &'a str) -> Arg<'a>
    ensures rule { rule_of result ≡ flag_rule name.entry.now }
    ensures local { result.global ≡ false }
{
    Arg::new(alloc, name)
        .help(help)
        .long(name)
        .action(ArgAction::SetTrue)
}

// The argument, as `clap` describes it.
fn arg_of<'a>(alloc: Global, given: &Argument<'a>) -> Arg<'a>
    ensures rule { rule_of result ≡ argument_of given.now }
    ensures local { result.global ≡ false }
{
    match *given {
        Argument::Option(name, value, help) => choice_of(alloc, name, value, help).required(true),
        Argument::Choice(name, value, help) => choice_of(alloc, name, value, help),
        Argument::Flag(name, help) => flag_of(alloc, name, help),
        Argument::Place(name, value, help) => {
            valued(alloc, name, value, help, ArgAction::Set).required(true)
        }
        Argument::List(name, value, help) => valued(alloc, name, value, help, ArgAction::Append),
        Argument::Words(name, value, help) => {
            valued(alloc, name, value, help, ArgAction::Append).required(true)
        }
    }
}

// The arguments that commands share, as a table.
fn base_of(base: Base) -> &'static [Argument<'static>]
    ensures { map argument_of result.now ≡ base_rules base }
{
    match base {
        Base::Nothing => &[],
        Base::Log => &[ORIGIN, KEYS, WHY],
        Base::State => &[ORIGIN, KEYS, WHY, STATE],
        Base::StateOrCopy => &[ORIGIN, KEYS, WHY, STATE_OR_DIR, DIR_OR_STATE],
        Base::Output => &[ORIGIN, KEYS, WHY, OUT],
    }
}

// The parser with one more argument, unless it is an error.
fn with_argument<'a>(
    alloc: Global,
    parser: Result<clap::Command<'a>, AllocError>,
    given: &Argument<'a>,
) -> Result<clap::Command<'a>, AllocError>
    ensures { (a : App) → IfOk parser.entry (IsParserOf a)
        → IfOk result (IsParserOf (with_rule a (argument_of given.now))) }
{
    match parser {
        Ok(parser) => parser.arg(arg_of(alloc, given)),
        Err(fault) => Err(fault),
    }
}

// The parser with these additional arguments, in order, unless it is an error.
fn with_arguments<'a>(
    alloc: Global,
    parser: Result<clap::Command<'a>, AllocError>,
    arguments: &[Argument<'a>],
) -> Result<clap::Command<'a>, AllocError>
    ensures { (a : App) → IfOk parser.entry (IsParserOf a)
        → IfOk result (IsParserOf (with_rules a (map argument_of arguments.now))) }
{
    let mut made = parser;
    for given in arguments {
        made = with_argument(alloc, made, given);
    }
    made
}

// The parser of a command, without arguments.
fn command<'a>(alloc: Global, line: &CommandLine<'a>) -> clap::Command<'a>
    ensures { IsParserOf (new_app line.now.name.now) result }
{
    clap::Command::new(alloc, line.name)
        .about(line.about)
        .after_help(SHORT)
        .after_long_help(line.help)
}

/// The parser of a command line.
pub(crate) fn parser_of<'a>(
    alloc: Global,
    line: &CommandLine<'a>,
) -> Result<clap::Command<'a>, AllocError>
    ensures { IfOk result (IsParserOf (line_app line.now)) }
{
    let with_base = with_arguments(alloc, Ok(command(alloc, line)), base_of(line.base));
    with_arguments(alloc, with_base, line.arguments)
}
