//! The end of the program: its exit status, and its last text.
ghost use Rattle.std.specs.Prelude.{◌≡◌, IfOk, string_bytes};
ghost use Rattle.program_library.specs.Endings.{PrintsEnding, IsFaultLine, PrintsRun, message_bytes};

use crate::fault::RunFault;
use byte_streams::write_whole;
use program_io::write_front;
use program_words::CommandFault;
use std::alloc::{AllocError, Global};
use std::io::Write;

/// One of the two streams that the program writes to.
#[derive(Debug, PartialEq, Eq, Clone, Copy)]
pub enum Stream {
    /// Standard output.
    Output,
    /// Standard error.
    Errors,
}

/// A text that was allocated, or a fixed one.
#[derive(Debug, Drop)]
pub enum Message {
    /// A text of `clap`, or the line of a fault.
    Made(String),
    /// A fixed text of the program.
    Fixed(&'static str),
}

impl Message {
    /// The bytes of the text.
    pub fn as_bytes(&self) -> &[u8]
        ensures { result.now ≡ message_bytes self.now }
    {
        match self {
            Message::Made(text) => text.as_bytes(),
            Message::Fixed(text) => text.as_bytes(),
        }
    }
}

/// The end of the program.
#[derive(Debug, Drop)]
pub struct ProgramEnd {
    /// The exit status: 0 success, 1 a fault, 2 words that cannot be carried out, 3 the answer no.
    pub status: u8,
    /// The stream for the text.
    pub stream: Stream,
    /// The text after the output of the command.
    pub text: Message,
}

// The line `tlogmirror: NAME`, with the name of the fault.
fn line_made(alloc: Global, fault: &RunFault) -> Result<String, AllocError>
    ensures { IfOk result (λ line. IsFaultLine (string_bytes line)) }
{
    let name = fault.to_string(alloc)?;
    format!(in alloc; "tlogmirror: {name}\n")
}

// The line of the fault. If there is no memory for it, the line of `OutOfMemory`.
fn line_of(alloc: Global, fault: &RunFault) -> Message
    ensures { IsFaultLine (message_bytes result) }
{
    match line_made(alloc, fault) {
        Ok(line) => Message::Made(line),
        Err(_) => Message::Fixed("tlogmirror: OutOfMemory\n"),
    }
}

/// How the program ends after this answer of a run.
///
/// Help goes to standard output. What `clap` says about wrong words goes to standard error. Each other
/// fault gives one line on standard error: `tlogmirror: ` and the name of the fault, or `OutOfMemory` if
/// there is no memory for that line.
pub fn ending_of(alloc: Global, answer: Result<u8, RunFault>) -> ProgramEnd
    ensures { PrintsRun answer result }
{
    let (status, stream, text) = match answer {
        Ok(status) => (status, Stream::Output, Message::Fixed("")),
        Err(RunFault::Command(CommandFault::Help(help))) => (
            0,
            Stream::Output,
            Message::Made(help),
        ),
        Err(RunFault::Command(CommandFault::Words(why))) => (2, Stream::Errors, Message::Made(why)),
        Err(RunFault::Command(CommandFault::BadArgument)) => (
            2,
            Stream::Errors,
            Message::Fixed("tlogmirror: BadArgument\n"),
        ),
        Err(fault) => (1, Stream::Errors, line_of(alloc, &fault)),
    };
    ProgramEnd {
        status,
        stream,
        text,
    }
}

/// Writes the text to its stream, and returns the exit status.
///
/// If help cannot be written, that is a fault: `tlogmirror: WriteFault` on standard error, status 1.
/// If the line of a fault cannot be written, the status does not change.
pub fn print_ending<O: Write, E: Write>(ending: &ProgramEnd, output: &mut O, errors: &mut E) -> u8
    ensures { PrintsEnding ending.now result (O.contents output.old) (O.contents output.new)
        (E.contents errors.old) (E.contents errors.new) }
{
    let text = ending.text.as_bytes();
    match ending.stream {
        Stream::Output => match write_whole(output, text) {
            Ok(()) => ending.status,
            Err(_) => {
                write_front(errors, b"tlogmirror: WriteFault\n");
                1
            }
        },
        Stream::Errors => {
            write_front(errors, text);
            ending.status
        }
    }
}
