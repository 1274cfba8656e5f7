//! The output of `--why`: the thing that a fault is about, and what is wrong with it.
ghost use Rattle.program_io.specs.Whys.{PrintsLine, PrintsWhy};

use crate::failing::{Failed, RunFiles, RunFolders};
use crate::front::write_front;
use crate::{Cause, FailedName, NamedFault, StateFault, system_reason, why_line};
use mirror_client::{FailedGet, Reason};
use mirror_files::LoadFault;
use mirror_folders::FailedFile;
use std::alloc::{AllocError, Global};
use std::io;
use std::io::Write;
use tlog_mirror::NewFault;

/// The thing that a fault is about.
#[derive(Drop)]
pub enum Why {
    /// A thing by its name, and what is wrong with it. The reason is empty if no more is known.
    Thing { thing: String, reason: String },
    /// Standard input. The stream keeps its failure.
    Input,
    /// Standard output. The stream keeps its failure.
    Output,
}

/// The failures of the standard streams, if they are kept.
#[derive(Drop)]
pub struct FailedStreams {
    /// The failure of standard input.
    pub input: Option<Failed>,
    /// The failure of standard output.
    pub output: Option<Failed>,
}

impl FailedStreams {
    /// No failure is kept.
    pub fn none() -> FailedStreams {
        FailedStreams {
            input: None,
            output: None,
        }
    }
}

impl Why {
    /// Names a thing, without a reason.
    pub fn of_thing(alloc: Global, thing: &str) -> Option<Why> {
        Why::of_reason(alloc, thing, "")
    }

    /// The same for a name that was just made.
    pub fn of_made(alloc: Global, thing: Result<String, AllocError>) -> Option<Why> {
        match thing {
            Ok(thing) => Some(Why::Thing {
                thing,
                reason: String::new(alloc),
            }),
            Err(_) => None,
        }
    }

    /// Names a thing, and says what is wrong with it.
    pub fn of_reason(alloc: Global, thing: &str, reason: &str) -> Option<Why> {
        let Ok(thing) = String::from_str(alloc, thing) else {
            return None;
        };
        let Ok(reason) = String::from_str(alloc, reason) else {
            return None;
        };
        Some(Why::Thing { thing, reason })
    }

    // Names a thing, with an error of the system as the reason.
    fn of_error(
        alloc: Global,
        thing: Result<String, AllocError>,
        error: &io::Error,
    ) -> Option<Why> {
        let Ok(thing) = thing else {
            return None;
        };
        let Ok(reason) = system_reason(alloc, error) else {
            return None;
        };
        Some(Why::Thing { thing, reason })
    }

    /// Names what failed, with the reason. `whole` is the folder, place or stream that it belongs to; a named file has its own name.
    pub fn of_failed(alloc: Global, whole: &str, failed: Failed) -> Option<Why> {
        match failed {
            Failed::Name(failed) => of_name(alloc, failed),
            Failed::File(failed) => of_file(alloc, whole, &failed),
            Failed::Get(failed) => of_get(alloc, whole, &failed),
            Failed::Stream(error) => Why::of_error(alloc, String::from_str(alloc, whole), &error),
        }
    }

    /// Names a port that cannot be opened, or at which a connection was not accepted.
    pub fn of_port(alloc: Global, port: u16, error: &io::Error) -> Option<Why> {
        Why::of_error(alloc, format!(in alloc; "127.0.0.1:{port}"), error)
    }
}

// Names a file that was not read or written, or whose bytes are refused.
fn of_name(alloc: Global, failed: FailedName) -> Option<Why> {
    let FailedName { name, cause } = failed;
    if name.is_empty() {
        return Why::of_thing(alloc, "an empty name");
    }
    match cause {
        Cause::System(error) => Why::of_error(alloc, Ok(name), &error),
        Cause::Bytes(reason) => Some(Why::Thing {
            thing: name,
            reason,
        }),
    }
}

// Names a file of the log in this folder.
fn of_file(alloc: Global, folder: &str, failed: &FailedFile) -> Option<Why> {
    let path = failed.path;
    Why::of_error(alloc, format!(in alloc; "{folder}/{path}"), &failed.error)
}

// Names a file of the log at this place: a host, with the prefix of its paths.
fn of_get(alloc: Global, place: &str, failed: &FailedGet) -> Option<Why> {
    let path = failed.path;
    match &failed.reason {
        Reason::Connection(error) => {
            let host = host_of(place);
            Why::of_error(alloc, format!(in alloc; "no connection to {host}"), error)
        }
        Reason::Stream(error) => {
            Why::of_error(alloc, format!(in alloc; "GET http://{place}/{path}"), error)
        }
        reason => {
            let Ok(thing) = format!(in alloc; "GET http://{place}/{path}") else {
                return None;
            };
            let Ok(reason) = reason.to_string(alloc) else {
                return None;
            };
            Some(Why::Thing { thing, reason })
        }
    }
}

// The host of a place.
fn host_of(place: &str) -> &str {
    match place.split_once('/') {
        Some((host, _)) => host,
        None => place,
    }
}

/// Writes the line of `--why`, if the words ask for it and a thing is known. `streams` holds the failures of the standard streams.
#[tactic(auto, using(crate::proofs::Whys::nothing_recorded, crate::proofs::Whys::asked_recorded))]
pub fn print_why<E: Write>(
    alloc: Global,
    asked: bool,
    why: Option<Why>,
    streams: FailedStreams,
    errors: &mut E,
)
    ensures { PrintsWhy asked (E.contents errors.old) (E.contents errors.new) }
{
    if asked {
        if let Some(why) = why {
            print_line(alloc, why, streams, errors);
        }
    }
}

// Writes the line of a thing or of a standard stream.
#[tactic(auto, using(crate::proofs::Whys::no_line))]
fn print_line<E: Write>(alloc: Global, why: Why, streams: FailedStreams, errors: &mut E)
    ensures { PrintsLine (E.contents errors.old) (E.contents errors.new) }
{
    match why {
        Why::Thing { thing, reason } => write_why(alloc, &thing, &reason, errors),
        Why::Input => write_stream(alloc, "standard input", streams.input, errors),
        Why::Output => write_stream(alloc, "standard output", streams.output, errors),
    }
}

// Writes the line of a standard stream.
fn write_stream<E: Write>(alloc: Global, name: &str, failed: Option<Failed>, errors: &mut E)
    ensures { PrintsLine (E.contents errors.old) (E.contents errors.new) }
{
    match failed {
        Some(Failed::Stream(error)) => match system_reason(alloc, &error) {
            Ok(reason) => write_why(alloc, name, &reason, errors),
            Err(_) => write_why(alloc, name, "", errors),
        },
        _ => write_why(alloc, name, "", errors),
    }
}

// Writes the line, or a prefix of it if the stream fails. Writes nothing if there is no memory for the line.
#[tactic(auto, using(crate::proofs::Whys::no_line, crate::proofs::Whys::one_line))]
fn write_why<E: Write>(alloc: Global, thing: &str, reason: &str, errors: &mut E)
    ensures { PrintsLine (E.contents errors.old) (E.contents errors.new) }
{
    if let Ok(line) = why_line(alloc, thing, reason) {
        write_front(errors, line.as_bytes());
    }
}

/// Names the file that was not read or written, with the reason of the system.
pub fn of_named<F: RunFiles>(alloc: Global, files: &F, fault: NamedFault) -> Option<Why> {
    match fault {
        NamedFault::FileFault => Why::of_failed(alloc, "", files.last_failed()?),
        NamedFault::OutOfMemory => None,
    }
}

/// Names the file of a log's folder that failed, with the reason of the system.
pub fn of_folder<D: RunFolders>(alloc: Global, folders: &D, folder: &str) -> Option<Why> {
    Why::of_failed(alloc, folder, folders.last_failed()?)
}

/// Names the cause of a state fault: the origin, the file that was not read, or the file whose bytes are no state. The reason
/// then says which of its notes is refused.
pub fn of_state<F: RunFiles>(
    alloc: Global,
    files: &F,
    name: Option<&str>,
    fault: StateFault,
) -> Option<Why> {
    match fault {
        StateFault::Origin(fault) => of_origin(alloc, fault),
        StateFault::File(fault) => of_named(alloc, files, fault),
        StateFault::Load(LoadFault::OutOfMemory) => None,
        StateFault::Load(_) => match files.last_failed() {
            Some(failed) => Why::of_failed(alloc, "", failed),
            None => Why::of_thing(alloc, name?),
        },
    }
}

/// Names the option `--origin` if its value is refused.
pub fn of_origin(alloc: Global, fault: NewFault) -> Option<Why> {
    match fault {
        NewFault::BadOrigin => Why::of_thing(alloc, "--origin"),
        NewFault::OutOfMemory => None,
    }
}
