//! The program: a mirror for one append-only transparency log in the C2SP tlog-tiles layout.
//!
//! `main` reads the words of the command line and runs the command with the standard streams (`run`). `ending_of` gives
//! its end: the name of a fault on standard error, and the exit status. Status 0 means success, 1 a fault, 2 a command line
//! that cannot be carried out, and 3 the answer no.
#![tactic(auto)]

use byte_streams::WatchedStream;
use program_io::{SystemFiles, SystemPlaces};
use program_library::{Env, RunFault, ending_of, print_ending, run, system_folders};
use program_words::CommandFault;
use std::fs::File;
use std::io::ErrorKind;
use std::process::ExitCode;
use std::{env, io};

fn main(rt: HostRuntime) -> ExitCode {
    let streams = [directory(&rt), directory(&rt), directory(&rt)];
    let mut env = Env {
        rt: &rt,
        alloc: rt.alloc(),
        files: SystemFiles::new(&rt, rt.alloc()),
        folders: system_folders(&rt, rt.alloc()),
        places: SystemPlaces::new(&rt, &rt),
        input: &mut WatchedStream::new(rt.reader()),
        output: &mut WatchedStream::new(io::writer(&rt)),
        errors: &mut rt.stderr(),
    };
    let answer = match words_of(&rt) {
        Ok(words) => run(&mut env, &words),
        Err(fault) => Err(RunFault::Command(fault)),
    };
    drop(env);
    let ending = ending_of(rt.alloc(), answer);
    let status = print_ending(&ending, &mut rt.stdout(), &mut rt.stderr());
    drop(streams);
    ExitCode::from(status)
}

// Opens a directory. If the program was started without a standard stream, the directory takes its number. Then no file and
// no connection gets that number, and each read or write of the stream still fails.
fn directory(rt: &HostRuntime) -> io::Result<File> {
    File::open(rt, "/")
}

// The words after the program's name. A word that is not UTF-8 is a bad argument.
fn words_of(rt: &HostRuntime) -> Result<Vec<String>, CommandFault> {
    match env::args(rt) {
        Ok(arguments) => Ok(arguments.skip(1).collect(rt.alloc())?),
        Err(fault) => {
            if fault.kind() == ErrorKind::OutOfMemory {
                Err(CommandFault::OutOfMemory)
            } else {
                Err(CommandFault::BadArgument)
            }
        }
    }
}
