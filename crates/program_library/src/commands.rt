//! The list of the groups of commands.
ghost use Rattle.std.specs.Prelude.{◌≡◌, IsErrAnd, MatchResult, Ok};

use crate::fault::{Error, RunFault};
use crate::keys::{Keys, key_lines};
use crate::run_env::{RunEnv, WatchedEnv};
use program_io::why::{FailedStreams, Why, print_why};
use program_io::{Env, Failing, RunFiles, RunFolders, RunPlaces};
use program_words::Command;
use signed_note::KeyLine;
use std::alloc::Global;
use std::fs::{File, Files};
use std::io::{Read, Write};
use std::net::{Net, TcpListener, TcpStream};
use std::rt::Clock;

impl<
    'r,
    'i,
    'o,
    'e,
    R,
    F: RunFiles,
    D: RunFolders,
    P: RunPlaces,
    I: Read,
    O: Write,
    E: Write,
> RunEnv for Env<'r, 'i, 'o, 'e, R, F, D, P, I, O, E>
where
    R: Files<File = File> + Clock + Eprint + Net<Stream = TcpStream, Listener = TcpListener>,
{
    ghost use Rattle.program_io.specs.Envs.{moment as moment_of, world as world_in};

    ghost moment = { moment_of F.puts D.held D.puts I.remaining O.contents };

    ghost world = { world_in P.at P.Place.may_answer P.Place.asked P.Place.failed };

    ghost input = { λ env. env.input.ghost_name };

    ghost output = { λ env. env.output.ghost_name };

    ghost errors = { λ env. env.errors.ghost_name };

    fn alloc(&self) -> Global {
        self.alloc
    }

    fn key_lines(&self, name: Option<&str>) -> Result<(Vec<u8>, Vec<KeyLine>), Error> {
        key_lines(&self.files, self.alloc, name)
    }

    fn run_command(&mut self, keys: &Keys<'_>, command: &Command<'_>) -> Result<u8, Error> {
        // Read once: each read in an arm costs the checker as much as the call.
        let (bytes, verifiers) = (keys.bytes, keys.verifiers);
        match command {
            Command::State(state) => {
                let answer = state_commands::run(self, bytes, verifiers, state);
                of_run(answer, RunFault::State)
            }
            Command::Report(report) => {
                let answer = copy_commands::run_report(self, verifiers, report);
                of_run(answer, RunFault::Report)
            }
            Command::Copy(copy) => {
                let answer = copy_commands::run_copy(self, verifiers, copy);
                of_run(answer, RunFault::Report)
            }
            Command::Place(place) => {
                let answer = copy_commands::run_place(self, verifiers, place);
                of_run(answer, RunFault::Place)
            }
        }
    }

    fn print_why(&mut self, asked: bool, why: Option<Why>, streams: FailedStreams) {
        print_why(self.alloc, asked, why, streams, self.errors);
    }
}

impl<'r, 'i, 'o, 'e, R, F, D, P, I: Failing, O: Failing, E> WatchedEnv
    for Env<'r, 'i, 'o, 'e, R, F, D, P, I, O, E> {
    fn failed_streams(&self) -> FailedStreams {
        FailedStreams {
            input: self.input.last_failed(),
            output: self.output.last_failed(),
        }
    }
}

// The answer of a command, as that of a run: `name` makes its fault one of a run.
fn of_run<F: Drop, N: FnOnce(F) -> RunFault>(
    answer: Result<u8, program_io::Error<F>>,
    name: N,
) -> Result<u8, Error>
    requires { N.IsAlwaysCallable name }
    ensures { MatchResult answer (λ status. result ≡ Ok status)
        (λ fault. IsErrAnd result (N.post name fault)) }
{
    match answer {
        Ok(status) => Ok(status),
        Err(error) => {
            let (fault, why) = error.into_parts();
            Err(Error::new(name(fault), why))
        }
    }
}
