//! The command `serve --dir`: it answers over HTTP from a copy.
ghost use Rattle.std.specs.Prelude.{◌≡◌, IfSome, Some, map};
ghost use Rattle.std.specs.Result.{result_map_both};
ghost use Rattle.sha2.specs.Sha256.{sha256};
ghost use Rattle.mirror_sources.specs.Recorded.{KeepsRecord};
ghost use Rattle.program_io.specs.Envs.{IsSameEnv, moment};
ghost use Rattle.program_io.specs.Exchanges.{AnswersClients};
ghost use Rattle.program_io.specs.Performing.{KeepsFiles, Performs};
ghost use Rattle.copy_commands.specs.Clients.{IsCopyAnswer};
ghost use Rattle.copy_commands.specs.KeyFiles.{AreFileKeys};
ghost use Rattle.copy_commands.specs.Faults.{IsLate};
ghost use Rattle.copy_commands.specs.Serve.{DoesCopyServe};
ghost use Rattle.program_io.specs.Ports.{PrintsPort};

use crate::asking::{of_file, of_head};
use crate::clients::Clients;
use crate::fault::{ReportError, ReportRunFault};
use crate::key_file::KeyFile;
use program_copies::{CopyAnswerFault, KeptCopy};
use program_io::why::{FailedStreams, Why, of_folder, of_origin, print_why};
use program_io::{
    Env, ListenFault, RunFiles, RunFolders, check_origin, listen, port_fault, print_fault,
    write_front,
};
use program_words::commands::serve::CopyServe;
use signed_note::Verifier;
use std::alloc::Global;
use std::io::{self, Read, Write};
use std::net::{Ipv4Addr, Net, TcpListener, TcpStream};
use std::rt::Clock;
use tlog_hash::Sha256Tree;

/// Answers the requested number of connections, one after another, from the copy in the folder. It reads the checkpoint for
/// each, so the copy may grow meanwhile. A new checkpoint has to open under the keys of the key file, which is read again. A fault of one
/// connection is written to standard error, and then the next is answered. With `--why`, a line before it names the file that is damaged,
/// is refused or cannot be read.
///
/// # Errors
///
/// In this order:
///
/// - `BadOrigin`;
/// - `PortFault` if the port cannot be opened;
/// - `WriteFault` if the line with the port cannot be written;
/// - `PortFault` if a connection cannot be accepted.
pub fn run<R, F: RunFiles, D: RunFolders, P, I: Read, O: Write, E: Write>(
    env: &mut Env<'_, '_, '_, '_, R, F, D, P, I, O, E>,
    keys: &[Box<dyn Verifier>],
    serve: &CopyServe<'_>,
) -> Result<u8, ReportError>
where
    R: Clock + Net<Stream = TcpStream, Listener = TcpListener>,
    ensures same { IsSameEnv env.old env.new }
    ensures does { Performs DoesCopyServe IsLate KeepsFiles sha256 (map (λ k. key k) keys.now)
        (moment F.puts D.held D.puts I.remaining O.contents env.old)
        (moment F.puts D.held D.puts I.remaining O.contents env.new) serve.now result }
{
    match check_origin(env.alloc, serve.copy.log.origin) {
        Ok(()) => {}
        Err(fault) => {
            let why = of_origin(env.alloc, fault);
            return Err(ReportError::new(ReportRunFault::Origin(fault), why));
        }
    }
    match env.folders.open(serve.copy.folder) {
        Ok(()) => {}
        Err(_) => return Err(ReportError::new(
            ReportRunFault::Listen(ListenFault::OutOfMemory),
            None,
        )),
    }
    served(serve_copy(
        env.rt,
        env.alloc,
        &env.files,
        &mut env.folders,
        serve,
        env.output,
        env.errors,
    ))
}

/// The status 0 if all connections were answered.
pub(crate) fn served(answer: Result<(), program_io::Error<ListenFault>>) -> Result<u8, ReportError>
    ensures { result ≡ result_map_both (λ _. 0) (λ fault. ReportRunFault.Listen fault) answer }
{
    match answer {
        Ok(()) => Ok(0),
        Err(error) => {
            let (fault, why) = error.into_parts();
            Err(ReportError::new(ReportRunFault::Listen(fault), why))
        }
    }
}

// Listens at the port, prints it, and answers the requested number of connections.
fn serve_copy<F: RunFiles, D: RunFolders, R, O: Write, E: Write>(
    rt: &R,
    alloc: Global,
    files: &F,
    folders: &mut D,
    serve: &CopyServe<'_>,
    output: &mut O,
    errors: &mut E,
) -> Result<(), program_io::Error<ListenFault>>
where
    R: Clock + Net<Stream = TcpStream, Listener = TcpListener>,
    ensures line { PrintsPort serve.now.port (O.contents output.old) (O.contents output.new)
        result }
    ensures same { KeepsRecord (D.puts folders.old) (D.puts folders.new) }
{
    let mut opened = match listen(rt, alloc, Ipv4Addr::LOCALHOST, serve.port, output) {
        Ok(opened) => opened,
        Err(error) => return Err(error),
    };
    match answer_all(rt, alloc, files, folders, serve, &mut opened, errors) {
        Ok(()) => Ok(()),
        Err(error) => Err(port_fault(alloc, serve.port, &error)),
    }
}

// Answers the requested number of clients, one after another, while connections are accepted.
fn answer_all<F: RunFiles, D: RunFolders, C: Clock, S: Clients, E: Write>(
    clock: &C,
    alloc: Global,
    files: &F,
    folders: &mut D,
    serve: &CopyServe<'_>,
    clients: &mut S,
    errors: &mut E,
) -> io::Result<()>
    ensures answers { IfSome (D.puts folders.old) (λ puts. AnswersClients (IsCopyAnswer sha256
        (AreFileKeys (F.puts files.now) serve.now.copy.log.keys.now)
        serve.now.copy.log.origin.now (Some puts)) serve.now.requests
        (S.exchanges clients.old) (S.exchanges clients.new) result) }
    ensures same { KeepsRecord (D.puts folders.old) (D.puts folders.new) }
{
    let keys = KeyFile {
        files,
        name: serve.copy.log.keys,
    };
    let mut kept = KeptCopy::<Sha256Tree>::new();
    let origin = serve.copy.log.origin;
    for _ in 0..serve.requests {
        match clients.answer_next_from_copy(clock, alloc, folders, &keys, &mut kept, origin)? {
            Ok(()) => {}
            Err(fault) => {
                print_file(alloc, files, folders, serve, fault, errors);
                print_answer_fault(alloc, errors, fault);
            }
        }
    }
    Ok(())
}

// Writes the line of `--why` if the words ask for it and a file is known, or a prefix of it if the stream fails.
fn print_file<F: RunFiles, D: RunFolders, E: Write>(
    alloc: Global,
    files: &F,
    folders: &D,
    serve: &CopyServe<'_>,
    fault: CopyAnswerFault,
    errors: &mut E,
) {
    let why = match fault {
        CopyAnswerFault::Http(_) => None,
        CopyAnswerFault::CopyDamaged(path) => of_file(alloc, serve.copy.folder, &path),
        CopyAnswerFault::ShelfFault => of_folder(alloc, folders, serve.copy.folder),
        CopyAnswerFault::Head(fault) => of_head(alloc, files, serve.copy.folder, fault),
        CopyAnswerFault::KeyFile(_) => Why::of_thing(alloc, serve.copy.log.keys),
    };
    print_why(alloc, serve.why, why, FailedStreams::none(), errors);
}

// Writes the line of the fault of an answer, or a prefix of it if the stream fails.
fn print_answer_fault<E: Write>(alloc: Global, errors: &mut E, fault: CopyAnswerFault) {
    match fault {
        CopyAnswerFault::Http(fault) => print_fault(errors, fault),
        CopyAnswerFault::CopyDamaged(_) => write_front(errors, b"tlogmirror: CopyDamaged\n"),
        CopyAnswerFault::ShelfFault => write_front(errors, b"tlogmirror: ShelfFault\n"),
        CopyAnswerFault::Head(fault) => {
            if let Ok(line) = format!(in alloc; "tlogmirror: {fault}\n") {
                write_front(errors, line.as_bytes());
            }
        }
        CopyAnswerFault::KeyFile(fault) => {
            if let Ok(line) = format!(in alloc; "tlogmirror: {fault}\n") {
                write_front(errors, line.as_bytes());
            }
        }
    }
}
