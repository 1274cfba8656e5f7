//! The command `serve`: it answers over HTTP from a state file.
ghost use Rattle.std.specs.Prelude.{◌≡◌, map};
ghost use Rattle.sha2.specs.Sha256.{sha256};
ghost use Rattle.program_io.specs.Exchanges.{AnswersClients};
ghost use Rattle.copy_commands.specs.Clients.{IsMirrorAnswer};
ghost use Rattle.program_io.specs.Envs.{IsSameEnv, moment};
ghost use Rattle.program_io.specs.Performing.{Performs, Stays};
ghost use Rattle.copy_commands.specs.StateServe.{DoesServe};
ghost use Rattle.copy_commands.specs.Faults.{IsLate};
ghost use Rattle.program_io.specs.Ports.{PrintsPort};

use crate::clients::Clients;
use crate::fault::{ReportError, ReportRunFault};
use crate::serve::served;
use program_io::why::of_state;
use program_io::{
    Env, ListenFault, RunFiles, RunFolders, listen, open_state, port_fault, print_fault,
};
use program_words::commands::serve::Serve;
use signed_note::Verifier;
use std::alloc::{AllocError, Global};
use std::io::{self, Read, Write};
use std::net::{Ipv4Addr, Net, TcpListener, TcpStream};
use std::rt::Clock;
use tlog_hash::{Sha256Tree, TreeHash};
use tlog_mirror::Mirror;

/// Answers the requested number of connections, one after another, from the mirror in the state file. A fault of one
/// connection is written to standard error, and then the next one is answered.
///
/// # Errors
///
/// In this order:
///
/// - `BadOrigin` and the faults of the state file;
/// - `PortFault` if the port cannot be opened;
/// - `WriteFault` if the line with the port cannot be written;
/// - `PortFault` if a connection cannot be accepted.
pub fn run<R, F: RunFiles, D: RunFolders, P, I: Read, O: Write, E: Write>(
    env: &mut Env<'_, '_, '_, '_, R, F, D, P, I, O, E>,
    keys: &[Box<dyn Verifier>],
    serve: &Serve<'_>,
) -> Result<u8, ReportError>
where
    R: Clock + Net<Stream = TcpStream, Listener = TcpListener>,
    ensures same { IsSameEnv env.old env.new }
    ensures does { Performs DoesServe IsLate Stays sha256 (map (λ k. key k) keys.now)
        (moment F.puts D.held D.puts I.remaining O.contents env.old)
        (moment F.puts D.held D.puts I.remaining O.contents env.new) serve.now result }
{
    let args = &serve.mirror;
    let origin = args.log.origin;
    match open_state::<Sha256Tree, F>(&env.files, env.alloc, origin, keys, args.state) {
        Ok(mut mirror) => {
            let answer = serve_ready(
                env.rt,
                env.alloc,
                &mut mirror,
                serve,
                env.output,
                env.errors,
            );
            drop(mirror);
            served(answer)
        }
        Err(fault) => {
            let why = of_state(env.alloc, &env.files, Some(args.state), fault);
            Err(ReportError::new(ReportRunFault::State(fault), why))
        }
    }
}

// Prepares a mirror, and serves it.
fn serve_ready<H: TreeHash, R, O: Write, E: Write>(
    rt: &R,
    alloc: Global,
    mirror: &mut Mirror<H>,
    serve: &Serve<'_>,
    output: &mut O,
    errors: &mut E,
) -> Result<(), program_io::Error<ListenFault>>
where
    R: Clock + Net<Stream = TcpStream, Listener = TcpListener>,
    ensures line { PrintsPort serve.now.port (O.contents output.old) (O.contents output.new)
        result }
{
    match make_ready(alloc, mirror) {
        Ok(()) => serve_mirror(rt, alloc, mirror, serve, output, errors),
        Err(_) => Err(program_io::Error::new(ListenFault::OutOfMemory, None)),
    }
}

// Settles a mirror, and lays out the served files. If there is no memory for the layout, it serves from its strings.
fn make_ready<H: TreeHash>(alloc: Global, mirror: &mut Mirror<H>) -> Result<(), AllocError>
    ensures kept { mirror.new.view ≡ mirror.old.view }
{
    mirror.settle(alloc)?;
    match mirror.lay_out(alloc) {
        Ok(()) => {}
        Err(AllocError) => {}
    }
    Ok(())
}

// Listens at the port, prints it, and answers the requested number of connections.
fn serve_mirror<H: TreeHash, R, O: Write, E: Write>(
    rt: &R,
    alloc: Global,
    mirror: &Mirror<H>,
    serve: &Serve<'_>,
    output: &mut O,
    errors: &mut E,
) -> Result<(), program_io::Error<ListenFault>>
where
    R: Clock + Net<Stream = TcpStream, Listener = TcpListener>,
    ensures line { PrintsPort serve.now.port (O.contents output.old) (O.contents output.new)
        result }
{
    let mut opened = match listen(rt, alloc, Ipv4Addr::LOCALHOST, serve.port, output) {
        Ok(opened) => opened,
        Err(error) => return Err(error),
    };
    match serve_all(rt, alloc, mirror, &mut opened, serve.requests, errors) {
        Ok(()) => Ok(()),
        Err(error) => Err(port_fault(alloc, serve.port, &error)),
    }
}

// Answers the requested number of clients, one after another, while connections are accepted.
fn serve_all<H: TreeHash, C: Clock, S: Clients, E: Write>(
    clock: &C,
    alloc: Global,
    mirror: &Mirror<H>,
    clients: &mut S,
    requests: u64,
    errors: &mut E,
) -> io::Result<()>
    ensures { AnswersClients (IsMirrorAnswer H.digest mirror.now.view) requests
        (S.exchanges clients.old) (S.exchanges clients.new) result }
{
    for _ in 0..requests {
        match clients.answer_next(clock, alloc, mirror)? {
            Ok(()) => {}
            Err(fault) => print_fault(errors, fault),
        }
    }
    Ok(())
}
