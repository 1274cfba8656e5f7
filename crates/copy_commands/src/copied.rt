//! Carries out a command over a copy.
ghost use Rattle.std.specs.Prelude.{map};
ghost use Rattle.sha2.specs.Sha256.{sha256};
ghost use Rattle.program_io.specs.Envs.{IsSameEnv, moment};
ghost use Rattle.program_io.specs.Performing.{Ends};
ghost use Rattle.copy_commands.specs.Commands.{ExecutesCopy};
ghost use Rattle.copy_commands.specs.Faults.{IsLate};

use crate::asking::asked;
use crate::fault::ReportError;
use program_copies::{compare_copy, prove_copy, status_copy};
use program_io::{Env, RunFiles, RunFolders};
use program_words::CopyCommand;
use signed_note::Verifier;
use std::io::{Read, Write};
use std::net::{Net, TcpListener, TcpStream};
use std::rt::Clock;
use tlog_hash::Sha256Tree;

/// Carries out the command, and returns the exit status: 0, or 3 for no.
///
/// # Errors
///
/// Those of the command, each with the thing that it is about. After a late one (`IsLate`) text may have been written.
pub fn run_copy<R, F: RunFiles, D: RunFolders, P, I: Read, O: Write, E: Write>(
    env: &mut Env<'_, '_, '_, '_, R, F, D, P, I, O, E>,
    keys: &[Box<dyn Verifier>],
    command: &CopyCommand<'_>,
) -> Result<u8, ReportError>
where
    R: Clock + Net<Stream = TcpStream, Listener = TcpListener>,
    ensures same { IsSameEnv env.old env.new }
    ensures does { ExecutesCopy sha256 (map (λ k. key k) keys.now)
        (moment F.puts D.held D.puts I.remaining O.contents env.old)
        (moment F.puts D.held D.puts I.remaining O.contents env.new) command.now result }
    ensures ends { Ends IsLate (O.contents env.old.output.now) (O.contents env.new.output.now)
        result }
{
    let alloc = env.alloc;
    match command {
        CopyCommand::Status(copy) => {
            let answer = status_copy::<Sha256Tree, D, O>(
                &mut env.folders,
                alloc,
                copy.log.origin,
                keys,
                copy.folder,
                env.output,
            );
            asked(env, copy, None, answer)
        }
        CopyCommand::Compare(compare) => {
            let copy = &compare.copy;
            let answer = compare_copy::<Sha256Tree, F, D, O>(
                &env.files,
                &mut env.folders,
                alloc,
                copy.log.origin,
                keys,
                copy.folder,
                &compare.files,
                env.output,
            );
            asked(env, copy, None, answer)
        }
        CopyCommand::Prove(prove) => {
            let copy = &prove.copy;
            let answer = prove_copy::<Sha256Tree, D, O>(
                &mut env.folders,
                alloc,
                copy.log.origin,
                keys,
                copy.folder,
                prove.ask,
                env.output,
            );
            asked(env, copy, Some(prove.ask), answer)
        }
        CopyCommand::Entries(entries) => crate::entries::run(env, keys, entries),
        CopyCommand::Serve(serve) => crate::serve::run(env, keys, serve),
    }
}
