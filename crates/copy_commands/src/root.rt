//! The command `root`: it prints the tree hash of an entry bundle.
ghost use Rattle.std.specs.Prelude.{◌≤◌, map};
ghost use Rattle.sha2.specs.Sha256.{sha256};
ghost use Rattle.program_io.specs.Envs.{IsSameEnv, moment};
ghost use Rattle.program_io.specs.Performing.{Performs, Stays};
ghost use Rattle.copy_commands.specs.Streams.{DoesRoot};
ghost use Rattle.copy_commands.specs.Faults.{IsLate};

use crate::fault::{ReportError, ReportRunFault};
use program_io::{Env, RunFiles, RunFolders, run_root};
use program_words::commands::root::Root;
use signed_note::Verifier;
use std::io::{Read, Write};
use tlog_hash::Sha256Tree;

/// Prints the size and the tree hash of the entry bundle on the input.
///
/// # Errors
///
/// Those of `run_root`.
pub fn run<R, F: RunFiles, D: RunFolders, P, I: Read, O: Write, E: Write>(
    env: &mut Env<'_, '_, '_, '_, R, F, D, P, I, O, E>,
    keys: &[Box<dyn Verifier>],
    root: &Root,
) -> Result<u8, ReportError>
    requires { root.now.width ≤ 256 }
    ensures same { IsSameEnv env.old env.new }
    ensures does { Performs DoesRoot IsLate Stays sha256 (map (λ k. key k) keys.now)
        (moment F.puts D.held D.puts I.remaining O.contents env.old)
        (moment F.puts D.held D.puts I.remaining O.contents env.new) root.now result }
{
    match run_root::<Sha256Tree, I, O>(env.alloc, root.width, env.input, env.output) {
        Ok(()) => Ok(0),
        Err(fault) => Err(ReportError::new(ReportRunFault::Root(fault), None)),
    }
}
