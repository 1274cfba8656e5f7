//! The command `check`: it verifies a proof.
ghost use Rattle.std.specs.Prelude.{◌≡◌, map};
ghost use Rattle.sha2.specs.Sha256.{sha256};
ghost use Rattle.program_io.specs.Envs.{IsSameEnv, moment};
ghost use Rattle.program_io.specs.Performing.{Performs, Stays, verdict_status};
ghost use Rattle.copy_commands.specs.Streams.{DoesCheck};
ghost use Rattle.copy_commands.specs.Faults.{IsLate};

use crate::fault::{ReportError, ReportRunFault};
use program_io::{Env, RunFiles, RunFolders, run_check};
use signed_note::Verifier;
use std::io::{Read, Write};

/// Prints whether the proof on the input holds. The status is 3 if it does not.
///
/// # Errors
///
/// Those of `run_check`.
pub fn run<R, F: RunFiles, D: RunFolders, P, I: Read, O: Write, E: Write>(
    env: &mut Env<'_, '_, '_, '_, R, F, D, P, I, O, E>,
    keys: &[Box<dyn Verifier>],
) -> Result<u8, ReportError>
    ensures same { IsSameEnv env.old env.new }
    ensures does { Performs DoesCheck IsLate Stays sha256 (map (λ k. key k) keys.now)
        (moment F.puts D.held D.puts I.remaining O.contents env.old)
        (moment F.puts D.held D.puts I.remaining O.contents env.new) tt result }
{
    match run_check(env.alloc, env.input, env.output) {
        Ok(verdict) => Ok(status_of(verdict)),
        Err(fault) => Err(ReportError::new(ReportRunFault::Check(fault), None)),
    }
}

// The exit status of a verdict.
fn status_of(verdict: bool) -> u8
    ensures { result ≡ verdict_status verdict }
{
    if verdict { 0 } else { 3 }
}
