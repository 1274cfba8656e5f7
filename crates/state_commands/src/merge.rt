//! The command `merge`: it makes one mirror from two.
ghost use Rattle.std.specs.Prelude.{map};
ghost use Rattle.sha2.specs.Sha256.{sha256};
ghost use Rattle.program_io.specs.Envs.{IsSameEnv, moment};
ghost use Rattle.program_io.specs.Performing.{KeepsFolders, Performs};
ghost use Rattle.state_commands.specs.Faults.{IsLate};
ghost use Rattle.state_commands.specs.Merge.{DoesMerge};

use crate::fault::{Error, StateRunFault};
use crate::{MergeFilesFault, run_merge};
use program_io::why::{Why, of_named, of_state};
use program_io::{Env, RunFiles, RunFolders};
use program_words::commands::merge::Merge;
use signed_note::Verifier;
use std::alloc::Global;
use std::io::{Read, Write};
use tlog_hash::Sha256Tree;
use tlog_mirror::MergeFault;

/// Merges the mirrors of two state files, and writes the state of the result.
///
/// # Errors
///
/// Those of `run_merge`.
pub fn run<R, F: RunFiles, D: RunFolders, P, I: Read, O: Write, E: Write>(
    env: &mut Env<'_, '_, '_, '_, R, F, D, P, I, O, E>,
    keys: &[Box<dyn Verifier>],
    merge: &Merge<'_>,
) -> Result<u8, Error>
    ensures same { IsSameEnv env.old env.new }
    ensures does { Performs DoesMerge IsLate KeepsFolders sha256 (map (λ k. key k) keys.now)
        (moment F.puts D.held D.puts I.remaining O.contents env.old)
        (moment F.puts D.held D.puts I.remaining O.contents env.new) merge.now result }
{
    match run_merge::<Sha256Tree, F>(
        &mut env.files,
        env.alloc,
        merge.mirror.log.origin,
        keys,
        merge.first,
        merge.second,
        merge.mirror.out,
    ) {
        Ok(()) => Ok(0),
        Err(fault) => {
            let why = why_of(env.alloc, &env.files, merge, fault);
            Err(Error::new(StateRunFault::Merge(fault), why))
        }
    }
}

fn why_of<F: RunFiles>(
    alloc: Global,
    files: &F,
    merge: &Merge<'_>,
    fault: MergeFilesFault,
) -> Option<Why> {
    match fault {
        MergeFilesFault::First(fault) => of_state(alloc, files, Some(merge.first), fault),
        MergeFilesFault::Second(fault) => of_state(alloc, files, Some(merge.second), fault),
        MergeFilesFault::Merge(MergeFault::OutOfMemory) => None,
        MergeFilesFault::Merge(_) => Why::of_thing(alloc, merge.second),
        MergeFilesFault::Out(fault) => of_named(alloc, files, fault),
    }
}
