//! The command `entries --dir`: it writes entries of a copy.
ghost use Rattle.std.specs.Prelude.{◌≡◌, map};
ghost use Rattle.std.specs.Result.{result_map_both};
ghost use Rattle.sha2.specs.Sha256.{sha256};
ghost use Rattle.program_io.specs.Envs.{IsSameEnv, moment};
ghost use Rattle.program_io.specs.Performing.{KeepsFiles, Performs};
ghost use Rattle.copy_commands.specs.Faults.{IsLate};
ghost use Rattle.copy_commands.specs.Entries.{DoesCopyEntries};

use crate::asking::{of_file, of_head};
use crate::fault::{ReportError, ReportRunFault};
use program_copies::{CopyEntriesFault, entries_of_copy};
use program_io::served::{copy_size, of_backwards, of_size};
use program_io::why::{Why, of_folder, of_origin};
use program_io::{Env, RunFiles, RunFolders, check_origin};
use program_words::commands::entries::CopyEntries;
use signed_note::Verifier;
use std::io::{Read, Write};
use tlog_hash::Sha256Tree;

/// Writes entries of the copy, one entry bundle after another. Each is verified first.
///
/// # Errors
///
/// `BadOrigin` before anything is read; then those of `entries_of_copy`.
pub fn run<R, F: RunFiles, D: RunFolders, P, I: Read, O: Write, E: Write>(
    env: &mut Env<'_, '_, '_, '_, R, F, D, P, I, O, E>,
    keys: &[Box<dyn Verifier>],
    entries: &CopyEntries<'_>,
) -> Result<u8, ReportError>
    ensures same { IsSameEnv env.old env.new }
    ensures does { Performs DoesCopyEntries IsLate KeepsFiles sha256 (map (λ k. key k) keys.now)
        (moment F.puts D.held D.puts I.remaining O.contents env.old)
        (moment F.puts D.held D.puts I.remaining O.contents env.new) entries.now result }
{
    match check_origin(env.alloc, entries.copy.log.origin) {
        Ok(()) => {}
        Err(fault) => {
            let why = of_origin(env.alloc, fault);
            return Err(ReportError::new(ReportRunFault::Origin(fault), why));
        }
    }
    let answer = entries_of_copy::<Sha256Tree, D, O>(
        &mut env.folders,
        env.alloc,
        entries.copy.log.origin,
        keys,
        entries.copy.folder,
        &entries.range,
        env.output,
    );
    written(env, entries, answer)
}

// The answer of the command from the answer of the writer.
fn written<R, F: RunFiles, D: RunFolders, P, I, O, E>(
    env: &Env<'_, '_, '_, '_, R, F, D, P, I, O, E>,
    entries: &CopyEntries<'_>,
    answer: Result<(), CopyEntriesFault>,
) -> Result<u8, ReportError>
    ensures { result ≡ result_map_both (λ _. 0) (λ fault. ReportRunFault.CopyEntries fault) answer }
{
    match answer {
        Ok(()) => Ok(0),
        Err(fault) => {
            let why = why_of(env, entries, fault);
            Err(ReportError::new(ReportRunFault::CopyEntries(fault), why))
        }
    }
}

fn why_of<R, F: RunFiles, D: RunFolders, P, I, O, E>(
    env: &Env<'_, '_, '_, '_, R, F, D, P, I, O, E>,
    entries: &CopyEntries<'_>,
    fault: CopyEntriesFault,
) -> Option<Why> {
    let alloc = env.alloc;
    let folder = entries.copy.folder;
    match fault {
        CopyEntriesFault::NothingComplete => Why::of_thing(alloc, folder),
        CopyEntriesFault::Head(fault) => of_head(alloc, &env.files, folder, fault),
        CopyEntriesFault::CopyDamaged(path) => of_file(alloc, folder, &path),
        CopyEntriesFault::NoSuchSize => {
            let served = copy_size(alloc, &env.files, folder);
            of_size(alloc, folder, entries.range.to, served)
        }
        CopyEntriesFault::Backwards => {
            of_backwards(alloc, folder, entries.range.from, entries.range.to)
        }
        CopyEntriesFault::ShelfFault => of_folder(alloc, &env.folders, folder),
        CopyEntriesFault::WriteFault => Some(Why::Output),
        CopyEntriesFault::OutOfMemory => None,
    }
}
