//! The answers of commands that report on a copy, and the things that their faults are about.
ghost use Rattle.std.specs.Prelude.{◌≡◌};
ghost use Rattle.std.specs.Result.{result_map_both};

use crate::fault::{ReportError, ReportRunFault};
use mirror_model::TakeFault;
use program_copies::{CopyAskFault, CopyFault};
use program_io::served::{copy_size, of_heads, of_note, of_proof};
use program_io::why::{Why, of_folder};
use program_io::{Env, RunFiles, RunFolders};
use program_reports::{AskFault, ReportFault};
use program_words::CopyArgs;
use std::alloc::Global;
use tlog_proof::Ask;
use tlog_tiles::Path;

/// The answer of a command from the answer of a reporter on a copy. For a proof request, the reason can name its numbers.
pub(crate) fn asked<R, F: RunFiles, D: RunFolders, P, I, O, E>(
    env: &Env<'_, '_, '_, '_, R, F, D, P, I, O, E>,
    copy: &CopyArgs<'_>,
    ask: Option<Ask>,
    answer: Result<u8, CopyAskFault>,
) -> Result<u8, ReportError>
    ensures { result ≡ result_map_both (λ status. status) (λ fault. ReportRunFault.Copy fault)
        answer }
{
    match answer {
        Ok(status) => Ok(status),
        Err(fault) => {
            let why = why_of(env, copy, ask, fault);
            Err(ReportError::new(ReportRunFault::Copy(fault), why))
        }
    }
}

fn why_of<R, F: RunFiles, D: RunFolders, P, I, O, E>(
    env: &Env<'_, '_, '_, '_, R, F, D, P, I, O, E>,
    copy: &CopyArgs<'_>,
    ask: Option<Ask>,
    fault: CopyAskFault,
) -> Option<Why> {
    let alloc = env.alloc;
    match fault {
        CopyAskFault::Copy(fault) => why_of_copy(env, copy.folder, fault),
        CopyAskFault::Heads(fault) => of_heads(alloc, &env.files, fault),
        CopyAskFault::Ask(AskFault::WriteFault) => Some(Why::Output),
        CopyAskFault::Ask(AskFault::Report(ReportFault::NothingComplete)) => Why::of_thing(
            alloc,
            copy.folder,
        ),
        CopyAskFault::Ask(AskFault::Report(ReportFault::Proof(fault))) => {
            let served = copy_size(alloc, &env.files, copy.folder);
            of_proof(alloc, copy.folder, ask?, fault, served)
        }
        _ => None,
    }
}

// The thing that a fault of a copy is about: the origin, or a file of its folder.
fn why_of_copy<R, F: RunFiles, D: RunFolders, P, I, O, E>(
    env: &Env<'_, '_, '_, '_, R, F, D, P, I, O, E>,
    folder: &str,
    fault: CopyFault,
) -> Option<Why> {
    let alloc = env.alloc;
    match fault {
        CopyFault::BadOrigin => Why::of_thing(alloc, "--origin"),
        CopyFault::Head(fault) => of_head(alloc, &env.files, folder, fault),
        CopyFault::CopyDamaged(path) => of_file(alloc, folder, &path),
        CopyFault::ShelfFault => of_folder(alloc, &env.folders, folder),
        CopyFault::OutOfMemory => None,
    }
}

/// Names the refused checkpoint of a folder.
pub(crate) fn of_head<F: RunFiles>(
    alloc: Global,
    files: &F,
    folder: &str,
    fault: TakeFault,
) -> Option<Why> {
    match format!(in alloc; "{folder}/checkpoint") {
        Ok(name) => of_note(alloc, files, &name, fault),
        Err(_) => None,
    }
}

/// Names a file of a folder.
pub(crate) fn of_file(alloc: Global, folder: &str, path: &Path) -> Option<Why> {
    Why::of_made(alloc, format!(in alloc; "{folder}/{path}"))
}
