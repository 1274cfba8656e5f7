//! The commands `export` and `export --update`: they write the served files to a folder.
ghost use Rattle.std.specs.Prelude.{map};
ghost use Rattle.sha2.specs.Sha256.{sha256};
ghost use Rattle.state_commands.specs.Exported.{ExportsFile};
ghost use Rattle.state_commands.specs.Updated.{UpdatesFile};
ghost use Rattle.program_io.specs.Envs.{IsSameEnv, moment};
ghost use Rattle.program_io.specs.Performing.{KeepsFiles, Performs};
ghost use Rattle.state_commands.specs.Faults.{IsLate};
ghost use Rattle.state_commands.specs.Export.{DoesExport, DoesUpdate};

use crate::fault::{Error, StateRunFault};
use crate::{FolderFault, run_export, run_update};
use mirror_files::{ExportFault, UpdateFault};
use program_io::why::{Why, of_folder, of_state};
use program_io::{Env, RunFiles, RunFolders, Task, report_end, report_puts};
use program_words::commands::export::Export;
use signed_note::Verifier;
use std::alloc::Global;
use std::io::{Read, Write};
use tlog_hash::Sha256Tree;

/// Writes all tiles, then all entry bundles, then the checkpoint to the folder.
///
/// # Errors
///
/// Those of `run_export`.
pub fn run<R, F: RunFiles, D: RunFolders, P, I: Read, O: Write, E: Write>(
    env: &mut Env<'_, '_, '_, '_, R, F, D, P, I, O, E>,
    keys: &[Box<dyn Verifier>],
    export: &Export<'_>,
) -> Result<u8, Error>
    ensures same { IsSameEnv env.old env.new }
    ensures does { Performs DoesExport IsLate KeepsFiles sha256 (map (λ k. key k) keys.now)
        (moment F.puts D.held D.puts I.remaining O.contents env.old)
        (moment F.puts D.held D.puts I.remaining O.contents env.new) export.now result }
{
    match put_all(&env.files, &mut env.folders, env.alloc, export, keys) {
        Ok(()) => Ok(0),
        Err(fault) => {
            let why = why_of(env, export, fault);
            Err(Error::new(StateRunFault::Export(fault), why))
        }
    }
}

// The same over these files and folders. It reports the progress if the words ask for it.
fn put_all<F: RunFiles, D: RunFolders>(
    files: &F,
    folders: &mut D,
    alloc: Global,
    export: &Export<'_>,
    keys: &[Box<dyn Verifier>],
) -> Result<(), FolderFault>
    ensures { ExportsFile sha256 export.now.mirror.log.origin.now (map (λ k. key k) keys.now)
        (F.puts files.now) export.now.mirror.state.now (D.held folders.old export.now.folder.now)
        (D.puts folders.old) (D.puts folders.new) result }
{
    report_puts(folders, export.progress, Task::Export);
    let done = run_export::<Sha256Tree, F, D>(
        files,
        folders,
        alloc,
        export.mirror.log.origin,
        keys,
        export.mirror.state,
        export.folder,
    );
    report_end(folders, export.progress && done.is_ok());
    done
}

/// Updates the folder to the files that the mirror serves.
///
/// # Errors
///
/// Those of `run_update`.
pub fn run_with_update<R, F: RunFiles, D: RunFolders, P, I: Read, O: Write, E: Write>(
    env: &mut Env<'_, '_, '_, '_, R, F, D, P, I, O, E>,
    keys: &[Box<dyn Verifier>],
    update: &Export<'_>,
) -> Result<u8, Error>
    ensures same { IsSameEnv env.old env.new }
    ensures does { Performs DoesUpdate IsLate KeepsFiles sha256 (map (λ k. key k) keys.now)
        (moment F.puts D.held D.puts I.remaining O.contents env.old)
        (moment F.puts D.held D.puts I.remaining O.contents env.new) update.now result }
{
    match put_new(&env.files, &mut env.folders, env.alloc, update, keys) {
        Ok(()) => Ok(0),
        Err(fault) => {
            let why = why_of(env, update, fault);
            Err(Error::new(StateRunFault::Export(fault), why))
        }
    }
}

// The same over these files and folders.
fn put_new<F: RunFiles, D: RunFolders>(
    files: &F,
    folders: &mut D,
    alloc: Global,
    update: &Export<'_>,
    keys: &[Box<dyn Verifier>],
) -> Result<(), FolderFault>
    ensures { UpdatesFile sha256 update.now.mirror.log.origin.now (map (λ k. key k) keys.now)
        (F.puts files.now) update.now.mirror.state.now (D.held folders.old update.now.folder.now)
        (D.puts folders.old) (D.puts folders.new) result }
{
    report_puts(folders, update.progress, Task::Export);
    let done = run_update::<Sha256Tree, F, D>(
        files,
        folders,
        alloc,
        update.mirror.log.origin,
        keys,
        update.mirror.state,
        update.folder,
    );
    report_end(folders, update.progress && done.is_ok());
    done
}

// The thing that the fault is about: the state file, or the folder.
fn why_of<R, F: RunFiles, D: RunFolders, P, I, O, E>(
    env: &Env<'_, '_, '_, '_, R, F, D, P, I, O, E>,
    export: &Export<'_>,
    fault: FolderFault,
) -> Option<Why> {
    let (alloc, state, folder) = (env.alloc, export.mirror.state, export.folder);
    match fault {
        FolderFault::State(fault) => of_state(alloc, &env.files, Some(state), fault),
        FolderFault::Export(ExportFault::NothingComplete)
        | FolderFault::Update(UpdateFault::NothingComplete) => Why::of_thing(alloc, state),
        FolderFault::Export(ExportFault::ShelfInUse) | FolderFault::Update(UpdateFault::OtherLog) =>
            Why::of_thing(alloc, folder),
        FolderFault::Export(ExportFault::ShelfFault)
        | FolderFault::Update(UpdateFault::ShelfFault) => of_folder(alloc, &env.folders, folder),
        FolderFault::Export(ExportFault::OutOfMemory)
        | FolderFault::Update(UpdateFault::OutOfMemory)
        | FolderFault::OutOfMemory => None,
    }
}
