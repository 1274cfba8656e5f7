//! The command `export`: it puts the files that a state file's mirror serves into a folder.
ghost use Rattle.std.specs.Prelude.{ℕ, List, Option, map};
ghost use Rattle.signed_note.specs.Keys.{Key};
ghost use Rattle.program_io.specs.Named.{NamedFile};
ghost use Rattle.state_commands.specs.Exported.{CountsFileExport, ExportsFile};
ghost use Rattle.program_io.specs.States.{OpensFile};

use crate::work_fault::FolderFault;
use mirror_files::export;
use program_io::{CountedFolders, NamedFiles, open_state};
use signed_note::Verifier;
use std::alloc::Global;
use tlog_hash::TreeHash;
use tlog_mirror::Mirror;

/// Puts all tiles, then all entry bundles, then the checkpoint that the mirror in the state file serves, into the folder.
///
/// ```text
/// let mut folders = CountingShelf::new(DirShelf::new(&rt, alloc, "."), progress);
/// run_export::<Sha256Tree, _, _>(&files, &mut folders, alloc, "example.com/log", &keys, "log.state", "log")?;
/// ```
///
/// # Errors
///
/// In this order: `State`, those of `open_state`; `OutOfMemory` if there is no memory for the folder's name. After these
/// nothing was put. Then `Export`, those of `mirror_files::export`. Files that were put before a fault remain.
pub fn run_export<H: TreeHash, F: NamedFiles, D: CountedFolders>(
    files: &F,
    folders: &mut D,
    alloc: Global,
    origin: &str,
    keys: &[Box<dyn Verifier>],
    state: &str,
    folder: &str,
) -> Result<(), FolderFault>
    ensures answer { ExportsFile H.digest origin.now (map (λ k. key k) keys.now) (F.puts files.now)
        state.now (D.held folders.old folder.now) (D.puts folders.old) (D.puts folders.new) result }
    ensures blamed { CountsFileExport (D.failed folders.old) (D.failed folders.new) result }
{
    match open_state::<H, F>(files, alloc, origin, keys, state) {
        Ok(mirror) => {
            let done = export_into(alloc, &mirror, folders, folder);
            drop(mirror);
            done
        }
        Err(fault) => Err(FolderFault::State(fault)),
    }
}

// Opens the folder, and puts the files that the mirror of a state file serves into it.
fn export_into<H: TreeHash, D: CountedFolders>(
    alloc: Global,
    mirror: &Mirror<H>,
    folders: &mut D,
    folder: &str,
) -> Result<(), FolderFault>
    ensures answer { (origin : List ℕ) (keys : List Key) (recorded : Option (List NamedFile))
        (state : List ℕ) → OpensFile H.digest origin keys recorded state (Ok mirror.now.view)
        → ExportsFile H.digest origin keys recorded state (D.held folders.old folder.now)
        (D.puts folders.old) (D.puts folders.new) result }
    ensures blamed { CountsFileExport (D.failed folders.old) (D.failed folders.new) result }
{
    match folders.open(folder) {
        Ok(()) => {}
        Err(_) => return Err(FolderFault::OutOfMemory),
    }
    match export(alloc, mirror, folders) {
        Ok(()) => Ok(()),
        Err(fault) => Err(FolderFault::Export(fault)),
    }
}
