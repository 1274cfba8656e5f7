//! The command `export --update`: it updates a folder to the files that a state file's mirror serves.
ghost use Rattle.std.specs.Prelude.{ℕ, List, Option, map};
ghost use Rattle.signed_note.specs.Keys.{Key};
ghost use Rattle.program_io.specs.Named.{NamedFile};
ghost use Rattle.program_io.specs.States.{OpensFile};
ghost use Rattle.state_commands.specs.Updated.{CountsFileUpdate, UpdatesFile};

use crate::work_fault::FolderFault;
use mirror_files::update;
use program_io::{CountedFolders, NamedFiles, open_state};
use signed_note::Verifier;
use std::alloc::Global;
use tlog_hash::TreeHash;
use tlog_mirror::Mirror;

/// Updates the folder to the files that the mirror in the state file serves. It puts the tiles and entry bundles that the log
/// of the folder's checkpoint lacks, and the checkpoint last. If the folder has no checkpoint, all files are put.
///
/// ```text
/// let mut folders = CountingShelf::new(DirShelf::new(&rt, alloc, "."), progress);
/// run_update::<Sha256Tree, _, _>(&files, &mut folders, alloc, "example.com/log", &keys, "log.state", "log")?;
/// ```
///
/// # Errors
///
/// In this order: `State`, those of `open_state`; `OutOfMemory` if there is no memory for the folder's name. After these
/// nothing was put. Then `Update`, those of `mirror_files::update`. Files that were put before a fault remain.
pub fn run_update<H: TreeHash, F: NamedFiles, D: CountedFolders>(
    files: &F,
    folders: &mut D,
    alloc: Global,
    origin: &str,
    keys: &[Box<dyn Verifier>],
    state: &str,
    folder: &str,
) -> Result<(), FolderFault>
    ensures answer { UpdatesFile H.digest origin.now (map (λ k. key k) keys.now) (F.puts files.now)
        state.now (D.held folders.old folder.now) (D.puts folders.old) (D.puts folders.new) result }
    ensures blamed { CountsFileUpdate (D.failed folders.old) (D.failed folders.new) result }
{
    match open_state::<H, F>(files, alloc, origin, keys, state) {
        Ok(mirror) => {
            let done = update_into(alloc, &mirror, folders, folder);
            drop(mirror);
            done
        }
        Err(fault) => Err(FolderFault::State(fault)),
    }
}

// Opens the folder, and updates it to the files that the mirror of a state file serves.
fn update_into<H: TreeHash, D: CountedFolders>(
    alloc: Global,
    mirror: &Mirror<H>,
    folders: &mut D,
    folder: &str,
) -> Result<(), FolderFault>
    ensures answer { (origin : List ℕ) (keys : List Key) (recorded : Option (List NamedFile))
        (state : List ℕ) → OpensFile H.digest origin keys recorded state (Ok mirror.now.view)
        → UpdatesFile H.digest origin keys recorded state (D.held folders.old folder.now)
        (D.puts folders.old) (D.puts folders.new) result }
    ensures blamed { CountsFileUpdate (D.failed folders.old) (D.failed folders.new) result }
{
    match folders.open(folder) {
        Ok(()) => {}
        Err(_) => return Err(FolderFault::OutOfMemory),
    }
    match update(alloc, mirror, folders) {
        Ok(()) => Ok(()),
        Err(fault) => Err(FolderFault::Update(fault)),
    }
}
