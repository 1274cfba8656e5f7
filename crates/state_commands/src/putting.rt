//! Puts the files of a log of a list of entries onto a shelf.
ghost use Rattle.std.specs.Prelude.{◌≡◌, [], ◌∷◌, length};
ghost use Rattle.mirror_files.specs.Exports.{AddsFiles, CountsExport};
ghost use Rattle.mirror_folders.specs.FileLaws.{IsFileOf};
ghost use Rattle.mirror_folders.specs.Files.{files_at, paths_of};
ghost use Rattle.mirror_folders.specs.Shelf.{CountsFailures};
ghost use Rattle.state_commands.specs.Building.{PutsFiles};

use mirror_files::ExportFault;
use mirror_folders::{Shelf, ShelfError, files_law, log_paths};
use mirror_pull::ListSource;
use std::alloc::Global;
use tlog_hash::TreeHash;
use tlog_tiles::Path;

fn put_path<H: TreeHash, S: Shelf>(
    source: &ListSource<H>,
    shelf: &mut S,
    path: Path,
) -> Result<(), ShelfError>
    requires { IsFileOf (length source.now.entries) path }
    ensures recorded { AddsFiles (S.puts shelf.old) (S.puts shelf.new)
        (files_at H.digest source.now.note source.now.entries (path ∷ [])) result }
    ensures counted { CountsFailures (S.failed shelf.old) (S.failed shelf.new) result }
{
    let Some(bytes) = source.file_at(path) else {
        unreachable!()
    };
    shelf.put(&path, bytes)
}

// Puts all files of the log, in order.
fn put_paths<H: TreeHash, S: Shelf>(
    source: &ListSource<H>,
    shelf: &mut S,
    paths: &[Path],
) -> Result<(), ShelfError>
    requires { paths.now ≡ paths_of (length source.now.entries) }
    ensures recorded { AddsFiles (S.puts shelf.old) (S.puts shelf.new)
        (files_at H.digest source.now.note source.now.entries paths.now) result }
    ensures counted { CountsFailures (S.failed shelf.old) (S.failed shelf.new) result }
{
    files_law();
    for path in paths {
        put_path(source, shelf, *path)?;
    }
    Ok(())
}

// Puts all files of the log, which has `size` entries, onto a shelf without a checkpoint.
pub(crate) fn put_files<H: TreeHash, S: Shelf>(
    alloc: Global,
    source: &ListSource<H>,
    size: u64,
    shelf: &mut S,
) -> Result<(), ExportFault>
    requires { size ≡ length source.now.entries }
    ensures puts { PutsFiles H.digest source.now.note source.now.entries (S.puts shelf.old)
        (S.puts shelf.new) result }
    ensures blamed { CountsExport (S.failed shelf.old) (S.failed shelf.new) result }
{
    files_law();
    let in_use = shelf.has(&Path::Checkpoint)?;
    if in_use {
        return Err(ExportFault::ShelfInUse);
    }
    let Ok(paths) = log_paths(alloc, size) else {
        return Err(ExportFault::OutOfMemory);
    };
    put_paths(source, shelf, paths.as_slice())?;
    Ok(())
}
