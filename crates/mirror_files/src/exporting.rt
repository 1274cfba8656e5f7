//! A mirror exported onto a shelf.
ghost use Rattle.std.specs.Prelude.{◌≡◌, ◌↔◌, None};
ghost use Rattle.mirror_model.specs.Reports.{SaysServed};
ghost use Rattle.mirror_files.specs.Exports.{CheckpointIsLast, CountsExport, Exports, FlushesExport};

use crate::export_fault::ExportFault;
use crate::exported_files::put_served;
use mirror_folders::Shelf;
use std::alloc::Global;
use tlog_hash::TreeHash;
use tlog_mirror::Mirror;
use tlog_proof::Ranges;
use tlog_tiles::Path;

/// Puts the served log onto a shelf, in the layout of C2SP tlog-tiles: all tiles of the served size by rising level and
/// index, then all bundles, then the checkpoint. So a shelf that had no checkpoint gets one only after all of its files
/// are there.
///
/// ```text
/// let mut shelf = DirShelf::new(&rt, alloc, "log");
/// export(alloc, &mirror, &mut shelf)?; // log/tile/0/000.p/3, log/tile/entries/000.p/3, log/checkpoint
/// ```
///
/// # Errors
///
/// `NothingComplete` exactly if nothing is served, and `ShelfInUse` if a checkpoint is on the shelf; then nothing is
/// put. `ShelfFault` if the shelf failed, and `OutOfMemory` if memory was refused; then the files that were put stay,
/// and some are missing.
pub fn export<H: TreeHash, S: Shelf>(
    alloc: Global,
    mirror: &Mirror<H>,
    shelf: &mut S,
) -> Result<(), ExportFault>
    ensures puts { Exports H.digest mirror.now.view (S.puts shelf.old) (S.puts shelf.new) result }
    ensures nothing { (result ≡ Err ExportFault.NothingComplete)
        ↔ SaysServed H.digest mirror.now.view None }

    // After each put, a shelf that had no checkpoint has one only if every tile and bundle of it is there with true
    // bytes.
    ensures last { CheckpointIsLast H.digest mirror.now.view (S.puts shelf.old) (S.puts shelf.new) }

    ensures flushed { FlushesExport (S.puts shelf.old) (S.puts shelf.new) (S.flushes shelf.old)
        (S.flushes shelf.new) result }
    ensures blamed { CountsExport (S.failed shelf.old) (S.failed shelf.new) result }
{
    let Some(top) = mirror.top_leaves(alloc) else {
        return Err(ExportFault::NothingComplete);
    };
    let in_use = shelf.has(&Path::Checkpoint)?;
    if in_use {
        return Err(ExportFault::ShelfInUse);
    }
    put_served(alloc, &top, top.size(), shelf)?;
    Ok(())
}
