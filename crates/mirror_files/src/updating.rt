//! A folder with a checkpoint is brought up to date.
ghost use Rattle.std.specs.Prelude.{◌≡◌, ◌↔◌, ℕ, List, Some, None, IsTrue, option_map};
ghost use Rattle.mirror_model.specs.Reports.{SaysServed};
ghost use Rattle.mirror_trees.specs.Tops.{IsListOf};
ghost use Rattle.mirror_files.specs.Beginnings.{PutsLast, UpdatesTop};
ghost use Rattle.mirror_files.specs.Updates.{CountsUpdate, FlushesUpdate, StaysWhole, Updates};
ghost use Rattle.mirror_folders.specs.Flushes.{FlushesAtOk};

use crate::beginning::size_found;
use crate::export_fault::UpdateFault;
use crate::exported_files::put_parts;
use mirror_folders::ReadableShelf;
use mirror_trees::TopRanges;
use std::alloc::Global;
use tlog_hash::TreeHash;
use tlog_mirror::Mirror;
use tlog_proof::Ranges;
use tlog_tiles::Path;

fn is_same(first: &[u8], second: &[u8]) -> bool
    ensures { IsTrue result ↔ (first.now ≡ second.now) }
{
    first == second
}

// Whether a checkpoint with these bytes was found.
fn is_found(found: &Option<Vec<u8>>, bytes: &[u8]) -> bool
    ensures { IsTrue result ↔ (option_map (λ v. v.items) found.now ≡ Some bytes.now) }
{
    match found {
        Some(checkpoint) => is_same(checkpoint, bytes),
        None => false,
    }
}

// Whether both reads found the same.
fn is_same_found(first: &Option<Vec<u8>>, second: &Option<Vec<u8>>) -> bool
    ensures { IsTrue result
        ↔ (option_map (λ v. v.items) first.now ≡ option_map (λ v. v.items) second.now) }
{
    match second {
        Some(checkpoint) => is_found(first, checkpoint),
        None => first.is_none(),
    }
}

// Puts the checkpoint, if the one that was found is still at its path.
fn put_last<S: ReadableShelf>(
    shelf: &mut S,
    found: &Option<Vec<u8>>,
    note: &[u8],
) -> Result<(), UpdateFault>
    ensures puts { PutsLast (S.puts shelf.old) (S.puts shelf.new)
        (option_map (λ v. v.items) found.now) note.now result }
    ensures flushed { FlushesAtOk (S.flushes shelf.old) (S.flushes shelf.new) result }
    ensures counted { CountsUpdate (S.failed shelf.old) (S.failed shelf.new) result }
{
    let again = shelf.read(&Path::Checkpoint)?;
    if !is_same_found(&again, found) {
        return Err(UpdateFault::OtherLog);
    }
    shelf.put(&Path::Checkpoint, note)?;
    Ok(())
}

// Puts the files of the served log that the shelf lacks.
fn update_to<H: TreeHash, S: ReadableShelf>(
    alloc: Global,
    origin: &str,
    top: &TopRanges<'_, H>,
    size: u64,
    shelf: &mut S,
) -> Result<(), UpdateFault>
    requires size { size ≡ top.now.size }
    ensures recorded { (entries : List (List ℕ)) → IsListOf H.digest top.now entries
        → UpdatesTop H.digest top.now origin.now entries (S.puts shelf.old) (S.puts shelf.new)
        result }
    ensures flushed { FlushesUpdate (S.puts shelf.old) (S.puts shelf.new) (S.flushes shelf.old)
        (S.flushes shelf.new) result }
    ensures counted { CountsUpdate (S.failed shelf.old) (S.failed shelf.new) result }
{
    let found = shelf.read(&Path::Checkpoint)?;
    let since = size_found(alloc, origin, top, &found)?;
    let note = top.note().bytes();
    if is_found(&found, note) {
        return Ok(());
    }
    put_parts(alloc, top, size, since, shelf)?;
    put_last(shelf, &found, note)
}

/// Brings a shelf up to date. It puts the files of the served log that a log with the size of the shelf's checkpoint
/// lacks. They come in the order of `export`, and last the checkpoint. If the shelf has no checkpoint, all files are
/// put. It removes no file. So if all files of the shelf's checkpoint are there, the shelf has a complete log at each
/// moment.
///
/// It reads the shelf's checkpoint first, and again before it puts the new one. If there is another one by then, as
/// from another update, it does not put the new one.
///
/// It checks no signature. The served log has to extend the checkpoint. This is a note of the mirror's origin; its size
/// is at most the served one, and its root is that of the first `size` served entries. If it is the served note, byte
/// for byte, nothing is put.
///
/// ```text
/// let mut shelf = DirShelf::new(&rt, alloc, "log");
/// update(alloc, &mirror, &mut shelf)?; // from 256 to 257: tile/0/001.p/1, tile/entries/001.p/1, checkpoint
/// ```
///
/// # Errors
///
/// `NothingComplete` exactly if nothing is served. `OtherLog` if the served log does not extend the checkpoint; then
/// nothing is put. Also `OtherLog` if the second read finds another checkpoint than the first. `ShelfFault` if the
/// shelf failed, also at a read, and `OutOfMemory` if memory was refused; then the files that were put stay, and some
/// are missing.
pub fn update<H: TreeHash, S: ReadableShelf>(
    alloc: Global,
    mirror: &Mirror<H>,
    shelf: &mut S,
) -> Result<(), UpdateFault>
    ensures puts { Updates H.digest mirror.now.view (S.puts shelf.old) (S.puts shelf.new) result }
    ensures nothing { (result ≡ Err UpdateFault.NothingComplete)
        ↔ SaysServed H.digest mirror.now.view None }

    // At each moment a complete log is on the shelf: the one that was found or the served one, and at Ok the served
    // one.
    ensures whole { StaysWhole H.digest mirror.now.view (S.puts shelf.old) (S.puts shelf.new)
        result }

    ensures flushed { FlushesUpdate (S.puts shelf.old) (S.puts shelf.new) (S.flushes shelf.old)
        (S.flushes shelf.new) result }
    ensures blamed { CountsUpdate (S.failed shelf.old) (S.failed shelf.new) result }
{
    let Some(top) = mirror.top_ranges() else {
        return Err(UpdateFault::NothingComplete);
    };
    update_to(alloc, mirror.origin(), &top, top.size(), shelf)
}
