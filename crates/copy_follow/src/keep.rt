//! A verified file, put if the shelf lacks it.
ghost use Rattle.std.specs.Prelude.{◌≡◌, ◌⊎◌, [], ◌∷◌, IfErr, IfOk, IsTrue, OnOk};
ghost use Rattle.mirror_sources.specs.Recorded.{KeepsRecord, AddsToRecord};
ghost use Rattle.mirror_folders.specs.Flushes.{Secures};
ghost use Rattle.copy_follow.specs.Conflicts.{IsNoConflict};
ghost use Rattle.copy_follow.specs.Faults.{CountsShelf, IsOfNoPlace};
ghost use Rattle.copy_follow.specs.Standing.{RecordsStands};

use crate::bring_fault::BringFault;
use crate::same::is_same;
use mirror_folders::ReadableShelf;
use tlog_tiles::Path;

// Whether the shelf has these bytes at the path.
fn stands<D: ReadableShelf>(shelf: &mut D, path: &Path, bytes: &[u8]) -> Result<bool, BringFault>
    ensures fault { IfErr result IsNoConflict }
    ensures counted { CountsShelf (D.failed shelf.old) (D.failed shelf.new) result }
    ensures places { IfErr result IsOfNoPlace }
    ensures same { KeepsRecord (D.puts shelf.old) (D.puts shelf.new) }
    ensures still { D.flushes shelf.new ≡ D.flushes shelf.old }
    ensures there { IfOk result (λ b. IsTrue b
        → RecordsStands (D.puts shelf.old) (D.puts shelf.new) path.now bytes.now) }
{
    match shelf.read(path)? {
        Some(there) => Ok(is_same(&there, bytes)),
        None => Ok(false),
    }
}

/// Puts the file, if the shelf lacks it. A file on the shelf, perhaps from an earlier run, is flushed before the checkpoint is put.
pub(crate) fn keep<D: ReadableShelf>(
    shelf: &mut D,
    path: &Path,
    bytes: &[u8],
) -> Result<(), BringFault>
    ensures fault { IfErr result IsNoConflict }
    ensures counted { CountsShelf (D.failed shelf.old) (D.failed shelf.new) result }
    ensures places { IfErr result IsOfNoPlace }
    ensures puts { KeepsRecord (D.puts shelf.old) (D.puts shelf.new)
        ⊎ AddsToRecord (D.puts shelf.old) (D.puts shelf.new) ((path.now, bytes.now) ∷ []) }
    ensures stands { OnOk result
        (RecordsStands (D.puts shelf.old) (D.puts shelf.new) path.now bytes.now) }
    ensures secured { OnOk result
        (Secures (λ p. p ≡ path.now) (D.flushes shelf.old) (D.flushes shelf.new)) }
{
    if stands(shelf, path, bytes)? {
        shelf.flush_before_checkpoint(path)?;
        return Ok(());
    }
    shelf.put(path, bytes)?;
    Ok(())
}
