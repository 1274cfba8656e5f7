//! The checkpoint, which is put last.
ghost use Rattle.std.specs.Prelude.{◌≡◌, ◌↔◌, IfErr, IsTrue, OnOk, option_map};
ghost use Rattle.mirror_folders.specs.Flushes.{FlushesAll};
ghost use Rattle.copy_follow.specs.Conflicts.{IsNoConflict};
ghost use Rattle.copy_follow.specs.Faults.{BlamesLast, CountsShelf};
ghost use Rattle.copy_follow.specs.Edges.{PutsNote};

use crate::bring_fault::BringFault;
use crate::same::is_same;
use crate::tip::CopyTip;
use mirror_folders::ReadableShelf;
use tlog_tiles::Path;

// Whether the shelf still has the checkpoint that was read with the tip.
fn is_unchanged(tip: &CopyTip, now: &Option<Vec<u8>>) -> bool
    ensures { IsTrue result ↔ (option_map (λ v. v.items) now.now ≡ tip.now.checkpoint) }
{
    match (tip.checkpoint(), now) {
        (Some(found), Some(now)) => is_same(found, now),
        (None, None) => true,
        _ => false,
    }
}

/// Puts the checkpoint, if the shelf still has the one that was read with the tip.
pub(crate) fn put_last<D: ReadableShelf>(
    shelf: &mut D,
    tip: &CopyTip,
    note: &[u8],
) -> Result<(), BringFault>
    ensures fault { IfErr result IsNoConflict }
    ensures counted { CountsShelf (D.failed shelf.old) (D.failed shelf.new) result }
    ensures blames { IfErr result (BlamesLast tip.now.checkpoint (D.puts shelf.old)) }
    ensures puts { PutsNote (D.puts shelf.old) (D.puts shelf.new) tip.now.checkpoint
        note.now result }
    ensures flushed { OnOk result (FlushesAll (D.flushes shelf.old) (D.flushes shelf.new)) }
{
    let now = shelf.read(&Path::Checkpoint)?;
    if !is_unchanged(tip, &now) {
        return Err(BringFault::CopyInUse);
    }
    shelf.put(&Path::Checkpoint, note)?;
    Ok(())
}
