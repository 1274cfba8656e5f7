//! The tip of a copy whose checkpoint the caller has found before.
ghost use Rattle.std.specs.Prelude.{◌≡◌, ◌↔◌, IfErr, IfOk, IsTrue, OnOk, option_map};
ghost use Rattle.tlog_tiles.specs.declared.paths.Path.TheVariants.{Checkpoint};
ghost use Rattle.mirror_sources.specs.Recorded.{KeepsRecord};
ghost use Rattle.mirror_folders.specs.Shelf.{RecordsRead};
ghost use Rattle.copy_follow.specs.Compared.{BlamesTip};
ghost use Rattle.copy_follow.specs.Conflicts.{IsNoConflict};
ghost use Rattle.copy_follow.specs.Faults.{CountsShelf};
ghost use Rattle.copy_follow.specs.Found.{IsTipRead};
ghost use Rattle.copy_follow.specs.Told.{IsSizeIn};

use crate::bring_fault::BringFault;
use crate::read_tip::read_tip;
use crate::same::is_same;
use crate::tip::CopyTip;
use mirror_folders::ReadableShelf;
use std::alloc::Global;
use tlog_hash::TreeHash;

// Whether the tip was read with the checkpoint that the caller found.
fn is_found(tip: &CopyTip, found: Option<&[u8]>) -> bool
    ensures { IsTrue result ↔ (tip.now.checkpoint ≡ option_map (λ b. b.now) found.entry) }
{
    match (tip.checkpoint(), found) {
        (Some(there), Some(found)) => is_same(there, found),
        (None, None) => true,
        _ => false,
    }
}

/// The tip of the copy on a shelf, if its checkpoint is the one that the caller found.
pub(crate) fn read_found<H: TreeHash, D: ReadableShelf>(
    alloc: Global,
    origin: &str,
    shelf: &mut D,
    found: Option<&[u8]>,
) -> Result<CopyTip, BringFault>
    ensures fault { IfErr result IsNoConflict }
    ensures counted { CountsShelf (D.failed shelf.old) (D.failed shelf.new) result }
    ensures blames { IfErr result (BlamesTip H.digest origin.now
        (option_map (λ b. b.now) found.entry) (D.puts shelf.old)) }
    ensures same { KeepsRecord (D.puts shelf.old) (D.puts shelf.new) }
    ensures still { D.flushes shelf.new ≡ D.flushes shelf.old }
    ensures tip { IfOk result (λ tip. IsTipRead H.digest origin.now (D.puts shelf.old) tip) }
    ensures compared { OnOk result (RecordsRead (D.puts shelf.old) Checkpoint
        (option_map (λ b. b.now) found.entry)) }
    ensures size { IfOk result (λ tip. IsSizeIn origin.now
        (option_map (λ b. b.now) found.entry) tip.size) }
{
    let tip = match read_tip::<H, D>(alloc, origin, shelf) {
        Ok(tip) => tip,
        Err(fault) => return Err(fault),
    };
    if !is_found(&tip, found) {
        return Err(BringFault::CopyInUse);
    }
    Ok(tip)
}
