//! The tip of the copy on a shelf.
ghost use Rattle.std.specs.Prelude.{◌≡◌, ◌⊎◌, IfErr, IfOk};
ghost use Rattle.mirror_sources.specs.Recorded.{KeepsRecord};
ghost use Rattle.copy_follow.specs.Conflicts.{IsNoConflict};
ghost use Rattle.log_reader.specs.EdgeRows.{HasWidths};
ghost use Rattle.copy_follow.specs.Damaged.{IsBundleWrong, IsDamaged};
ghost use Rattle.copy_follow.specs.declared.bring_fault.BringFault.TheVariants.{CopyDamaged};
ghost use Rattle.copy_follow.specs.Faults.{CountsShelf, IsOfNoPlace};
ghost use Rattle.copy_follow.specs.Found.{IsBundleRead, IsTipRead};
ghost use Rattle.copy_follow.specs.Told.{IsSizeIn};

use crate::bring_fault::BringFault;
use crate::find_edge::edge_on_shelf;
use crate::tip::CopyTip;
use copy_places::accept_bundle;
use log_reader::{EdgeRows, head_of};
use mirror_folders::{ReadableShelf, partial_on_shelf};
use std::alloc::Global;
use tlog_hash::TreeHash;
use tlog_shape::edge_index;
use tlog_tiles::Path;

// The partial bundle at the right edge on the shelf, if it has the leaf hashes of the lowest row. Without such a bundle, no bytes.
fn bundle_on_shelf<H: TreeHash, D: ReadableShelf>(
    alloc: Global,
    shelf: &mut D,
    edge: &EdgeRows,
) -> Result<Vec<u8>, BringFault>
    requires { HasWidths edge.now }
    ensures fault { IfErr result IsNoConflict }
    ensures counted { CountsShelf (D.failed shelf.old) (D.failed shelf.new) result }
    ensures damaged { IfErr result (λ e. ((e ≡ CopyDamaged)
        × IsBundleWrong H.digest (D.puts shelf.old) edge.now) ⊎ IsOfNoPlace e) }
    ensures same { KeepsRecord (D.puts shelf.old) (D.puts shelf.new) }
    ensures still { D.flushes shelf.new ≡ D.flushes shelf.old }
    ensures bundle { IfOk result (λ bytes. IsBundleRead
        (D.puts shelf.old) edge.now.size bytes.items) }
{
    let row = edge.row(0);
    if row.is_empty() {
        return Ok(Vec::new(alloc));
    }
    let path = Path::Entries {
        index: edge_index(edge.size(), 0),
        width: row.len() as u32,
    };
    let given = partial_on_shelf(shelf, &path)?;
    match accept_bundle::<H>(alloc, row, given)? {
        Some(bytes) => Ok(bytes),
        None => Err(BringFault::CopyDamaged),
    }
}

/// The tip of the copy on a shelf. Its checkpoint has to be a note of the origin. The edge rows of its size have to lead to its root. The
/// partial bundle at the right edge has to have the leaf hashes of the lowest row. This call verifies no signature and reads no other
/// file. A shelf without a checkpoint is an empty copy.
pub(crate) fn read_tip<H: TreeHash, D: ReadableShelf>(
    alloc: Global,
    origin: &str,
    shelf: &mut D,
) -> Result<CopyTip, BringFault>
    ensures fault { IfErr result IsNoConflict }
    ensures counted { CountsShelf (D.failed shelf.old) (D.failed shelf.new) result }
    ensures damaged { IfErr result (λ e. ((e ≡ CopyDamaged)
        × IsDamaged H.digest origin.now (D.puts shelf.old)) ⊎ IsOfNoPlace e) }
    ensures same { KeepsRecord (D.puts shelf.old) (D.puts shelf.new) }
    ensures still { D.flushes shelf.new ≡ D.flushes shelf.old }
    ensures tip { IfOk result (λ tip. IsTipRead H.digest origin.now (D.puts shelf.old) tip) }
    ensures size { IfOk result (λ tip. IsSizeIn origin.now tip.checkpoint tip.size) }
{
    let Some(checkpoint) = shelf.read(&Path::Checkpoint)? else {
        return Ok(CopyTip::empty(alloc));
    };
    let Some(head) = head_of(alloc, origin, &checkpoint)? else {
        return Err(BringFault::CopyDamaged);
    };
    let root = head.1;
    let Some(edge) = edge_on_shelf::<H, D>(alloc, shelf, head.0, &root)? else {
        return Err(BringFault::CopyDamaged);
    };
    let bundle = bundle_on_shelf::<H, D>(alloc, shelf, &edge)?;
    Ok(CopyTip::new(edge, bundle, checkpoint))
}
