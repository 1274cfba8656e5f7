//! The partial bundle at the right edge.
ghost use Rattle.std.specs.Prelude.{◌≡◌, ◌≢◌, ◌*◌, ◌^◌, ◌<◌, ◌≤◌, [], ℕ, List, IfErr, IfNone, IfOk, IfSome, OnOk, Some, length, take};
ghost use Rattle.tlog_shape.specs.Edge.{edge_index_of};
ghost use Rattle.mirror_sources.specs.Files.{full_of};
ghost use Rattle.mirror_sources.specs.Recorded.{KeepsRecord};
ghost use Rattle.mirror_folders.specs.Flushes.{Secures};
ghost use Rattle.copy_follow.specs.Secured.{IsLastBundle};
ghost use Rattle.copy_follow.specs.Asked.{IsEdgeBundle};
ghost use Rattle.copy_places.specs.Asked.{IsPathOrFull};
ghost use Rattle.copy_follow.specs.Faults.{BlamesPlaces, CountsShelf, IsOfNoPlace};
ghost use Rattle.copy_places.specs.AskedOnce.{AsksOnce};
ghost use Rattle.copy_places.specs.PlaceGets.{AsksPlaces};
ghost use Rattle.copy_follow.specs.Conflicts.{ConflictPutsNothing, IsNoConflict};
ghost use Rattle.log_reader.specs.Verified.{HasLeaves};
ghost use Rattle.copy_follow.specs.Growing.{IsKnown};
ghost use Rattle.copy_follow.specs.Lacked.{IsRecorded};
ghost use Rattle.log_reader.specs.EdgeRows.{HasWidths};
ghost use Rattle.copy_follow.specs.Edges.{BringsEdgeBundle};
ghost use Rattle.copy_follow.specs.Differing.{DiffersBy};
ghost use Rattle.copy_places.specs.TruePlaces.{HasTruePlace};
ghost use Rattle.copy_follow.specs.Suffices.{IsEdgeTrue, IsNoLack, IsSpared, IsTipOf, OneIsHonest};
ghost use Rattle.copy_places.specs.Giving.{PartOf};
ghost use Rattle.copy_follow.specs.Taken.{MayTake, WasPut};
ghost use Rattle.copy_places.specs.TrueAnswers.{HasTrueLeaves};
ghost use Rattle.mirror_model.specs.TrueLaws.{AreShort};

use crate::bring_fault::{BringFault, fault_of};
use crate::keep::keep;
use crate::tip::CopyTip;
use copy_places::{Places, accept_bundle, bundle_at_places};
use log_reader::EdgeRows;
use mirror_folders::{ReadableShelf, partial_on_shelf};
use mirror_sources::Source;
use std::alloc::Global;
use tlog_hash::{Hash, TreeHash};
use tlog_shape::edge_index;
use tlog_tiles::Path;

// The bundle from the shelf, if it has these leaf hashes. The shelf notes one that does not.
pub(crate) fn edge_bundle_on_shelf<H: TreeHash, D: ReadableShelf>(
    alloc: Global,
    shelf: &mut D,
    path: &Path,
    row: &[Hash],
) -> Result<Option<Vec<u8>>, BringFault>
    requires { length row.now ≤ 256 }
    ensures found { IfOk result (λ found. IfSome found
        (λ bytes. HasLeaves H.digest (length row.now) bytes.items row.now)) }
    ensures fault { IfErr result IsNoConflict }
    ensures places { IfErr result IsOfNoPlace }
    ensures same { KeepsRecord (D.puts shelf.old) (D.puts shelf.new) }
    ensures still { D.flushes shelf.new ≡ D.flushes shelf.old }
    ensures counted { CountsShelf (D.failed shelf.old) (D.failed shelf.new) result }
    ensures taken { IfOk result (λ found. IfSome found
        (λ bytes. PartOf (WasPut (D.puts shelf.old)) path.now bytes.items)) }
    ensures none { IfOk result (λ found. IfNone found ((bytes : List ℕ)
        → IsRecorded (D.puts shelf.old) path.now bytes
        → ¬ HasLeaves H.digest (length row.now) bytes row.now)) }
{
    let Some(bytes) = partial_on_shelf(shelf, path)? else {
        return Ok(None);
    };
    match accept_bundle::<H>(alloc, row, Some(bytes))? {
        Some(found) => Ok(Some(found)),
        None => {
            shelf.note_damaged(path);
            Ok(None)
        }
    }
}

// The bundle from the shelf, or else from a place.
pub(crate) fn find_edge_bundle<H: TreeHash, D: ReadableShelf, S: Source + Drop>(
    alloc: Global,
    shelf: &mut D,
    places: &mut Places<S>,
    path: &Path,
    row: &[Hash],
) -> Result<Vec<u8>, BringFault>
    requires { length row.now ≤ 256 }
    ensures found { IfOk result (λ bytes. HasLeaves H.digest (length row.now) bytes.items row.now) }
    ensures fault { IfErr result IsNoConflict }
    ensures same { KeepsRecord (D.puts shelf.old) (D.puts shelf.new) }
    ensures still { D.flushes shelf.new ≡ D.flushes shelf.old }
    ensures counted { CountsShelf (D.failed shelf.old) (D.failed shelf.new) result }
    ensures asks { AsksPlaces S.may_answer S.failed S.asked (IsPathOrFull path.now)
        places.old places.new }
    ensures once { path.now ≢ full_of path.now
        → AsksOnce S.asked (λ k. IsPathOrFull path.now) places.old places.new }
    ensures blames { IfErr result (BlamesPlaces places.new) }
    ensures taken { IfOk result (λ bytes. PartOf
        (MayTake S.may_answer places.old (D.puts shelf.old)) path.now bytes.items) }
    ensures suffices { IfErr result (λ e. (entries : List (List ℕ)) → AreShort entries
        → HasTrueLeaves H.digest entries path.now row.now
        → HasTruePlace H.digest entries S.may_answer places.old places.new → IsNoLack e) }
{
    if let Some(found) = edge_bundle_on_shelf::<H, D>(alloc, shelf, path, row)? {
        return Ok(found);
    }
    match bundle_at_places::<H, S>(alloc, places, path, row)? {
        Some(found) => Ok(found),
        None => Err(fault_of(places)),
    }
}

/// Brings the partial bundle at the right edge, if there is one.
pub(crate) fn bring_edge_bundle<H: TreeHash, D: ReadableShelf, S: Source + Drop>(
    alloc: Global,
    shelf: &mut D,
    places: &mut Places<S>,
    tip: &CopyTip,
    edge: &EdgeRows,
) -> Result<(), BringFault>
    requires size { edge.now.size < 2 ^ 63 }
    requires larger { tip.now.size < edge.now.size }
    requires widths { HasWidths edge.now }
    ensures counted { CountsShelf (D.failed shelf.old) (D.failed shelf.new) result }
    ensures asks { AsksPlaces S.may_answer S.failed S.asked (IsEdgeBundle edge.now.size)
        places.old places.new }
    ensures once { AsksOnce S.asked (λ k. IsEdgeBundle edge.now.size) places.old places.new }
    ensures blames { IfErr result (BlamesPlaces places.new) }
    ensures honest { IfErr result (λ e. (entries : List (List ℕ)) (size : ℕ)
        → OneIsHonest H.digest entries size S.may_answer (D.puts shelf.old) places.old places.new
        → IsTipOf H.digest tip.now (take size entries)
        → IsEdgeTrue H.digest (take size entries) edge.now → IsSpared e) }
    ensures early { ConflictPutsNothing (edge_index_of edge.now.size 0 * 256) tip.now.size
        (D.puts shelf.old)
        (D.puts shelf.new) result }
    ensures empty { IfErr result (λ e. IsKnown H.digest tip.now 0 [] → IsNoConflict e) }
    ensures differs { IfErr result (DiffersBy H.digest edge.now tip.now) }
    ensures brings { (known : List (List ℕ)) → IsKnown H.digest tip.now
        (edge_index_of edge.now.size 0 * 256) known
        → BringsEdgeBundle H.digest tip.now.size edge.now known (D.puts shelf.old)
        (D.puts shelf.new) result }
    ensures secured { OnOk result (Secures (IsLastBundle edge.now.size) (D.flushes shelf.old)
        (D.flushes shelf.new)) }
{
    let row = edge.row(0);
    if row.is_empty() {
        return Ok(());
    }
    let index = edge_index(edge.size(), 0);
    if tip.first_new(0, index, row).is_none() {
        return Err(BringFault::Contradiction);
    }
    let path = Path::Entries {
        index,
        width: row.len() as u32,
    };
    let bytes = match find_edge_bundle::<H, D, S>(alloc, shelf, places, &path, row) {
        Ok(bytes) => bytes,
        Err(fault) => return Err(fault),
    };
    if !tip.goes_on(index, &bytes) {
        return Err(BringFault::Collision);
    }
    keep(shelf, &path, &bytes)
}
