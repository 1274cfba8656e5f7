//! The files of a copy mended, from its edge rows down.
ghost use Rattle.std.specs.Prelude.{◌≡◌, ◌*◌, ◌^◌, ◌<◌, ◌≤◌, ℕ, List, IfErr, IfNone, IfOk, IfSome, IsTrue, OnOk, length};
ghost use Rattle.tlog_shape.specs.Edge.{edge_index_of, width_of};
ghost use Rattle.tlog_tiles.specs.declared.paths.Path.TheVariants.{Entries};
ghost use Rattle.log_reader.specs.EdgeRows.{HasWidths, LeadsTo, RowIsTrue};
ghost use Rattle.copy_places.specs.Asked.{IsEdgeTile, IsPathOrFull};
ghost use Rattle.copy_places.specs.Giving.{IsEdgeFrom, PartOf};
ghost use Rattle.copy_places.specs.PlaceGets.{AsksPlaces};
ghost use Rattle.log_reader.specs.Verified.{HasLeaves};
ghost use Rattle.mirror_sources.specs.Recorded.{KeepsRecord};
ghost use Rattle.mirror_model.specs.TrueLaws.{AreShort};
ghost use Rattle.copy_follow.specs.Edges.{IsEdgeBrought};
ghost use Rattle.copy_follow.specs.Faults.{CountsShelf};
ghost use Rattle.copy_follow.specs.Growing.{IsKnown, empty_tip};
ghost use Rattle.copy_follow.specs.Lacked.{GoesDown, GoesOverAll, IsEdgeNowhere, IsEndNowhere, IsHadOrLacked};
ghost use Rattle.copy_follow.specs.Named.{NamesDamaged};
ghost use Rattle.copy_follow.specs.Repaired.{AreEndsClear, AreFullsClear, BeginsBundle, CountsPuts, IsClearLog, IsEachHad, IsEdgeCut, IsEndHad, IsFullFile, IsOfEdge, IsTreeClear, MayBeAskedToRepair, Mends, MendsEdgeTile, MendsEdgeTiles, PutsTrue};
ghost use Rattle.copy_follow.specs.Suffices.{IsEdgeTrue, IsSpared};
ghost use Rattle.copy_follow.specs.Taken.{MayTake};

use crate::bring_fault::BringFault;
use crate::edge_bundle::edge_bundle_on_shelf;
use crate::find_edge::edge_on_shelf;
use crate::mend::{mend_partial, note_lack};
use crate::mend_tiles::{both, mend_row};
use crate::own_edge::{own_edge, own_end};
use crate::repaired::Repaired;
use crate::wider::{edge_in_wider_ones, end_in_wider_ones};
use copy_places::{Places, bundle_at_places, edge_at_places};
use log_reader::{EdgeRows, edge_path};
use mirror_folders::ReadableShelf;
use mirror_sources::Source;
use std::alloc::Global;
use tlog_hash::{Hash, TreeHash};
use tlog_shape::edge_index;
use tlog_tiles::{Path, write_row};

// Mends all files below the right edge except the partial bundle, from left to right. False: nobody has one of them.
fn mend_levels<H: TreeHash, D: ReadableShelf, S: Source + Drop>(
    alloc: Global,
    shelf: &mut D,
    places: &mut Places<S>,
    edge: &EdgeRows,
    repaired: &mut Repaired,
) -> Result<bool, BringFault>
    requires size { edge.now.size < 2 ^ 63 }
    requires widths { HasWidths edge.now }
    ensures spared { IfErr result IsSpared }
    ensures counted { CountsShelf (D.failed shelf.old) (D.failed shelf.new) result }
    ensures mends { Mends S.may_answer S.failed S.asked IsFullFile places.old places.new
        (D.puts shelf.old) (D.puts shelf.new) repaired.old.put repaired.new.put }
    ensures keeps { (log : List (List ℕ))
        → AreFullsClear H.digest log (MayTake S.may_answer places.old (D.puts shelf.old))
        → IsEdgeTrue H.digest log edge.now
        → PutsTrue H.digest log (D.puts shelf.old) (D.puts shelf.new) }
    ensures goes_on { IfOk result (λ all. (log : List (List ℕ)) → AreShort log
        → AreFullsClear H.digest log (MayTake S.may_answer places.old (D.puts shelf.old))
        → IsEdgeTrue H.digest log edge.now
        → GoesDown H.digest log S.may_answer places.old places.new (D.puts shelf.old)
        (D.puts shelf.new) 1) }
    ensures names { IfOk result (λ all. (log : List (List ℕ)) → AreShort log
        → AreFullsClear H.digest log (MayTake S.may_answer places.old (D.puts shelf.old))
        → IsEdgeTrue H.digest log edge.now
        → NamesDamaged H.digest log (D.puts shelf.old) repaired.old.damaged.items
        repaired.new.damaged.items) }
    ensures whole { IfOk result (λ all. IsTrue all → (known : List (List ℕ))
        → IsKnown H.digest empty_tip 0 known
        → IsEdgeBrought H.digest empty_tip edge.now known 1 (D.puts shelf.old)
        (D.puts shelf.new)) }
{
    let bundles = edge.size() / 256;
    let mut all = true;
    for done in 0..7u32 {
        let level = 7 - done;
        let index = edge_index(edge.size(), level);
        match mend_row::<H, D, S>(
            alloc,
            shelf,
            places,
            level,
            index,
            edge.row(level),
            bundles,
            repaired,
        ) {
            Ok(there) => {
                all = both(all, there);
            }
            Err(fault) => return Err(fault),
        }
    }
    Ok(all)
}

// Mends the partial tile of a level, if there is one.
fn mend_edge_tile<H: TreeHash, D: ReadableShelf>(
    alloc: Global,
    shelf: &mut D,
    edge: &EdgeRows,
    level: u32,
    repaired: &mut Repaired,
) -> Result<(), BringFault>
    requires level { level ≤ 7 }
    requires widths { HasWidths edge.now }
    ensures spared { IfErr result IsSpared }
    ensures counted { CountsShelf (D.failed shelf.old) (D.failed shelf.new) result }
    ensures counts { CountsPuts repaired.old.put repaired.new.put
        (D.puts shelf.old) (D.puts shelf.new) }
    ensures puts { (entries : List (List ℕ)) → length entries ≡ edge.now.size
        → RowIsTrue H.digest edge.now entries level
        → MendsEdgeTile H.digest edge.now entries (D.puts shelf.old) (D.puts shelf.new)
        level result }
    ensures names { OnOk result ((log : List (List ℕ)) → length log ≡ edge.now.size
        → RowIsTrue H.digest edge.now log level
        → NamesDamaged H.digest log (D.puts shelf.old) repaired.old.damaged.items
        repaired.new.damaged.items) }
{
    let row = edge.row(level);
    if row.is_empty() {
        return Ok(());
    }
    let path = edge_path(edge.size(), level);
    let bytes = match write_row(alloc, row) {
        Ok(bytes) => bytes,
        Err(_) => return Err(BringFault::OutOfMemory),
    };
    mend_partial(shelf, &path, &bytes, repaired)
}

// Mends the partial tiles.
fn mend_edge_tiles<H: TreeHash, D: ReadableShelf>(
    alloc: Global,
    shelf: &mut D,
    edge: &EdgeRows,
    repaired: &mut Repaired,
) -> Result<(), BringFault>
    requires widths { HasWidths edge.now }
    ensures spared { IfErr result IsSpared }
    ensures counted { CountsShelf (D.failed shelf.old) (D.failed shelf.new) result }
    ensures counts { CountsPuts repaired.old.put repaired.new.put
        (D.puts shelf.old) (D.puts shelf.new) }
    ensures puts { (entries : List (List ℕ)) → length entries ≡ edge.now.size
        → ((level : ℕ) → level ≤ 7 → RowIsTrue H.digest edge.now entries level)
        → MendsEdgeTiles H.digest edge.now entries (D.puts shelf.old) (D.puts shelf.new) result }
    ensures names { OnOk result ((log : List (List ℕ)) → length log ≡ edge.now.size
        → ((level : ℕ) → level ≤ 7 → RowIsTrue H.digest edge.now log level)
        → NamesDamaged H.digest log (D.puts shelf.old) repaired.old.damaged.items
        repaired.new.damaged.items) }
{
    for level in 0..8u32 {
        match mend_edge_tile::<H, D>(alloc, shelf, edge, level, repaired) {
            Ok(()) => {}
            Err(fault) => return Err(fault),
        }
    }
    Ok(())
}

// The edge rows of a tree of that size and root: from the shelf, or else all from one place that has that tree. A partial tile on the shelf
// may be false beside its full one, so what that begins with counts too. None: nobody has them.
#[tactic(auto, using(crate::proofs::Earlier::kept_then))]
fn edge_found<H: TreeHash, D: ReadableShelf, S: Source + Drop>(
    alloc: Global,
    shelf: &mut D,
    places: &mut Places<S>,
    size: u64,
    root: &Hash,
) -> Result<Option<EdgeRows>, BringFault>
    ensures spared { IfErr result IsSpared }
    ensures counted { CountsShelf (D.failed shelf.old) (D.failed shelf.new) result }
    ensures same { KeepsRecord (D.puts shelf.old) (D.puts shelf.new) }
    ensures asks { AsksPlaces S.may_answer S.failed S.asked (IsEdgeTile size)
        places.old places.new }
    ensures leads { IfOk result (λ found. IfSome found
        (λ edge. LeadsTo H.digest size root.now edge)) }
    ensures taken { IfOk result (λ found. IfSome found
        (λ edge. IsEdgeFrom (MayTake S.may_answer places.old (D.puts shelf.old)) size edge)) }
    ensures none { IfOk result (λ found. IfNone found
        (IsEdgeNowhere H.digest S.may_answer places.old places.new (D.puts shelf.old)
        size root.now)) }
{
    match edge_on_shelf::<H, D>(alloc, shelf, size, root) {
        Ok(Some(edge)) => return Ok(Some(edge)),
        Ok(None) => {}
        Err(fault) => return Err(fault),
    }
    match own_edge::<H, D>(alloc, shelf, size, root) {
        Ok(Some(edge)) => return Ok(Some(edge)),
        Ok(None) => {}
        Err(fault) => return Err(fault),
    }
    match edge_at_places::<H, S>(alloc, places, size, root) {
        Ok(found) => Ok(found),
        Err(_) => Err(BringFault::OutOfMemory),
    }
}

// The partial bundle at the path: from the shelf, also cut from its full one where the partial one is false, or else from a place that has
// it. None: nobody has it.
#[tactic(auto, using(crate::proofs::Earlier::kept_then))]
fn end_found<H: TreeHash, D: ReadableShelf, S: Source + Drop>(
    alloc: Global,
    shelf: &mut D,
    places: &mut Places<S>,
    path: &Path,
    row: &[Hash],
) -> Result<Option<Vec<u8>>, BringFault>
    requires { length row.now ≤ 256 }
    ensures spared { IfErr result IsSpared }
    ensures counted { CountsShelf (D.failed shelf.old) (D.failed shelf.new) result }
    ensures same { KeepsRecord (D.puts shelf.old) (D.puts shelf.new) }
    ensures asks { AsksPlaces S.may_answer S.failed S.asked (IsPathOrFull path.now)
        places.old places.new }
    ensures found { IfOk result (λ found. IfSome found
        (λ bytes. HasLeaves H.digest (length row.now) bytes.items row.now)) }
    ensures taken { IfOk result (λ found. IfSome found (λ bytes. PartOf
        (MayTake S.may_answer places.old (D.puts shelf.old)) path.now bytes.items)) }
    ensures none { IfOk result (λ found. IfNone found
        (IsEndNowhere H.digest S.may_answer places.old places.new (D.puts shelf.old)
        path.now row.now)) }
{
    match edge_bundle_on_shelf::<H, D>(alloc, shelf, path, row) {
        Ok(Some(bytes)) => return Ok(Some(bytes)),
        Ok(None) => {}
        Err(fault) => return Err(fault),
    }
    match own_end::<H, D>(alloc, shelf, path, row) {
        Ok(Some(bytes)) => return Ok(Some(bytes)),
        Ok(None) => {}
        Err(fault) => return Err(fault),
    }
    match bundle_at_places::<H, S>(alloc, places, path, row) {
        Ok(found) => Ok(found),
        Err(_) => Err(BringFault::OutOfMemory),
    }
}

/// The edge rows of a tree of that size and root: from the shelf, or else from a place. None: nobody has them all.
pub(crate) fn look_for_edge<H: TreeHash, D: ReadableShelf, S: Source + Drop>(
    alloc: Global,
    origin: &str,
    shelf: &mut D,
    places: &mut Places<S>,
    size: u64,
    root: &Hash,
) -> Result<Option<EdgeRows>, BringFault>
    ensures spared { IfErr result IsSpared }
    ensures counted { CountsShelf (D.failed shelf.old) (D.failed shelf.new) result }
    ensures same { KeepsRecord (D.puts shelf.old) (D.puts shelf.new) }
    ensures asks { AsksPlaces S.may_answer S.failed S.asked (IsOfEdge size)
        places.old places.new }
    ensures leads { IfOk result (λ found. IfSome found
        (λ edge. LeadsTo H.digest size root.now edge)) }
    ensures taken { IfOk result (λ found. IfSome found
        (λ edge. IsEdgeCut (MayTake S.may_answer places.old (D.puts shelf.old)) size edge)) }
    ensures none { IfOk result (λ found. IfNone found
        (IsEdgeNowhere H.digest S.may_answer places.old places.new (D.puts shelf.old)
        size root.now)) }
{
    match edge_found::<H, D, S>(alloc, shelf, places, size, root) {
        Ok(Some(edge)) => return Ok(Some(edge)),
        Ok(None) => {}
        Err(fault) => return Err(fault),
    }
    match edge_in_wider_ones::<H, S>(alloc, origin, places, size, root) {
        Ok(found) => Ok(found),
        Err(_) => Err(BringFault::OutOfMemory),
    }
}

// The partial bundle: from the shelf, or else from a place. None: nobody has it.
fn look_for_end<H: TreeHash, D: ReadableShelf, S: Source + Drop>(
    alloc: Global,
    origin: &str,
    shelf: &mut D,
    places: &mut Places<S>,
    size: u64,
    path: &Path,
    row: &[Hash],
) -> Result<Option<Vec<u8>>, BringFault>
    requires width { length row.now ≤ 256 }
    requires path { path.now ≡ Entries (edge_index_of size 0) (length row.now) }
    ensures spared { IfErr result IsSpared }
    ensures counted { CountsShelf (D.failed shelf.old) (D.failed shelf.new) result }
    ensures same { KeepsRecord (D.puts shelf.old) (D.puts shelf.new) }
    ensures asks { AsksPlaces S.may_answer S.failed S.asked (IsOfEdge size)
        places.old places.new }
    ensures found { IfOk result (λ found. IfSome found
        (λ bytes. HasLeaves H.digest (length row.now) bytes.items row.now)) }
    ensures taken { IfOk result (λ found. IfSome found
        (λ bytes. BeginsBundle (MayTake S.may_answer places.old (D.puts shelf.old))
        (edge_index_of size 0) bytes.items)) }
    ensures none { IfOk result (λ found. IfNone found
        (IsEndNowhere H.digest S.may_answer places.old places.new (D.puts shelf.old)
        path.now row.now)) }
{
    match end_found::<H, D, S>(alloc, shelf, places, path, row) {
        Ok(Some(bytes)) => return Ok(Some(bytes)),
        Ok(None) => {}
        Err(fault) => return Err(fault),
    }
    match end_in_wider_ones::<H, S>(alloc, origin, places, size, row) {
        Ok(found) => Ok(found),
        Err(_) => Err(BringFault::OutOfMemory),
    }
}

// Mends the partial bundle at the right edge, if there is one. False: nobody has it.
fn mend_end<H: TreeHash, D: ReadableShelf, S: Source + Drop>(
    alloc: Global,
    origin: &str,
    shelf: &mut D,
    places: &mut Places<S>,
    edge: &EdgeRows,
    repaired: &mut Repaired,
) -> Result<bool, BringFault>
    requires widths { HasWidths edge.now }
    requires some { 1 ≤ edge.now.size }
    ensures spared { IfErr result IsSpared }
    ensures counted { CountsShelf (D.failed shelf.old) (D.failed shelf.new) result }
    ensures asks { AsksPlaces S.may_answer S.failed S.asked (IsOfEdge edge.now.size)
        places.old places.new }
    ensures counts { CountsPuts repaired.old.put repaired.new.put
        (D.puts shelf.old) (D.puts shelf.new) }
    ensures keeps { (log : List (List ℕ))
        → AreEndsClear H.digest log (MayTake S.may_answer places.old (D.puts shelf.old))
        → IsEdgeTrue H.digest log edge.now
        → PutsTrue H.digest log (D.puts shelf.old) (D.puts shelf.new) }
    ensures goes_on { IfOk result (λ all. (log : List (List ℕ)) → AreShort log
        → AreEndsClear H.digest log (MayTake S.may_answer places.old (D.puts shelf.old))
        → IsEdgeTrue H.digest log edge.now → 1 ≤ width_of (length log) 0
        → IsHadOrLacked H.digest log S.may_answer places.old places.new (D.puts shelf.old)
        (D.puts shelf.new) (Entries (edge_index_of (length log) 0) (width_of (length log) 0))) }
    ensures names { IfOk result (λ all. (log : List (List ℕ)) → AreShort log
        → AreEndsClear H.digest log (MayTake S.may_answer places.old (D.puts shelf.old))
        → IsEdgeTrue H.digest log edge.now
        → NamesDamaged H.digest log (D.puts shelf.old) repaired.old.damaged.items
        repaired.new.damaged.items) }
    ensures whole { IfOk result (λ all. IsTrue all → (known : List (List ℕ))
        → IsKnown H.digest empty_tip (edge_index_of edge.now.size 0 * 256) known
        → IsEndHad H.digest edge.now known (D.puts shelf.old) (D.puts shelf.new)) }
{
    let row = edge.row(0);
    if row.is_empty() {
        return Ok(true);
    }
    let path = Path::Entries {
        index: edge_index(edge.size(), 0),
        width: row.len() as u32,
    };
    let bytes = match look_for_end::<H, D, S>(
        alloc,
        origin,
        shelf,
        places,
        edge.size(),
        &path,
        row,
    ) {
        Ok(Some(bytes)) => bytes,
        Ok(None) => match note_lack(shelf, &path, repaired) {
            Ok(()) => return Ok(false),
            Err(fault) => return Err(fault),
        },
        Err(fault) => return Err(fault),
    };
    match mend_partial(shelf, &path, &bytes, repaired) {
        Ok(()) => Ok(true),
        Err(fault) => Err(fault),
    }
}

/// Mends all files of a copy, from its edge rows down. False: nobody has one of them.
pub(crate) fn mend_all<H: TreeHash, D: ReadableShelf, S: Source + Drop>(
    alloc: Global,
    origin: &str,
    shelf: &mut D,
    places: &mut Places<S>,
    edge: &EdgeRows,
    repaired: &mut Repaired,
) -> Result<bool, BringFault>
    requires size { edge.now.size < 2 ^ 63 }
    requires some { 1 ≤ edge.now.size }
    requires widths { HasWidths edge.now }
    ensures spared { IfErr result IsSpared }
    ensures counted { CountsShelf (D.failed shelf.old) (D.failed shelf.new) result }
    ensures asks { AsksPlaces S.may_answer S.failed S.asked (MayBeAskedToRepair edge.now.size)
        places.old places.new }
    ensures counts { CountsPuts repaired.old.put repaired.new.put
        (D.puts shelf.old) (D.puts shelf.new) }
    ensures keeps { (log : List (List ℕ))
        → IsClearLog H.digest log (MayTake S.may_answer places.old (D.puts shelf.old))
        → IsTreeClear H.digest log → IsEdgeTrue H.digest log edge.now
        → PutsTrue H.digest log (D.puts shelf.old) (D.puts shelf.new) }
    ensures goes_on { IfOk result (λ all. (log : List (List ℕ)) → AreShort log
        → IsClearLog H.digest log (MayTake S.may_answer places.old (D.puts shelf.old))
        → IsTreeClear H.digest log → IsEdgeTrue H.digest log edge.now
        → GoesOverAll H.digest log S.may_answer places.old places.new (D.puts shelf.old)
        (D.puts shelf.new)) }
    ensures names { IfOk result (λ all. (log : List (List ℕ)) → AreShort log
        → IsClearLog H.digest log (MayTake S.may_answer places.old (D.puts shelf.old))
        → IsTreeClear H.digest log → IsEdgeTrue H.digest log edge.now
        → NamesDamaged H.digest log (D.puts shelf.old) repaired.old.damaged.items
        repaired.new.damaged.items) }
    ensures whole { IfOk result (λ all. IsTrue all
        → IsEachHad H.digest edge.now (D.puts shelf.old) (D.puts shelf.new)) }
{
    let levels = match mend_levels::<H, D, S>(alloc, shelf, places, edge, repaired) {
        Ok(all) => all,
        Err(fault) => return Err(fault),
    };
    let end = match mend_end::<H, D, S>(alloc, origin, shelf, places, edge, repaired) {
        Ok(there) => there,
        Err(fault) => return Err(fault),
    };
    match mend_edge_tiles::<H, D>(alloc, shelf, edge, repaired) {
        Ok(()) => Ok(both(levels, end)),
        Err(fault) => Err(fault),
    }
}
