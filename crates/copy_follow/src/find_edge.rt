//! The edge rows of a tree: all from the shelf, or all from one place.
ghost use Rattle.std.specs.Prelude.{◌≡◌, ◌≤◌, ℕ, List, IfErr, IfNone, IfOk, IfSome};
ghost use Rattle.mirror_sources.specs.Recorded.{KeepsRecord};
ghost use Rattle.log_reader.specs.EdgeRows.{LeadsTo};
ghost use Rattle.copy_places.specs.Asked.{IsEdgeTile};
ghost use Rattle.copy_places.specs.AskedOnce.{AsksOnce};
ghost use Rattle.copy_places.specs.Giving.{IsEdgeFrom};
ghost use Rattle.copy_places.specs.PlaceGets.{AsksPlaces};
ghost use Rattle.copy_places.specs.TrueAnswers.{IsRootOf};
ghost use Rattle.copy_places.specs.TruePlaces.{HasTruePlace};
ghost use Rattle.copy_follow.specs.Conflicts.{IsNoConflict};
ghost use Rattle.copy_follow.specs.Damaged.{IsEdgeWrong, IsRowWrong};
ghost use Rattle.copy_follow.specs.Faults.{BlamesPlaces, CountsShelf, IsOfNoPlace};
ghost use Rattle.copy_follow.specs.Found.{IsEdgeRead, IsRowRead};
ghost use Rattle.copy_follow.specs.Suffices.{IsNoLack};
ghost use Rattle.copy_follow.specs.Taken.{MayTake};

use crate::bring_fault::{BringFault, fault_of};
use copy_places::{Places, edge_at_places, lowest_edge_path, row_of};
use log_reader::{EdgeRows, edge_path, leads_to};
use mirror_folders::{ReadableShelf, partial_on_shelf};
use mirror_sources::Source;
use std::alloc::Global;
use tlog_hash::{Hash, TreeHash};
use tlog_shape::edge_width;

// The row of a level on the shelf, empty if the level has none. None: the shelf lacks the row.
#[tactic(auto, using(crate::proofs::ShelfReads::partial_put))]
fn row_on_shelf<D: ReadableShelf>(
    alloc: Global,
    shelf: &mut D,
    size: u64,
    level: u32,
) -> Result<Option<Vec<Hash>>, BringFault>
    requires { level ≤ 7 }
    ensures fault { IfErr result IsNoConflict }
    ensures counted { CountsShelf (D.failed shelf.old) (D.failed shelf.new) result }
    ensures places { IfErr result IsOfNoPlace }
    ensures same { KeepsRecord (D.puts shelf.old) (D.puts shelf.new) }
    ensures still { D.flushes shelf.new ≡ D.flushes shelf.old }
    ensures row { IfOk result (λ found. IfSome found
        (λ row. IsRowRead (D.puts shelf.old) size level row.items)) }
    ensures none { IfOk result (λ found. IfNone found
        (IsRowWrong (D.puts shelf.old) size level)) }
{
    let width = edge_width(size, level);
    if width == 0 {
        return Ok(Some(Vec::new(alloc)));
    }
    let path = edge_path(size, level);
    let Some(bytes) = partial_on_shelf(shelf, &path)? else {
        return Ok(None);
    };
    match row_of(alloc, width, &bytes)? {
        Some(row) => Ok(Some(row)),
        None => {
            shelf.note_damaged(&path);
            Ok(None)
        }
    }
}

// The edge rows on the shelf, from the lowest level up, to the first row that the shelf lacks.
fn rows_on_shelf<D: ReadableShelf>(
    alloc: Global,
    shelf: &mut D,
    size: u64,
) -> Result<Option<EdgeRows>, BringFault>
    ensures fault { IfErr result IsNoConflict }
    ensures counted { CountsShelf (D.failed shelf.old) (D.failed shelf.new) result }
    ensures places { IfErr result IsOfNoPlace }
    ensures same { KeepsRecord (D.puts shelf.old) (D.puts shelf.new) }
    ensures still { D.flushes shelf.new ≡ D.flushes shelf.old }
    ensures edge { IfOk result (λ found. IfSome found
        (λ edge. IsEdgeRead (D.puts shelf.old) size edge)) }
    ensures none { IfOk result (λ found. IfNone found
        ((level : ℕ) × IsRowWrong (D.puts shelf.old) size level)) }
{
    let mut rows = Vec::new(alloc);
    for level in 0..8u32 {
        match row_on_shelf(alloc, shelf, size, level)? {
            Some(row) => rows.push(row)?,
            None => return Ok(None),
        }
    }
    Ok(Some(EdgeRows::new(size, rows)))
}

/// The edge rows on the shelf, if they lead to the root.
pub(crate) fn edge_on_shelf<H: TreeHash, D: ReadableShelf>(
    alloc: Global,
    shelf: &mut D,
    size: u64,
    root: &Hash,
) -> Result<Option<EdgeRows>, BringFault>
    ensures fault { IfErr result IsNoConflict }
    ensures counted { CountsShelf (D.failed shelf.old) (D.failed shelf.new) result }
    ensures places { IfErr result IsOfNoPlace }
    ensures same { KeepsRecord (D.puts shelf.old) (D.puts shelf.new) }
    ensures still { D.flushes shelf.new ≡ D.flushes shelf.old }
    ensures read { IfOk result (λ found. IfSome found
        (λ edge. IsEdgeRead (D.puts shelf.old) size edge)) }
    ensures none { IfOk result (λ found. IfNone found
        (IsEdgeWrong (D.puts shelf.old) size H.digest root.now)) }
    ensures leads { IfOk result (λ found. IfSome found
        (λ edge. LeadsTo H.digest size root.now edge)) }
{
    let Some(edge) = rows_on_shelf::<D>(alloc, shelf, size)? else {
        return Ok(None);
    };
    if leads_to::<H>(alloc, &edge, root)? {
        Ok(Some(edge))
    } else {
        shelf.note_damaged(&lowest_edge_path(size));
        Ok(None)
    }
}

/// The edge rows of a tree of that size and root: from the shelf, or else from the first place that has them all.
pub(crate) fn find_edge<H: TreeHash, D: ReadableShelf, S: Source + Drop>(
    alloc: Global,
    shelf: &mut D,
    places: &mut Places<S>,
    size: u64,
    root: &Hash,
) -> Result<EdgeRows, BringFault>
    ensures fault { IfErr result IsNoConflict }
    ensures same { KeepsRecord (D.puts shelf.old) (D.puts shelf.new) }
    ensures still { D.flushes shelf.new ≡ D.flushes shelf.old }
    ensures counted { CountsShelf (D.failed shelf.old) (D.failed shelf.new) result }
    ensures asks { AsksPlaces S.may_answer S.failed S.asked (IsEdgeTile size)
        places.old places.new }
    ensures once { AsksOnce S.asked (λ k. IsEdgeTile size) places.old places.new }
    ensures blames { IfErr result (BlamesPlaces places.new) }
    ensures leads { IfOk result (λ edge. LeadsTo H.digest size root.now edge) }
    ensures taken { IfOk result (λ edge. IsEdgeFrom
        (MayTake S.may_answer places.old (D.puts shelf.old)) size edge) }
    ensures suffices { IfErr result (λ e. (entries : List (List ℕ))
        → IsRootOf H.digest entries size root.now
        → HasTruePlace H.digest entries S.may_answer places.old places.new → IsNoLack e) }
{
    if let Some(edge) = edge_on_shelf::<H, D>(alloc, shelf, size, root)? {
        return Ok(edge);
    }
    match edge_at_places::<H, S>(alloc, places, size, root)? {
        Some(edge) => Ok(edge),
        None => Err(fault_of(places)),
    }
}
