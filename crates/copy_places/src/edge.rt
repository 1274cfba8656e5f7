//! The edge rows of a tree, from one place or from two.
ghost use Rattle.std.specs.Prelude.{◌≡◌, ◌<◌, ◌≤◌, ℕ, List, IfNone, IfOk, IfSome, IsSome, IsSomeAnd, get_or, length, option_map};
ghost use Rattle.log_reader.specs.EdgeRows.{LeadsTo};
ghost use Rattle.copy_places.specs.Asked.{IsEdgeTile, IsLowestEdgeTile};
ghost use Rattle.copy_places.specs.AskedOnce.{AsksOnce, IsAtPlace, IsEdgeTileAt};
ghost use Rattle.copy_places.specs.Giving.{IsEdgeFrom, IsRowFrom, MayGive};
ghost use Rattle.copy_places.specs.GivenFrom.{AddsRows, AreRowsFrom, FindsTrueRows};
ghost use Rattle.copy_places.specs.PlaceGets.{AreBlamed, AsksPlaces, IsBlamed};
ghost use Rattle.copy_places.specs.TrueAnswers.{FindsTrueRow, IsRootOf};
ghost use Rattle.copy_places.specs.TruePlaces.{HasTruePlace, IsTruePlace};
ghost use Rattle.copy_places.specs.declared.place.Place.{Place};

use crate::mix::{GivenRows, edge_of_pairs, edge_of_two};
use crate::place::Wrong;
use crate::place_files::get_partial;
use crate::places::{Places, in_turn};
use crate::row::row_of;
use log_reader::{EdgeRows, edge_path};
use mirror_sources::Source;
use std::alloc::{AllocError, Global};
use tlog_hash::{Hash, TreeHash};
use tlog_shape::edge_width;
use tlog_tiles::Path;

// The row of a level at a place, empty if the level has none. None: the place lacks the row, or failed.
fn row_at_place<S: Source + Drop>(
    alloc: Global,
    places: &mut Places<S>,
    index: usize,
    size: u64,
    level: u32,
) -> Result<Option<Vec<Hash>>, AllocError>
    requires place { index < length places.old.list.items }
    requires level { level ≤ 7 }
    ensures asks { AsksPlaces S.may_answer S.failed S.asked (IsEdgeTile size)
        places.old places.new }
    ensures once { AsksOnce S.asked (IsAtPlace index (IsEdgeTileAt size level))
        places.old places.new }
    ensures taken { IfOk result (λ found. IfSome found
        (λ row. IsRowFrom (MayGive S.may_answer places.old) size level row.items)) }
    ensures honest { IfOk result (λ found. FindsTrueRow S.may_answer places.old places.new index
        size level (option_map (λ row. row.items) found)) }
    ensures blamed { IfOk result (λ found. IfNone found (IsBlamed places.old places.new index)) }
{
    let width = edge_width(size, level);
    if width == 0 {
        return Ok(Some(Vec::new(alloc)));
    }
    let path = edge_path(size, level);
    let Some(bytes) = get_partial(alloc, places, index, &path)? else {
        return Ok(None);
    };
    let row = row_of(alloc, width, &bytes)?;
    if row.is_none() {
        places.note_wrong(index, &path, Wrong::False);
    }
    Ok(row)
}

// The row of a level at a place, if the place has failed no more than so often. Else it is not asked: one that fails takes long.
fn next_row<S: Source + Drop>(
    alloc: Global,
    places: &mut Places<S>,
    index: usize,
    size: u64,
    level: u32,
    failures: u32,
) -> Result<Option<Vec<Hash>>, AllocError>
    requires place { index < length places.old.list.items }
    requires level { level ≤ 7 }
    ensures asks { AsksPlaces S.may_answer S.failed S.asked (IsEdgeTile size)
        places.old places.new }
    ensures once { AsksOnce S.asked (IsAtPlace index (IsEdgeTileAt size level))
        places.old places.new }
    ensures taken { IfOk result (λ found. IfSome found
        (λ row. IsRowFrom (MayGive S.may_answer places.old) size level row.items)) }
    ensures honest { IfOk result (λ found.
        ((d : Place S) → (get_or places.old.list.items index d).failures ≡ failures)
        → FindsTrueRow S.may_answer places.old places.new index
        size level (option_map (λ row. row.items) found)) }
{
    if places.list()[index].failures() != failures {
        return Ok(None);
    }
    row_at_place(alloc, places, index, size, level)
}

// The edge rows at a place, requested from the lowest level up. After a failure the place is not asked for more.
fn rows_at_place<S: Source + Drop>(
    alloc: Global,
    places: &mut Places<S>,
    index: usize,
    size: u64,
) -> Result<GivenRows, AllocError>
    requires { index < length places.old.list.items }
    ensures asks { AsksPlaces S.may_answer S.failed S.asked (IsEdgeTile size)
        places.old places.new }
    ensures once { AsksOnce S.asked (IsAtPlace index (IsEdgeTile size)) places.old places.new }
    ensures taken { IfOk result (AreRowsFrom (MayGive S.may_answer places.old) size) }
    ensures honest { IfOk result (FindsTrueRows S.may_answer places.old places.new index size) }
{
    let failures = places.list()[index].failures();
    let mut rows = Vec::new(alloc);
    for level in 0..8u32 {
        let row = next_row(alloc, places, index, size, level, failures)?;
        rows.push(row)?;
    }
    Ok(GivenRows::new(rows))
}

/// The path of the lowest partial tile of a size (C2SP tlog-tiles, "Partial Tiles"). It is named if the edge rows do not lead to the root.
/// A tree without entries has no partial tile: then the path is that of level 7.
///
/// ```text
/// lowest_edge_path(257) // tile/0/001.p/1
/// lowest_edge_path(256) // tile/1/000.p/1
/// ```
pub fn lowest_edge_path(size: u64) -> Path
    ensures { IsLowestEdgeTile size result }
{
    for level in 0..7u32 {
        if edge_width(size, level) > 0 {
            return edge_path(size, level);
        }
    }
    edge_path(size, 7)
}

// The edge rows from a place, if they lead to the root. Else they are added to those of the places before.
fn edge_at_place<H: TreeHash, S: Source + Drop>(
    alloc: Global,
    places: &mut Places<S>,
    index: usize,
    size: u64,
    root: &Hash,
    given: &mut Vec<GivenRows>,
) -> Result<Option<EdgeRows>, AllocError>
    requires { index < length places.old.list.items }
    ensures asks { AsksPlaces S.may_answer S.failed S.asked (IsEdgeTile size)
        places.old places.new }
    ensures once { AsksOnce S.asked (IsAtPlace index (IsEdgeTile size)) places.old places.new }
    ensures leads { IfOk result (λ found. IfSome found
        (λ edge. LeadsTo H.digest size root.now edge)) }
    ensures taken { IfOk result (λ found. IfSome found
        (λ edge. IsEdgeFrom (MayGive S.may_answer places.old) size edge)) }
    ensures honest { IfOk result (λ found. IfNone found ((entries : List (List ℕ))
        → IsRootOf H.digest entries size root.now
        → ¬ IsTruePlace H.digest entries S.may_answer places.old places.new index)) }
    ensures blamed { IfOk result (λ found. IfNone found (IsBlamed places.old places.new index)) }
    ensures rows { IfOk result (λ found. IfNone found
        (AddsRows (MayGive S.may_answer places.old) size given.old.items given.new.items)) }
{
    let rows = rows_at_place::<S>(alloc, places, index, size)?;
    match edge_of_two::<H>(alloc, size, root, &rows, &rows)? {
        Some(edge) => {
            places.note_verified(index);
            Ok(Some(edge))
        }
        None => {
            // A row that the place lacks is noted already, and the first note stays.
            places.note_wrong(index, &lowest_edge_path(size), Wrong::False);
            given.push(rows)?;
            Ok(None)
        }
    }
}

/// The edge rows of a tree of that size and root: all from the first place whose rows lead to the root. The place whose bytes verified
/// last is asked first, then the others in order. If no place has them all, the rows of two places are mixed, for each pair of places. A
/// partial tile that a place lacks is cut from its full tile. None: no two places have them. Then `places.lacked()` is the path of the
/// lowest partial tile.
///
/// ```text
/// edge_at_places::<Sha256Tree, ListSource<Sha256Tree>>(alloc, &mut places, 257, &root)? // Some(edge)
/// ```
///
/// # Errors
///
/// `AllocError`: memory was refused.
pub fn edge_at_places<H: TreeHash, S: Source + Drop>(
    alloc: Global,
    places: &mut Places<S>,
    size: u64,
    root: &Hash,
) -> Result<Option<EdgeRows>, AllocError>
    ensures asks { AsksPlaces S.may_answer S.failed S.asked (IsEdgeTile size)
        places.old places.new }
    ensures once { AsksOnce S.asked (λ k. IsEdgeTile size) places.old places.new }
    ensures leads { IfOk result (λ found. IfSome found
        (λ edge. LeadsTo H.digest size root.now edge)) }
    ensures taken { IfOk result (λ found. IfSome found
        (λ edge. IsEdgeFrom (MayGive S.may_answer places.old) size edge)) }
    ensures honest { IfOk result (λ found. IfNone found ((entries : List (List ℕ))
        → IsRootOf H.digest entries size root.now
        → ¬ HasTruePlace H.digest entries S.may_answer places.old places.new)) }
    ensures lacked { IfOk result (λ found. IfNone found (IsSome places.new.lacked)) }
    ensures named { IfOk result (λ found. IfNone found
        (IsSomeAnd places.new.lacked (IsLowestEdgeTile size))) }
    ensures blamed { IfOk result (λ found. IfNone found (AreBlamed places.old places.new)) }
{
    let first = places.first();
    let mut given = Vec::new(alloc);
    for turn in 0..places.len() {
        let index = in_turn(first, turn);
        match edge_at_place::<H, S>(alloc, places, index, size, root, &mut given)? {
            Some(edge) => return Ok(Some(edge)),
            None => {}
        }
    }
    if let Some(edge) = edge_of_pairs::<H>(alloc, size, root, &given)? {
        return Ok(Some(edge));
    }
    places.note_lacked(&lowest_edge_path(size));
    Ok(None)
}
