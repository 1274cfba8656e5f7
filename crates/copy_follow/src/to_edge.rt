//! A copy brought to a larger checkpoint.
ghost use Rattle.std.specs.Prelude.{◌≡◌, ◌↔◌, ◌^◌, ◌<◌, ◌≤◌, [], ℕ, IfErr, IsTrue, List, OnOk, length, take};
ghost use Rattle.tlog_shape.specs.Edge.{edge_index_of, width_of};
ghost use Rattle.mirror_folders.specs.Flushes.{IsFlushedFirst, Secures};
ghost use Rattle.copy_follow.specs.Secured.{IsNewFileOf, IsNewLast, IsNewLastBelow};
ghost use Rattle.copy_follow.specs.Conflicts.{ConflictPutsNothing, IsNoConflict};
ghost use Rattle.copy_follow.specs.Asked.{IsEdgeBundleOrNew};
ghost use Rattle.copy_places.specs.Asked.{IsEdgeTile};
ghost use Rattle.copy_follow.specs.Faults.{BlamesRun, CountsShelf, IsOfNoPlace};
ghost use Rattle.copy_places.specs.AskedOnce.{AsksOnce};
ghost use Rattle.copy_places.specs.PlaceGets.{AsksPlaces};
ghost use Rattle.copy_follow.specs.Growing.{IsKnown};
ghost use Rattle.log_reader.specs.EdgeRows.{HasWidths, RowIsTrue};
ghost use Rattle.copy_follow.specs.Edges.{BringsToEdge, PutsEdgeTile, PutsEdgeTiles};
ghost use Rattle.copy_follow.specs.Differing.{DiffersBy};
ghost use Rattle.copy_follow.specs.Suffices.{IsEdgeTrue, IsSpared, IsTipOf, OneIsHonest};

use crate::bring_fault::BringFault;
use crate::edge::bring_levels;
use crate::edge_bundle::bring_edge_bundle;
use crate::keep::keep;
use crate::last::put_last;
use crate::tip::CopyTip;
use copy_places::Places;
use log_reader::EdgeRows;
use mirror_folders::ReadableShelf;
use mirror_sources::Source;
use std::alloc::Global;
use tlog_hash::TreeHash;
use tlog_shape::{edge_index, edge_width};
use tlog_tiles::{Path, write_row};

// Whether the old tip has the partial tile of a level.
fn is_old(size: u64, old_size: u64, level: u32) -> bool
    requires { level ≤ 7 }
    ensures { IsTrue result ↔ ((edge_index_of size level ≡ edge_index_of old_size level)
        × (width_of size level ≡ width_of old_size level)) }
{
    edge_index(size, level) == edge_index(old_size, level)
        && edge_width(size, level) == edge_width(old_size, level)
}

// Puts the partial tile of a level, if there is one and the old tip lacks it.
fn put_edge_tile<H: TreeHash, D: ReadableShelf>(
    alloc: Global,
    shelf: &mut D,
    tip: &CopyTip,
    edge: &EdgeRows,
    level: u32,
) -> Result<(), BringFault>
    requires level { level ≤ 7 }
    requires larger { tip.now.size < edge.now.size }
    requires widths { HasWidths edge.now }
    ensures fault { IfErr result IsNoConflict }
    ensures counted { CountsShelf (D.failed shelf.old) (D.failed shelf.new) result }
    ensures places { IfErr result IsOfNoPlace }
    ensures puts { (entries : List (List ℕ)) → length entries ≡ edge.now.size
        → RowIsTrue H.digest edge.now entries level
        → PutsEdgeTile H.digest tip.now.size edge.now entries (D.puts shelf.old)
        (D.puts shelf.new) level result }
    ensures secured { OnOk result (Secures (IsNewLast tip.now.size edge.now.size level)
        (D.flushes shelf.old) (D.flushes shelf.new)) }
{
    let row = edge.row(level);
    if row.is_empty() {
        return Ok(());
    }
    if is_old(edge.size(), tip.size(), level) {
        return Ok(());
    }
    let path = Path::Tile {
        level,
        index: edge_index(edge.size(), level),
        width: edge_width(edge.size(), level),
    };
    let bytes = write_row(alloc, row)?;
    keep(shelf, &path, &bytes)
}

// Puts the partial tiles that the old tip lacks.
fn put_edge_tiles<H: TreeHash, D: ReadableShelf>(
    alloc: Global,
    shelf: &mut D,
    tip: &CopyTip,
    edge: &EdgeRows,
) -> Result<(), BringFault>
    requires larger { tip.now.size < edge.now.size }
    requires widths { HasWidths edge.now }
    ensures fault { IfErr result IsNoConflict }
    ensures counted { CountsShelf (D.failed shelf.old) (D.failed shelf.new) result }
    ensures places { IfErr result IsOfNoPlace }
    ensures puts { (entries : List (List ℕ)) → length entries ≡ edge.now.size
        → ((level : ℕ) → level ≤ 7 → RowIsTrue H.digest edge.now entries level)
        → PutsEdgeTiles H.digest tip.now.size edge.now entries (D.puts shelf.old)
        (D.puts shelf.new) result }
    ensures secured { OnOk result (Secures (IsNewLastBelow tip.now.size edge.now.size 8)
        (D.flushes shelf.old) (D.flushes shelf.new)) }
{
    for level in 0..8u32 {
        put_edge_tile::<H, D>(alloc, shelf, tip, edge, level)?;
    }
    Ok(())
}

/// Brings a copy to the tree of that edge, and puts the note last.
pub(crate) fn bring_to_edge<H: TreeHash, D: ReadableShelf, S: Source + Drop>(
    alloc: Global,
    shelf: &mut D,
    places: &mut Places<S>,
    tip: &CopyTip,
    edge: &EdgeRows,
    note: &[u8],
) -> Result<(), BringFault>
    requires size { edge.now.size < 2 ^ 63 }
    requires larger { tip.now.size < edge.now.size }
    requires widths { HasWidths edge.now }
    ensures counted { CountsShelf (D.failed shelf.old) (D.failed shelf.new) result }
    ensures asks { AsksPlaces S.may_answer S.failed S.asked
        (IsEdgeBundleOrNew edge.now.size tip.now.size) places.old places.new }
    ensures once { AsksOnce S.asked (λ k path. ¬ IsEdgeTile edge.now.size path)
        places.old places.new }
    ensures blames { IfErr result (BlamesRun H.digest places.new tip.now (D.puts shelf.old)) }
    ensures honest { IfErr result (λ e. (entries : List (List ℕ)) (size : ℕ)
        → OneIsHonest H.digest entries size S.may_answer (D.puts shelf.old) places.old places.new
        → IsTipOf H.digest tip.now (take size entries)
        → IsEdgeTrue H.digest (take size entries) edge.now → IsSpared e) }
    ensures early { ConflictPutsNothing 0 tip.now.size (D.puts shelf.old)
        (D.puts shelf.new) result }
    ensures empty { IfErr result (λ e. IsKnown H.digest tip.now 0 [] → IsNoConflict e) }
    ensures differs { IfErr result (DiffersBy H.digest edge.now tip.now) }
    ensures brings { (known : List (List ℕ)) → IsKnown H.digest tip.now 0 known
        → BringsToEdge H.digest tip.now edge.now note.now known (D.puts shelf.old)
        (D.puts shelf.new) result }
    ensures flushed { OnOk result (IsFlushedFirst (IsNewFileOf tip.now.size edge.now.size)
        (D.flushes shelf.old) (D.flushes shelf.new)) }
{
    match bring_levels::<H, D, S>(alloc, shelf, places, tip, edge) {
        Ok(()) => {}
        Err(fault) => return Err(fault),
    }
    match bring_edge_bundle::<H, D, S>(alloc, shelf, places, tip, edge) {
        Ok(()) => {}
        Err(fault) => return Err(fault),
    }
    match put_edge_tiles::<H, D>(alloc, shelf, tip, edge) {
        Ok(()) => {}
        Err(fault) => return Err(fault),
    }
    put_last(shelf, tip, note)
}
