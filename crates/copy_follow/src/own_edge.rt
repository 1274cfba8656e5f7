//! The edge files of a copy by its own files: each partial one, or what its full file begins with (C2SP tlog-tiles, "Partial Tiles").
ghost use Rattle.std.specs.Prelude.{◌≡◌, ◌∷◌, ◌++◌, ◌≤◌, [], ℕ, List, IfErr, IfNone, IfOk, IfSome, OnOk, length, option_map};
ghost use Rattle.mirror_folders.specs.Partial.{IsReadCut};
ghost use Rattle.mirror_folders.specs.Shelf.{RecordsRead};
ghost use Rattle.mirror_sources.specs.Files.{full_of};
ghost use Rattle.mirror_sources.specs.Recorded.{KeepsRecord};
ghost use Rattle.tlog_tiles.specs.Cut.{IsFileCut};
ghost use Rattle.log_reader.specs.EdgeRows.{LeadsTo};
ghost use Rattle.log_reader.specs.Verified.{HasLeaves};
ghost use Rattle.copy_places.specs.FoundRows.{AreFoundRows, IsFoundRow};
ghost use Rattle.copy_places.specs.Giving.{IsEdgeFrom, PartOf};
ghost use Rattle.copy_follow.specs.Faults.{CountsShelf};
ghost use Rattle.copy_follow.specs.Lacked.{IsRecorded, LeadsNowhere};
ghost use Rattle.copy_follow.specs.Suffices.{IsSpared};
ghost use Rattle.copy_follow.specs.Taken.{WasPut};

use crate::bring_fault::BringFault;
use copy_places::{GivenRows, accept_bundle, edge_of_two, row_of};
use log_reader::{EdgeRows, edge_path};
use mirror_folders::{ReadableShelf, cut_on_shelf};
use std::alloc::{AllocError, Global};
use tlog_hash::{Hash, TreeHash};
use tlog_shape::edge_width;
use tlog_tiles::Path;

// The row of a level in its partial tile. A level without hashes has an empty row.
fn part_row<D: ReadableShelf>(
    alloc: Global,
    shelf: &mut D,
    size: u64,
    level: u32,
) -> Result<Option<Vec<Hash>>, BringFault>
    requires { level ≤ 7 }
    ensures spared { IfErr result IsSpared }
    ensures counted { CountsShelf (D.failed shelf.old) (D.failed shelf.new) result }
    ensures same { KeepsRecord (D.puts shelf.old) (D.puts shelf.new) }
    ensures read { IfOk result (λ found. IsFoundRow (RecordsRead (D.puts shelf.old)) size level
        (option_map (λ row. row.items) found)) }
{
    let width = edge_width(size, level);
    if width == 0 {
        return Ok(Some(Vec::new(alloc)));
    }
    let Some(bytes) = shelf.read(&edge_path(size, level))? else {
        return Ok(None);
    };
    match row_of(alloc, width, &bytes)? {
        Some(row) => Ok(Some(row)),
        None => Ok(None),
    }
}

// The same in what its full tile begins with.
fn cut_row<D: ReadableShelf>(
    alloc: Global,
    shelf: &mut D,
    size: u64,
    level: u32,
) -> Result<Option<Vec<Hash>>, BringFault>
    requires { level ≤ 7 }
    ensures spared { IfErr result IsSpared }
    ensures counted { CountsShelf (D.failed shelf.old) (D.failed shelf.new) result }
    ensures same { KeepsRecord (D.puts shelf.old) (D.puts shelf.new) }
    ensures read { IfOk result (λ found. IsFoundRow (IsReadCut (D.puts shelf.old)) size level
        (option_map (λ row. row.items) found)) }
{
    let width = edge_width(size, level);
    if width == 0 {
        return Ok(Some(Vec::new(alloc)));
    }
    let Some(bytes) = cut_on_shelf(shelf, &edge_path(size, level))? else {
        return Ok(None);
    };
    match row_of(alloc, width, &bytes)? {
        Some(row) => Ok(Some(row)),
        None => Ok(None),
    }
}

// Adds a row to each list.
fn push_both(
    parts: &mut Vec<Option<Vec<Hash>>>,
    part: Option<Vec<Hash>>,
    cuts: &mut Vec<Option<Vec<Hash>>>,
    cut: Option<Vec<Hash>>,
) -> Result<(), AllocError>
    ensures { OnOk result ((parts.new.items ≡ parts.old.items ++ part ∷ [])
        × (cuts.new.items ≡ cuts.old.items ++ cut ∷ [])) }
{
    parts.push(part)?;
    cuts.push(cut)?;
    Ok(())
}

// The rows of all levels: those of the partial tiles, and those that the full tiles begin with.
fn own_rows<D: ReadableShelf>(
    alloc: Global,
    shelf: &mut D,
    size: u64,
) -> Result<(GivenRows, GivenRows), BringFault>
    ensures spared { IfErr result IsSpared }
    ensures counted { CountsShelf (D.failed shelf.old) (D.failed shelf.new) result }
    ensures same { KeepsRecord (D.puts shelf.old) (D.puts shelf.new) }
    ensures parts { IfOk result (λ rows. AreFoundRows (RecordsRead (D.puts shelf.old)) size
        rows.0) }
    ensures cuts { IfOk result (λ rows. AreFoundRows (IsReadCut (D.puts shelf.old)) size
        rows.1) }
{
    let mut parts = Vec::new(alloc);
    let mut cuts = Vec::new(alloc);
    for level in 0..8u32 {
        let part = match part_row::<D>(alloc, shelf, size, level) {
            Ok(part) => part,
            Err(fault) => return Err(fault),
        };
        let cut = match cut_row::<D>(alloc, shelf, size, level) {
            Ok(cut) => cut,
            Err(fault) => return Err(fault),
        };
        match push_both(&mut parts, part, &mut cuts, cut) {
            Ok(()) => {}
            Err(_) => return Err(BringFault::OutOfMemory),
        }
    }
    Ok((GivenRows::new(parts), GivenRows::new(cuts)))
}

/// The edge rows of a tree of that size and root, each from the shelf's partial tile or from what its full tile begins with. None: no mix
/// of them leads to the root.
pub(crate) fn own_edge<H: TreeHash, D: ReadableShelf>(
    alloc: Global,
    shelf: &mut D,
    size: u64,
    root: &Hash,
) -> Result<Option<EdgeRows>, BringFault>
    ensures spared { IfErr result IsSpared }
    ensures counted { CountsShelf (D.failed shelf.old) (D.failed shelf.new) result }
    ensures same { KeepsRecord (D.puts shelf.old) (D.puts shelf.new) }
    ensures leads { IfOk result (λ found. IfSome found
        (λ edge. LeadsTo H.digest size root.now edge)) }
    ensures taken { IfOk result (λ found. IfSome found
        (λ edge. IsEdgeFrom (WasPut (D.puts shelf.old)) size edge)) }
    ensures none { IfOk result (λ found. IfNone found
        (LeadsNowhere H.digest (D.puts shelf.old) size root.now)) }
{
    let rows = match own_rows::<D>(alloc, shelf, size) {
        Ok(rows) => rows,
        Err(fault) => return Err(fault),
    };
    match edge_of_two::<H>(alloc, size, root, &rows.0, &rows.1) {
        Ok(found) => Ok(found),
        Err(_) => Err(BringFault::OutOfMemory),
    }
}

/// The partial bundle with these leaf hashes, if the shelf's full bundle begins with it.
pub(crate) fn own_end<H: TreeHash, D: ReadableShelf>(
    alloc: Global,
    shelf: &mut D,
    path: &Path,
    row: &[Hash],
) -> Result<Option<Vec<u8>>, BringFault>
    requires { length row.now ≤ 256 }
    ensures spared { IfErr result IsSpared }
    ensures counted { CountsShelf (D.failed shelf.old) (D.failed shelf.new) result }
    ensures same { KeepsRecord (D.puts shelf.old) (D.puts shelf.new) }
    ensures found { IfOk result (λ found. IfSome found
        (λ bytes. HasLeaves H.digest (length row.now) bytes.items row.now)) }
    ensures taken { IfOk result (λ found. IfSome found
        (λ bytes. PartOf (WasPut (D.puts shelf.old)) path.now bytes.items)) }
    ensures none { IfOk result (λ found. IfNone found ((full bytes : List ℕ)
        → IsRecorded (D.puts shelf.old) (full_of path.now) full
        → IsFileCut path.now 256 full bytes
        → ¬ HasLeaves H.digest (length row.now) bytes row.now)) }
{
    let given = cut_on_shelf(shelf, path)?;
    match accept_bundle::<H>(alloc, row, given) {
        Ok(found) => Ok(found),
        Err(_) => Err(BringFault::OutOfMemory),
    }
}
