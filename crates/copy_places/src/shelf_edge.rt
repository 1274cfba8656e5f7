//! The edge rows of a tree on a shelf.
ghost use Rattle.std.specs.Prelude.{◌≡◌, ◌≤◌, IfErr, IfNone, IfOk, IfSome, length, option_map};
ghost use Rattle.tlog_shape.specs.Edge.{width_of};
ghost use Rattle.log_reader.specs.EdgeRows.{LeadsTo};
ghost use Rattle.mirror_sources.specs.Recorded.{KeepsRecord};
ghost use Rattle.mirror_folders.specs.Partial.{IsReadPartial};
ghost use Rattle.copy_places.specs.Faults.{CountsAsk, IsOfShelf};
ghost use Rattle.copy_places.specs.FoundRows.{AreFoundRows, IsFoundRow};
ghost use Rattle.copy_places.specs.Mixes.{HaveWidths};
ghost use Rattle.copy_places.specs.ShelfRows.{LacksEdge};

use crate::ask_fault::AskFault;
use crate::mix::{GivenRows, edge_of_two};
use crate::row::row_of;
use log_reader::{EdgeRows, edge_path};
use mirror_folders::{ReadableShelf, partial_on_shelf};
use std::alloc::Global;
use tlog_hash::{Hash, TreeHash};
use tlog_shape::edge_width;

// The row of a level on the shelf, empty if the level has none. One that is lacking or false is not damaged: the logs may differ there.
fn row_on_shelf<D: ReadableShelf>(
    alloc: Global,
    shelf: &mut D,
    size: u64,
    level: u32,
) -> Result<Option<Vec<Hash>>, AskFault>
    requires { level ≤ 7 }
    ensures same { KeepsRecord (D.puts shelf.old) (D.puts shelf.new) }
    ensures counted { CountsAsk (D.failed shelf.old) (D.failed shelf.new) result }
    ensures sure { IfErr result IsOfShelf }
    ensures wide { IfOk result (λ found. IfSome found
        (λ row. length row.items ≡ width_of size level)) }
    ensures read { IfOk result (λ found. IsFoundRow (IsReadPartial (D.puts shelf.old)) size level
        (option_map (λ row. row.items) found)) }
{
    let width = edge_width(size, level);
    if width == 0 {
        return Ok(Some(Vec::new(alloc)));
    }
    let Some(bytes) = partial_on_shelf(shelf, &edge_path(size, level))? else {
        return Ok(None);
    };
    match row_of(alloc, width, &bytes)? {
        Some(row) => Ok(Some(row)),
        None => Ok(None),
    }
}

// The edge rows on the shelf.
fn rows_on_shelf<D: ReadableShelf>(
    alloc: Global,
    shelf: &mut D,
    size: u64,
) -> Result<GivenRows, AskFault>
    ensures same { KeepsRecord (D.puts shelf.old) (D.puts shelf.new) }
    ensures counted { CountsAsk (D.failed shelf.old) (D.failed shelf.new) result }
    ensures sure { IfErr result IsOfShelf }
    ensures wide { IfOk result (HaveWidths size) }
    ensures read { IfOk result (AreFoundRows (IsReadPartial (D.puts shelf.old)) size) }
{
    let mut rows = Vec::new(alloc);
    for level in 0..8u32 {
        let row = row_on_shelf::<D>(alloc, shelf, size, level)?;
        rows.push(row)?;
    }
    Ok(GivenRows::new(rows))
}

/// The edge rows on the shelf, if they lead to the root.
pub(crate) fn edge_on_shelf<H: TreeHash, D: ReadableShelf>(
    alloc: Global,
    shelf: &mut D,
    size: u64,
    root: &Hash,
) -> Result<Option<EdgeRows>, AskFault>
    ensures same { KeepsRecord (D.puts shelf.old) (D.puts shelf.new) }
    ensures counted { CountsAsk (D.failed shelf.old) (D.failed shelf.new) result }
    ensures sure { IfErr result IsOfShelf }
    ensures leads { IfOk result (λ found. IfSome found
        (λ edge. LeadsTo H.digest size root.now edge)) }
    ensures none { IfOk result (λ found. IfNone found
        (LacksEdge H.digest size root.now (D.puts shelf.old))) }
{
    let rows = rows_on_shelf::<D>(alloc, shelf, size)?;
    match edge_of_two::<H>(alloc, size, root, &rows, &rows)? {
        Some(edge) => Ok(Some(edge)),
        None => Ok(None),
    }
}
