//! The edge rows from the files of a source.
ghost use Rattle.std.specs.Prelude.{◌≡◌, ◌<◌, ◌≤◌, ℕ, List, IfErr, IfOk, length};
ghost use Rattle.tlog_shape.specs.Edge.{width_of};
ghost use Rattle.mirror_sources.specs.Source.{StaysWithin};
ghost use Rattle.mirror_sources.specs.Recorded.{KeepsRecord};
ghost use Rattle.log_reader.specs.Faults.{CountsFailure};
ghost use Rattle.log_reader.specs.FalseEdges.{IsEdgeGiven, IsLowest, IsRowGiven, NamesFalseEdge, NamesFalsePart};
ghost use Rattle.log_reader.specs.EdgeRows.{RowIsTrue, hash_of_edge};
ghost use Rattle.log_reader.specs.Holding.{IsEdgeRowOf, IsSourceOf, ReadsLog, ReadsTrue};
ghost use Rattle.log_reader.specs.Ways.{AreHashesOf, HasEdgeHashes};

use crate::edge_row::edge_path;
use crate::edge_rows::EdgeRows;
use crate::fault::ReadFault;
use crate::found::{get_partial, or_false};
use crate::hashed_edge::HashedEdge;
use crate::verify::{is_same, row_in};
use mirror_sources::Source;
use std::alloc::Global;
use tlog_hash::{Hash, TreeHash};
use tlog_shape::edge_width;
use tlog_tiles::Path;

// The row of a level of the edge, empty if the level has none.
#[tactic(auto, using(crate::proofs::Kept::kept_twice, crate::proofs::Kept::kept_once))]
fn read_edge_row<H: TreeHash, S: Source>(
    alloc: Global,
    source: &mut S,
    size: u64,
    level: u32,
) -> Result<Vec<Hash>, ReadFault>
    requires { level ≤ 7 }
    ensures row { IfOk result (λ row. AreHashesOf (width_of size level) row.items) }
    ensures got { IfOk result (λ row. 0 < width_of size level
        → IsRowGiven (S.may_answer source.old) size level row.items) }
    ensures names { IfErr result (NamesFalsePart (S.may_answer source.old) size) }
    ensures later { StaysWithin (S.may_answer source.old) (S.may_answer source.new) }
    ensures kept { KeepsRecord (S.files source.old) (S.files source.new) }
    ensures counted { CountsFailure (S.failed source.old) (S.failed source.new) result }
    ensures honest { (entries : List (List ℕ)) → length entries ≡ size
        → IsSourceOf H.digest entries (S.may_answer source.old)
        → ReadsTrue result (λ row. IsEdgeRowOf H.digest size level entries row.items) }
{
    let width = edge_width(size, level);
    if width == 0 {
        return Ok(Vec::new(alloc));
    }
    let path = edge_path(size, level);
    let bytes = get_partial(alloc, source, &path)?;
    or_false(row_in(alloc, width, &bytes), path)
}

// The path of the lowest partial tile. If there is none, the checkpoint's path.
fn lowest_path(size: u64) -> Path
    ensures { IsLowest size result }
{
    for level in 0..8u32 {
        if edge_width(size, level) > 0 {
            return edge_path(size, level);
        }
    }
    Path::Checkpoint
}

// The edge rows, requested from the lowest level up.
#[tactic(auto, using(crate::proofs::Kept::kept_twice, crate::proofs::Kept::kept_once))]
fn read_rows<H: TreeHash, S: Source>(
    alloc: Global,
    source: &mut S,
    size: u64,
) -> Result<EdgeRows, ReadFault>
    ensures size { IfOk result (λ edge. edge.size ≡ size) }
    ensures rows { IfOk result (λ edge. HasEdgeHashes edge) }
    ensures got { IfOk result (IsEdgeGiven (S.may_answer source.old) size) }
    ensures names { IfErr result (NamesFalsePart (S.may_answer source.old) size) }
    ensures later { StaysWithin (S.may_answer source.old) (S.may_answer source.new) }
    ensures kept { KeepsRecord (S.files source.old) (S.files source.new) }
    ensures counted { CountsFailure (S.failed source.old) (S.failed source.new) result }
    ensures honest { (entries : List (List ℕ)) → length entries ≡ size
        → IsSourceOf H.digest entries (S.may_answer source.old) → ReadsTrue result
        (λ edge. (level : ℕ) → level ≤ 7 → RowIsTrue H.digest edge entries level) }
{
    let mut rows = Vec::new(alloc);
    for level in 0..8u32 {
        rows.push(read_edge_row::<H, S>(alloc, source, size, level)?)?;
    }
    Ok(EdgeRows::new(size, rows))
}

/// The edge of a log of that size. Its rows have to lead to the root.
pub(crate) fn read_edge<H: TreeHash, S: Source>(
    alloc: Global,
    source: &mut S,
    size: u64,
    root: &Hash,
) -> Result<HashedEdge<H>, ReadFault>
    ensures size { IfOk result (λ edge. edge.size ≡ size) }
    ensures rows { IfOk result (λ edge. HasEdgeHashes edge) }
    ensures root { IfOk result (λ edge. hash_of_edge H.digest edge ≡ root.now) }
    ensures got { IfOk result (IsEdgeGiven (S.may_answer source.old) size) }
    ensures names { IfErr result
        (NamesFalseEdge H.digest (S.may_answer source.old) size root.now) }
    ensures later { StaysWithin (S.may_answer source.old) (S.may_answer source.new) }
    ensures kept { KeepsRecord (S.files source.old) (S.files source.new) }
    ensures counted { CountsFailure (S.failed source.old) (S.failed source.new) result }
    ensures honest { ReadsLog H.digest size root.now (S.may_answer source.old) result
        (λ entries edge. (level : ℕ) → level ≤ 7 → RowIsTrue H.digest edge entries level) }
{
    let rows = read_rows::<H, S>(alloc, source, size)?;
    let edge = HashedEdge::new(alloc, rows)?;
    if is_same(&edge.root(), root) {
        Ok(edge)
    } else {
        Err(ReadFault::FalseFile(lowest_path(size)))
    }
}
