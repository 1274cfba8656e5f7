//! A log at a smaller size.
ghost use Rattle.std.specs.Prelude.{◌≡◌, ◌≤◌, ℕ, All, IfErr, IfOk, length, take};
ghost use Rattle.mirror_sources.specs.Source.{StaysWithin};
ghost use Rattle.mirror_sources.specs.Recorded.{KeepsRecord};
ghost use Rattle.log_reader.specs.Faults.{CountsFailure};
ghost use Rattle.log_reader.specs.FalseFiles.{NamesFalse};
ghost use Rattle.log_reader.specs.EdgeRows.{RowIsTrue};
ghost use Rattle.log_reader.specs.Holding.{IsEdgeRowOf, IsReaderOf, ReadsTilesOf};
ghost use Rattle.log_reader.specs.Ways.{HasEdgeHashes, IsShownEdge, IsShownPart};

use crate::edge_row::edge_path;
use crate::edge_rows::EdgeRows;
use crate::fault::ReadFault;
use crate::hashed_edge::HashedEdge;
use crate::reader::LogReader;
use crate::walk::copy_row;
use mirror_sources::Source;
use std::alloc::{AllocError, Global};
use tlog_hash::{Hash, TreeHash};
use tlog_shape::{edge_index, edge_width};

// A copy of the first hashes of a row.
fn copy_start(alloc: Global, row: &[Hash], width: usize) -> Result<Vec<Hash>, AllocError>
    requires { width ≤ length row.now }
    ensures items { IfOk result (λ copy. copy.items ≡ take width row.now) }
    ensures count { IfOk result (λ copy. length copy.items ≡ width) }
    ensures sizes { IfOk result (λ copy. All (λ hash. length hash ≡ 32) copy.items) }
{
    copy_row(alloc, &row[..width])
}

// The row of a level of the edge of the first entries, empty if the level has none.
#[tactic(auto, using(crate::proofs::Kept::kept_once))]
fn first_row<H: TreeHash, S: Source>(
    alloc: Global,
    reader: &mut LogReader<H>,
    source: &mut S,
    size: u64,
    level: u32,
) -> Result<Vec<Hash>, ReadFault>
    requires level { level ≤ 7 }
    requires within { size ≤ reader.old.edge.size }
    ensures edge { reader.new.edge ≡ reader.old.edge }
    ensures root { reader.new.root ≡ reader.old.root }
    ensures row { IfOk result (λ row. IsShownPart H.digest reader.old.edge size level row.items) }
    ensures later { StaysWithin (S.may_answer source.old) (S.may_answer source.new) }
    ensures kept { KeepsRecord (S.files source.old) (S.files source.new) }
    ensures counted { CountsFailure (S.failed source.old) (S.failed source.new) result }
    ensures names { IfErr result (NamesFalse H.digest (S.may_answer source.old) reader.old.edge) }
    ensures honest { ReadsTilesOf H.digest reader.old reader.new (S.may_answer source.old) result
        (λ entries row. IsEdgeRowOf H.digest size level (take size entries) row.items) }
{
    let width = edge_width(size, level);
    if width == 0 {
        return Ok(Vec::new(alloc));
    }
    let index = edge_index(size, level);
    let row = reader.row(alloc, source, level, index)?;
    if row.len() < width as usize {
        return Err(ReadFault::NoFile(edge_path(size, level)));
    }
    Ok(copy_start(alloc, &row, width as usize)?)
}

// The edge of the first entries.
#[tactic(auto, using(crate::proofs::Kept::kept_twice, crate::proofs::Kept::kept_once))]
fn first_edge<H: TreeHash, S: Source>(
    alloc: Global,
    reader: &mut LogReader<H>,
    source: &mut S,
    size: u64,
) -> Result<EdgeRows, ReadFault>
    requires { size ≤ reader.old.edge.size }
    ensures edge { reader.new.edge ≡ reader.old.edge }
    ensures root { reader.new.root ≡ reader.old.root }
    ensures size { IfOk result (λ first. first.size ≡ size) }
    ensures hashes { IfOk result (λ first. HasEdgeHashes first) }
    ensures shown { IfOk result (λ first. IsShownEdge H.digest reader.old.edge first) }
    ensures later { StaysWithin (S.may_answer source.old) (S.may_answer source.new) }
    ensures kept { KeepsRecord (S.files source.old) (S.files source.new) }
    ensures counted { CountsFailure (S.failed source.old) (S.failed source.new) result }
    ensures names { IfErr result (NamesFalse H.digest (S.may_answer source.old) reader.old.edge) }
    ensures honest { ReadsTilesOf H.digest reader.old reader.new (S.may_answer source.old) result
        (λ entries first. (level : ℕ) → level ≤ 7
        → RowIsTrue H.digest first (take size entries) level) }
{
    let mut rows = Vec::new(alloc);
    for level in 0..8u32 {
        rows.push(first_row::<H, S>(alloc, reader, source, size, level)?)?;
    }
    Ok(EdgeRows::new(size, rows))
}

impl<H: TreeHash> LogReader<H> {
    /// A reader of the log at that smaller size. Its root is the tree hash of the first `size` entries: `MTH(E[0..size])` of RFC 6962,
    /// section 2.1.
    ///
    /// ```text
    /// reader.prefix(alloc, &mut source, 257)?.root()
    /// ```
    ///
    /// # Errors
    ///
    /// Those of `row`.
    pub fn prefix<S: Source>(
        &mut self,
        alloc: Global,
        source: &mut S,
        size: u64,
    ) -> Result<LogReader<H>, ReadFault>
        requires { size ≤ self.old.edge.size }
        ensures edge { self.new.edge ≡ self.old.edge }
        ensures root { self.new.root ≡ self.old.root }
        ensures size { IfOk result (λ reader. reader.edge.size ≡ size) }
        ensures shown { IfOk result (λ reader. IsShownEdge H.digest self.old.edge reader.edge) }
        ensures later { StaysWithin (S.may_answer source.old) (S.may_answer source.new) }
        ensures kept { KeepsRecord (S.files source.old) (S.files source.new) }
        ensures counted { CountsFailure (S.failed source.old) (S.failed source.new) result }
        ensures names { IfErr result (NamesFalse H.digest (S.may_answer source.old) self.old.edge) }
        ensures honest { ReadsTilesOf H.digest self.old self.new (S.may_answer source.old) result
            (λ entries reader. IsReaderOf H.digest (take size entries) reader) }
    {
        let rows = first_edge::<H, S>(alloc, self, source, size)?;
        let edge = HashedEdge::new(alloc, rows)?;
        let root = edge.root();
        Ok(LogReader::over(alloc, edge, root))
    }
}
