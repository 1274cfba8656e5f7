//! The rows of the right edge.
ghost use Rattle.std.specs.Prelude.{◌≡◌, ◌≤◌, ℕ, IfErr, IfOk, List, length};
ghost use Rattle.tlog_hash.specs.Tree.{mth};
ghost use Rattle.mirror_model.specs.Strings.{IsDigest};
ghost use Rattle.log_reader.specs.Holding.{IsEdgeRowOf, IsSourceOf};
ghost use Rattle.log_reader.specs.EdgeRows.{LeadsTo, IsEdgeOf, RowIsTrue, row_at};
ghost use Rattle.copy_reader.specs.Edges.{AreRowsGiven, IsRowGivenAt};
ghost use Rattle.copy_reader.specs.AuditFaults.{BlamesPlace, GivesTrue, IsForAbsence};
ghost use Rattle.copy_reader.specs.Order.{edge_file, edge_order, first_path};
ghost use Rattle.copy_reader.specs.Stops.{AreRowsRead, HasSize, IsRowRead, StopsEdge, StopsIn};

use crate::audit_fault::AuditFault;
use crate::part::get_part;
use log_reader::{EdgeRows, edge_path, leads_to};
use mirror_sources::Source;
use std::alloc::Global;
use tlog_hash::{Hash, TreeHash};
use tlog_shape::edge_width;
use tlog_tiles::{Path, RowFault, read_row};

// The row of a level, empty if the level has none.
fn row_at_level<S: Source>(
    alloc: Global,
    source: &mut S,
    size: u64,
    level: u32,
) -> Result<Vec<Hash>, AuditFault>
    requires { level ≤ 7 }
    ensures counted { BlamesPlace (S.failed source.old) (S.failed source.new) result }
    ensures absent { IfErr result (IsForAbsence (S.may_answer source.old)) }
    ensures given { IfOk result (λ row. IsRowGivenAt size level row.items
        (S.may_answer source.old) (S.may_answer source.new) (S.asked source.old)
        (S.asked source.new)) }
    ensures read { IfOk result (λ row. IsRowRead size level row.items
        (S.may_answer source.old) (S.may_answer source.new) (S.asked source.old)
        (S.asked source.new)) }
    ensures first { (digest : List ℕ → List ℕ) → IsDigest digest → IfErr result (StopsIn digest
        (edge_file size level) (HasSize digest size) (S.may_answer source.old)
        (S.may_answer source.new) (S.asked source.old) (S.asked source.new)) }
    ensures honest { (digest : List ℕ → List ℕ) (entries : List (List ℕ)) → IsDigest digest
        → IsSourceOf digest entries (S.may_answer source.old) → length entries ≡ size
        → GivesTrue result (λ row. IsEdgeRowOf digest size level entries row.items) }
{
    let width = edge_width(size, level);
    if width == 0 {
        return Ok(Vec::new(alloc));
    }
    let path = edge_path(size, level);
    let bytes = match get_part(source, path)? {
        Some(bytes) => bytes,
        None => return Err(AuditFault::NoEdge),
    };
    match read_row(alloc, width, &bytes) {
        Ok(row) => Ok(row),
        Err(RowFault::RowLength) => Err(AuditFault::FalseFile(path)),
        Err(RowFault::OutOfMemory) => Err(AuditFault::OutOfMemory),
    }
}

// The rows of all levels, the lowest first.
fn rows_of<S: Source>(alloc: Global, source: &mut S, size: u64) -> Result<EdgeRows, AuditFault>
    ensures counted { BlamesPlace (S.failed source.old) (S.failed source.new) result }
    ensures absent { IfErr result (IsForAbsence (S.may_answer source.old)) }
    ensures edge { IfOk result (λ edge. IsEdgeOf size edge) }
    ensures given { IfOk result (λ edge. AreRowsGiven size (row_at edge) 8
        (S.may_answer source.old) (S.may_answer source.new) (S.asked source.old)
        (S.asked source.new)) }
    ensures read { IfOk result (λ edge. AreRowsRead size (row_at edge) 8
        (S.may_answer source.old) (S.may_answer source.new) (S.asked source.old)
        (S.asked source.new)) }
    ensures first { (digest : List ℕ → List ℕ) → IsDigest digest → IfErr result (StopsIn digest
        (edge_order size 8) (HasSize digest size) (S.may_answer source.old)
        (S.may_answer source.new) (S.asked source.old) (S.asked source.new)) }
    ensures honest { (digest : List ℕ → List ℕ) (entries : List (List ℕ)) → IsDigest digest
        → IsSourceOf digest entries (S.may_answer source.old) → length entries ≡ size
        → GivesTrue result
        (λ edge. (level : ℕ) → level ≤ 7 → RowIsTrue digest edge entries level) }
{
    let mut rows = Vec::new(alloc);
    for level in 0..8u32 {
        let row = row_at_level(alloc, source, size, level)?;
        rows.push(row)?;
    }
    Ok(EdgeRows::new(size, rows))
}

// The path of the lowest partial tile. For an empty log it is the checkpoint's path: then the root of the checkpoint is wrong.
fn lowest_path(size: u64) -> Path
    ensures { result ≡ first_path (edge_order size 8) }
{
    for level in 0..8u32 {
        if edge_width(size, level) > 0 {
            return edge_path(size, level);
        }
    }
    Path::Checkpoint
}

/// Reads the rows of the right edge, which have to lead to the root.
pub(crate) fn read_edge<H: TreeHash, S: Source>(
    alloc: Global,
    source: &mut S,
    size: u64,
    root: &Hash,
) -> Result<EdgeRows, AuditFault>
    ensures counted { BlamesPlace (S.failed source.old) (S.failed source.new) result }
    ensures absent { IfErr result (IsForAbsence (S.may_answer source.old)) }
    ensures leads { IfOk result (λ edge. LeadsTo H.digest size root.now edge) }
    ensures given { IfOk result (λ edge. AreRowsGiven size (row_at edge) 8
        (S.may_answer source.old) (S.may_answer source.new) (S.asked source.old)
        (S.asked source.new)) }
    ensures read { IfOk result (λ edge. AreRowsRead size (row_at edge) 8
        (S.may_answer source.old) (S.may_answer source.new) (S.asked source.old)
        (S.asked source.new)) }
    ensures first { IfErr result (StopsEdge H.digest (edge_order size 8) size root.now
        (S.may_answer source.old) (S.may_answer source.new) (S.asked source.old)
        (S.asked source.new)) }
    ensures honest { (entries : List (List ℕ))
        → IsSourceOf H.digest entries (S.may_answer source.old)
        → length entries ≡ size → mth H.digest entries ≡ root.now → GivesTrue result
        (λ edge. (level : ℕ) → level ≤ 7 → RowIsTrue H.digest edge entries level) }
{
    let edge = rows_of(alloc, source, size)?;
    if leads_to::<H>(alloc, &edge, root)? {
        Ok(edge)
    } else {
        Err(AuditFault::FalseFile(lowest_path(size)))
    }
}
