//! The partial bundle at the right edge.
ghost use Rattle.std.specs.Prelude.{◌≡◌, ◌↔◌, ◌≤◌, ℕ, IfErr, IfOk, IsTrue, List, OnOk, length};
ghost use Rattle.log_reader.specs.Holding.{IsSourceOf};
ghost use Rattle.log_reader.specs.EdgeRows.{HasWidths, RowIsTrue};
ghost use Rattle.log_reader.specs.Verified.{HasLeaves};
ghost use Rattle.copy_reader.specs.Edges.{CoversEdgeBundle};
ghost use Rattle.copy_reader.specs.AuditFaults.{BlamesPlace, IsFailure, IsForAbsence};
ghost use Rattle.copy_reader.specs.Order.{edge_bundle};
ghost use Rattle.copy_reader.specs.Stops.{AreRead, HasEdge, StopsIn};

use crate::audit_fault::AuditFault;
use crate::part::get_part;
use log_reader::{EdgeRows, leaves_of};
use mirror_sources::Source;
use std::alloc::{AllocError, Global};
use tlog_hash::{Hash, TreeHash};
use tlog_shape::edge_index;
use tlog_tiles::Path;

fn is_same_row(first: &[Hash], second: &[Hash]) -> bool
    ensures { IsTrue result ↔ (first.now ≡ second.now) }
{
    first == second
}

// Whether the bytes are a bundle with these leaf hashes.
fn is_bundle_of<H: TreeHash>(alloc: Global, row: &[Hash], bytes: &[u8]) -> Result<bool, AllocError>
    requires { length row.now ≤ 256 }
    ensures { IfOk result (λ b. IsTrue b ↔ HasLeaves H.digest (length row.now) bytes.now row.now) }
{
    match leaves_of::<H>(alloc, row.len() as u32, bytes)? {
        Some(leaves) => Ok(is_same_row(&leaves, row)),
        None => Ok(false),
    }
}

/// Reads the partial bundle, if there is one. Its leaf hashes have to be the lowest row.
pub(crate) fn audit_edge_bundle<H: TreeHash, S: Source>(
    alloc: Global,
    source: &mut S,
    edge: &EdgeRows,
) -> Result<(), AuditFault>
    requires { HasWidths edge.now }
    ensures counted { BlamesPlace (S.failed source.old) (S.failed source.new) result }
    ensures absent { IfErr result (IsForAbsence (S.may_answer source.old)) }
    ensures covers { OnOk result (CoversEdgeBundle H.digest edge.now (S.may_answer source.old)
        (S.may_answer source.new) (S.asked source.old) (S.asked source.new)) }
    ensures read { OnOk result (AreRead H.digest (HasEdge H.digest edge.now)
        (edge_bundle edge.now.size) (S.may_answer source.old) (S.may_answer source.new) (S.asked source.old) (S.asked source.new)) }
    ensures first { IfErr result (StopsIn H.digest (edge_bundle edge.now.size)
        (HasEdge H.digest edge.now) (S.may_answer source.old) (S.may_answer source.new)
        (S.asked source.old) (S.asked source.new)) }
    ensures honest { (entries : List (List ℕ))
        → IsSourceOf H.digest entries (S.may_answer source.old)
        → edge.now.size ≡ length entries → RowIsTrue H.digest edge.now entries 0
        → IfErr result IsFailure }
{
    let row = edge.row(0);
    if row.is_empty() {
        return Ok(());
    }
    let path = Path::Entries {
        index: edge_index(edge.size(), 0),
        width: row.len() as u32,
    };
    let bytes = match get_part(source, path)? {
        Some(bytes) => bytes,
        None => return Err(AuditFault::NoFile(path)),
    };
    let is_true = is_bundle_of::<H>(alloc, row, &bytes)?;
    if !is_true {
        return Err(AuditFault::FalseFile(path));
    }
    Ok(())
}
