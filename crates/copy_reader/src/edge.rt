//! All files below the right edge.
ghost use Rattle.std.specs.Prelude.{◌≡◌, ◌^◌, ◌<◌, ◌≤◌, ℕ, IfErr, List, OnOk, length};
ghost use Rattle.log_reader.specs.EdgeRows.{HasWidths, RowIsTrue};
ghost use Rattle.log_reader.specs.Holding.{IsSourceOf};
ghost use Rattle.copy_reader.specs.Edges.{CoversLevels};
ghost use Rattle.copy_reader.specs.AuditFaults.{BlamesPlace, IsFailure, IsForAbsence};
ghost use Rattle.copy_reader.specs.Order.{levels_order};
ghost use Rattle.copy_reader.specs.Stops.{AreRead, HasEdge, StopsIn};

use crate::audit_fault::AuditFault;
use crate::tiles::audit_row;
use log_reader::EdgeRows;
use mirror_sources::Source;
use std::alloc::Global;
use tlog_hash::TreeHash;
use tlog_shape::edge_index;

/// Reads all files below the right edge except the partial bundle, from left to right.
pub(crate) fn audit_levels<H: TreeHash, S: Source>(
    alloc: Global,
    source: &mut S,
    edge: &EdgeRows,
) -> Result<(), AuditFault>
    requires widths { HasWidths edge.now }
    requires small { edge.now.size < 2 ^ 64 }
    ensures counted { BlamesPlace (S.failed source.old) (S.failed source.new) result }
    ensures absent { IfErr result (IsForAbsence (S.may_answer source.old)) }
    ensures covers { OnOk result (CoversLevels H.digest edge.now 1 (S.may_answer source.old)
        (S.may_answer source.new) (S.asked source.old) (S.asked source.new)) }
    ensures read { OnOk result (AreRead H.digest (HasEdge H.digest edge.now)
        (levels_order edge.now.size 7) (S.may_answer source.old) (S.may_answer source.new) (S.asked source.old) (S.asked source.new)) }
    ensures first { IfErr result (StopsIn H.digest (levels_order edge.now.size 7)
        (HasEdge H.digest edge.now) (S.may_answer source.old) (S.may_answer source.new)
        (S.asked source.old) (S.asked source.new)) }
    ensures honest { (entries : List (List ℕ))
        → IsSourceOf H.digest entries (S.may_answer source.old)
        → edge.now.size ≡ length entries
        → ((level : ℕ) → level ≤ 7 → RowIsTrue H.digest edge.now entries level)
        → IfErr result IsFailure }
{
    let bundles = edge.size() / 256;
    for done in 0..7u32 {
        let level = 7 - done;
        let index = edge_index(edge.size(), level);
        audit_row::<H, S>(alloc, source, level, index, edge.row(level), bundles)?;
    }
    Ok(())
}
