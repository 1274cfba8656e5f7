//! A copy brought to the right edge of a larger tree.
ghost use Rattle.std.specs.Prelude.{◌*◌, ◌^◌, ◌<◌, ◌≤◌, [], ℕ, List, IfErr, OnOk, take};
ghost use Rattle.tlog_shape.specs.Edge.{edge_index_of};
ghost use Rattle.mirror_sources.specs.Recorded.{KeepsRecord};
ghost use Rattle.mirror_folders.specs.Flushes.{Secures};
ghost use Rattle.copy_follow.specs.Secured.{IsNewInEdge};
ghost use Rattle.copy_follow.specs.Asked.{IsNewFull};
ghost use Rattle.copy_follow.specs.Faults.{BlamesPlaces, CountsShelf};
ghost use Rattle.copy_places.specs.AskedOnce.{AsksOnce};
ghost use Rattle.copy_follow.specs.Asked.{IsFullBetween};
ghost use Rattle.copy_places.specs.PlaceGets.{AsksPlaces};
ghost use Rattle.copy_follow.specs.Conflicts.{ConflictPutsNothing, IsNoConflict};
ghost use Rattle.copy_follow.specs.Suffices.{IsEdgeTrue, IsSpared, IsTipOf, OneIsHonest};
ghost use Rattle.copy_follow.specs.Taken.{PutsTaken};
ghost use Rattle.copy_follow.specs.Growing.{IsKnown};
ghost use Rattle.log_reader.specs.EdgeRows.{HasWidths};
ghost use Rattle.copy_follow.specs.Edges.{BringsEdge};
ghost use Rattle.copy_follow.specs.Differing.{DiffersBy};

use crate::bring::bring_row;
use crate::bring_fault::BringFault;
use crate::tip::CopyTip;
use copy_places::Places;
use log_reader::EdgeRows;
use mirror_folders::ReadableShelf;
use mirror_sources::Source;
use std::alloc::Global;
use tlog_hash::TreeHash;
use tlog_shape::edge_index;

/// Brings all files below the right edge except the partial bundle, from left to right.
pub(crate) fn bring_levels<H: TreeHash, D: ReadableShelf, S: Source + Drop>(
    alloc: Global,
    shelf: &mut D,
    places: &mut Places<S>,
    tip: &CopyTip,
    edge: &EdgeRows,
) -> Result<(), BringFault>
    requires size { edge.now.size < 2 ^ 63 }
    requires larger { tip.now.size < edge.now.size }
    requires widths { HasWidths edge.now }
    ensures counted { CountsShelf (D.failed shelf.old) (D.failed shelf.new) result }
    ensures asks { AsksPlaces S.may_answer S.failed S.asked (IsNewFull tip.now.size)
        places.old places.new }
    ensures once { AsksOnce S.asked (λ k. IsFullBetween 7 0 edge.now.size) places.old places.new }
    ensures blames { IfErr result (BlamesPlaces places.new) }
    ensures taken { PutsTaken S.may_answer places.old (D.puts shelf.old) (D.puts shelf.new) }
    ensures honest { IfErr result (λ e. (entries : List (List ℕ)) (size : ℕ)
        → OneIsHonest H.digest entries size S.may_answer (D.puts shelf.old) places.old places.new
        → IsTipOf H.digest tip.now (take size entries)
        → IsEdgeTrue H.digest (take size entries) edge.now → IsSpared e) }
    ensures early { ConflictPutsNothing 0 tip.now.size (D.puts shelf.old)
        (D.puts shelf.new) result }
    ensures none { edge_index_of edge.now.size 0 * 256 ≤ tip.now.size
        → OnOk result (KeepsRecord (D.puts shelf.old) (D.puts shelf.new)) }
    ensures empty { IfErr result (λ e. IsKnown H.digest tip.now 0 [] → IsNoConflict e) }
    ensures differs { IfErr result (DiffersBy H.digest edge.now tip.now) }
    ensures brings { (known : List (List ℕ)) → IsKnown H.digest tip.now 0 known
        → BringsEdge H.digest tip.now edge.now known (D.puts shelf.old) (D.puts shelf.new) result }
    ensures secured { OnOk result (Secures (IsNewInEdge tip.now.size edge.now.size 1)
        (D.flushes shelf.old) (D.flushes shelf.new)) }
{
    let bundles = edge.size() / 256;
    for done in 0..7u32 {
        let level = 7 - done;
        let index = edge_index(edge.size(), level);
        bring_row::<H, D, S>(
            alloc,
            shelf,
            places,
            tip,
            level,
            index,
            edge.row(level),
            bundles,
        )?;
    }
    Ok(())
}
