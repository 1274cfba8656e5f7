//! The edge rows of the larger candidate, whoever holds them.
ghost use Rattle.std.specs.Prelude.{◌<◌, ℕ, IfErr, IfNone, IfOk, IfSome, length};
ghost use Rattle.log_reader.specs.EdgeRows.{LeadsTo};
ghost use Rattle.mirror_sources.specs.Recorded.{KeepsRecord};
ghost use Rattle.copy_places.specs.AskedEnds.{AsksEnds, IsEndSize};
ghost use Rattle.copy_places.specs.Faults.{CountsAsk, IsOfShelf};
ghost use Rattle.copy_places.specs.KeptRows.{LackMix};
ghost use Rattle.copy_places.specs.ShelfRows.{LacksEdge};

use crate::ask_fault::AskFault;
use crate::shelf_edge::edge_on_shelf;
use crate::{Places, kept_edge};
use log_reader::EdgeRows;
use mirror_folders::ReadableShelf;
use mirror_sources::Source;
use std::alloc::Global;
use tlog_hash::{Hash, TreeHash};

/// The edge rows of a tree of that size and root: those of the shelf, else those of one place, else those of two places mixed.
pub(crate) fn ask_edge<H: TreeHash, D: ReadableShelf, S: Source + Drop>(
    alloc: Global,
    shelf: &mut D,
    places: &mut Places<S>,
    size: u64,
    root: &Hash,
) -> Result<Option<EdgeRows>, AskFault>
    requires { IsEndSize places.old size }
    ensures same { KeepsRecord (D.puts shelf.old) (D.puts shelf.new) }
    ensures counted { CountsAsk (D.failed shelf.old) (D.failed shelf.new) result }
    ensures sure { IfErr result IsOfShelf }
    ensures goes { AsksEnds S.may_answer S.failed S.asked places.old places.new }
    ensures leads { IfOk result (λ found. IfSome found
        (λ edge. LeadsTo H.digest size root.now edge)) }
    ensures own { IfOk result (λ found. IfNone found
        (LacksEdge H.digest size root.now (D.puts shelf.old))) }
    ensures none { IfOk result (λ found. IfNone found
        ((i j : ℕ) → i < length places.old.list.items → j < length places.old.list.items
        → LackMix H.digest size root.now places.new.ends.tiles.items i j)) }
{
    match edge_on_shelf::<H, D>(alloc, shelf, size, root)? {
        Some(edge) => Ok(Some(edge)),
        None => match kept_edge::<H, S>(alloc, places, size, root)? {
            Some(edge) => Ok(Some(edge)),
            None => Ok(None),
        },
    }
}
