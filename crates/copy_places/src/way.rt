//! The full tiles in which the smaller tree ends, from below the edge of the larger tree down.
ghost use Rattle.std.specs.Prelude.{◌≡◌, ◌<◌, ◌≤◌, [], ℕ, IfErr, IfOk, IsFalse, IsTrue, length};
ghost use Rattle.tlog_shape.specs.Edge.{width_of};
ghost use Rattle.log_reader.specs.Ways.{HasEdgeHashes};
ghost use Rattle.mirror_sources.specs.Recorded.{KeepsRecord};
ghost use Rattle.copy_places.specs.AskedEnds.{AsksEnds};
ghost use Rattle.copy_places.specs.Faults.{CountsAsk, IsOfShelf};
ghost use Rattle.copy_places.specs.Nobodys.{LacksRow};
ghost use Rattle.copy_places.specs.WayFiles.{AreWayFiles, HasWanted, StepsDown};

use crate::Places;
use crate::ask_fault::AskFault;
use crate::find_row::find_row;
use crate::hash_sizes::see_path;
use crate::proof_files::ReadFiles;
use log_reader::EdgeRows;
use mirror_folders::ReadableShelf;
use mirror_sources::Source;
use std::alloc::Global;
use tlog_hash::{Hash, TreeHash};
use tlog_shape::{edge_index, edge_width};
use tlog_tiles::Path;

// The row of the tile of a level in which the smaller tree ends.
#[derive(Drop)]
enum Step {
    // It is that of the larger tree's edge.
    Edge,
    // The row of a full tile.
    Tile(Vec<Hash>),
    // The smaller tree ends where the tile begins: the proof needs neither it nor those below it.
    Unneeded,
    // Nobody has it.
    Lacking,
}

// Whether a tree ends where its tile of that level begins.
fn is_whole(size: u64, level: u32) -> bool
    requires { level ≤ 7 }
    ensures no { IsFalse result → (below : ℕ) × (below ≤ level) × (1 ≤ width_of size below) }
    ensures yes { IsTrue result → (below : ℕ) → below ≤ level → width_of size below ≡ 0 }
{
    for below in 0..8u32 {
        if below <= level && edge_width(size, below) > 0 {
            return false;
        }
    }
    true
}

// One level down from the row above.
fn step_down<H: TreeHash, D: ReadableShelf, S: Source + Drop>(
    alloc: Global,
    shelf: &mut D,
    places: &mut Places<S>,
    first: u64,
    size: u64,
    level: u32,
    above: &[Hash],
) -> Result<Step, AskFault>
    requires low { level ≤ 7 }
    requires first { first ≡ places.old.ends.sizes.0 }
    ensures same { KeepsRecord (D.puts shelf.old) (D.puts shelf.new) }
    ensures counted { CountsAsk (D.failed shelf.old) (D.failed shelf.new) result }
    ensures sure { IfErr result IsOfShelf }
    ensures goes { AsksEnds S.may_answer S.failed S.asked places.old places.new }
    ensures step { IfOk result (StepsDown H.digest (D.puts shelf.old) places.new.ends.tiles.items
        (length places.old.list.items) first size level above.now) }
{
    let index = edge_index(first, level);
    if index == edge_index(size, level) {
        return Ok(Step::Edge);
    }
    if is_whole(first, level) {
        return Ok(Step::Unneeded);
    }
    let Some(hash) = above.get((index % 256) as usize) else {
        return Ok(Step::Lacking);
    };
    match find_row::<H, D, S>(alloc, shelf, places, level, index, hash)? {
        Some(row) => {
            see_path(&row);
            Ok(Step::Tile(row))
        }
        None => Ok(Step::Lacking),
    }
}

/// Adds the full tiles of the proof to the files: each is found by its hash in the row above it. False: nobody has one of them.
pub(crate) fn add_way<H: TreeHash, D: ReadableShelf, S: Source + Drop>(
    alloc: Global,
    shelf: &mut D,
    places: &mut Places<S>,
    first: u64,
    edge: &EdgeRows,
    files: &mut ReadFiles,
) -> Result<bool, AskFault>
    requires first { first ≡ places.old.ends.sizes.0 }
    requires less { first < edge.now.size }
    requires hashes { HasEdgeHashes edge.now }
    requires files { files.old ≡ [] }
    ensures same { KeepsRecord (D.puts shelf.old) (D.puts shelf.new) }
    ensures counted { CountsAsk (D.failed shelf.old) (D.failed shelf.new) result }
    ensures sure { IfErr result IsOfShelf }
    ensures goes { AsksEnds S.may_answer S.failed S.asked places.old places.new }
    ensures lacks { IfOk result (λ had. IsFalse had → LacksRow H.digest (D.puts shelf.old)
        places.new.ends.tiles.items (length places.old.list.items) first edge.now) }
    ensures files { IfOk result (λ had. IsTrue had
        → AreWayFiles H.digest edge.now files.new) }
    ensures wanted { IfOk result (λ had. IsTrue had
        → HasWanted first edge.now.size 0 files.new) }
{
    let size = edge.size();
    let mut above = Vec::from_slice(alloc, edge.row(7))?;
    for done in 0..7u32 {
        let level = 6 - done;
        match step_down::<H, D, S>(alloc, shelf, places, first, size, level, &above)? {
            Step::Edge => above = Vec::from_slice(alloc, edge.row(level))?,
            Step::Tile(row) => {
                let path = Path::Tile {
                    level,
                    index: edge_index(first, level),
                    width: 256,
                };
                files.add_row(alloc, path, &row)?;
                above = row;
            }
            Step::Unneeded => return Ok(true),
            Step::Lacking => return Ok(false),
        }
    }
    Ok(true)
}
