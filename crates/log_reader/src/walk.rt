//! Rows that are read one below the other.
ghost use Rattle.std.specs.Prelude.{◌≡◌, ◌*◌, ◌%◌, ◌≤◌, ⊤, ℕ, All, IfErr, IfOk, List, OnOk, length};
ghost use Rattle.tlog_shape.specs.Edge.{edge_index_of};
ghost use Rattle.tlog_hash.specs.Rows.{level_row};
ghost use Rattle.mirror_sources.specs.Source.{StaysWithin};
ghost use Rattle.mirror_sources.specs.Recorded.{KeepsRecord};
ghost use Rattle.log_reader.specs.Faults.{CountsFailure};
ghost use Rattle.log_reader.specs.FalseFiles.{NamesFalse};
ghost use Rattle.log_reader.specs.Holding.{IsBelow, IsReaderOf, HasFullTiles, ReadsTilesOf, ReadsTrue, row_width, true_row};
ghost use Rattle.log_reader.specs.Requested.{IsTileOver, RequestsOnly};
ghost use Rattle.log_reader.specs.Ways.{IsRowUnder, IsShownRow, row_of_way};

use crate::fault::ReadFault;
use crate::full_row::FullRow;
use crate::reader::LogReader;
use crate::tile::read_tile;
use mirror_sources::Source;
use std::alloc::{AllocError, Global};
use tlog_hash::{Hash, TreeHash};
use tlog_shape::edge_index;
use tlog_tiles::Path;

// Goes up while the tile is below that level.
fn climb<H: TreeHash>(reader: &mut LogReader<H>, level: u32)
    ensures edge { reader.new.edge ≡ reader.old.edge }
    ensures root { reader.new.root ≡ reader.old.root }
    ensures honest { (entries : List (List ℕ)) → IsReaderOf H.digest entries reader.old
        → IsReaderOf H.digest entries reader.new }
{
    while reader.is_below(level) {
        reader.up();
    }
}

// The row of the full tile of that index, one level below the reader's tile.
#[tactic(auto, using(crate::proofs::Kept::kept_once))]
fn read_below<H: TreeHash, S: Source>(
    alloc: Global,
    reader: &LogReader<H>,
    source: &mut S,
    level: u32,
    index: u64,
) -> Result<FullRow<H>, ReadFault>
    ensures row { IfOk result (λ row. IsRowUnder H.digest
        (row_of_way reader.now.edge reader.now.level reader.now.way) (index % 256) row) }
    ensures later { StaysWithin (S.may_answer source.old) (S.may_answer source.new) }
    ensures kept { KeepsRecord (S.files source.old) (S.files source.new) }
    ensures asks { RequestsOnly (S.asked source.old) (S.asked source.new)
        (λ p. p ≡ Path.Tile level index 256) }
    ensures counted { CountsFailure (S.failed source.old) (S.failed source.new) result }
    ensures names { IsBelow reader.now level index
        → IfErr result (NamesFalse H.digest (S.may_answer source.old) reader.now.edge) }
    ensures honest { (entries : List (List ℕ)) → IsReaderOf H.digest entries reader.now
        → HasFullTiles H.digest entries (S.may_answer source.old) → IsBelow reader.now level index
        → ReadsTrue result
        (λ row. row ≡ level_row H.digest entries level (256 * index) 256) }
{
    let row = reader.here();
    let Some(hash) = row.get((index % 256) as usize) else {
        return Err(ReadFault::NoFile(Path::Tile {
            level,
            index,
            width: 256,
        }));
    };
    read_tile::<H, S>(alloc, source, level, index, hash)
}

/// Goes to a tile, and reads the rows on the way down to it.
#[tactic(auto, using(crate::proofs::Kept::kept_twice, crate::proofs::Kept::kept_once))]
pub(crate) fn go_to<H: TreeHash, S: Source>(
    alloc: Global,
    reader: &mut LogReader<H>,
    source: &mut S,
    level: u32,
    index: u64,
) -> Result<(), ReadFault>
    requires level { level ≤ 7 }
    requires within { index ≤ edge_index_of reader.old.edge.size level }
    ensures edge { reader.new.edge ≡ reader.old.edge }
    ensures root { reader.new.root ≡ reader.old.root }
    ensures there { OnOk result ((reader.new.level ≡ level) × (reader.new.index ≡ index)) }
    ensures later { StaysWithin (S.may_answer source.old) (S.may_answer source.new) }
    ensures kept { KeepsRecord (S.files source.old) (S.files source.new) }
    ensures asks { (at : ℕ) → edge_index_of at level ≡ index
        → RequestsOnly (S.asked source.old) (S.asked source.new)
        (IsTileOver reader.old.edge.size at level) }
    ensures counted { CountsFailure (S.failed source.old) (S.failed source.new) result }
    ensures names { IfErr result (NamesFalse H.digest (S.may_answer source.old) reader.old.edge) }
    ensures honest { ReadsTilesOf H.digest reader.old reader.new (S.may_answer source.old) result
        (λ entries _. ⊤) }
{
    climb(reader, level);
    if reader.is_at(level, index) {
        return Ok(());
    }
    let end = edge_index(reader.size(), level);
    if index >= end {
        reader.to_edge(level);
        return Ok(());
    }
    go_to::<H, S>(alloc, reader, source, level + 1, index / 256)?;
    let row = read_below::<H, S>(alloc, reader, source, level, index)?;
    reader.down(index, row)?;
    Ok(())
}

/// A copy of a row.
pub(crate) fn copy_row(alloc: Global, row: &[Hash]) -> Result<Vec<Hash>, AllocError>
    ensures items { IfOk result (λ copy. copy.items ≡ row.now) }
    ensures sizes { IfOk result (λ copy. All (λ hash. length hash ≡ 32) copy.items) }
{
    Ok(Vec::from_slice(alloc, row)?)
}

impl<H: TreeHash> LogReader<H> {
    /// The row of a tile of that level. A full tile has 256 hashes, each of `256^level` entries. The partial tile at the right edge has
    /// fewer (C2SP tlog-tiles, "Merkle Tree"). The index is at most that of the edge, `edge_index(size, level)`.
    ///
    /// ```text
    /// reader.row(alloc, &mut source, 0, 1)?   // with 300 entries: the leaf hashes of the last 44
    /// ```
    ///
    /// # Errors
    ///
    /// - `NoFile`, `FalseFile`: a tile between the edge and this tile is missing, or does not fold to its hash in the row above it.
    /// - `Source`: the source failed. `OutOfMemory`: memory was refused.
    pub fn row<S: Source>(
        &mut self,
        alloc: Global,
        source: &mut S,
        level: u32,
        index: u64,
    ) -> Result<Vec<Hash>, ReadFault>
        requires level { level ≤ 7 }
        requires within { index ≤ edge_index_of self.old.edge.size level }
        ensures edge { self.new.edge ≡ self.old.edge }
        ensures root { self.new.root ≡ self.old.root }
        ensures shown { IfOk result
            (λ row. IsShownRow H.digest self.old.edge level index row.items) }
        ensures enough { IfOk result
            (λ row. row_width self.old.edge.size level index ≤ length row.items) }
        ensures later { StaysWithin (S.may_answer source.old) (S.may_answer source.new) }
        ensures kept { KeepsRecord (S.files source.old) (S.files source.new) }
        ensures counted { CountsFailure (S.failed source.old) (S.failed source.new) result }
        ensures names { IfErr result (NamesFalse H.digest (S.may_answer source.old) self.old.edge) }
        ensures honest { ReadsTilesOf H.digest self.old self.new (S.may_answer source.old) result
            (λ entries row. row.items ≡ true_row H.digest entries level index) }
    {
        go_to::<H, S>(alloc, self, source, level, index)?;
        Ok(copy_row(alloc, self.here())?)
    }
}
