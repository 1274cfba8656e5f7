//! The state of a reader of a log.
ghost use Rattle.std.specs.Prelude.{◌≡◌, ◌≢◌, ◌↔◌, ◌+◌, ◌-◌, ◌/◌, ◌%◌, ◌<◌, ◌≤◌, [], ◌∷◌, IfOk, IfErr, IsSomeAnd, IsTrue, OnOk, drop, length, take};
ghost use Rattle.tlog_shape.specs.Edge.{edge_index_of};
ghost use Rattle.tlog_shape.specs.Split.{IsPowerOfTwo};
ghost use Rattle.tlog_hash.specs.Tree.{fold_of};
ghost use Rattle.mirror_sources.specs.Source.{StaysWithin};
ghost use Rattle.mirror_sources.specs.Recorded.{KeepsRecord};
ghost use Rattle.log_reader.specs.Faults.{CountsFailure};
ghost use Rattle.log_reader.specs.FalseEdges.{IsEdgeGiven, NamesFalseEdge};
ghost use Rattle.log_reader.specs.Holding.{IsReaderOf, ReadsLog};
ghost use Rattle.log_reader.specs.EdgeRows.{hash_of_edge};
ghost use Rattle.log_reader.specs.Ways.{HasEdgeHashes, IsRowUnder, IsShownRow, row_of_way};

use crate::edge_files::read_edge;
use crate::edge_rows::EdgeRows;
use crate::fault::ReadFault;
use crate::full_row::FullRow;
use crate::hashed_edge::HashedEdge;
use crate::node_hash::fold_part;
use mirror_sources::Source;
use std::alloc::{AllocError, Global};
use std::marker::Model;
use tlog_hash::{Hash, TreeHash};
use tlog_shape::edge_index;

/// Reads the files of a log of known size and root from a source that is not trusted.
///
/// All that it returns leads up to the root: a full tile folds to its hash in the row above it, and so on up to the edge. It keeps the
/// edge, and the rows of the last tile and of those above it. So a read of a neighbour gets one file, and a read from left to right
/// gets each file once. It holds at most one row a level with its nodes (16 KB) beside the edge, for all sizes of the log.
///
/// Any source may serve any read: files that verify are equally good from each source.
///
/// ```text
/// let mut reader: LogReader<Sha256Tree> = LogReader::open(alloc, &mut source, size, &root)?;
/// reader.row(alloc, &mut source, 0, 1)?           // the leaf hashes of the entries from 256 on
/// reader.bundle(alloc, &mut source, 1)?           // the bytes of tile/entries/001, or of its partial file
/// reader.prefix(alloc, &mut source, 257)?.root()  // the root when the log had 257 entries
/// reader.consistency(alloc, &mut source, 257)?    // a proof from 257 entries to all, which holds
/// ```
#[derive(Drop)]
pub struct LogReader<H: TreeHash> {
    edge: HashedEdge<H>,
    root: Hash,
    // The tile that was read last, and the rows from its own up to below the edge, the lowest first. No rows for a tile of the edge.
    level: u32,
    index: u64,
    rows: Vec<FullRow<H>>,
}

impl<H: TreeHash> Model for LogReader<H> {
    ghost use Rattle.log_reader.specs.Ways.{Reader, IsReader};

    ghost Value = { Reader };

    ghost view = { λ a. record {
      edge = a.edge;
      root = a.root;
      level = a.level;
      index = a.index;
      way = a.rows.items;
    } };

    ghost invariant = { λ a. IsReader H.digest (record {
      edge = a.edge;
      root = a.root;
      level = a.level;
      index = a.index;
      way = a.rows.items;
    }) };
}

impl<H: TreeHash> LogReader<H> {
    /// Opens a log of the size and root of a checkpoint. Reads the rows of the edge, the lowest level first. If the source lacks a partial
    /// tile, reads the full tile.
    ///
    /// ```text
    /// LogReader::<Sha256Tree>::open(alloc, &mut source, 257, &root)?   // gets tile/0/001.p/1 and tile/1/000.p/1
    /// ```
    ///
    /// # Errors
    ///
    /// - `NoFile`: the source lacks a partial tile of the edge and its full tile.
    /// - `FalseFile`: such a tile has another length, or the rows do not lead to the root.
    /// - `Source`: the source failed. `OutOfMemory`: memory was refused.
    pub fn open<S: Source>(
        alloc: Global,
        source: &mut S,
        size: u64,
        root: &Hash,
    ) -> Result<LogReader<H>, ReadFault>
        ensures size { IfOk result (λ reader. reader.edge.size ≡ size) }
        ensures root { IfOk result (λ reader. reader.root ≡ root.now) }
        ensures given { IfOk result
            (λ reader. IsEdgeGiven (S.may_answer source.old) size reader.edge) }
        ensures names { IfErr result
            (NamesFalseEdge H.digest (S.may_answer source.old) size root.now) }
        ensures later { StaysWithin (S.may_answer source.old) (S.may_answer source.new) }
        ensures kept { KeepsRecord (S.files source.old) (S.files source.new) }
        ensures counted { CountsFailure (S.failed source.old) (S.failed source.new) result }
        ensures honest { ReadsLog H.digest size root.now (S.may_answer source.old) result
            (λ entries reader. IsReaderOf H.digest entries reader) }
    {
        let edge = read_edge::<H, S>(alloc, source, size, root)?;
        Ok(LogReader::over(alloc, edge, *root))
    }

    /// A reader of the log with that edge, whose rows have to lead to the root. No read of it requests a file of the edge.
    ///
    /// ```text
    /// LogReader::<Sha256Tree>::of_edge(alloc, edge, root)?   // edge: rows of 257 entries, for which `leads_to` is true
    /// ```
    ///
    /// # Errors
    ///
    /// `AllocError`: memory was refused.
    pub fn of_edge(alloc: Global, edge: EdgeRows, root: Hash) -> Result<LogReader<H>, AllocError>
        requires hashes { HasEdgeHashes edge }
        requires leads { hash_of_edge H.digest edge ≡ root }
        ensures edge { IfOk result (λ reader. reader.edge ≡ edge) }
        ensures root { IfOk result (λ reader. reader.root ≡ root) }
        ensures place { IfOk result (λ reader. (reader.level ≡ 0)
            × (reader.index ≡ edge_index_of edge.size 0) × (reader.way ≡ [])) }
    {
        let edge = HashedEdge::new(alloc, edge)?;
        Ok(LogReader::over(alloc, edge, root))
    }

    /// A reader of the log with that edge, which leads to the root.
    pub(crate) fn over(alloc: Global, edge: HashedEdge<H>, root: Hash) -> LogReader<H>
        requires hashes { HasEdgeHashes edge }
        requires leads { hash_of_edge H.digest edge ≡ root }
        ensures edge { result.edge ≡ edge }
        ensures root { result.root ≡ root }
        ensures place { (result.level ≡ 0) × (result.index ≡ edge_index_of edge.size 0)
            × (result.way ≡ []) }
    {
        let index = edge_index(edge.rows().size(), 0);
        LogReader {
            edge,
            root,
            level: 0,
            index,
            rows: Vec::new(alloc),
        }
    }

    /// The number of entries of the log.
    pub fn size(&self) -> u64
        ensures { result ≡ self.now.edge.size }
    {
        self.edge.rows().size()
    }

    /// The tree hash of its entries.
    pub fn root(&self) -> Hash
        ensures root { result ≡ self.now.root }
        ensures hashes { HasEdgeHashes self.now.edge }
        ensures leads { hash_of_edge H.digest self.now.edge ≡ self.now.root }
    {
        self.root
    }

    /// The edge of the log.
    pub(crate) fn edge(&self) -> &HashedEdge<H>
        ensures edge { result.now ≡ self.now.edge }
        ensures hashes { HasEdgeHashes self.now.edge }
    {
        &self.edge
    }

    /// Whether the reader is at that tile.
    pub(crate) fn is_at(&self, level: u32, index: u64) -> bool
        ensures { IsTrue result ↔ ((self.now.level ≡ level) × (self.now.index ≡ index)) }
    {
        self.level == level && self.index == index
    }

    /// Whether the reader is at a full tile below that level.
    pub(crate) fn is_below(&self, level: u32) -> bool
        ensures { IsTrue result ↔ ((self.now.level < level) × (self.now.way ≢ [])) }
    {
        self.level < level && !self.rows.is_empty()
    }

    /// The row of the reader's tile.
    pub(crate) fn here(&self) -> &[Hash]
        ensures row { result.now ≡ row_of_way self.now.edge self.now.level self.now.way }
        ensures hashes { HasEdgeHashes self.now.edge }
        ensures shown { IsShownRow H.digest self.now.edge self.now.level self.now.index result.now }
    {
        match self.rows.first() {
            Some(row) => row.row(),
            None => self.edge.rows().row(self.level),
        }
    }

    /// The hash of a node of the reader's tile: of `count` hashes of its row, from hash `first` on. None: the row does not have them.
    pub(crate) fn node(&self, first: u32, count: u32) -> Option<Hash>
        requires power { IsPowerOfTwo count }
        requires aligned { first % count ≡ 0 }
        requires fits { first + count ≤ 256 }
        ensures { let row = row_of_way self.now.edge self.now.level self.now.way in
            first + count ≤ length row
            → IsSomeAnd result (λ hash. hash ≡ fold_of H.digest (take count (drop first row))) }
    {
        match self.rows.first() {
            Some(row) => Some(row.node(first, count)),
            None => fold_part::<H>(self.edge.rows().row(self.level), first, count),
        }
    }

    /// Goes up to the tile above.
    pub(crate) fn up(&mut self)
        requires { self.old.way ≢ [] }
        ensures { self.new ≡ record self.old {
          level = self.old.level + 1;
          index = self.old.index / 256;
          way = drop 1 self.old.way;
        } }
    {
        self.rows.remove(0);
        self.level += 1;
        self.index /= 256;
    }

    /// Goes to the tile of the edge at that level.
    pub(crate) fn to_edge(&mut self, level: u32)
        requires { level ≤ 7 }
        ensures { self.new ≡ record self.old {
          level = level;
          index = edge_index_of self.old.edge.size level;
          way = [];
        } }
    {
        self.rows.clear();
        self.level = level;
        self.index = edge_index(self.edge.rows().size(), level);
    }

    /// Goes down to the tile of that index, which has that row.
    pub(crate) fn down(&mut self, index: u64, row: FullRow<H>) -> Result<(), AllocError>
        requires level { 1 ≤ self.old.level }
        requires below { index / 256 ≡ self.old.index }
        requires row { IsRowUnder H.digest (row_of_way self.old.edge self.old.level self.old.way)
            (index % 256) row }
        ensures ok { OnOk result (self.new ≡ record self.old {
          level = self.old.level - 1;
          index = index;
          way = row ∷ self.old.way;
        }) }
        ensures err { IfErr result (λ _. self.new ≡ self.old) }
    {
        self.rows.insert(0, row)?;
        self.level -= 1;
        self.index = index;
        Ok(())
    }
}
