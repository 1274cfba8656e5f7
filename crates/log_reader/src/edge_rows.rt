//! The right edge of a tree.
ghost use Rattle.std.specs.Prelude.{◌≡◌, map};
ghost use Rattle.log_reader.specs.EdgeRows.{row_at};

use std::marker::Model;
use tlog_hash::Hash;

/// The right edge of a tree: its size, and the rows of its partial tiles by level (C2SP tlog-tiles, "Merkle Tree"). A level without a
/// partial tile has an empty row.
///
/// ```text
/// let edge = EdgeRows::new(257, rows);   // rows[0] has one leaf hash, rows[1] the hash of the first 256 entries
/// edge.row(1)                            // that hash
/// ```
#[derive(Drop)]
pub struct EdgeRows {
    size: u64,
    rows: Vec<Vec<Hash>>,
}

impl Model for EdgeRows {
    ghost use Rattle.std.specs.Prelude.{map};
    ghost use Rattle.log_reader.specs.EdgeRows.{Edge};

    ghost Value = { Edge };

    ghost view = { λ a. record { size = a.size; rows = map (λ row. row.items) a.rows.items } };
}

impl EdgeRows {
    /// The edge of a tree of that size with these rows, the lowest level first. The rows are not checked.
    ///
    /// ```text
    /// EdgeRows::new(1, rows)   // for one entry: one row of one leaf hash
    /// ```
    pub fn new(size: u64, rows: Vec<Vec<Hash>>) -> EdgeRows
        ensures size { result.size ≡ size }
        ensures rows { result.rows ≡ map (λ row. row.items) rows.items }
    {
        EdgeRows { size, rows }
    }

    /// The number of entries of the tree.
    pub fn size(&self) -> u64
        ensures { result ≡ self.now.size }
    {
        self.size
    }

    /// The row of a level, empty if the level has none.
    pub fn row(&self, level: u32) -> &[Hash]
        ensures { result.now ≡ row_at self.now level }
    {
        match self.rows.get(level as usize) {
            Some(row) => row.as_slice(),
            None => &[],
        }
    }
}
