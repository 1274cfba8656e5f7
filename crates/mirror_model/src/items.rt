//! Items that a mirror takes.

ghost use Rattle.std.specs.Prelude.{◌≡◌, map};
ghost use Rattle.std.specs.declared.vec.Vec.{Vec};

use std::marker::Model;

/// Bytes as they were received. Contracts see them as a list.
#[derive(Drop)]
pub struct Bytes {
    bytes: Vec<u8>,
}

impl Model for Bytes {
    ghost use Rattle.std.specs.Prelude.{ℕ, List};

    ghost Value = { List ℕ };

    ghost view = { λ b. b.bytes.items };
}

impl Bytes {
    /// The bytes of an item.
    pub fn new(bytes: Vec<u8>) -> Self
        ensures { result ≡ bytes.items }
    {
        Self { bytes }
    }

    /// The bytes, in order.
    pub fn as_slice(&self) -> &[u8]
        ensures { result.now ≡ self.now }
    {
        self.bytes.as_slice()
    }

    /// The bytes, without a copy.
    pub fn into_vec(self) -> Vec<u8>
        ensures { result.items ≡ self }
    {
        let Bytes { bytes } = self;
        bytes
    }
}

/// The bytes of rows of hashes. Contracts see them as a list.
#[derive(Drop)]
pub struct Rows {
    rows: Vec<Vec<u8>>,
}

impl Model for Rows {
    ghost use Rattle.std.specs.Prelude.{ℕ, List, map};

    ghost Value = { List (List ℕ) };

    ghost view = { λ r. map (λ row. row.items) r.rows.items };
}

impl Rows {
    /// The edge rows of a tree head.
    pub fn new(rows: Vec<Vec<u8>>) -> Self
        ensures { result ≡ map (λ row. row.items) rows.items }
    {
        Self { rows }
    }

    /// The rows, in order.
    pub fn as_slice(&self) -> &[Vec<u8>]
        ensures { map (λ row. row.items) result.now ≡ self.now }
    {
        self.rows.as_slice()
    }

    /// The rows, without a copy.
    pub fn into_vec(self) -> Vec<Vec<u8>>
        ensures { map (λ row. row.items) result.items ≡ self }
    {
        let Rows { rows } = self;
        rows
    }
}

/// An item that a mirror takes from a log, with its bytes as they were received (C2SP tlog-tiles, "Merkle Tree", "Log
/// Entries" and "Checkpoints").
///
/// A width is from 1 to 256. This is a tile of one hash:
///
/// ```
/// let item = Item::Tile { width: 1, bytes: Bytes::new(hash) };
/// ```
#[derive(Drop)]
pub enum Item {
    /// A signed note, and the rows of the right edge for the size of its checkpoint, lowest level first.
    Head { note: Bytes, edge: Rows },
    /// The row of a tile: `width` hashes of 32 bytes.
    Tile { width: u32, bytes: Bytes },
    /// A bundle of `width` entries; each entry follows its length of two bytes, big-endian.
    Bundle { width: u32, bytes: Bytes },
}
