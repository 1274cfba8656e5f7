//! The files of a log.
ghost use Rattle.std.specs.Prelude.{◌≡◌, ◌<◌, ◌^◌, All, map, length, IfOk, IfSome, IfNone};
ghost use Rattle.tlog_hash.specs.Tree.{mth};
ghost use Rattle.tlog_tiles.specs.Tiles.{IsTileWithin, tile_bytes, bundle_bytes};
ghost use Rattle.tlog_tiles.specs.Layout.{AreFullRows};

use crate::bundles::bundles_of;
use crate::levels::levels_of;
use crate::pieces::{row_piece, text_piece};
use std::alloc::{AllocError, Global};
use std::marker::{Model, PhantomData};
use tlog_hash::{Hash, TreeHash};

/// The tiles and bundles of a log, and its tree hash, in memory.
///
/// Contracts see the list of entries, and not the layout. It takes 33 bytes for each entry and, beside the entry
/// itself, 10 bytes more.
///
/// ```text
/// let files: LogFiles<Sha256Tree> = LogFiles::new(alloc, &entries)?;  // three entries
/// files.tile(0, 0, 3)    // their leaf hashes
/// files.tile(0, 0, 4)    // None
/// ```
#[derive(Drop)]
pub struct LogFiles<H: TreeHash> {
    // The tree hash of the entries.
    root: Hash,
    // For each level from 0 to 7 the hashes of its full nodes, in order.
    rows: Vec<Vec<u8>>,
    // The entries in order, each after its two-byte length.
    text: Vec<u8>,
    // The end of each entry in the text.
    ends: Vec<usize>,
    by: PhantomData<H>,
}

impl<H: TreeHash> Model for LogFiles<H> {
    ghost use Rattle.std.specs.Prelude.{ℕ, List, map};
    ghost use Rattle.tlog_tiles.specs.Layout.{entries_in, IsLayout};

    ghost Value = { List (List ℕ) };

    ghost view = { λ a. entries_in 0 a.ends.items a.text.items };

    ghost invariant = { λ a. IsLayout H.digest (entries_in 0 a.ends.items a.text.items) a.root
        (map (λ row. row.items) a.rows.items) a.text.items a.ends.items };
}

impl<H: TreeHash> LogFiles<H> {
    /// The files of a log with those entries, each of at most 65,535 bytes. It hashes each entry once.
    ///
    /// # Errors
    ///
    /// Memory was refused.
    pub fn new(alloc: Global, entries: &[&[u8]]) -> Result<LogFiles<H>, AllocError>
        requires short { All (λ e. length e.now < 2 ^ 16) entries.now }
        ensures { IfOk result (λ files. files ≡ map (λ e. e.now) entries.now) }
    {
        let (root, rows) = levels_of::<H>(alloc, entries)?;
        LogFiles::from_rows(alloc, entries, root, rows)
    }

    /// The files of a log with those entries, each of at most 65,535 bytes, from its known tree hash and hashes. `rows`
    /// has the bytes of the hashes of each level from 0 to 7, for all its full nodes. It hashes nothing.
    ///
    /// # Errors
    ///
    /// Memory was refused.
    pub fn from_rows(
        alloc: Global,
        entries: &[&[u8]],
        root: Hash,
        rows: Vec<Vec<u8>>,
    ) -> Result<LogFiles<H>, AllocError>
        requires short { All (λ e. length e.now < 2 ^ 16) entries.now }
        requires root { root ≡ mth H.digest (map (λ e. e.now) entries.now) }
        requires rows { AreFullRows H.digest (map (λ e. e.now) entries.now) 8
            (map (λ row. row.items) rows.items) }
        ensures { IfOk result (λ files. files ≡ map (λ e. e.now) entries.now) }
    {
        let (text, ends) = bundles_of(alloc, entries)?;
        Ok(LogFiles {
            root,
            rows,
            text,
            ends,
            by: PhantomData,
        })
    }

    /// The number of entries. It takes no memory.
    pub fn size(&self) -> u64
        ensures { result ≡ length self.now }
    {
        self.ends.len() as u64
    }

    /// The tree hash of the entries, MTH of RFC 6962, section 2.1. It takes no memory, and hashes nothing.
    pub fn root(&self) -> Hash
        ensures { result ≡ mth H.digest self.now }
    {
        self.root
    }

    /// The bytes of a tile of the entries (C2SP tlog-tiles, "Merkle Tree"): `width` hashes of that level from number
    /// `256 * index` on. `None` exactly if the tile is not within the entries, as for a level over 7 or a width outside
    /// 1 to 256. It takes no memory.
    pub fn tile(&self, level: u32, index: u64, width: u32) -> Option<&[u8]>
        ensures some { IfSome result (λ bytes. bytes.now
            ≡ tile_bytes H.digest self.now level index width) }
        ensures within { IfSome result (λ bytes. IsTileWithin (length self.now) level index width) }
        ensures none { IfNone result (¬ IsTileWithin (length self.now) level index width) }
    {
        if level > 7 {
            return None;
        }
        row_piece(self.rows[level as usize].as_slice(), index, width)
    }

    /// The bytes of a bundle of the entries (C2SP tlog-tiles, "Log Entries"): `width` entries from number `256 * index`
    /// on. `None` exactly if the bundle is not within the entries, as for a width outside 1 to 256. It takes no memory.
    pub fn bundle(&self, index: u64, width: u32) -> Option<&[u8]>
        ensures some { IfSome result (λ bytes. bytes.now ≡ bundle_bytes self.now index width) }
        ensures within { IfSome result (λ bytes. IsTileWithin (length self.now) 0 index width) }
        ensures none { IfNone result (¬ IsTileWithin (length self.now) 0 index width) }
    {
        text_piece(self.text.as_slice(), self.ends.as_slice(), index, width)
    }
}
