//! The served checkpoint and its entries, found once.
ghost use Rattle.std.specs.Prelude.{◌≡◌, ℕ, List, IfOk, IfSome, IfNone};
ghost use Rattle.tlog_tiles.specs.Tiles.{IsTileWithin, tile_bytes, bundle_bytes};
ghost use Rattle.mirror_trees.specs.HeldLeaves.{HasLeaves};
ghost use Rattle.mirror_trees.specs.Tops.{IsListOf, IsWhole};

use crate::bundle::entries_at;
use crate::leaves::{Leaves, part_at};
use crate::ranges::range_hash;
use crate::room::{is_within, room_of};
use crate::rows::row_at;
use node_store::Store;
use signed_note::Note;
use std::alloc::{AllocError, Global};
use std::marker::Model;
use tlog_hash::{Hash, TreeHash};
use tlog_proof::Ranges;
use tlog_tiles::{write_bundle, write_row};

/// The checkpoint that a mirror serves, with the tree hashes, tiles and bundles of its entries.
///
/// It has one list of entries, that of the served checkpoint. A proof that the first entry is among the served
/// entries:
///
/// ```
/// let Some(top) = mirror.top_ranges() else { return Ok(()) };
/// let size = top.size();
/// let proof = prove(alloc, &top, Ask::Inclusion { size, index: 0 })?;
/// ```
pub struct TopRanges<'a, H: TreeHash> {
    note: &'a Note,
    size: u64,
    root: Hash,
    strings: &'a Store<H>,
    // The leaves of the entries, if the walk that found them gathered these.
    leaves: Option<Leaves<'a>>,
}

/// Written out, a drop is one call. A derived one stands in full wherever a value is dropped, and is checked there.
impl<'a, H: TreeHash> Drop for TopRanges<'a, H> {
    fn drop(self) {
        let TopRanges {
            note: _,
            size: _,
            root: _,
            strings: _,
            leaves: _,
        } = self;
    }
}

impl<'a, H: TreeHash> Model for TopRanges<'a, H> {
    ghost use Rattle.std.specs.Prelude.{IfSome};
    ghost use Rattle.mirror_trees.specs.HeldLeaves.{HasLeaves};
    ghost use Rattle.mirror_trees.specs.Tops.{Top, top_code, IsWhole};

    ghost Value = { Top };

    ghost coded = { top_code };

    ghost view = { λ a. record { note = a.note.now.bytes; size = a.size; root = a.root; strings = a.strings.now } };

    ghost invariant = { λ a. IsWhole H.digest (record { note = a.note.now.bytes; size = a.size; root = a.root; strings = a.strings.now }) × IfSome a.leaves (HasLeaves H.digest a.strings.now a.size a.root) };
}

impl<'a, H: TreeHash> TopRanges<'a, H> {
    /// The top of a note with its size and root, over strings that hold its tree, with the leaves of the tree if they
    /// were gathered. Entries have at most 65,535 bytes.
    ///
    /// ```text
    /// TopRanges::new(&note, 3, root, &strings, None)
    /// ```
    pub fn new(
        note: &'a Note,
        size: u64,
        root: Hash,
        strings: &'a Store<H>,
        leaves: Option<Leaves<'a>>,
    ) -> TopRanges<'a, H>
        requires whole { IsWhole H.digest
            (record { note = note.now.bytes; size = size; root = root; strings = strings.now }) }
        requires leaves { IfSome leaves (HasLeaves H.digest strings.now size root) }
        ensures { result ≡ record {
          note = note.entry.now.bytes;
          size = size;
          root = root;
          strings = strings.entry.now;
        } }
    {
        TopRanges {
            note,
            size,
            root,
            strings,
            leaves,
        }
    }

    /// The served checkpoint's note. It takes no memory.
    pub fn note(&self) -> &Note
        ensures { result.now.bytes ≡ self.now.note }
    {
        self.note
    }

    /// Whether the entries take at most as many bytes, laid out, as all strings that are held. This is always so if all
    /// entries are different. But a log can sign a tree head of 2^62 entries with few different nodes.
    ///
    /// ```text
    /// if top.has_room(alloc)? {
    ///     files_of(alloc, &strings, top.size(), &root)?
    /// }
    /// ```
    ///
    /// # Errors
    ///
    /// Memory was refused.
    pub fn has_room(&self, alloc: Global) -> Result<bool, AllocError> {
        is_within(alloc, self, room_of(self.strings))
    }

    /// The bytes of a tile of the served entries (C2SP tlog-tiles, "Merkle Tree"): `width` hashes of that level from
    /// number `256 * index` on. `None` exactly if the tile is not within the entries, as for a level over 7 or a width
    /// outside 1 to 256.
    ///
    /// # Errors
    ///
    /// Memory was refused.
    pub fn tile(
        &self,
        alloc: Global,
        level: u32,
        index: u64,
        width: u32,
    ) -> Result<Option<Vec<u8>>, AllocError>
        ensures some { IfOk result
            (λ o. IfSome o (λ bytes. (entries : List (List ℕ)) → IsListOf H.digest self.now entries
            → bytes.items ≡ tile_bytes H.digest entries level index width)) }
        ensures within { IfOk result
            (λ o. IfSome o (λ bytes. IsTileWithin self.now.size level index width)) }
        ensures none { IfOk result
            (λ o. IfNone o (¬ IsTileWithin self.now.size level index width)) }
    {
        if level == 0 {
            if let Some(leaves) = &self.leaves {
                let Some(row) = part_at(leaves.hashes.as_slice(), index, width) else {
                    return Ok(None);
                };
                return Ok(Some(write_row(alloc, row)?));
            }
        }
        let Some(row) = row_at(
            alloc,
            self.strings,
            self.size,
            &self.root,
            level,
            index,
            width,
        )?
        else {
            return Ok(None);
        };
        Ok(Some(write_row(alloc, row.as_slice())?))
    }

    /// The bytes of a bundle of the served entries (C2SP tlog-tiles, "Log Entries"): `width` entries from number
    /// `256 * index` on. `None` exactly if the bundle is not within the entries, as for a width outside 1 to 256.
    ///
    /// # Errors
    ///
    /// Memory was refused.
    pub fn bundle(
        &self,
        alloc: Global,
        index: u64,
        width: u32,
    ) -> Result<Option<Vec<u8>>, AllocError>
        ensures some { IfOk result
            (λ o. IfSome o (λ bytes. (entries : List (List ℕ)) → IsListOf H.digest self.now entries
            → bytes.items ≡ bundle_bytes entries index width)) }
        ensures within { IfOk result
            (λ o. IfSome o (λ bytes. IsTileWithin self.now.size 0 index width)) }
        ensures none { IfOk result (λ o. IfNone o (¬ IsTileWithin self.now.size 0 index width)) }
    {
        if let Some(leaves) = &self.leaves {
            let Some(entries) = part_at(leaves.entries.as_slice(), index, width) else {
                return Ok(None);
            };
            return Ok(Some(write_bundle(alloc, entries)?));
        }
        let Some(entries) = entries_at(alloc, self.strings, self.size, &self.root, index, width)?
        else {
            return Ok(None);
        };
        Ok(Some(write_bundle(alloc, entries.as_slice())?))
    }
}

impl<'a, H: TreeHash> Ranges for TopRanges<'a, H> {
    ghost lists = { λ top entries. IsListOf H.digest top entries };

    ghost digest = { H.digest };

    /// The number of served entries. It takes no memory.
    fn size(&self) -> u64 {
        self.size
    }

    /// The tree hash of `len` of the served entries from `start` on, found in one descent. It takes no memory.
    fn hash(&self, start: u64, len: u64) -> Option<Hash> {
        range_hash(self.strings, self.size, &self.root, start, len)
    }
}
