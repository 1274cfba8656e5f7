//! The checkpoint and the files that a mirror serves.
ghost use Rattle.std.specs.Prelude.{ℕ, List, IfOk, IfSome, IfNone, None};
ghost use Rattle.mirror_model.specs.Served.{IsRangeHash, IsServedBundle, IsServedNote, IsServedTile, Replies};
ghost use Rattle.mirror_model.specs.Reports.{SaysServed};
ghost use Rattle.std.specs.Option.{option_map};
ghost use Rattle.mirror_trees.specs.Marked.{point_of};
ghost use Rattle.mirror_trees.specs.Tops.{IsServedAs, IsServedTop};

use crate::laid::{laid_bundle, laid_tile};
use crate::mirror::Mirror;
use mirror_trees::{HeldNote, TopRanges, best_leaves, best_of, first_with};
use signed_note::Note;
use std::alloc::{AllocError, Global};
use tlog_hash::{Hash, TreeHash};
use tlog_proof::Ranges;
use tlog_tiles::Path;

impl<H: TreeHash> Mirror<H> {
    /// The served checkpoint with its entries, found once. It is a complete checkpoint with the greatest size, then the
    /// least root, then the least bytes of the note. `None` exactly if no checkpoint is complete. It takes no memory.
    pub fn top_ranges(&self) -> Option<TopRanges<'_, H>>
        ensures some { IfSome result (λ top. IsServedTop H.digest self.now.view top) }
        ensures none { IfNone result (SaysServed H.digest self.now.view None) }
    {
        let Some(kept) = self.served_note() else {
            return None;
        };
        let root = kept.root;
        Some(TopRanges::new(&kept.note, kept.size, root, &self.strings, None))
    }

    /// The same as `top_ranges`, for a caller that wants all tiles and bundles. The walk that finds the entries gathers
    /// them with their leaf hashes, in 48 bytes for each. Then no tile of level 0 and no bundle takes a look-up.
    ///
    /// If memory is refused, it is `top_ranges`. So it is if that would take more than 48 bytes for each held string, as
    /// for 2^62 entries with few different nodes.
    pub fn top_leaves(&self, alloc: Global) -> Option<TopRanges<'_, H>>
        ensures some { IfSome result (λ top. IsServedTop H.digest self.now.view top) }
        ensures none { IfNone result (SaysServed H.digest self.now.view None) }
    {
        let kept = self.kept.as_slice();
        let Ok((best, leaves)) = best_leaves(alloc, &self.strings, &self.known, kept) else {
            return self.top_ranges();
        };
        let Some(point) = best else {
            return None;
        };
        let root = point.1;
        let Some(first) = first_with(kept, point.0, &root) else {
            return None;
        };
        Some(TopRanges::new(&first.note, point.0, root, &self.strings, leaves))
    }

    /// The note of the served checkpoint, as `top_ranges` finds it. It takes no memory.
    pub fn top(&self) -> Option<&Note>
        ensures some { IfSome result (λ note. IsServedNote H.digest self.now.view note.now.bytes) }
        ensures none { IfNone result (SaysServed H.digest self.now.view None) }
    {
        let Some(kept) = self.served_note() else {
            return None;
        };
        Some(&kept.note)
    }

    // The size and root that are served.
    pub(crate) fn served_point(&self) -> Option<(u64, Hash)>
        ensures { SaysServed H.digest self.now.view (option_map point_of result) }
    {
        let Some(kept) = self.served_note() else {
            return None;
        };
        let root = kept.root;
        Some((kept.size, root))
    }

    // The note that is served.
    pub(crate) fn served_note(&self) -> Option<&HeldNote>
        ensures some { IfSome result (λ kept. IsServedAs H.digest self.now.view kept.now.note.bytes
            kept.now.size kept.now.root) }
        ensures none { IfNone result (SaysServed H.digest self.now.view None) }
    {
        match &self.laid {
            Some(laid) => Some(&laid.note),
            None => self.found_note(),
        }
    }

    // The kept note that is served, searched among all.
    fn found_note(&self) -> Option<&HeldNote>
        ensures some { IfSome result (λ kept. IsServedAs H.digest self.now.view kept.now.note.bytes
            kept.now.size kept.now.root) }
        ensures none { IfNone result (SaysServed H.digest self.now.view None) }
    {
        let Some(best) = best_of(&self.strings, &self.known, self.kept.as_slice()) else {
            return None;
        };
        let root = best.1;
        first_with(self.kept.as_slice(), best.0, &root)
    }

    /// The tree hash of `len` of the served entries from `start` on (RFC 6962, section 2.1). For `len` 0 it is the hash
    /// of no bytes. `None` exactly if the range is not within the served entries, or nothing is served. It takes no
    /// memory.
    pub fn range_hash(&self, start: u64, len: u64) -> Option<Hash>
        ensures some { IfSome result (λ hash. IsRangeHash H.digest self.now.view start len hash) }
        ensures none { IfNone result ((hash : List ℕ) → ¬ IsRangeHash H.digest self.now.view start
            len hash) }
    {
        let Some(top) = self.top_ranges() else {
            return None;
        };
        top.hash(start, len)
    }

    /// The bytes of a tile of the served entries (C2SP tlog-tiles, "Merkle Tree"). `None` exactly if the tile is not
    /// within them, as for a level over 7 or a width outside 1 to 256, or nothing is served.
    ///
    /// # Errors
    ///
    /// Memory was refused.
    pub fn tile(
        &self,
        alloc: Global,
        level: u32,
        index: u64,
        width: u32,
    ) -> Result<Option<Vec<u8>>, AllocError>
        ensures some { IfOk result
            (λ o. IfSome o (λ bytes. IsServedTile H.digest self.now.view level index width
            bytes.items)) }
        ensures none { IfOk result
            (λ o. IfNone o ((bytes : List ℕ) → ¬ IsServedTile H.digest self.now.view level index
            width bytes)) }
    {
        match &self.laid {
            Some(laid) => laid_tile(alloc, &laid.files, level, index, width),
            None => self.found_tile(alloc, level, index, width),
        }
    }

    // The bytes of a tile, looked up among the strings.
    fn found_tile(
        &self,
        alloc: Global,
        level: u32,
        index: u64,
        width: u32,
    ) -> Result<Option<Vec<u8>>, AllocError>
        ensures some { IfOk result
            (λ o. IfSome o (λ bytes. IsServedTile H.digest self.now.view level index width
            bytes.items)) }
        ensures none { IfOk result
            (λ o. IfNone o ((bytes : List ℕ) → ¬ IsServedTile H.digest self.now.view level index
            width bytes)) }
    {
        let Some(top) = self.top_ranges() else {
            return Ok(None);
        };
        top.tile(alloc, level, index, width)
    }

    /// The bytes of a bundle of the served entries (C2SP tlog-tiles, "Log Entries"). `None` exactly if the bundle is
    /// not within them, as for a width outside 1 to 256, or nothing is served.
    ///
    /// # Errors
    ///
    /// Memory was refused.
    pub fn bundle(
        &self,
        alloc: Global,
        index: u64,
        width: u32,
    ) -> Result<Option<Vec<u8>>, AllocError>
        ensures some { IfOk result
            (λ o. IfSome o (λ bytes. IsServedBundle H.digest self.now.view index width
            bytes.items)) }
        ensures none { IfOk result
            (λ o. IfNone o ((bytes : List ℕ) → ¬ IsServedBundle H.digest self.now.view index width
            bytes)) }
    {
        match &self.laid {
            Some(laid) => laid_bundle(alloc, &laid.files, index, width),
            None => self.found_bundle(alloc, index, width),
        }
    }

    // The bytes of a bundle, looked up among the strings.
    fn found_bundle(
        &self,
        alloc: Global,
        index: u64,
        width: u32,
    ) -> Result<Option<Vec<u8>>, AllocError>
        ensures some { IfOk result
            (λ o. IfSome o (λ bytes. IsServedBundle H.digest self.now.view index width
            bytes.items)) }
        ensures none { IfOk result
            (λ o. IfNone o ((bytes : List ℕ) → ¬ IsServedBundle H.digest self.now.view index width
            bytes)) }
    {
        let Some(top) = self.top_ranges() else {
            return Ok(None);
        };
        top.bundle(alloc, index, width)
    }

    /// The bytes of a file of the log at its path: the served note, or a tile or a bundle of the served entries (C2SP
    /// tlog-tiles, "Parameters"). `None` exactly if nothing is served at that path.
    ///
    /// ```text
    /// mirror.file(alloc, &Path::Checkpoint)?   // the note
    /// ```
    ///
    /// # Errors
    ///
    /// Memory was refused.
    pub fn file(&self, alloc: Global, path: &Path) -> Result<Option<Vec<u8>>, AllocError>
        ensures some { IfOk result
            (λ o. IfSome o (λ bytes. Replies H.digest self.now.view path.now bytes.items)) }
        ensures none { IfOk result
            (λ o. IfNone o ((bytes : List ℕ) → ¬ Replies H.digest self.now.view path.now bytes)) }
    {
        match *path {
            Path::Checkpoint => {
                let Some(note) = self.top() else {
                    return Ok(None);
                };
                match Vec::from_slice(alloc, note.bytes()) {
                    Ok(bytes) => Ok(Some(bytes)),
                    Err(fault) => Err(fault),
                }
            }
            Path::Tile {
                level,
                index,
                width,
            } => self.tile(alloc, level, index, width),
            Path::Entries { index, width } => self.bundle(alloc, index, width),
        }
    }
}
