//! The served entries, laid out in memory.
ghost use Rattle.std.specs.Prelude.{◌≡◌, length, IfOk, IfSome, IfNone};
ghost use Rattle.tlog_tiles.specs.Tiles.{IsTileWithin, tile_bytes, bundle_bytes};
ghost use Rattle.tlog_mirror.specs.LaidOut.{IsLaidOut};

use crate::mirror::Mirror;
use mirror_trees::{HeldNote, files_of};
use std::alloc::{AllocError, Global};
use tlog_hash::TreeHash;
use tlog_tiles::LogFiles;

/// The served note, and the files of its entries.
pub(crate) struct Laid<H: TreeHash> {
    pub(crate) note: HeldNote,
    pub(crate) files: LogFiles<H>,
}

// Written out, as that of `Mirror`.
impl<H: TreeHash> Drop for Laid<H> {
    fn drop(self) {
        let Laid { note: _, files: _ } = self;
    }
}

impl<H: TreeHash> Mirror<H> {
    /// Lays out the served entries, so that each tile and bundle is one piece of memory. This takes 43 bytes for each
    /// entry, and the entry's own bytes once more. It changes no answer.
    ///
    /// A take or a merge discards it, unless the call is refused before it would change the mirror. Nothing is laid out
    /// if nothing is served, or if it would take more bytes than the held strings, as for 2^62 entries with few
    /// different nodes.
    ///
    /// ```text
    /// mirror.settle(alloc)?;
    /// mirror.lay_out(alloc)?;
    /// mirror.tile(alloc, 0, 0, 256)?   // a copy of one piece
    /// ```
    ///
    /// # Errors
    ///
    /// Memory was refused. The served entries are then looked up among the strings, as before.
    pub fn lay_out(&mut self, alloc: Global) -> Result<(), AllocError>
        ensures view { self.new.view ≡ self.old.view }
        ensures remembered { self.new.remembered ≡ self.old.remembered }
    {
        if self.laid.is_none() {
            match self.laid_now(alloc) {
                Ok(laid) => self.laid = laid,
                Err(fault) => return Err(fault),
            }
        }
        Ok(())
    }

    // Whether something is served, and there is room to lay it out.
    fn has_room(&self, alloc: Global) -> Result<bool, AllocError> {
        match self.top_ranges() {
            Some(top) => top.has_room(alloc),
            None => Ok(false),
        }
    }

    // Lays out the served entries anew. `None` if nothing is served, or there is no room for it.
    fn laid_now(&self, alloc: Global) -> Result<Option<Laid<H>>, AllocError>
        ensures { IfOk result (λ laid. IsLaidOut H.digest self.now.view laid) }
    {
        if !self.has_room(alloc)? {
            return Ok(None);
        }
        let Some(served) = self.served_note() else {
            return Ok(None);
        };
        let Some(files) = files_of(alloc, &self.strings, served.size, &served.root)? else {
            return Ok(None);
        };
        let note = served.copy(alloc)?;
        Ok(Some(Laid { note, files }))
    }
}

// The bytes of a tile of the files.
pub(crate) fn laid_tile<H: TreeHash>(
    alloc: Global,
    files: &LogFiles<H>,
    level: u32,
    index: u64,
    width: u32,
) -> Result<Option<Vec<u8>>, AllocError>
    ensures some { IfOk result (λ o. IfSome o (λ bytes. bytes.items ≡ tile_bytes H.digest files.now
        level index width)) }
    ensures within { IfOk result (λ o. IfSome o (λ bytes. IsTileWithin (length files.now) level
        index width)) }
    ensures none { IfOk result (λ o. IfNone o (¬ IsTileWithin (length files.now) level index
        width)) }
{
    let Some(piece) = files.tile(level, index, width) else {
        return Ok(None);
    };
    match Vec::from_slice(alloc, piece) {
        Ok(bytes) => Ok(Some(bytes)),
        Err(fault) => Err(fault),
    }
}

// The bytes of a bundle of the files.
pub(crate) fn laid_bundle<H: TreeHash>(
    alloc: Global,
    files: &LogFiles<H>,
    index: u64,
    width: u32,
) -> Result<Option<Vec<u8>>, AllocError>
    ensures some { IfOk result (λ o. IfSome o (λ bytes. bytes.items ≡ bundle_bytes files.now index
        width)) }
    ensures within { IfOk result (λ o. IfSome o (λ bytes. IsTileWithin (length files.now) 0 index
        width)) }
    ensures none { IfOk result (λ o. IfNone o (¬ IsTileWithin (length files.now) 0 index width)) }
{
    let Some(piece) = files.bundle(index, width) else {
        return Ok(None);
    };
    match Vec::from_slice(alloc, piece) {
        Ok(bytes) => Ok(Some(bytes)),
        Err(fault) => Err(fault),
    }
}
