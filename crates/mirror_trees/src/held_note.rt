//! A note with the size and root of its text.
ghost use Rattle.std.specs.Prelude.{◌≡◌, IfOk};

use signed_note::Note;
use std::alloc::{AllocError, Global};
use tlog_hash::Hash;

/// A note, with the size and the root of its text.
pub struct HeldNote {
    /// The note.
    pub note: Note,
    /// The number of entries of the tree that it states.
    pub size: u64,
    /// The tree hash of these entries.
    pub root: Hash,
}

/// Written out, as that of `TopRanges`.
impl Drop for HeldNote {
    fn drop(self) {
        let HeldNote {
            note: _,
            size: _,
            root: _,
        } = self;
    }
}

impl HeldNote {
    /// The same note, size and root.
    ///
    /// ```text
    /// let copy = kept.copy(alloc)?;
    /// ```
    ///
    /// # Errors
    ///
    /// Memory was refused.
    pub fn copy(&self, alloc: Global) -> Result<HeldNote, AllocError>
        ensures { IfOk result (λ kept. kept ≡ self.now) }
    {
        let note = self.note.copy(alloc)?;
        Ok(HeldNote {
            note,
            size: self.size,
            root: self.root,
        })
    }
}
