//! Merges of mirrors.
ghost use Rattle.std.specs.Prelude.{◌≡◌, ℕ, All, OnOk, OnErr, map, take};
ghost use Rattle.mirror_model.specs.Answered.{merge_answer_of};
ghost use Rattle.mirror_model.specs.Complete.{HasEdge};
ghost use Rattle.mirror_model.specs.Heads.{IsHead};
ghost use Rattle.mirror_model.specs.Steps.{Merges};
ghost use Rattle.tlog_mirror.specs.Adding.{with_notes};
ghost use Rattle.tlog_mirror.specs.Kept.{note_bytes};

use crate::mirror::Mirror;
use mirror_model::MergeFault;
use mirror_trees::HeldNote;
use node_store::AddFault;
use std::alloc::{AllocError, Global};
use tlog_hash::TreeHash;

impl<H: TreeHash> Mirror<H> {
    /// Adds all that another mirror of the log holds: its strings, and then its notes. The other mirror does not
    /// change.
    ///
    /// # Errors
    ///
    /// The first that applies: `OtherOrigin`, if the other mirror has another origin; `Collision`, if two different
    /// strings of the two mirrors have one digest. After these the mirror is unchanged. `OutOfMemory` if a growth was
    /// refused: part of the other mirror may have been added, and a new note only if all strings of the other are
    /// there. Merging again completes it.
    pub fn merge(&mut self, alloc: Global, other: &Mirror<H>) -> Result<(), MergeFault>
        ensures merges { Merges H.digest self.old.view other.now.view (merge_answer_of result)
            self.new.view }
        ensures remembered { self.new.remembered ≡ self.old.remembered }
    {
        if self.origin() != other.origin() {
            return Err(MergeFault::OtherOrigin);
        }
        match self.add_strings(&other.strings) {
            Ok(()) => {}
            Err(AddFault::Collision) => return Err(MergeFault::Collision),
            Err(AddFault::OutOfMemory) => return Err(MergeFault::OutOfMemory),
        }
        match self.keep_notes(alloc, other.kept.as_slice()) {
            Ok(()) => Ok(()),
            Err(AllocError) => Err(MergeFault::OutOfMemory),
        }
    }

    // Enters notes in order, each at its place.
    fn keep_notes(&mut self, alloc: Global, notes: &[HeldNote]) -> Result<(), AllocError>
        requires said { All (λ k. IsHead (note_bytes k) self.old.view.origin k.size k.root)
            notes.now }
        requires edges { All (λ k. HasEdge H.digest self.old.view (note_bytes k)) notes.now }
        ensures ok { OnOk result (self.new.view
            ≡ with_notes self.old.view (map note_bytes notes.now)) }
        ensures err { OnErr result
            ((count : ℕ) × (self.new.view
            ≡ with_notes self.old.view (map note_bytes (take count notes.now)))) }
        ensures remembered { self.new.remembered ≡ self.old.remembered }
    {
        for kept in notes {
            let copy = kept.copy(alloc)?;
            self.keep_note(copy)?;
        }
        Ok(())
    }
}
