//! Takes of tree heads.
ghost use Rattle.std.specs.Prelude.{◌≡◌, ◌≤◌, ℕ, List, ◌∷◌, length, map, IfOk, OnOk, OnErr};
ghost use Rattle.mirror_model.specs.Answered.{answer_of};
ghost use Rattle.mirror_model.specs.Complete.{HasEdge};
ghost use Rattle.mirror_model.specs.Heads.{IsHead};
ghost use Rattle.mirror_model.specs.Refusals.{JudgesHead, ReadsHead};
ghost use Rattle.mirror_model.specs.Steps.{Answers, Takes};
ghost use Rattle.mirror_model.specs.declared.items.Item.TheVariants.{Head};
ghost use Rattle.node_store.specs.Strings.{Has, NoClash};
ghost use Rattle.signed_note.specs.Keys.{Key};
ghost use Rattle.tlog_text.specs.Answers.{seen};
ghost use Rattle.tlog_mirror.specs.Adding.{added, with_note, with_strings};
ghost use Rattle.tlog_mirror.specs.Opened.{IsOpenUnder, WasOpened};

use crate::kept::find_note;
use crate::mirror::Mirror;
use crate::takes::take_answer;
use mirror_model::{HeadNote, TakeFault, open_head};
use mirror_trees::{HeldNote, take_edge};
use node_store::{AddFault, Store};
use signed_note::Verifier;
use std::alloc::{AllocError, Global};
use tlog_checkpoint::Checkpoint;
use tlog_hash::TreeHash;

impl<H: TreeHash> Mirror<H> {
    /// The note and the checkpoint of a tree head, if the note is valid (C2SP signed-note, tlog-checkpoint): a
    /// checkpoint of the mirror's origin that opens under the keys. This needs no edge rows, and changes nothing.
    /// `take_opened_rows` takes the result without verifying it again.
    ///
    /// ```text
    /// mirror.open_head(alloc, &keys, &note)?.checkpoint.size   // 257
    /// ```
    ///
    /// # Errors
    ///
    /// The first that applies: `Note`, if the bytes are no note; `Checkpoint`, if its text is no checkpoint;
    /// `OtherOrigin`; `NoTrustedSignature`, if no key accepts one of its lines. `OutOfMemory` if memory was refused,
    /// before any of them or after.
    pub fn open_head(
        &self,
        alloc: Global,
        keys: &[Box<dyn Verifier>],
        note: &[u8],
    ) -> Result<HeadNote, TakeFault>
        ensures reads { ReadsHead note.now self.now.view.origin (map (λ k. key k) keys.now)
            (seen (λ head. head.checkpoint) result) }
        ensures note { IfOk result (λ head. head.note.bytes ≡ note.now) }
    {
        open_head(alloc, self.origin(), keys, note)
    }

    /// The checkpoint of a note, as `open_head` gives it.
    ///
    /// # Errors
    ///
    /// Those of `open_head`.
    pub fn check_head(
        &self,
        alloc: Global,
        keys: &[Box<dyn Verifier>],
        note: &[u8],
    ) -> Result<Checkpoint, TakeFault>
        ensures { ReadsHead note.now self.now.view.origin (map (λ k. key k) keys.now) result }
    {
        match self.open_head(alloc, keys, note) {
            Ok(HeadNote { checkpoint, .. }) => Ok(checkpoint),
            Err(fault) => Err(fault),
        }
    }

    /// Takes a tree head: a checkpoint note, and the edge rows of its size, lowest level first (C2SP tlog-tiles,
    /// "Merkle Tree"). A note may have extension lines and lines of unknown keys.
    ///
    /// It adds the strings that the edge rows hash on the way to the root, and then the note.
    ///
    /// # Errors
    ///
    /// The first that applies, after which the mirror is unchanged:
    /// - those of `open_head`;
    /// - `EdgeCount`: the number of rows is not the number of partial tiles of the size;
    /// - `EdgeLength`: a row does not have 32 bytes for each hash of its tile;
    /// - `EdgeMismatch`: the rows do not lead to the root;
    /// - `Collision`: two different strings, held ones or the rows' own, have one digest.
    ///
    /// `OutOfMemory` if a growth was refused: some of the strings may have been added, and the note only if all of them
    /// were. Taking the tree head again completes it.
    pub fn take_head(
        &mut self,
        alloc: Global,
        keys: &[Box<dyn Verifier>],
        note: &[u8],
        edge: &[&[u8]],
    ) -> Result<(), TakeFault>
        ensures takes { Takes H.digest (map (λ k. key k) keys.now) self.old.view
            (Head note.now (map (λ row. row.now) edge.now)) (answer_of result) self.new.view }
        ensures judged { JudgesHead H.digest self.old.view.origin (map (λ k. key k) keys.now)
            note.now (map (λ row. row.now) edge.now) result }
        ensures remembered { self.new.remembered ≡ self.old.remembered }
    {
        let head = match self.open_head(alloc, keys, note) {
            Ok(head) => head,
            Err(fault) => return Err(fault),
        };
        self.take_opened(alloc, head, edge)
    }

    // Takes a tree head whose note was opened, without verifying it again.
    pub(crate) fn take_opened(
        &mut self,
        alloc: Global,
        head: HeadNote,
        edge: &[&[u8]],
    ) -> Result<(), TakeFault>
        requires { WasOpened self.old.view.origin head }
        ensures takes { (keys : List Key) → IsOpenUnder self.old.view.origin keys head
            → Takes H.digest keys self.old.view (Head head.note.bytes (map (λ row. row.now) edge.now))
            (answer_of result) self.new.view }
        ensures judged { (keys : List Key) → IsOpenUnder self.old.view.origin keys head
            → JudgesHead H.digest self.old.view.origin keys head.note.bytes
            (map (λ row. row.now) edge.now) result }
        ensures remembered { self.new.remembered ≡ self.old.remembered }
    {
        let HeadNote { note, checkpoint } = head;
        let size = checkpoint.size;
        let root = checkpoint.root;
        let mut strings = Store::new(alloc);
        match take_edge::<H>(alloc, &mut strings, size, &root, edge) {
            Ok(()) => {}
            Err(fault) => return Err(fault),
        }
        take_answer(self.keep_head(HeldNote { note, size, root }, &strings))
    }

    // Adds the strings of a tree head, and then its note.
    fn keep_head(&mut self, kept: HeldNote, strings: &Store<H>) -> Result<(), AddFault>
        requires no_clash { NoClash H.digest strings.now }
        requires short { (entry : List ℕ) → Has strings.now (0 ∷ entry) → length entry ≤ 65535 }
        requires said { IsHead kept.note.bytes self.old.view.origin kept.size kept.root }
        requires edge { HasEdge H.digest (with_strings self.old.view strings.now) kept.note.bytes }
        ensures adds { Answers H.digest self.old.view (Unit {0})
            (with_note (with_strings self.old.view strings.now) kept.note.bytes) (added result)
            self.new.view }
        ensures remembered { self.new.remembered ≡ self.old.remembered }
    {
        match self.add_strings(strings) {
            Ok(()) => {}
            Err(fault) => return Err(fault),
        }
        match self.keep_note(kept) {
            Ok(()) => Ok(()),
            Err(AllocError) => Err(AddFault::OutOfMemory),
        }
    }

    // Enters a note at its place, if it is not kept yet.
    pub(crate) fn keep_note(&mut self, kept: HeldNote) -> Result<(), AllocError>
        requires said { IsHead kept.note.bytes self.old.view.origin kept.size kept.root }
        requires edge { HasEdge H.digest self.old.view kept.note.bytes }
        ensures ok { OnOk result (self.new.view ≡ with_note self.old.view kept.note.bytes) }
        ensures err { OnErr result (self.new.view ≡ self.old.view) }
        ensures remembered { self.new.remembered ≡ self.old.remembered }
    {
        match find_note(self.kept.as_slice(), kept.note.bytes()) {
            Ok(_) => Ok(()),
            Err(at) => {
                self.laid = None;
                self.kept.insert(at, kept)?;
                Ok(())
            }
        }
    }
}
