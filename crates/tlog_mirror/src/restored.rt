//! Mirrors that are restored from kept strings and notes.
ghost use Rattle.std.specs.Prelude.{◌≡◌, ◌≤◌, ◌↔◌, ℕ, List, ◌∷◌, length, map, IfOk, IsTrue, OnOk};
ghost use Rattle.std.specs.FinSet as set;
ghost use Rattle.mirror_model.specs.Complete.{HoldsEdge};
ghost use Rattle.mirror_model.specs.Origin.{IsOrigin};
ghost use Rattle.node_store.specs.Strings.{Has};
ghost use Rattle.tlog_mirror.specs.Opened.{KeepsOpened, SaysHead};
ghost use Rattle.tlog_mirror.specs.Restored.{KeepsHeld, held_fault_of, strings_alone};

use crate::fault::{NewFault, RestoreFault};
use crate::mirror::Mirror;
use mirror_model::{HeadNote, TakeFault, is_origin};
use mirror_trees::{HeldNote, HeldTrees, holds_edge};
use node_store::Store;
use signed_note::Verifier;
use std::alloc::{AllocError, Global};
use tlog_hash::{Hash, TreeHash};

impl<H: TreeHash> Mirror<H> {
    /// A mirror of the log with that origin that holds these strings and no note. It moves the strings and copies none.
    ///
    /// ```text
    /// let mut mirror = Mirror::of_strings(alloc, "example.com/log", strings)?;
    /// mirror.keep_held_head(alloc, &keys, note)?;
    /// ```
    ///
    /// # Errors
    ///
    /// `BadOrigin` exactly if `new` gives it. `OutOfMemory` if memory was refused.
    pub fn of_strings(alloc: Global, origin: &str, strings: Store<H>) -> Result<Mirror<H>, NewFault>
        requires short { (entry : List ℕ) → Has strings (0 ∷ entry) → length entry ≤ 65535 }
        ensures view { IfOk result (λ mirror. mirror.view ≡ strings_alone origin.now strings) }
        ensures remembered { IfOk result (λ mirror. mirror.remembered ≡ set.empty) }
        ensures lawful { OnOk result (IsOrigin origin.now) }
        ensures bad_origin { result ≡ Err NewFault.BadOrigin → ¬ IsOrigin origin.now }
    {
        if !is_origin(origin) {
            return Err(NewFault::BadOrigin);
        }
        let Ok(origin) = String::from_str(alloc, origin) else {
            return Err(NewFault::OutOfMemory);
        };
        // The call is for its contract: what it says about the strings is true for each store.
        let _all = strings.iter();
        Ok(Mirror {
            origin,
            kept: Vec::new(alloc),
            strings,
            known: HeldTrees::new(alloc),
            laid: None,
        })
    }

    /// Keeps a checkpoint note whose right edge is held already: the mirror has the strings that its edge rows hash on
    /// the way to the root (C2SP tlog-tiles, "Merkle Tree"). It adds only the note.
    ///
    /// # Errors
    ///
    /// The first that applies: `BadHead`, if `open_head` refuses the note; `UnheldEdge`, if the right edge of its size
    /// and root is not held. `OutOfMemory` if memory was refused, before any of them or after. The mirror is then
    /// unchanged.
    pub fn keep_held_head(
        &mut self,
        alloc: Global,
        keys: &[Box<dyn Verifier>],
        note: &[u8],
    ) -> Result<(), RestoreFault>
        ensures keeps { KeepsHeld H.digest self.old.view (map (λ k. key k) keys.now) note.now result
            self.new.view }
        ensures remembered { self.new.remembered ≡ self.old.remembered }
    {
        let head = match self.open_head(alloc, keys, note) {
            Ok(head) => head,
            Err(fault) => return Err(held_fault(fault)),
        };
        match self.keep_opened_head(alloc, &head) {
            Ok(true) => Ok(()),
            Ok(false) => Err(RestoreFault::UnheldEdge),
            Err(AllocError) => Err(RestoreFault::OutOfMemory),
        }
    }

    /// Keeps a tree head that `open_head` gave, if its right edge is held already, without verifying the note again. It
    /// returns whether the edge is held. If not, or if memory was refused, the mirror is unchanged.
    ///
    /// ```text
    /// let head = mirror.open_head(alloc, &keys, note)?;
    /// mirror.keep_opened_head(alloc, &head)?   // true
    /// ```
    ///
    /// # Errors
    ///
    /// Memory was refused.
    pub fn keep_opened_head(&mut self, alloc: Global, head: &HeadNote) -> Result<bool, AllocError>
        requires { SaysHead self.old.view.origin head.now }
        ensures keeps { KeepsOpened H.digest self.old.view head.now.note.bytes result
            self.new.view }
        ensures remembered { self.new.remembered ≡ self.old.remembered }
    {
        let size = head.checkpoint.size;
        let root = head.checkpoint.root;
        if !self.has_edge(size, &root) {
            return Ok(false);
        }
        let note = match head.note.copy(alloc) {
            Ok(note) => note,
            Err(fault) => return Err(fault),
        };
        match self.keep_note(HeldNote { note, size, root }) {
            Ok(()) => Ok(true),
            Err(fault) => Err(fault),
        }
    }

    fn has_edge(&self, size: u64, root: &Hash) -> bool
        ensures { IsTrue result ↔ HoldsEdge H.digest self.now.view.strings size root.now }
    {
        holds_edge(&self.strings, size, root)
    }
}

// The fault of keeping a note, for a fault of reading it.
fn held_fault(fault: TakeFault) -> RestoreFault
    ensures { result ≡ held_fault_of fault }
{
    match fault {
        TakeFault::OutOfMemory => RestoreFault::OutOfMemory,
        _ => RestoreFault::BadHead,
    }
}
