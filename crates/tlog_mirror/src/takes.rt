//! Takes of tiles and bundles.
ghost use Rattle.std.specs.Prelude.{◌≡◌, ◌≤◌, ℕ, List, ◌∷◌, length, map};
ghost use Rattle.mirror_model.specs.Answered.{answer_of};
ghost use Rattle.mirror_model.specs.Refusals.{JudgesTile, JudgesBundle};
ghost use Rattle.mirror_model.specs.Steps.{Answers, Takes};
ghost use Rattle.mirror_model.specs.declared.items.Item.TheVariants.{Tile, Bundle};
ghost use Rattle.node_store.specs.Strings.{AllTagged, Has, NoClash};
ghost use Rattle.signed_note.specs.Keys.{Key};
ghost use Rattle.tlog_mirror.specs.Adding.{added, taken_of, tree_strings, with_strings};

use crate::mirror::Mirror;
use mirror_model::TakeFault;
use mirror_trees::{add_entries, add_row};
use node_store::{AddFault, Store};
use std::alloc::Global;
use tlog_hash::TreeHash;
use tlog_tiles::{BundleFault, RowFault, read_bundle, read_row};

impl<H: TreeHash> Mirror<H> {
    /// Takes a tile: the bytes of a row of `width` hashes (C2SP tlog-tiles, "Merkle Tree").
    ///
    /// It adds the tile's strings, even if no held tree head reaches them.
    ///
    /// # Errors
    ///
    /// The first that applies: `RowLength`, if there are not `32 * width` bytes; `Collision`, if two different strings,
    /// held ones or the tile's own, have one digest. After both the mirror is unchanged. `OutOfMemory` if a growth was
    /// refused: some of the strings may have been added, and taking the tile again completes it.
    pub fn take_tile(&mut self, alloc: Global, width: u32, bytes: &[u8]) -> Result<(), TakeFault>
        requires some { 1 ≤ width }
        requires most { width ≤ 256 }
        ensures takes { (keys : List Key) → Takes H.digest keys self.old.view (Tile width bytes.now)
            (answer_of result) self.new.view }
        ensures judged { JudgesTile width bytes.now result }
        ensures remembered { self.new.remembered ≡ self.old.remembered }
    {
        let row = match read_row(alloc, width, bytes) {
            Ok(row) => row,
            Err(RowFault::RowLength) => return Err(TakeFault::RowLength),
            Err(RowFault::OutOfMemory) => return Err(TakeFault::OutOfMemory),
        };
        let Ok(mut strings) = Store::with_capacity(alloc, row.len()) else {
            return Err(TakeFault::OutOfMemory);
        };
        match add_row::<H>(&mut strings, row.as_slice()) {
            Ok(_) => take_answer(self.add_strings(&strings)),
            Err(AddFault::Collision) => Err(TakeFault::Collision),
            Err(AddFault::OutOfMemory) => Err(TakeFault::OutOfMemory),
        }
    }

    /// Takes a bundle of `width` entries (C2SP tlog-tiles, "Log Entries").
    ///
    /// It adds the strings of its entries and of the nodes above them, for every width.
    ///
    /// # Errors
    ///
    /// The first that applies, after which the mirror is unchanged:
    /// - `BundleShort`: no prefix of the bytes is a bundle of that width;
    /// - `BundleLong`: a prefix is such a bundle, and more bytes follow it;
    /// - `Collision`: two different strings, held ones or the bundle's own, have one digest.
    ///
    /// `OutOfMemory` if a growth was refused: some of the strings may have been added, and taking the bundle again
    /// completes it.
    pub fn take_bundle(&mut self, alloc: Global, width: u32, bytes: &[u8]) -> Result<(), TakeFault>
        requires some { 1 ≤ width }
        requires most { width ≤ 256 }
        ensures takes { (keys : List Key) → Takes H.digest keys self.old.view
            (Bundle width bytes.now) (answer_of result) self.new.view }
        ensures judged { JudgesBundle width bytes.now result }
        ensures remembered { self.new.remembered ≡ self.old.remembered }
    {
        let entries = match read_bundle(alloc, width, bytes) {
            Ok(entries) => entries,
            Err(BundleFault::BundleShort) => return Err(TakeFault::BundleShort),
            Err(BundleFault::BundleLong) => return Err(TakeFault::BundleLong),
            Err(BundleFault::OutOfMemory) => return Err(TakeFault::OutOfMemory),
        };
        take_answer(self.add_tree(alloc, entries.as_slice()))
    }

    // Adds the strings of the tree of these entries, all or none.
    fn add_tree(&mut self, alloc: Global, entries: &[&[u8]]) -> Result<(), AddFault>
        requires tagged { AllTagged (tree_strings H.digest (map (λ e. e.now) entries.now)) }
        requires short { (entry : List ℕ)
            → Has (tree_strings H.digest (map (λ e. e.now) entries.now)) (0 ∷ entry)
            → length entry ≤ 65535 }
        ensures adds { Answers H.digest self.old.view (Unit {0}) (with_strings self.old.view
            (tree_strings H.digest (map (λ e. e.now) entries.now))) (added result) self.new.view }
        ensures remembered { self.new.remembered ≡ self.old.remembered }
    {
        self.laid = None;
        match add_entries(alloc, &mut self.strings, entries) {
            Ok(_) => Ok(()),
            Err(fault) => Err(fault),
        }
    }

    // Adds strings that do not collide and are not those of a long entry.
    pub(crate) fn add_strings(&mut self, strings: &Store<H>) -> Result<(), AddFault>
        requires no_clash { NoClash H.digest strings.now }
        requires short { (entry : List ℕ) → Has strings.now (0 ∷ entry) → length entry ≤ 65535 }
        ensures adds { Answers H.digest self.old.view (Unit {0})
            (with_strings self.old.view strings.now) (added result) self.new.view }
        ensures remembered { self.new.remembered ≡ self.old.remembered }
    {
        self.laid = None;
        match self.strings.add_all(strings) {
            Ok(()) => {}
            Err(AddFault::Collision) => return Err(AddFault::Collision),
            Err(AddFault::OutOfMemory) => return Err(AddFault::OutOfMemory),
        }
        Ok(())
    }
}

// The answer of adding an item's strings, as that of its take.
pub(crate) fn take_answer(answer: Result<(), AddFault>) -> Result<(), TakeFault>
    ensures { result ≡ taken_of answer }
{
    match answer {
        Ok(()) => Ok(()),
        Err(AddFault::Collision) => Err(TakeFault::Collision),
        Err(AddFault::OutOfMemory) => Err(TakeFault::OutOfMemory),
    }
}
