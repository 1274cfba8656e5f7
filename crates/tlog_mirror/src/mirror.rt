//! A mirror of one log.
ghost use Rattle.std.specs.Prelude.{◌≡◌, IfOk, OnOk, option_copied};
ghost use Rattle.std.specs.FinSet as set;
ghost use Rattle.mirror_model.specs.Origin.{IsOrigin};
ghost use Rattle.mirror_model.specs.Marks.{IsSound};
ghost use Rattle.mirror_model.specs.View.{nothing};
ghost use Rattle.tlog_mirror.specs.NoteLists.{IsNoteAt};

use crate::fault::NewFault;
use crate::laid::Laid;
use mirror_model::is_origin;
use mirror_trees::{HeldNote, HeldTrees};
use node_store::Store;
use std::alloc::Global;
use std::marker::Model;
use tlog_hash::TreeHash;

/// The notes and strings that were gathered from one log.
///
/// Its view is an origin with a set of notes and a set of strings. Beside it there are the points that it remembers
/// for complete tree heads.
pub struct Mirror<H: TreeHash> {
    pub(crate) origin: String,
    pub(crate) kept: Vec<HeldNote>,
    pub(crate) strings: Store<H>,
    pub(crate) known: HeldTrees,
    // The served entries, laid out: the served note, and the files of its entries. Only `lay_out` makes it. Each call
    // that adds a string or a note discards it first. So it always matches the served checkpoint, and no change needs a
    // proof of that.
    pub(crate) laid: Option<Laid<H>>,
}

/// Written out, a drop is one call. A derived one stands in full wherever a value is dropped, and is checked there.
impl<H: TreeHash> Drop for Mirror<H> {
    fn drop(self) {
        let Mirror {
            origin: _,
            kept: _,
            strings: _,
            known: _,
            laid: _,
        } = self;
    }
}

impl<H: TreeHash> Model for Mirror<H> {
    ghost use Rattle.std.specs.Prelude.{string_bytes};
    ghost use Rattle.mirror_model.specs.Marks.{State, state_code};
    ghost use Rattle.mirror_trees.specs.HeldTrees.{AreBuilt};
    ghost use Rattle.tlog_mirror.specs.Kept.{state_of, IsKeptWell};
    ghost use Rattle.tlog_mirror.specs.LaidOut.{IsLaidOut};

    ghost Value = { State };

    ghost coded = { state_code };

    ghost view = { λ a. state_of (string_bytes a.origin) a.kept.items a.strings a.known.remembered };

    ghost invariant = { λ a. IsKeptWell H.digest (string_bytes a.origin) a.kept.items a.strings a.known.remembered × (AreBuilt H.digest a.strings a.known.built × IsLaidOut H.digest (state_of (string_bytes a.origin) a.kept.items a.strings a.known.remembered).view a.laid) };
}

impl<H: TreeHash> Mirror<H> {
    /// A mirror of the log with that origin, without notes and strings.
    ///
    /// # Errors
    ///
    /// `BadOrigin` exactly if the origin is empty, has more than 65,535 bytes, or has a character below U+0020.
    /// `OutOfMemory` if memory was refused.
    pub fn new(alloc: Global, origin: &str) -> Result<Mirror<H>, NewFault>
        ensures view { IfOk result (λ mirror. mirror.view ≡ nothing origin.now) }
        ensures remembered { IfOk result (λ mirror. mirror.remembered ≡ set.empty) }
        ensures lawful { OnOk result (IsOrigin origin.now) }
        ensures bad_origin { result ≡ Err NewFault.BadOrigin → ¬ IsOrigin origin.now }
    {
        if !is_origin(origin) {
            return Err(NewFault::BadOrigin);
        }
        let Ok(origin) = String::from_str(alloc, origin) else {
            return Err(NewFault::OutOfMemory);
        };
        Ok(Mirror {
            origin,
            kept: Vec::new(alloc),
            strings: Store::new(alloc),
            known: HeldTrees::new(alloc),
            laid: None,
        })
    }

    /// The log's origin. It takes no memory.
    pub fn origin(&self) -> &str
        ensures { result.now ≡ self.now.view.origin }
    {
        &self.origin
    }

    /// The number of points (a size with a hash) that are remembered for complete tree heads. It takes no memory.
    pub fn remembered(&self) -> usize
        ensures { result ≡ set.len self.now.remembered }
    {
        self.known.remembered.len()
    }

    /// The bytes of the held note with that number; the notes rise by their bytes, from number 0 on. `None` past the
    /// last. It takes no memory.
    ///
    /// ```
    /// while let Some(note) = mirror.note_at(i) {
    ///     i += 1;
    /// }
    /// ```
    pub fn note_at(&self, i: usize) -> Option<&[u8]>
        ensures { IsNoteAt self.now.view i (option_copied result) }
    {
        match self.kept.get(i) {
            Some(kept) => Some(kept.note.bytes()),
            None => None,
        }
    }

    /// The strings that are held. It takes no memory. The state is sound after every call.
    pub fn strings(&self) -> &Store<H>
        ensures strings { result.now ≡ self.now.view.strings }
        ensures sound { IsSound H.digest self.now }
    {
        &self.strings
    }
}
