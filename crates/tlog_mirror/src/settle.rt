//! The slices that a mirror remembers for complete tree heads.
ghost use Rattle.std.specs.Prelude.{◌≡◌, ◌↔◌, All, OnOk};
ghost use Rattle.node_store.specs.Strings.{NoClash};
ghost use Rattle.mirror_model.specs.Forks.{Point};
ghost use Rattle.mirror_model.specs.Marks.{IsMark};
ghost use Rattle.mirror_trees.specs.HeldTrees.{AreKnown, HasMark};
ghost use Rattle.mirror_trees.specs.Slices.{AreSettled};
ghost use Rattle.tlog_mirror.specs.Settled.{GainsAny, HasSlicesOf};

use crate::heads::points_of;
use crate::mirror::Mirror;
use mirror_trees::{HeldTrees, check_built};
use node_store::Store;
use std::alloc::{AllocError, Global};
use tlog_hash::{Hash, TreeHash};

impl<H: TreeHash> Mirror<H> {
    /// Remembers the complete tree heads, so that no later walk enters their trees. It remembers the size and the hash
    /// of each slice that the recursion of the tree hash (RFC 6962, section 2.1) meets on their entries, the complete
    /// lists included.
    ///
    /// It changes no answer, and keeps all that was remembered. It takes tree heads by rising size, so each one costs
    /// a walk through its new nodes. It walks equal subtrees once. It also notes the complete subtrees of tree heads
    /// that are not complete, so that no later walk enters those either.
    ///
    /// # Errors
    ///
    /// Memory was refused. It keeps all that was remembered before, and some slices of the complete tree heads may be
    /// remembered.
    pub fn settle(&mut self, alloc: Global) -> Result<(), AllocError>
        ensures view { self.new.view ≡ self.old.view }
        ensures done { OnOk result ((point : Point) → HasMark self.new.remembered point
            ↔ IsMark H.digest self.new.view point) }
        ensures within { (point : Point) → HasMark self.new.remembered point
            → IsMark H.digest self.new.view point }
        ensures kept { (point : Point) → HasMark self.old.remembered point
            → HasMark self.new.remembered point }
    {
        let heads = match points_of(alloc, self.kept.as_slice()) {
            Ok(heads) => heads,
            Err(fault) => return Err(fault),
        };
        settle_all(&self.strings, &mut self.known, heads.as_slice())
    }

    /// Notes for each tree head which of its subtrees are held, so that no later walk enters those again. It changes no
    /// answer, and remembers nothing.
    ///
    /// It is for a mirror that is queried once: it makes one walk and few notes, where `settle` makes two walks and
    /// remembers each slice. It takes tree heads by rising size, so each one costs a walk through its new nodes, and
    /// through few earlier entries.
    ///
    /// ```text
    /// mirror.note_heads(alloc)?;
    /// let heads = mirror.heads(alloc)?;
    /// ```
    ///
    /// # Errors
    ///
    /// Memory was refused. It keeps all that was noted before.
    pub fn note_heads(&mut self, alloc: Global) -> Result<(), AllocError>
        ensures view { self.new.view ≡ self.old.view }
        ensures remembered { self.new.remembered ≡ self.old.remembered }
    {
        let heads = match points_of(alloc, self.kept.as_slice()) {
            Ok(heads) => heads,
            Err(fault) => return Err(fault),
        };
        note_all(&self.strings, &mut self.known, heads.as_slice())
    }
}

// Notes the held subtrees of these trees.
fn note_all<H: TreeHash>(
    store: &Store<H>,
    known: &mut HeldTrees,
    heads: &[(u64, Hash)],
) -> Result<(), AllocError>
    requires { AreKnown H.digest store.now known.old }
    ensures known { AreKnown H.digest store.now known.new }
    ensures remembered { known.new.remembered ≡ known.old.remembered }
{
    for head in heads {
        let _ = check_built(store, known, head.0, &head.1)?;
    }
    Ok(())
}

// Remembers those of these trees that are held.
fn settle_all<H: TreeHash>(
    store: &Store<H>,
    known: &mut HeldTrees,
    heads: &[(u64, Hash)],
) -> Result<(), AllocError>
    requires clean { NoClash H.digest store.now }
    requires known { AreKnown H.digest store.now known.old }
    requires settled { AreSettled H.digest store.now known.old.remembered }
    ensures done { OnOk result (All (HasSlicesOf H.digest store.now known.new.remembered)
        heads.now) }
    ensures gains { GainsAny H.digest store.now heads.now known.old.remembered
        known.new.remembered }
    ensures known { AreKnown H.digest store.now known.new }
{
    for head in heads {
        mirror_trees::settle(store, known, head.0, &head.1)?;
    }
    Ok(())
}
