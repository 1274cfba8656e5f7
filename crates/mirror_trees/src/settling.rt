//! Remembers held trees.
ghost use Rattle.std.specs.Prelude.{◌⊎◌, OnOk};
ghost use Rattle.node_store.specs.Strings.{NoClash};
ghost use Rattle.mirror_model.specs.Complete.{IsBuilt};
ghost use Rattle.mirror_model.specs.Forks.{Point};
ghost use Rattle.mirror_trees.specs.HeldTrees.{AreKnown, HasMark};
ghost use Rattle.mirror_trees.specs.Slices.{AreSettled, Gains, HasSlices, IsSliceOf};

use crate::built::check_built;
use crate::known::HeldTrees;
use crate::marks::Marks;
use node_store::Store;
use std::alloc::AllocError;
use tlog_hash::{Hash, TreeHash};
use tlog_shape::split;

/// Remembers the tree with that size and root, if it is held: the size and hash of each of its slices, including the
/// complete tree.
///
/// It enters no known tree, and for each size and hash it enters only one tree. The trees may be remembered in any
/// order. By rising size, each costs a walk through its new nodes.
///
/// # Errors
///
/// `AllocError` only if a growth was refused. It keeps all that was remembered before, and some complete slices of the
/// tree may be remembered.
pub fn settle<H: TreeHash>(
    store: &Store<H>,
    known: &mut HeldTrees,
    size: u64,
    root: &Hash,
) -> Result<(), AllocError>
    requires clean { NoClash H.digest store.now }
    requires known { AreKnown H.digest store.now known.old }
    requires settled { AreSettled H.digest store.now known.old.remembered }
    ensures done { OnOk result (HasSlices H.digest store.now known.new.remembered size root.now) }
    ensures at_least { (point : Point) → HasMark known.old.remembered point
        → HasMark known.new.remembered point }
    ensures at_most { (point : Point) → HasMark known.new.remembered point
        → HasMark known.old.remembered point ⊎ IsSliceOf H.digest store.now size root.now point }
    ensures settled { AreSettled H.digest store.now known.new.remembered }
    ensures known { AreKnown H.digest store.now known.new }
{
    if !check_built(store, known, size, root)? {
        return Ok(());
    }
    remember(store, &mut known.remembered, size, root)
}

// Remembers the slices of a held tree. It adds a size and hash after those of both parts. So at each moment all slices
// of a remembered tree are remembered.
fn remember<H: TreeHash>(
    store: &Store<H>,
    marks: &mut Marks,
    size: u64,
    root: &Hash,
) -> Result<(), AllocError>
    requires clean { NoClash H.digest store.now }
    requires built { IsBuilt H.digest store.now size root.now }
    requires settled { AreSettled H.digest store.now marks.old }
    ensures done { OnOk result (HasSlices H.digest store.now marks.new size root.now) }
    ensures gains { Gains H.digest store.now size root.now marks.old marks.new }
{
    if size == 0 {
        return Ok(());
    }
    if marks.contains(size, root) {
        return Ok(());
    }
    if size == 1 {
        return marks.add(size, root);
    }
    let Some(pair) = store.pair_of(root) else {
        unreachable!()
    };
    let left = pair.0;
    let right = pair.1;
    let k = split(size);
    remember(store, marks, k, &left)?;
    remember(store, marks, size - k, &right)?;
    marks.add(size, root)
}
