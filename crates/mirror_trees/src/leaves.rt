//! The leaf hashes and the entries of a held tree, found in one walk.
ghost use Rattle.std.specs.Prelude.{◌≡◌, ◌*◌, IsTrue, IfOk, IfSome, IfNone, false, length};
ghost use Rattle.tlog_hash.specs.Rows.{part};
ghost use Rattle.tlog_tiles.specs.Tiles.{IsTileWithin};
ghost use Rattle.mirror_model.specs.Complete.{IsBuilt};
ghost use Rattle.mirror_trees.specs.HeldTrees.{AreKnown};
ghost use Rattle.mirror_trees.specs.HeldLeaves.{AddsLeaves, HasLeaves};

use crate::rows::first_of;
use crate::{HeldTrees, is_built};
use node_store::Store;
use std::alloc::{AllocError, Global};
use tlog_hash::{Hash, TreeHash};
use tlog_shape::split;

/// The leaf hashes of a held tree, and its entries, which are borrowed from the store.
pub struct Leaves<'a> {
    /// The hash of each entry, in order.
    pub hashes: Vec<Hash>,
    /// The entries in order.
    pub entries: Vec<&'a [u8]>,
}

/// Written out, as that of `TopRanges`.
impl Drop for Leaves<'_> {
    fn drop(self) {
        let Leaves {
            hashes: _,
            entries: _,
        } = self;
    }
}

/// The leaves of the tree with that size and root. `None` exactly if the tree is not held.
///
/// It is one walk, with one look-up for each entry and each pair, also in known trees. It takes 48 bytes for each entry.
///
/// ```text
/// let root = add_entries(alloc, &mut store, &[b"a", b"b", b"c"])?;
/// leaves_of(alloc, &store, &HeldTrees::new(alloc), 3, &root)?  // Some of three hashes and three entries
/// ```
///
/// # Errors
///
/// Memory was refused. It is also refused to a held tree with more entries than the store has strings, as to 2^62
/// entries with few different nodes.
pub fn leaves_of<'a, H: TreeHash>(
    alloc: Global,
    store: &'a Store<H>,
    known: &HeldTrees,
    size: u64,
    root: &Hash,
) -> Result<Option<Leaves<'a>>, AllocError>
    requires { AreKnown H.digest store.now known.now }
    ensures some { IfOk result (λ o. IfSome o (λ leaves. HasLeaves H.digest store.now size root.now
        leaves)) }
    ensures none { IfOk result (λ o. IfNone o (¬ IsBuilt H.digest store.now size root.now)) }
{
    if size > store.len() as u64 {
        return if is_built(store, known, size, root) {
            Err(AllocError)
        } else {
            Ok(None)
        };
    }
    let mut leaves = Leaves {
        hashes: Vec::with_capacity(alloc, size as usize)?,
        entries: Vec::with_capacity(alloc, size as usize)?,
    };
    if push_leaves(store, size, root, &mut leaves)? {
        Ok(Some(leaves))
    } else {
        Ok(None)
    }
}

// Adds the leaves of a tree. False if the tree is not held; then some of them may have been added.
fn push_leaves<'a, H: TreeHash>(
    store: &'a Store<H>,
    size: u64,
    root: &Hash,
    leaves: &mut Leaves<'a>,
) -> Result<bool, AllocError>
    ensures held { IfOk result (λ held. IsTrue held → AddsLeaves H.digest store.now size root.now
        leaves.old leaves.new) }
    ensures lost { IfOk result (λ held. held ≡ false → ¬ IsBuilt H.digest store.now size root.now) }
{
    if size == 0 {
        return Ok(H::empty() == *root);
    }
    if size == 1 {
        let Some(entry) = store.entry_of(root) else {
            return Ok(false);
        };
        leaves.hashes.push(*root)?;
        leaves.entries.push(entry)?;
        return Ok(true);
    }
    let Some(pair) = store.pair_of(root) else {
        return Ok(false);
    };
    let left = pair.0;
    let right = pair.1;
    let k = split(size);
    if !push_leaves(store, k, &left, leaves)? {
        return Ok(false);
    }
    push_leaves(store, size - k, &right, leaves)
}

/// The items of a list that a tile of level 0 or a bundle has: `width` items from number `256 * index` on. `None` exactly
/// if the file is not within the list, as for a width outside 1 to 256. It takes no memory.
pub fn part_at<T>(list: &[T], index: u64, width: u32) -> Option<&[T]>
    ensures some { IfSome result (λ items. items.now ≡ part (256 * index) width list.now) }
    ensures within { IfSome result (λ items. IsTileWithin (length list.now) 0 index width) }
    ensures none { IfNone result (¬ IsTileWithin (length list.now) 0 index width) }
{
    let Some(first) = first_of(list.len() as u64, 0, index, width) else {
        return None;
    };
    let start = first as usize;
    Some(&list[start..start + width as usize])
}
