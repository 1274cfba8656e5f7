//! The hashes of a tile, and the entries of a bundle.
ghost use Rattle.std.specs.Prelude.{◌≡◌, ◌*◌, ◌+◌, ◌++◌, ◌^◌, ◌≤◌, ℕ, List, map, IsTrue, IfOk, IfSome, IfNone};
ghost use Rattle.tlog_hash.specs.Tree.{mth};
ghost use Rattle.tlog_hash.specs.Rows.{level_row, ranges};
ghost use Rattle.tlog_shape.specs.Split.{IsPowerOfTwo};
ghost use Rattle.tlog_tiles.specs.Tiles.{IsTileWithin};
ghost use Rattle.mirror_model.specs.Complete.{IsTreeOf};

use crate::unit_of;
use node_store::Store;
use std::alloc::{AllocError, Global};
use tlog_hash::{Hash, TreeHash};
use tlog_shape::split;

/// The hashes of a tile (C2SP tlog-tiles, "Merkle Tree") of the tree with that size and root: `width` hashes, from
/// number `256 * index` of the level on. Each is over `256^level` entries. `None` if the tile is not within the tree,
/// as for a level above 7 or a width outside 1 to 256. If the tree is not held, the contract says nothing else about
/// the answer.
///
/// It goes down from the root to the nodes of the tile, and visits each of them once.
///
/// # Errors
///
/// `AllocError` only if a growth was refused.
pub fn row_at<H: TreeHash>(
    alloc: Global,
    store: &Store<H>,
    size: u64,
    root: &Hash,
    level: u32,
    index: u64,
    width: u32,
) -> Result<Option<Vec<Hash>>, AllocError>
    ensures within { IfOk result (λ o. IfSome o (λ row. IsTileWithin size level index width)) }
    ensures some { IfOk result (λ o. IfSome o (λ row. (entries : List (List ℕ))
        → IsTreeOf H.digest store.now size root.now entries → row.items
        ≡ level_row H.digest entries level (256 * index) width)) }
    ensures none { IfOk result (λ o. IfNone o ((entries : List (List ℕ))
        → IsTreeOf H.digest store.now size root.now entries → ¬ IsTileWithin size level index
        width)) }
{
    let Some(first) = first_of(size, level, index, width) else {
        return Ok(None);
    };
    let mut row = Vec::with_capacity(alloc, width as usize)?;
    if push_row(
        store,
        size,
        root,
        unit_of(level),
        first,
        u64::from(width),
        &mut row,
    )? {
        Ok(Some(row))
    } else {
        Ok(None)
    }
}

// The number of a tile's first hash in its level, if the tile is within a tree of that size.
pub(crate) fn first_of(size: u64, level: u32, index: u64, width: u32) -> Option<u64>
    ensures some { IfSome result (λ first. (first ≡ 256 * index) × IsTileWithin size level index
        width) }
    ensures none { IfNone result (¬ IsTileWithin size level index width) }
{
    if level > 7 || width == 0 || width > 256 {
        return None;
    }
    let count = size >> (8 * level);
    if index > count / 256 {
        return None;
    }
    let first = 256 * index;
    if u64::from(width) > count - first {
        return None;
    }
    Some(first)
}

// Adds the hashes of `count` nodes of `unit` entries each, from the one with that number on. True if this part of the
// tree is held.
pub(crate) fn push_row<H: TreeHash>(
    store: &Store<H>,
    size: u64,
    root: &Hash,
    unit: u64,
    first: u64,
    count: u64,
    row: &mut Vec<Hash>,
) -> Result<bool, AllocError>
    requires power { IsPowerOfTwo unit }
    requires some { 1 ≤ count }
    requires within { (first + count) * unit ≤ size }
    ensures { IfOk result (λ held. (entries : List (List ℕ)) → IsTreeOf H.digest store.now size
        root.now entries → IsTrue held
        × (row.new.items ≡ row.old.items ++ map (mth H.digest) (ranges unit first count entries))) }
{
    if size == unit {
        row.push(*root)?;
        return Ok(true);
    }
    let Some(pair) = store.pair_of(root) else {
        return Ok(false);
    };
    let left = pair.0;
    let right = pair.1;
    let k = split(size);
    let cut = k / unit;
    if first + count <= cut {
        return push_row(store, k, &left, unit, first, count, row);
    }
    if first >= cut {
        return push_row(store, size - k, &right, unit, first - cut, count, row);
    }
    if !push_row(store, k, &left, unit, first, cut - first, row)? {
        return Ok(false);
    }
    push_row(store, size - k, &right, unit, 0, first + count - cut, row)
}
