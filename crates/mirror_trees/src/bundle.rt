//! The entries of a bundle.
ghost use Rattle.std.specs.Prelude.{◌≡◌, ◌*◌, ℕ, List, map, IfOk, IfSome, IfNone};
ghost use Rattle.tlog_hash.specs.Rows.{part};
ghost use Rattle.tlog_tiles.specs.Tiles.{IsTileWithin};
ghost use Rattle.node_store.specs.Strings.{NoClash};
ghost use Rattle.mirror_model.specs.Complete.{IsTreeOf};
ghost use Rattle.mirror_trees.specs.Leaves.{AreLeaves};

use crate::rows::row_at;
use node_store::Store;
use std::alloc::{AllocError, Global};
use tlog_hash::{Hash, TreeHash};

/// The entries of a bundle (C2SP tlog-tiles, "Log Entries") of the tree with that size and root: `width` entries, from
/// number `256 * index` on. They are borrowed from the store. `None` if the bundle is not within the tree, as for a
/// width outside 1 to 256. If the tree is not held, the contract says nothing else about the answer.
///
/// # Errors
///
/// `AllocError` only if a growth was refused.
pub fn entries_at<'a, H: TreeHash>(
    alloc: Global,
    store: &'a Store<H>,
    size: u64,
    root: &Hash,
    index: u64,
    width: u32,
) -> Result<Option<Vec<&'a [u8]>>, AllocError>
    requires clean { NoClash H.digest store.now }
    ensures within { IfOk result (λ o. IfSome o (λ lent. IsTileWithin size 0 index width)) }
    ensures some { IfOk result (λ o. IfSome o (λ lent. (entries : List (List ℕ))
        → IsTreeOf H.digest store.now size root.now entries → map (λ e. e.now) lent.items
        ≡ part (256 * index) width entries)) }
    ensures none { IfOk result (λ o. IfNone o ((entries : List (List ℕ))
        → IsTreeOf H.digest store.now size root.now entries → ¬ IsTileWithin size 0 index width)) }
{
    let Some(row) = row_at(alloc, store, size, root, 0, index, width)? else {
        return Ok(None);
    };
    entries_of(alloc, store, row.as_slice())
}

// The entries of these leaf hashes.
pub(crate) fn entries_of<'a, H: TreeHash>(
    alloc: Global,
    store: &'a Store<H>,
    row: &[Hash],
) -> Result<Option<Vec<&'a [u8]>>, AllocError>
    ensures some { IfOk result (λ o. IfSome o (λ lent. AreLeaves H.digest store.now row.now
        (map (λ e. e.now) lent.items))) }
    ensures none { IfOk result (λ o. IfNone o ((entries : List (List ℕ))
        → ¬ AreLeaves H.digest store.now row.now entries)) }
{
    let mut lent = Vec::with_capacity(alloc, row.len())?;
    for hash in row {
        let Some(entry) = store.entry_of(hash) else {
            return Ok(None);
        };
        lent.push(entry)?;
    }
    Ok(Some(lent))
}
