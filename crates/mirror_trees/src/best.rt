//! The kept note that is served.
ghost use Rattle.std.specs.Prelude.{◌↔◌, IsTrue, IfOk, IfSome, IfNone};
ghost use Rattle.mirror_trees.specs.HeldTrees.{AreKnown};
ghost use Rattle.mirror_trees.specs.Best.{AreLeavesOf, HasKept, IsAhead, IsBestOf, IsFirstWith};

use crate::held_note::HeldNote;
use crate::leaves::{Leaves, leaves_of};
use crate::{HeldTrees, is_built};
use node_store::Store;
use std::alloc::{AllocError, Global};
use std::cmp::Ordering;
use tlog_hash::{Hash, TreeHash};

/// Finds the size and root that are served, among the kept notes whose trees are held: the greatest size, then the least
/// root. `None` exactly if no tree is held. It takes no memory.
///
/// Where notes rise by their bytes, from the back the larger sizes mostly come first, and few trees are walked.
///
/// ```text
/// best_of(&store, &known, &kept)   // Some((3, root))
/// ```
pub fn best_of<H: TreeHash>(
    store: &Store<H>,
    known: &HeldTrees,
    kept: &[HeldNote],
) -> Option<(u64, Hash)>
    requires { AreKnown H.digest store.now known.now }
    ensures { IsBestOf H.digest store.now kept.now result }
{
    let mut best = None;
    for at in (0..kept.len()).rev() {
        let one = &kept[at];
        if is_ahead(one.size, &one.root, &best) && is_built(store, known, one.size, &one.root) {
            best = Some((one.size, one.root));
        }
    }
    best
}

/// Finds the size and root that are served, like `best_of`, with the leaves of the tree. Each walk through a tree gathers
/// its leaves, and they are dropped if it is not held.
///
/// ```text
/// let (best, leaves) = best_leaves(alloc, &store, &known, &kept)?;
/// ```
///
/// # Errors
///
/// Memory was refused, as by `leaves_of`.
pub fn best_leaves<'a, H: TreeHash>(
    alloc: Global,
    store: &'a Store<H>,
    known: &HeldTrees,
    kept: &[HeldNote],
) -> Result<(Option<(u64, Hash)>, Option<Leaves<'a>>), AllocError>
    requires { AreKnown H.digest store.now known.now }
    ensures best { IfOk result (λ found. IsBestOf H.digest store.now kept.now found.0) }
    ensures leaves { IfOk result (λ found. AreLeavesOf H.digest store.now found.0 found.1) }
{
    let mut best = None;
    let mut leaves = None;
    for at in (0..kept.len()).rev() {
        let one = &kept[at];
        if is_ahead(one.size, &one.root, &best) {
            if let Some(found) = leaves_of(alloc, store, known, one.size, &one.root)? {
                best = Some((one.size, one.root));
                leaves = Some(found);
            }
        }
    }
    Ok((best, leaves))
}

// Whether a size and root are served before the best one so far.
fn is_ahead(size: u64, root: &Hash, best: &Option<(u64, Hash)>) -> bool
    ensures { IsTrue result ↔ IsAhead (record { size = size; root = root.now }) best.now }
{
    match best {
        None => true,
        Some(found) => found.0.cmp(&size).then(root.cmp(&found.1)) == Ordering::Less,
    }
}

/// The first kept note with that size and root. It takes no memory.
///
/// ```text
/// first_with(&kept, 3, &root)   // Some of a note
/// ```
pub fn first_with<'a>(kept: &'a [HeldNote], size: u64, root: &Hash) -> Option<&'a HeldNote>
    ensures some { IfSome result (λ one. IsFirstWith kept.now
        (record { size = size; root = root.now }) one.now) }
    ensures none { IfNone result (¬ HasKept kept.now (record { size = size; root = root.now })) }
{
    for one in kept {
        if one.size == size && one.root == *root {
            return Some(one);
        }
    }
    None
}
