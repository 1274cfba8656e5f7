//! Whether a tree is held.
ghost use Rattle.std.specs.Prelude.{◌≡◌, ◌↔◌, IsTrue, IfOk};
ghost use Rattle.mirror_model.specs.Complete.{IsBuilt};
ghost use Rattle.mirror_trees.specs.HeldTrees.{AreKnown};

use crate::known::{HeldTrees, note_built};
use node_store::Store;
use std::alloc::AllocError;
use tlog_hash::{Hash, TreeHash};
use tlog_shape::split;

/// Whether the store holds all strings of the tree of a list with that size and root (RFC 6962, section 2.1), including
/// the strings of its entries.
///
/// It walks neither into known trees, all of which have to be held, nor into the second of two equal halves. It takes
/// no memory.
pub fn is_built<H: TreeHash>(store: &Store<H>, known: &HeldTrees, size: u64, root: &Hash) -> bool
    requires { AreKnown H.digest store.now known.now }
    ensures { IsTrue result ↔ IsBuilt H.digest store.now size root.now }
{
    if known.contains(size, root) {
        return true;
    }
    if size == 0 {
        return H::empty() == *root;
    }
    if size == 1 {
        return store.entry_of(root).is_some();
    }
    let Some(pair) = store.pair_of(root) else {
        return false;
    };
    let left = pair.0;
    let right = pair.1;
    let k = split(size);
    if !is_built(store, known, k, &left) {
        return false;
    }
    if size - k == k && left == right {
        return true;
    }
    is_built(store, known, size - k, &right)
}

/// Whether that tree is held, like `is_built`. It notes the trees that it finds held among the known ones, except small
/// trees, and no later walk enters those again. So its time grows with the number of different trees, and not with that
/// of entries.
///
/// # Errors
///
/// `AllocError` only if a growth was refused. It keeps all trees that were known before.
pub fn check_built<H: TreeHash>(
    store: &Store<H>,
    known: &mut HeldTrees,
    size: u64,
    root: &Hash,
) -> Result<bool, AllocError>
    requires { AreKnown H.digest store.now known.old }
    ensures built { IfOk result (λ built. IsTrue built ↔ IsBuilt H.digest store.now size root.now) }
    ensures known { AreKnown H.digest store.now known.new }
    ensures remembered { known.new.remembered ≡ known.old.remembered }
{
    if known.contains(size, root) {
        return Ok(true);
    }
    if size == 0 {
        return Ok(H::empty() == *root);
    }
    if size == 1 {
        return Ok(store.entry_of(root).is_some());
    }
    let Some(pair) = store.pair_of(root) else {
        return Ok(false);
    };
    let left = pair.0;
    let right = pair.1;
    let k = split(size);
    let first = check_built(store, known, k, &left)?;
    if !first {
        return Ok(false);
    }
    let second = check_built(store, known, size - k, &right)?;
    if !second {
        return Ok(false);
    }
    note_built(&mut known.built, size, root)?;
    Ok(true)
}
