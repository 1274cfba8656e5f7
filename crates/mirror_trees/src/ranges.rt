//! The hash of a range of a tree's entries.
ghost use Rattle.std.specs.Prelude.{◌≡◌, ◌+◌, ◌≤◌, ℕ, List, IfSome, IfNone};
ghost use Rattle.tlog_hash.specs.Tree.{mth};
ghost use Rattle.tlog_hash.specs.Rows.{part};
ghost use Rattle.mirror_model.specs.Complete.{IsTreeOf};

use node_store::Store;
use tlog_hash::{Hash, TreeHash};
use tlog_shape::split;

/// The tree hash (RFC 6962, section 2.1) of `len` entries from `start` on, in the tree with that size and root. For no
/// entries it is the digest of no bytes. `None` if the range is not within the tree. If the tree is not held, the
/// contract says nothing else about the answer.
///
/// It takes no memory.
pub fn range_hash<H: TreeHash>(
    store: &Store<H>,
    size: u64,
    root: &Hash,
    start: u64,
    len: u64,
) -> Option<Hash>
    ensures within { IfSome result (λ h. start + len ≤ size) }
    ensures some { IfSome result (λ h. (entries : List (List ℕ)) → IsTreeOf H.digest store.now size
        root.now entries → h ≡ mth H.digest (part start len entries)) }
    ensures none { IfNone result ((entries : List (List ℕ)) → IsTreeOf H.digest store.now size
        root.now entries → ¬ (start + len ≤ size)) }
{
    if start > size || len > size - start {
        return None;
    }
    hash_within(store, size, root, start, len)
}

// The tree hash of a range that is within the tree.
fn hash_within<H: TreeHash>(
    store: &Store<H>,
    size: u64,
    root: &Hash,
    start: u64,
    len: u64,
) -> Option<Hash>
    requires { start + len ≤ size }
    ensures some { IfSome result (λ h. (entries : List (List ℕ)) → IsTreeOf H.digest store.now size
        root.now entries → h ≡ mth H.digest (part start len entries)) }
    ensures none { IfNone result ((entries : List (List ℕ)) → ¬ IsTreeOf H.digest store.now size
        root.now entries) }
{
    if len == 0 {
        return Some(H::empty());
    }
    if start == 0 && len == size {
        return Some(*root);
    }
    let Some(pair) = store.pair_of(root) else {
        return None;
    };
    let left = pair.0;
    let right = pair.1;
    let k = split(size);
    if start + len <= k {
        return hash_within(store, k, &left, start, len);
    }
    if k <= start {
        return hash_within(store, size - k, &right, start - k, len);
    }
    let j = split(len);
    let Some(a) = hash_within(store, size, root, start, j) else {
        return None;
    };
    let Some(b) = hash_within(store, size, root, start + j, len - j) else {
        return None;
    };
    Some(H::node(&a, &b))
}
