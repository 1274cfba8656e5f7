//! Whether the right edge of a tree is held.
ghost use Rattle.std.specs.Prelude.{◌≡◌, ◌↔◌, ◌≤◌, ℕ, List, IfNone, IfSome, IsTrue};
ghost use Rattle.node_store.specs.Strings.{NoClash};
ghost use Rattle.mirror_model.specs.Complete.{HoldsEdge};
ghost use Rattle.mirror_trees.specs.HeldEdge.{HasRow, HoldsEdgeFrom, LeadsUp};

use node_store::Store;
use tlog_hash::{Hash, TreeHash};
use tlog_shape::{edge_width, split};

// The last of `count` hashes that fold to this one, if all their joins are held.
fn last_of_row<H: TreeHash>(store: &Store<H>, count: u64, hash: &Hash) -> Option<Hash>
    requires some { 1 ≤ count }
    requires clean { NoClash H.digest store.now }
    ensures found { IfSome result (λ last. HasRow H.digest store.now count hash.now last) }
    ensures only { IfSome result (λ last. (other : List ℕ) → HasRow H.digest store.now count
        hash.now other → other ≡ last) }
    ensures none { IfNone result ((last : List ℕ) → ¬ HasRow H.digest store.now count hash.now
        last) }
{
    if count == 1 {
        return Some(*hash);
    }
    let Some(pair) = store.pair_of(hash) else {
        return None;
    };
    let left = pair.0;
    let right = pair.1;
    let k = split(count);
    let Some(_) = last_of_row(store, k, &left) else {
        return None;
    };
    last_of_row(store, count - k, &right)
}

// The value to which the levels below this one lead, found from the root.
fn value_below<H: TreeHash>(store: &Store<H>, size: u64, root: &Hash, level: u32) -> Option<Hash>
    requires within { level ≤ 8 }
    requires clean { NoClash H.digest store.now }
    ensures found { IfSome result (λ value. LeadsUp H.digest store.now size level root.now value) }
    ensures only { IfSome result (λ value. (other : List ℕ) → LeadsUp H.digest store.now size level
        root.now other → other ≡ value) }
    ensures none { IfNone result ((value : List ℕ) → ¬ LeadsUp H.digest store.now size level
        root.now value) }
{
    if level == 8 {
        return Some(*root);
    }
    let Some(value) = value_below(store, size, root, level + 1) else {
        return None;
    };
    let width = edge_width(size, level);
    if width == 0 {
        return Some(value);
    }
    last_of_row(store, width as u64 + 1, &value)
}

// Whether the right edge is held, if no level below this one has a part of it.
fn holds_edge_from<H: TreeHash>(store: &Store<H>, size: u64, root: &Hash, level: u32) -> bool
    requires within { level ≤ 8 }
    requires clean { NoClash H.digest store.now }
    ensures { IsTrue result ↔ HoldsEdgeFrom H.digest store.now size level root.now }
{
    if level == 8 {
        return H::empty() == *root;
    }
    let width = edge_width(size, level);
    if width == 0 {
        return holds_edge_from(store, size, root, level + 1);
    }
    let Some(value) = value_below(store, size, root, level + 1) else {
        return false;
    };
    last_of_row(store, width as u64, &value).is_some()
}

/// Whether the right edge of a tree is held (C2SP tlog-tiles, "Merkle Tree"). It is, if rows with its widths lead to
/// the root, and the store holds all strings that are hashed on the way. These are the strings that a take of a tree
/// head adds. It takes no memory.
pub fn holds_edge<H: TreeHash>(store: &Store<H>, size: u64, root: &Hash) -> bool
    requires { NoClash H.digest store.now }
    ensures { IsTrue result ↔ HoldsEdge H.digest store.now size root.now }
{
    holds_edge_from(store, size, root, 0)
}
