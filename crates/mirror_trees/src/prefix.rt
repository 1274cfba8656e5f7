//! Whether one held tree is a prefix of another.
ghost use Rattle.std.specs.Prelude.{◌↔◌, ℕ, List, IsTrue};
ghost use Rattle.node_store.specs.Strings.{NoClash};
ghost use Rattle.mirror_model.specs.Complete.{IsTreeOf};
ghost use Rattle.mirror_model.specs.Forks.{IsPrefix};

use node_store::Store;
use tlog_hash::{Hash, TreeHash};
use tlog_shape::split;

/// Whether the entries of the first tree are a prefix of those of the second, each given by its size and root. Both
/// have to be held; for other trees the contract says nothing about the answer.
///
/// It compares hashes of held nodes, and hashes nothing. Under a digest that collides, a list can have the hash of
/// another list's prefix. It takes no memory.
pub fn is_prefix<H: TreeHash>(store: &Store<H>, small: (u64, &Hash), large: (u64, &Hash)) -> bool
    requires clean { NoClash H.digest store.now }
    ensures { (first second : List (List ℕ)) → IsTreeOf H.digest store.now small.entry.0
        small.entry.1.now first → IsTreeOf H.digest store.now large.entry.0 large.entry.1.now second
        → IsTrue result ↔ IsPrefix first second }
{
    let few = small.0;
    let many = large.0;
    if few == 0 {
        return true;
    }
    if few > many {
        return false;
    }
    if few == many {
        return *small.1 == *large.1;
    }
    let Some(pair) = store.pair_of(large.1) else {
        return false;
    };
    let left = pair.0;
    let right = pair.1;
    let k = split(many);
    if few <= k {
        return is_prefix(store, small, (k, &left));
    }
    let Some(own) = store.pair_of(small.1) else {
        return false;
    };
    let own_left = own.0;
    let own_right = own.1;
    if own_left != left {
        return false;
    }
    is_prefix(store, (few - k, &own_right), (many - k, &right))
}
