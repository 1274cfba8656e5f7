//! The number of paths that may be missing in a tree, counted before they are listed.
ghost use Rattle.std.specs.Prelude.{◌≡◌, ◌≤◌, ◌≢◌, IfOk, IfSome};
ghost use Rattle.mirror_model.specs.Complete.{IsBuilt};
ghost use Rattle.mirror_trees.specs.HeldTrees.{AreBuilt, AreKnown};

use crate::known::{HeldTrees, MANY, is_noted, note_built};
use crate::mark_key::MarkKey;
use crate::marks::Marks;
use node_store::Store;
use std::alloc::{AllocError, Global};
use std::collections::HashMap;
use tlog_hash::{Hash, TreeHash};
use tlog_shape::split;

// The counts of trees that are not held completely, by size and hash.
pub(crate) struct Counts {
    counts: HashMap<MarkKey, u64>,
}

// Written out, as that of `Marks`.
impl Drop for Counts {
    fn drop(self) {
        let Counts { counts: _ } = self;
    }
}

impl Counts {
    // No counts. It takes no memory.
    pub(crate) fn new(alloc: Global) -> Self {
        Counts {
            counts: HashMap::new(alloc),
        }
    }

    // The count of a tree, if it has many entries and was counted.
    fn of(&self, size: u64, root: &Hash) -> Option<u64>
        ensures { IfSome result (λ count. count ≢ 0) }
    {
        if size < MANY {
            return None;
        }
        match self.counts.get(&MarkKey::new(size, root)) {
            Some(count) => Some((*count).max(1)),
            None => None,
        }
    }

    // Keeps the count of a tree, if it has many entries.
    fn keep(&mut self, size: u64, root: &Hash, count: u64) -> Result<(), AllocError> {
        if size < MANY {
            return Ok(());
        }
        let Ok(_) = self.counts.insert(MarkKey::new(size, root), count) else {
            return Err(AllocError);
        };
        Ok(())
    }
}

// The number of paths for the nodes where the walk from a root fails: 0 only if the tree is held. Nodes in one bundle
// count once; a tile counts once for each such node.
//
// A tree that occurs at several places is walked once, while the list has its paths for each place. So the time is
// limited by the number of held strings, and the memory of the complete list can be requested at once.
pub(crate) fn count_lost<H: TreeHash>(
    store: &Store<H>,
    known: &HeldTrees,
    found: &mut Marks,
    counts: &mut Counts,
    size: u64,
    root: &Hash,
) -> Result<u64, AllocError>
    requires known { AreKnown H.digest store.now known.now }
    requires found { AreBuilt H.digest store.now found.old }
    requires some { 1 ≤ size }
    ensures whole { IfOk result (λ count. count ≡ 0 → IsBuilt H.digest store.now size root.now) }
    ensures found { AreBuilt H.digest store.now found.new }
{
    if known.contains(size, root) {
        return Ok(0);
    }
    if is_noted(found, size, root) {
        return Ok(0);
    }
    if let Some(count) = counts.of(size, root) {
        return Ok(count);
    }
    if size == 1 {
        let Some(_) = store.entry_of(root) else {
            return Ok(1);
        };
        return Ok(0);
    }
    let Some(pair) = store.pair_of(root) else {
        return Ok(1);
    };
    let left = pair.0;
    let right = pair.1;
    let k = split(size);
    let first = count_lost(store, known, found, counts, k, &left)?;
    let second = count_lost(store, known, found, counts, size - k, &right)?;
    let count = count_of(size, first, second);
    if count == 0 {
        note_built(found, size, root)?;
        return Ok(0);
    }
    counts.keep(size, root, count)?;
    Ok(count)
}

// The count of a tree of that size, from the counts of its parts.
fn count_of(size: u64, first: u64, second: u64) -> u64
    ensures first { result ≡ 0 → first ≡ 0 }
    ensures second { result ≡ 0 → second ≡ 0 }
{
    let both = first.saturating_add(second);
    if size <= 256 { both.min(1) } else { both }
}
