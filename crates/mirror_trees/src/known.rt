//! Trees that are known beforehand.
ghost use Rattle.std.specs.Prelude.{◌≡◌, ◌⊎◌, IsTrue};
ghost use Rattle.std.specs.FinSet as set;
ghost use Rattle.mirror_model.specs.Forks.{Point};
ghost use Rattle.mirror_trees.specs.HeldTrees.{HasMark};

use crate::marks::Marks;
use std::alloc::{AllocError, Global};
use tlog_hash::Hash;

// The number of entries from which on a held tree is noted. A walk through a smaller one is short.
pub(crate) const MANY: u64 = 32;

/// The known trees of a store, so that no walk enters them.
///
/// ```text
/// let mut known = HeldTrees::new(alloc);
/// settle(&store, &mut known, 3, &root)?;
/// known.remembered.len()  // 5, if the tree of three different entries is held
/// ```
pub struct HeldTrees {
    /// The remembered points: all slices of each tree that was settled and is held.
    pub remembered: Marks,
    /// Trees of many entries that a walk found held, including slices of trees that are not held.
    pub built: Marks,
}

/// Written out, as that of `Marks`.
impl Drop for HeldTrees {
    fn drop(self) {
        let HeldTrees {
            remembered: _,
            built: _,
        } = self;
    }
}

impl HeldTrees {
    /// No tree is known. It takes no memory.
    pub fn new(alloc: Global) -> Self
        ensures remembered { result.remembered ≡ set.empty }
        ensures built { result.built ≡ set.empty }
    {
        HeldTrees {
            remembered: Marks::new(alloc),
            built: Marks::new(alloc),
        }
    }

    // Whether the tree of that size and hash is known to be held.
    pub(crate) fn contains(&self, size: u64, root: &Hash) -> bool
        ensures { IsTrue result → HasMark self.now.remembered
            (record { size = size; root = root.now })
            ⊎ HasMark self.now.built (record { size = size; root = root.now }) }
    {
        self.remembered.contains(size, root) || is_noted(&self.built, size, root)
    }
}

// Whether a tree was noted as held.
pub(crate) fn is_noted(built: &Marks, size: u64, root: &Hash) -> bool
    ensures { IsTrue result → HasMark built.now (record { size = size; root = root.now }) }
{
    size >= MANY && built.contains(size, root)
}

// Notes a held tree, if it has many entries.
pub(crate) fn note_built(built: &mut Marks, size: u64, root: &Hash) -> Result<(), AllocError>
    ensures { (point : Point) → HasMark built.new point
        → (point ≡ record { size = size; root = root.now }) ⊎ HasMark built.old point }
{
    if size < MANY {
        return Ok(());
    }
    built.add(size, root)
}
