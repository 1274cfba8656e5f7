//! The remembered sizes and hashes.
ghost use Rattle.std.specs.Prelude.{◌≡◌, ◌↔◌, IsTrue, OnOk, OnErr};
ghost use Rattle.std.specs.FinSet as set;
ghost use Rattle.mirror_trees.specs.HeldTrees.{HasMark};

use crate::mark_key::MarkKey;
use std::alloc::{AllocError, Global};
use std::collections::HashSet;
use std::marker::Model;
use tlog_hash::Hash;

/// A set of sizes with hashes: the remembered points of trees.
///
/// ```text
/// let mut marks = Marks::new(alloc);
/// marks.add(3, &root)?;
/// marks.contains(3, &root)  // true
/// ```
pub struct Marks {
    points: HashSet<MarkKey>,
}

/// Written out, a drop is one call. A derived one stands in full wherever a value is dropped, and is checked there.
impl Drop for Marks {
    fn drop(self) {
        let Marks { points: _ } = self;
    }
}

impl Model for Marks {
    ghost use Rattle.std.specs.FinSet as set;
    ghost use Rattle.mirror_model.specs.Marks.{Points, point_code};
    ghost use Rattle.mirror_trees.specs.Marked.{points_of};

    ghost Value = { Points };

    ghost coded = { set.code point_code };

    ghost view = { λ a. points_of a.points.keys };
}

impl Marks {
    /// The empty set. It takes no memory.
    pub fn new(alloc: Global) -> Self
        ensures { result ≡ set.empty }
    {
        Marks {
            points: HashSet::new(alloc),
        }
    }

    /// Adds a size and hash.
    ///
    /// # Errors
    ///
    /// `AllocError` only if a growth was refused. The set is then unchanged.
    pub fn add(&mut self, size: u64, root: &Hash) -> Result<(), AllocError>
        ensures ok { OnOk result (self.new
            ≡ set.insert self.old (record { size = size; root = root.now })) }
        ensures err { OnErr result (self.new ≡ self.old) }
    {
        let Ok(_) = self.points.insert(MarkKey::new(size, root)) else {
            return Err(AllocError);
        };
        Ok(())
    }

    /// The number of points. It takes no memory.
    pub fn len(&self) -> usize
        ensures { result ≡ set.len self.now }
    {
        self.points.len()
    }

    /// Whether the set has that size and hash. It takes no memory.
    pub fn contains(&self, size: u64, root: &Hash) -> bool
        ensures { IsTrue result ↔ HasMark self.now (record { size = size; root = root.now }) }
    {
        self.points.contains(&MarkKey::new(size, root))
    }
}
