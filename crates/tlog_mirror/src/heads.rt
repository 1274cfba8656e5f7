//! The tree heads that a mirror holds, and which of them are complete.
ghost use Rattle.std.specs.Prelude.{◌≡◌, ◌↔◌, ℕ, List, map, IsTrue, IfOk};
ghost use Rattle.std.specs.List.{Contains};
ghost use Rattle.std.specs.List.Sorted.{IsStrictlySortedBy};
ghost use Rattle.mirror_model.specs.Complete.{IsComplete};
ghost use Rattle.mirror_model.specs.Reports.{ReportsHeads};
ghost use Rattle.mirror_trees.specs.Marked.{point_of};
ghost use Rattle.tlog_mirror.specs.Points.{by_point};
ghost use Rattle.mirror_trees.specs.Best.{HasKept};

use crate::flag_heads;
use crate::mirror::Mirror;
use mirror_model::Head;
use mirror_trees::{HeldNote, first_with, is_built};
use std::alloc::{AllocError, Global};
use tlog_hash::{Hash, TreeHash};

impl<H: TreeHash> Mirror<H> {
    /// Whether a held note has that size and root, and the mirror holds all strings that the tree hash of some entries
    /// with that size and root hashes. It takes no memory.
    pub fn is_complete(&self, size: u64, root: &Hash) -> bool
        ensures { IsTrue result ↔ IsComplete H.digest self.now.view size root.now }
    {
        first_with(self.kept.as_slice(), size, root).is_some()
            && is_built(&self.strings, &self.known, size, root)
    }

    /// Each size and root of the held notes once, by size and then by the root's bytes, with whether it is complete.
    ///
    /// # Errors
    ///
    /// Memory was refused.
    pub fn heads(&self, alloc: Global) -> Result<Vec<Head>, AllocError>
        ensures { IfOk result (λ heads. ReportsHeads H.digest self.now.view heads.items) }
    {
        let points = match points_of(alloc, self.kept.as_slice()) {
            Ok(points) => points,
            Err(fault) => return Err(fault),
        };
        flag_heads(alloc, &self.strings, &self.known, points.as_slice())
    }
}

// The sizes and roots of kept notes in order, each once.
pub(crate) fn points_of(alloc: Global, kept: &[HeldNote]) -> Result<Vec<(u64, Hash)>, AllocError>
    ensures sorted { IfOk result (λ points. IsStrictlySortedBy by_point points.items) }
    ensures exact { IfOk result (λ points. (p : ℕ × List ℕ) → Contains points.items p
        ↔ HasKept kept.now (point_of p)) }
{
    let mut points = match all_points(alloc, kept) {
        Ok(points) => points,
        Err(fault) => return Err(fault),
    };
    put_in_order(&mut points);
    Ok(points)
}

fn all_points(alloc: Global, kept: &[HeldNote]) -> Result<Vec<(u64, Hash)>, AllocError>
    ensures { IfOk result (λ points. points.items ≡ map (λ one. (one.size, one.root)) kept.now) }
{
    kept.iter().map(|one| (one.size, one.root)).collect(alloc)
}

// Sorts sizes and roots, and removes duplicates.
fn put_in_order(points: &mut Vec<(u64, Hash)>)
    ensures sorted { IsStrictlySortedBy by_point points.new.items }
    ensures same { (p : ℕ × List ℕ) → Contains points.new.items p ↔ Contains points.old.items p }
{
    points.sort_unstable();
    points.dedup();
}
