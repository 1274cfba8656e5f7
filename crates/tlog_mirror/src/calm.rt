//! Finds the tree heads that cannot be the smaller one of a fork, in one pass.
ghost use Rattle.std.specs.Prelude.{◌≡◌, ◌≢◌, ◌≤◌, ◌<◌, ◌+◌, length, map, IfOk, IsTrue, slice_index_or};
ghost use Rattle.std.specs.List.Sorted.{IsStrictlySortedBy};
ghost use Rattle.tlog_mirror.specs.Points.{by_point};
ghost use Rattle.tlog_mirror.specs.Branches.{AreCalm};
ghost use Rattle.tlog_mirror.specs.declared.branches.Branch.{Branch as AnyBranch};

use crate::branches::Branch;
use std::alloc::{AllocError, Global};

// For each tree head whether it is calm: it is a prefix of all later ones whose trees are held, and none of those has
// its size. So a log that only grew needs no search for forks.
pub(crate) fn calm_of(alloc: Global, branches: &[Branch]) -> Result<Vec<bool>, AllocError>
    requires { IsStrictlySortedBy by_point (map (λ b. b.head) branches.now) }
    ensures len { IfOk result (λ calm. length calm.items ≡ length branches.now) }
    ensures calm { IfOk result (λ calm. AreCalm branches.now calm.items) }
{
    let mut calm = vec![in alloc; false; branches.len()]?;
    find_calm(calm.as_mut_slice(), branches);
    Ok(calm)
}

// Finds the calm tree heads.
fn find_calm(calm: &mut [bool], branches: &[Branch])
    requires len { length calm.old ≡ length branches.now }
    requires rising { IsStrictlySortedBy by_point (map (λ b. b.head) branches.now) }
    ensures { AreCalm branches.now calm.new }
{
    let mut least = usize::MAX;
    for at in (0..branches.len()).rev() {
        calm[at] = is_calm(branches, at, least);
        least = least_after(&branches[at], least);
    }
}

// Whether the tree head at a place is calm; `least` is the least `after` of the later ones whose trees are held.
fn is_calm(branches: &[Branch], at: usize, least: usize) -> bool
    requires { at < length branches.now }
    ensures least { IsTrue result → at < least }
    ensures sizes { (a b : AnyBranch) → IsTrue result → at + 1 < length branches.now
        → slice_index_or branches.now at a ≡ a → slice_index_or branches.now (at + 1) b ≡ b
        → a.head.0 ≢ b.head.0 }
{
    if at + 1 < branches.len() && branches[at].head.0 == branches[at + 1].head.0 {
        return false;
    }
    at < least
}

// The least `after` of tree heads whose trees are held, with one more of them.
fn least_after(branch: &Branch, least: usize) -> usize
    ensures least { result ≤ least }
    ensures own { IsTrue branch.now.whole → result ≤ branch.now.after }
{
    if branch.whole {
        least.min(branch.after)
    } else {
        least
    }
}
