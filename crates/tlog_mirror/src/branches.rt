//! For each tree head on the way to the forks: the last complete tree head before it that is its prefix.
ghost use Rattle.std.specs.Prelude.{◌≡◌, ◌≤◌, ◌<◌, ◌-◌, ◌++◌, ◌∷◌, [], ℕ, length, map, All, IfOk, IsTrue, slice_index_or, string_bytes, codes};
ghost use Rattle.node_store.specs.Strings.{NoClash};
ghost use Rattle.mirror_model.specs.Complete.{IsBuilt};
ghost use Rattle.mirror_model.specs.Texts.{point_text};
ghost use Rattle.mirror_trees.specs.HeldTrees.{AreKnown};
ghost use Rattle.tlog_mirror.specs.Branches.{AreBranches, IsBranch, IsSpelled, Precedes};
ghost use Rattle.tlog_mirror.specs.Forks.{Departs};
ghost use Rattle.tlog_mirror.specs.declared.branches.Branch.{Branch as AnyBranch};

use crate::report_texts::push_point;
use mirror_trees::{HeldTrees, is_built, is_prefix};
use node_store::Store;
use std::alloc::{AllocError, Global};
use tlog_hash::{Hash, TreeHash};

// A tree head, with the pieces of its fork lines.
#[derive(Drop)]
pub(crate) struct Branch {
    pub(crate) head: (u64, Hash),
    // Whether its tree is held.
    pub(crate) whole: bool,
    // One more than the place of the last earlier tree head whose tree is held and is a prefix of its own, or 0.
    pub(crate) after: usize,
    // The pieces of a line.
    pub(crate) as_small: String,
    pub(crate) as_large: String,
}

// The branches of tree heads that rise by size and root.
pub(crate) fn branches_of<H: TreeHash>(
    alloc: Global,
    store: &Store<H>,
    known: &HeldTrees,
    heads: &[(u64, Hash)],
) -> Result<Vec<Branch>, AllocError>
    requires known { AreKnown H.digest store.now known.now }
    requires clean { NoClash H.digest store.now }
    ensures heads { IfOk result (λ branches. map (λ b. b.head) branches.items ≡ heads.now) }
    ensures each { IfOk result (λ branches. AreBranches H.digest store.now branches.items) }
    ensures spelled { IfOk result (λ branches. All IsSpelled branches.items) }
{
    let mut branches: Vec<Branch> = Vec::with_capacity(alloc, heads.len())?;
    for head in heads {
        let branch = branch_of(alloc, store, known, branches.as_slice(), *head)?;
        branches.push(branch)?;
    }
    Ok(branches)
}

// The branch of a tree head after those before it.
fn branch_of<H: TreeHash>(
    alloc: Global,
    store: &Store<H>,
    known: &HeldTrees,
    before: &[Branch],
    head: (u64, Hash),
) -> Result<Branch, AllocError>
    requires known { AreKnown H.digest store.now known.now }
    requires clean { NoClash H.digest store.now }
    requires branches { AreBranches H.digest store.now before.now }
    ensures head { IfOk result (λ branch. branch.head ≡ head) }
    ensures branch { IfOk result (IsBranch H.digest store.now before.now) }
    ensures spelled { IfOk result IsSpelled }
{
    let as_small = small_piece(alloc, head)?;
    let as_large = large_piece(alloc, head)?;
    let whole = is_built(store, known, head.0, &head.1);
    let after = if whole {
        after_of(store, before, head)
    } else {
        0
    };
    Ok(Branch {
        head,
        whole,
        after,
        as_small,
        as_large,
    })
}

// One more than the place of the last one whose tree is held and is a prefix of the tree head's, or 0.
fn after_of<H: TreeHash>(store: &Store<H>, before: &[Branch], head: (u64, Hash)) -> usize
    requires clean { NoClash H.digest store.now }
    requires built { IsBuilt H.digest store.now head.0 head.1 }
    requires branches { AreBranches H.digest store.now before.now }
    ensures fits { result ≤ length before.now }
    ensures last { (one : AnyBranch) → 0 < result → slice_index_or before.now (result - 1) one ≡ one
        → (IsTrue one.whole × Precedes H.digest store.now one.head head) }
    ensures none { (k : ℕ) (one : AnyBranch) → result ≤ k → k < length before.now
        → slice_index_or before.now k one ≡ one → IsTrue one.whole
        → Departs H.digest store.now one.head head }
{
    for at in (0..before.len()).rev() {
        let one = &before[at];
        if one.whole && is_prefix(store, (one.head.0, &one.head.1), (head.0, &head.1)) {
            return at + 1;
        }
    }
    0
}

// The part of a fork line for its smaller tree head, up to the larger one.
fn small_piece(alloc: Global, head: (u64, Hash)) -> Result<String, AllocError>
    ensures { IfOk result (λ text. string_bytes text ≡ codes "fork " ++ point_text head.0 head.1
        ++ 32 ∷ []) }
{
    let mut text = String::from_str(alloc, "fork ")?;
    push_point(&mut text, head.0, &head.1)?;
    text.push_str(" ")?;
    Ok(text)
}

// The part of a fork line for its larger tree head.
fn large_piece(alloc: Global, head: (u64, Hash)) -> Result<String, AllocError>
    ensures { IfOk result (λ text. string_bytes text ≡ point_text head.0 head.1 ++ 10 ∷ []) }
{
    let mut text = String::new(alloc);
    push_point(&mut text, head.0, &head.1)?;
    text.push_str("\n")?;
    Ok(text)
}
