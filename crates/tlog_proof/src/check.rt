//! Checks of proofs, by the loops of RFC 9162 over the bits of sizes and indices.
//!
//! The checks allocate no memory, and no number overflows 64 bits, for any argument. In the loops, `node` and `end` are fn
//! and sn of the standard: the numbers of the current node and of the last node, in their level of the tree.
ghost use Rattle.std.specs.Prelude.{◌≡◌, ◌↔◌, ◌<◌, ◌≤◌, ◌+◌, ◌%◌, [], IsTrue, true};
ghost use Rattle.tlog_proof.specs.Inclusion.{IsInclusion};
ghost use Rattle.tlog_proof.specs.Consistency.{cons, IsConsistency};
ghost use Rattle.tlog_proof.specs.Steps.{KeepsIncl, KeepsBoth, HasBlocks, LeadsToBoth};

use tlog_hash::{Hash, TreeHash};

/// Whether the path shows that the entry with that leaf hash has that index, in the tree of that size and root (RFC 9162,
/// section 2.1.3.2).
///
/// The result is false if the index is not below the size, or if the path has too many or too few hashes. True does not
/// prove the size: another size can lead to the same root by the same path.
pub fn check_inclusion<H: TreeHash>(
    leaf: &Hash,
    index: u64,
    size: u64,
    path: &[Hash],
    root: &Hash,
) -> bool
    ensures { IsTrue result ↔ IsInclusion H.digest leaf.now index size path.now root.now }
{
    if index >= size {
        return false;
    }
    let mut node = index;
    let mut end = size - 1;
    let mut hash = *leaf;
    for beside in path {
        if end == 0 {
            return false;
        }
        if node % 2 == 1 || node == end {
            hash = H::node(beside, &hash);
            let up = to_partner(node, end);
            node = up.0;
            end = up.1;
        } else {
            hash = H::node(&hash, beside);
        }
        node >>= 1;
        end >>= 1;
    }
    end == 0 && hash == *root
}

/// Whether the path shows that the tree of the first size and root is a prefix of the tree of the second (RFC 9162, section
/// 2.1.4.2).
///
/// For equal sizes, the path must be empty and the roots equal (a rule of this project: the standard leaves this case out).
/// The result is false if the first size is 0 or greater than the second. True does not prove the sizes.
pub fn check_consistency<H: TreeHash>(
    first: u64,
    first_root: &Hash,
    second: u64,
    second_root: &Hash,
    path: &[Hash],
) -> bool
    ensures { IsTrue result
        ↔ IsConsistency H.digest first first_root.now second second_root.now path.now }
{
    if first == 0 || second < first {
        return false;
    }
    if first == second {
        return are_equal(first_root, second_root, path);
    }
    grows::<H>(first, first_root, second, second_root, path)
}

// Whether the path is empty and the roots are equal.
fn are_equal(first_root: &Hash, second_root: &Hash, path: &[Hash]) -> bool
    ensures { IsTrue result ↔ ((path.now ≡ []) × (first_root.now ≡ second_root.now)) }
{
    if !path.is_empty() {
        return false;
    }
    *first_root == *second_root
}

// Whether the path leads from the first root to both roots.
fn grows<H: TreeHash>(
    first: u64,
    first_root: &Hash,
    second: u64,
    second_root: &Hash,
    path: &[Hash],
) -> bool
    requires some { 0 < first }
    requires more { first < second }
    ensures { IsTrue result ↔ (cons H.digest first second true first_root.now path.now
        ≡ Some (first_root.now, second_root.now)) }
{
    if path.len() == 0 {
        return false;
    }
    let at = to_block(first - 1, second - 1);
    // The index is 0 if the first size is a power of two. The first root then begins the path.
    if at.0 == 0 {
        leads_to::<H>(at.0, at.1, first_root, path, first_root, second_root)
    } else {
        leads_to::<H>(at.0, at.1, &path[0], &path[1..], first_root, second_root)
    }
}

// Whether the path leads from the start, a hash of both trees, to both roots.
fn leads_to<H: TreeHash>(
    index: u64,
    last: u64,
    start: &Hash,
    path: &[Hash],
    first_root: &Hash,
    second_root: &Hash,
) -> bool
    requires { index ≤ last }
    ensures { IsTrue result
        ↔ LeadsToBoth H.digest index last start.now path.now first_root.now second_root.now }
{
    let mut node = index;
    let mut end = last;
    let mut first_hash = *start;
    let mut second_hash = *start;
    for beside in path {
        if end == 0 {
            return false;
        }
        if node % 2 == 1 || node == end {
            first_hash = H::node(beside, &first_hash);
            second_hash = H::node(beside, &second_hash);
            let up = to_partner(node, end);
            node = up.0;
            end = up.1;
        } else {
            second_hash = H::node(&second_hash, beside);
        }
        node >>= 1;
        end >>= 1;
    }
    if end != 0 {
        return false;
    }
    if first_hash == *first_root {
        return second_hash == *second_root;
    }
    false
}

// Goes up from a node without a sibling, to an ancestor with a sibling on its left. The numbers are those of the node and of
// the last node of its level.
fn to_partner(index: u64, last: u64) -> (u64, u64)
    requires some { 0 < index }
    requires within { index ≤ last }
    requires alone { index % 2 ≡ 0 → index ≡ last }
    ensures odd { result.0 % 2 ≡ 1 }
    ensures within { result.0 ≤ result.1 }
    ensures same { KeepsIncl index last result.0 result.1 }
    ensures both { KeepsBoth index last result.0 result.1 }
{
    let mut node = index;
    let mut end = last;
    while node % 2 == 0 && node != 0 {
        node >>= 1;
        end >>= 1;
    }
    (node, end)
}

// Goes up from the last leaf of the first tree, while the node is the right child of a pair.
fn to_block(index: u64, last: u64) -> (u64, u64)
    requires { index < last }
    ensures even { result.0 % 2 ≡ 0 }
    ensures within { result.0 ≤ result.1 }
    ensures blocks { HasBlocks (last + 1) (index + 1) result.0 result.1 }
{
    let mut node = index;
    let mut end = last;
    while node % 2 == 1 {
        node >>= 1;
        end >>= 1;
    }
    (node, end)
}
