//! The hashes of rows and of lists of entries.
ghost use Rattle.std.specs.Prelude.{◌≡◌, ◌<◌, [], ◌++◌, length, map, IfOk, OnOk};
ghost use Rattle.tlog_hash.specs.Tree.{fold_of, mth, pairs_of};

use crate::{Hash, TreeHash};
use std::alloc::{AllocError, Global};
use tlog_shape::split;

/// The fold of a row of hashes: the tree hash with the row in place of the leaf hashes.
///
/// It allocates no memory.
pub fn fold<H: TreeHash>(row: &[Hash]) -> Hash
    requires { 0 < length row.now }
    ensures { result ≡ fold_of H.digest row.now }
{
    if row.len() == 1 {
        return row[0];
    }
    let k = split(row.len() as u64) as usize;
    let left = fold::<H>(&row[..k]);
    let right = fold::<H>(&row[k..]);
    H::node(&left, &right)
}

/// The tree hash of a list of entries: MTH of RFC 6962, section 2.1.
///
/// It allocates no memory.
pub fn tree_hash<H: TreeHash>(entries: &[&[u8]]) -> Hash
    ensures { result ≡ mth H.digest (map (λ e. e.now) entries.now) }
{
    match entries {
        [] => H::empty(),
        [entry] => H::leaf(entry),
        _ => {
            let k = split(entries.len() as u64) as usize;
            let left = tree_hash::<H>(&entries[..k]);
            let right = tree_hash::<H>(&entries[k..]);
            H::node(&left, &right)
        }
    }
}

/// The pairs of hashes that `fold` joins: children before parents, and left before right.
///
/// # Errors
///
/// Memory was refused.
pub fn pairs<H: TreeHash>(alloc: Global, row: &[Hash]) -> Result<Vec<(Hash, Hash)>, AllocError>
    requires { 0 < length row.now }
    ensures { IfOk result (λ pairs. pairs.items ≡ pairs_of H.digest row.now) }
{
    let mut out = Vec::new(alloc);
    let _root = add_pairs::<H>(row, &mut out)?;
    Ok(out)
}

// Appends the pairs of a row, and returns its fold.
fn add_pairs<H: TreeHash>(row: &[Hash], out: &mut Vec<(Hash, Hash)>) -> Result<Hash, AllocError>
    requires { 0 < length row.now }
    ensures hash { IfOk result (λ hash. hash ≡ fold_of H.digest row.now) }
    ensures pairs { OnOk result (out.new.items ≡ out.old.items ++ pairs_of H.digest row.now) }
{
    if row.len() == 1 {
        return Ok(row[0]);
    }
    let k = split(row.len() as u64) as usize;
    let left = add_pairs::<H>(&row[..k], out)?;
    let right = add_pairs::<H>(&row[k..], out)?;
    out.push((left, right))?;
    Ok(H::node(&left, &right))
}
