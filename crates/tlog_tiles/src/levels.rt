//! The hashes of a list's levels, each made from those of the level below.
ghost use Rattle.std.specs.Prelude.{◌≡◌, ◌*◌, ◌/◌, ◌≤◌, length, map, IfOk};
ghost use Rattle.tlog_hash.specs.Rows.{ranges};
ghost use Rattle.tlog_hash.specs.Tree.{fold_of, leaf_hash, mth};
ghost use Rattle.tlog_tiles.specs.Layout.{AreFullRows, AreRowsOver, IsRootOver};

use crate::write_row;
use std::alloc::{AllocError, Global};
use tlog_hash::{Hash, TreeHash, fold};

fn leaf_hashes<H: TreeHash>(alloc: Global, entries: &[&[u8]]) -> Result<Vec<Hash>, AllocError>
    ensures { IfOk result (λ row. row.items ≡ map (λ e. leaf_hash H.digest e.now) entries.now) }
{
    let mut row = Vec::new(alloc);
    for entry in entries {
        row.push(H::leaf(entry))?;
    }
    Ok(row)
}

/// The hashes of the level above: each is that of 256 hashes. The hashes after the last full 256 give none.
fn level_above<H: TreeHash>(alloc: Global, below: &[Hash]) -> Result<Vec<Hash>, AllocError>
    ensures { IfOk result (λ row. row.items
        ≡ map (fold_of H.digest) (ranges 256 0 (length below.now / 256) below.now)) }
{
    let mut row = Vec::new(alloc);
    for i in 0..below.len() / 256 {
        row.push(fold::<H>(&below[256 * i..256 * i + 256]))?;
    }
    Ok(row)
}

/// The tree hash of the entries, from their leaf hashes and the hashes of the level above.
fn root_of<H: TreeHash>(alloc: Global, leaves: &[Hash], above: &[Hash]) -> Result<Hash, AllocError>
    requires { 256 * length above.now ≤ length leaves.now }
    ensures { IfOk result (IsRootOver H.digest leaves.now above.now) }
{
    if leaves.is_empty() {
        return Ok(H::empty());
    }
    let rest = &leaves[256 * above.len()..];
    let mut row = Vec::from_slice(alloc, above)?;
    if !rest.is_empty() {
        row.push(fold::<H>(rest))?;
    }
    Ok(fold::<H>(&row))
}

/// The bytes of the hashes of all levels, lowest first, from the hashes of the lowest two.
fn rows_from<H: TreeHash>(
    alloc: Global,
    leaves: &[Hash],
    above: Vec<Hash>,
) -> Result<Vec<Vec<u8>>, AllocError>
    ensures { IfOk result (λ rows. AreRowsOver H.digest leaves.now above.items
        (map (λ row. row.items) rows.items)) }
{
    let mut rows = Vec::new(alloc);
    rows.push(write_row(alloc, leaves)?)?;
    let mut row = above;
    for _ in 0..7u32 {
        rows.push(write_row(alloc, &row)?)?;
        row = level_above::<H>(alloc, &row)?;
    }
    Ok(rows)
}

/// The tree hash of the entries, and the bytes of the hashes of each level from 0 to 7. Each entry is hashed once.
pub(crate) fn levels_of<H: TreeHash>(
    alloc: Global,
    entries: &[&[u8]],
) -> Result<(Hash, Vec<Vec<u8>>), AllocError>
    ensures root { IfOk result (λ made. made.0 ≡ mth H.digest (map (λ e. e.now) entries.now)) }
    ensures rows { IfOk result (λ made. AreFullRows H.digest (map (λ e. e.now) entries.now) 8
        (map (λ row. row.items) made.1.items)) }
{
    let leaves = leaf_hashes::<H>(alloc, entries)?;
    let above = level_above::<H>(alloc, &leaves)?;
    let root = root_of::<H>(alloc, &leaves, &above)?;
    let rows = rows_from::<H>(alloc, &leaves, above)?;
    Ok((root, rows))
}
