//! The hash that the rows of an edge lead to.
ghost use Rattle.std.specs.Prelude.{◌≡◌, ◌↔◌, IfOk, IsTrue};
ghost use Rattle.log_reader.specs.EdgeRows.{Edge, HasWidths, hash_of_edge};
ghost use Rattle.log_reader.specs.Nodes.{AreBelow, hash_below, hash_on_top};

use crate::edge_rows::EdgeRows;
use crate::verify::is_same;
use std::alloc::{AllocError, Global};
use tlog_hash::{Hash, TreeHash, fold};

/// The hash of the rows so far with one more row above them, which may be empty.
pub(crate) fn on_top<H: TreeHash>(
    alloc: Global,
    below: Option<Hash>,
    row: &[Hash],
) -> Result<Option<Hash>, AllocError>
    ensures { IfOk result (λ hash. hash ≡ hash_on_top H.digest below row.now) }
{
    if row.is_empty() {
        return Ok(below);
    }
    let Some(value) = below else {
        return Ok(Some(fold::<H>(row)));
    };
    let mut whole = Vec::from_slice(alloc, row)?;
    whole.push(value)?;
    Ok(Some(fold::<H>(whole.as_slice())))
}

/// For each level from 0 to 8, the hash that the rows below it lead to. None if there are none.
pub(crate) fn hashes_below<H: TreeHash>(
    alloc: Global,
    edge: &EdgeRows,
) -> Result<Vec<Option<Hash>>, AllocError>
    ensures { IfOk result (λ below. AreBelow H.digest edge.now 9 below.items) }
{
    let mut below = Vec::new(alloc);
    let mut hash = None;
    below.push(hash)?;
    for level in 0..8u32 {
        hash = on_top::<H>(alloc, hash, edge.row(level))?;
        below.push(hash)?;
    }
    Ok(below)
}

/// The hash that all rows lead to, from the last of those hashes. The digest of no bytes if there are no rows.
pub(crate) fn root_of<H: TreeHash>(last: Option<Hash>) -> Hash
    ensures { (edge : Edge) → HasWidths edge → last ≡ hash_below H.digest edge 8
        → result ≡ hash_of_edge H.digest edge }
{
    match last {
        Some(hash) => hash,
        None => H::empty(),
    }
}

/// The hash that the rows of an edge lead to. If each row is true of some entries, it is their tree hash.
///
/// ```text
/// edge_hash::<Sha256Tree>(alloc, &edge)?   // for no entries: the digest of no bytes
/// ```
///
/// # Errors
///
/// `AllocError`: memory was refused.
pub fn edge_hash<H: TreeHash>(alloc: Global, edge: &EdgeRows) -> Result<Hash, AllocError>
    requires { HasWidths edge.now }
    ensures { IfOk result (λ hash. hash ≡ hash_of_edge H.digest edge.now) }
{
    let below = hashes_below::<H>(alloc, edge)?;
    Ok(root_of::<H>(below[8]))
}

/// Whether the rows of an edge lead to the root.
///
/// ```text
/// leads_to::<Sha256Tree>(alloc, &edge, &root)?   // false if any of its hashes was changed
/// ```
///
/// # Errors
///
/// `AllocError`: memory was refused.
pub fn leads_to<H: TreeHash>(
    alloc: Global,
    edge: &EdgeRows,
    root: &Hash,
) -> Result<bool, AllocError>
    requires { HasWidths edge.now }
    ensures { IfOk result (λ b. IsTrue b ↔ (hash_of_edge H.digest edge.now ≡ root.now)) }
{
    let hash = edge_hash::<H>(alloc, edge)?;
    Ok(is_same(&hash, root))
}
