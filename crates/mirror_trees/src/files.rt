//! The files of a log whose tree is held.
ghost use Rattle.std.specs.Prelude.{◌≡◌, ◌≤◌, ◌∷◌, ℕ, List, map, length, IfOk, IsSomeAnd};
ghost use Rattle.tlog_tiles.specs.Layout.{full_row, AreFullRows};
ghost use Rattle.node_store.specs.Strings.{Has, NoClash};
ghost use Rattle.mirror_model.specs.Complete.{IsTreeOf, IsBuilt};

use crate::bundle::entries_of;
use crate::rows::push_row;
use crate::unit_of;
use node_store::Store;
use std::alloc::{AllocError, Global};
use tlog_hash::{Hash, TreeHash};
use tlog_tiles::{LogFiles, write_row};

/// The files of a log, laid out. The tree with that size and root has to be held; then the answer is `Some`. It hashes
/// nothing: each hash and each entry is read from the store.
///
/// ```text
/// let root = add_entries(alloc, &mut store, &[b"a", b"b", b"c"])?;
/// files_of(alloc, &store, 3, &root)?   // Some of the files of these three entries
/// ```
///
/// # Errors
///
/// Memory was refused.
pub fn files_of<H: TreeHash>(
    alloc: Global,
    store: &Store<H>,
    size: u64,
    root: &Hash,
) -> Result<Option<LogFiles<H>>, AllocError>
    requires clean { NoClash H.digest store.now }
    requires short { (entry : List ℕ) → Has store.now (0 ∷ entry) → length entry ≤ 65535 }
    requires held { IsBuilt H.digest store.now size root.now }
    ensures { IfOk result (λ o. IsSomeAnd o (λ files. IsTreeOf H.digest store.now size root.now
        files)) }
{
    let Some(leaves) = level_hashes(alloc, store, size, root, 0)? else {
        return Ok(None);
    };
    let Some(rows) = rows_above(alloc, store, size, root, leaves.as_slice())? else {
        return Ok(None);
    };
    let Some(entries) = entries_of(alloc, store, leaves.as_slice())? else {
        return Ok(None);
    };
    Ok(Some(LogFiles::from_rows(alloc, entries.as_slice(), *root, rows)?))
}

// The hashes of all full nodes of a level. `None` if a part of the tree is not held.
fn level_hashes<H: TreeHash>(
    alloc: Global,
    store: &Store<H>,
    size: u64,
    root: &Hash,
    level: u32,
) -> Result<Option<Vec<Hash>>, AllocError>
    requires { level ≤ 7 }
    ensures { IfOk result (λ o. (entries : List (List ℕ)) → IsTreeOf H.digest store.now size
        root.now entries → IsSomeAnd o (λ row. row.items ≡ full_row H.digest entries level)) }
{
    let unit = unit_of(level);
    let count = size / unit;
    let mut row = Vec::new(alloc);
    if count == 0 {
        return Ok(Some(row));
    }
    if push_row(store, size, root, unit, 0, count, &mut row)? {
        Ok(Some(row))
    } else {
        Ok(None)
    }
}

// The bytes of the hashes of all levels, given the hashes of the lowest ones. `None` if a part of the tree is not held.
fn rows_above<H: TreeHash>(
    alloc: Global,
    store: &Store<H>,
    size: u64,
    root: &Hash,
    leaves: &[Hash],
) -> Result<Option<Vec<Vec<u8>>>, AllocError>
    ensures { IfOk result (λ o. (entries : List (List ℕ)) → IsTreeOf H.digest store.now size
        root.now entries → leaves.now ≡ full_row H.digest entries 0
        → IsSomeAnd o (λ rows. AreFullRows H.digest entries 8
        (map (λ row. row.items) rows.items))) }
{
    let mut rows = Vec::new(alloc);
    rows.push(write_row(alloc, leaves)?)?;
    for level in 1..8u32 {
        let Some(row) = level_hashes(alloc, store, size, root, level)? else {
            return Ok(None);
        };
        rows.push(write_row(alloc, row.as_slice())?)?;
    }
    Ok(Some(rows))
}
