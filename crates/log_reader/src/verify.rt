//! The conditions on a full file.
ghost use Rattle.std.specs.Prelude.{◌≡◌, ◌↔◌, IsTrue, ◌≤◌, ℕ, List, IfNone, IfOk, IfSome, map};
ghost use Rattle.tlog_hash.specs.Tree.{leaf_hash};
ghost use Rattle.tlog_tiles.specs.Row.{IsRow};
ghost use Rattle.log_reader.specs.Verified.{IsRowOf, HasLeaves, Verifies};

use std::alloc::{AllocError, Global};
use tlog_hash::{Hash, TreeHash, fold};
use tlog_tiles::{BundleFault, RowFault, read_bundle, read_row};

/// A full tile of level 1 or above, or a full bundle.
///
/// ```text
/// FullFile::Bundle   // tile/entries/000
/// ```
#[derive(Clone, Copy)]
pub enum FullFile {
    Tile,
    Bundle,
}

// The leaf hashes of the entries.
fn leaf_hashes<H: TreeHash>(alloc: Global, entries: &[&[u8]]) -> Result<Vec<Hash>, AllocError>
    ensures { IfOk result (λ row. row.items ≡ map (λ e. leaf_hash H.digest e.now) entries.now) }
{
    let mut row = Vec::new(alloc);
    for entry in entries {
        row.push(H::leaf(entry))?;
    }
    Ok(row)
}

/// The leaf hashes of a bundle of that width (C2SP tlog-tiles, "Log Entries"). None: the bytes are not such a bundle.
///
/// ```text
/// leaves_of::<Sha256Tree>(alloc, 3, &bytes)?   // Some(row) of three hashes
/// ```
///
/// # Errors
///
/// `AllocError`: memory was refused.
pub fn leaves_of<H: TreeHash>(
    alloc: Global,
    width: u32,
    bytes: &[u8],
) -> Result<Option<Vec<Hash>>, AllocError>
    requires { width ≤ 256 }
    ensures leaves { IfOk result (λ found. IfSome found
        (λ row. HasLeaves H.digest width bytes.now row.items)) }
    ensures none { IfOk result (λ found. IfNone found ((row : List (List ℕ))
        → ¬ HasLeaves H.digest width bytes.now row)) }
{
    match read_bundle(alloc, width, bytes) {
        Ok(entries) => {
            let row = leaf_hashes::<H>(alloc, &entries)?;
            Ok(Some(row))
        }
        Err(BundleFault::OutOfMemory) => Err(AllocError),
        Err(BundleFault::BundleShort) => Ok(None),
        Err(BundleFault::BundleLong) => Ok(None),
    }
}

/// The row of that width in some bytes. None: they are not such a row.
pub(crate) fn row_in(
    alloc: Global,
    width: u32,
    bytes: &[u8],
) -> Result<Option<Vec<Hash>>, AllocError>
    ensures row { IfOk result (λ found. IfSome found (λ row. IsRow width bytes.now row.items)) }
    ensures none { IfOk result (λ found. IfNone found ((row : List (List ℕ))
        → ¬ IsRow width bytes.now row)) }
{
    match read_row(alloc, width, bytes) {
        Ok(row) => Ok(Some(row)),
        Err(RowFault::RowLength) => Ok(None),
        Err(RowFault::OutOfMemory) => Err(AllocError),
    }
}

// The row of a full file. None: the bytes are not a full file.
fn row_of<H: TreeHash>(
    alloc: Global,
    kind: FullFile,
    bytes: &[u8],
) -> Result<Option<Vec<Hash>>, AllocError>
    ensures row { IfOk result (λ found. IfSome found
        (λ row. IsRowOf H.digest kind bytes.now row.items)) }
    ensures none { IfOk result (λ found. IfNone found ((row : List (List ℕ))
        → ¬ IsRowOf H.digest kind bytes.now row)) }
{
    match kind {
        FullFile::Tile => row_in(alloc, 256, bytes),
        FullFile::Bundle => leaves_of::<H>(alloc, 256, bytes),
    }
}

/// Whether two hashes are equal.
pub(crate) fn is_same(first: &Hash, second: &Hash) -> bool
    ensures { IsTrue result ↔ (first.now ≡ second.now) }
{
    first == second
}

/// The row of a full file whose fold is the hash. None: the bytes are not such a file.
///
/// ```text
/// verified::<Sha256Tree>(alloc, FullFile::Bundle, &row[0], &bytes)?   // Some(leaf hashes), if row is that of level 1
/// ```
///
/// # Errors
///
/// `AllocError`: memory was refused.
pub fn verified<H: TreeHash>(
    alloc: Global,
    kind: FullFile,
    hash: &Hash,
    bytes: &[u8],
) -> Result<Option<Vec<Hash>>, AllocError>
    ensures found { IfOk result (λ found. IfSome found
        (λ row. Verifies H.digest kind hash.now bytes.now row.items)) }
    ensures none { IfOk result (λ found. IfNone found ((row : List (List ℕ))
        → ¬ Verifies H.digest kind hash.now bytes.now row)) }
{
    match row_of::<H>(alloc, kind, bytes)? {
        Some(row) => {
            if row.is_empty() {
                return Ok(None);
            }
            let folded = fold::<H>(&row);
            if is_same(&folded, hash) {
                Ok(Some(row))
            } else {
                Ok(None)
            }
        }
        None => Ok(None),
    }
}
