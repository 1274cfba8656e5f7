//! The row of a tile.
ghost use Rattle.std.specs.Prelude.{ℕ, List, IfNone, IfOk, IfSome};
ghost use Rattle.tlog_tiles.specs.Row.{IsRow};

use std::alloc::{AllocError, Global};
use tlog_hash::Hash;
use tlog_tiles::{RowFault, read_row};

/// The hashes of a tile of that width. None: the bytes are not such a tile.
pub fn row_of(alloc: Global, width: u32, bytes: &[u8]) -> Result<Option<Vec<Hash>>, AllocError>
    ensures row { IfOk result (λ found. IfSome found (λ row. IsRow width bytes.now row.items)) }
    ensures none { IfOk result (λ found. IfNone found ((row : List (List ℕ))
        → ¬ IsRow width bytes.now row)) }
{
    match read_row(alloc, width, bytes) {
        Ok(row) => Ok(Some(row)),
        Err(RowFault::RowLength) => Ok(None),
        Err(RowFault::OutOfMemory) => Err(AllocError),
    }
}
