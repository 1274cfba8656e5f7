//! Rows of hashes: the bytes of tiles (C2SP tlog-tiles, "Merkle Tree").
ghost use Rattle.std.specs.Prelude.{◌≡◌, IfOk, length};
ghost use Rattle.tlog_tiles.specs.Row.{IsRow, ReadsRow};
ghost use Rattle.tlog_text.specs.Answers.{seen};
ghost use Rattle.tlog_tiles.specs.declared.row.RowFault.TheVariants.{OutOfMemory};

use std::alloc::{AllocError, AllocFailed, Global};
use std::fmt;
use tlog_hash::Hash;

/// Why bytes were refused as a row of a given width. For example, 33 bytes are not a row of width
/// 1.
#[derive(Debug, Drop, Clone, Copy)]
pub enum RowFault {
    /// The number of bytes is not 32 times the width.
    RowLength,
    /// Memory was refused.
    OutOfMemory,
}

/// Prints the name of the variant. A derived one takes the checker seconds more.
impl fmt::Display for RowFault {
    fn fmt<W: fmt::Write>(&self, f: &mut fmt::Formatter<W>) -> fmt::Result {
        fmt::Debug::fmt(self, f)
    }
}

impl std::error::Error for RowFault {}

impl From<AllocError> for RowFault {
    ghost from_gives = { λ _ e. e ≡ OutOfMemory };

    fn from(_e: AllocError) -> RowFault {
        RowFault::OutOfMemory
    }
}

impl<T: Drop> From<AllocFailed<T>> for RowFault {
    ghost from_gives = { λ _ e. e ≡ OutOfMemory };

    fn from(_e: AllocFailed<T>) -> RowFault {
        RowFault::OutOfMemory
    }
}

/// The `width` hashes of a row. Each has 32 bytes, and nothing follows the last hash.
///
/// Any width is accepted; a row of width 0 has no bytes (C2SP tlog-tiles, "Merkle Tree").
///
/// # Errors
///
/// `RowLength` exactly if the number of bytes is not `32 * width`. `OutOfMemory` may be returned
/// instead.
pub fn read_row(alloc: Global, width: u32, bytes: &[u8]) -> Result<Vec<Hash>, RowFault>
    ensures { ReadsRow width bytes.now (seen (λ v. v.items) result) }
{
    if bytes.len() as u64 != 32 * u64::from(width) {
        return Err(RowFault::RowLength);
    }
    let mut row = Vec::new(alloc);
    for i in 0..width as usize {
        let mut hash = [0u8; 32];
        hash.copy_from_slice(&bytes[32 * i..32 * i + 32]);
        row.push(hash)?;
    }
    Ok(row)
}

/// The bytes of a row of hashes, in order.
///
/// # Errors
///
/// Memory was refused.
pub fn write_row(alloc: Global, row: &[Hash]) -> Result<Vec<u8>, AllocError>
    ensures { IfOk result (λ v. IsRow (length row.now) v.items row.now) }
{
    let mut bytes = Vec::new(alloc);
    for hash in row {
        bytes.extend_from_slice(hash.as_slice())?;
    }
    Ok(bytes)
}
