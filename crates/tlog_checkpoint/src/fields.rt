//! The size and the root of a checkpoint, read from their lines.

ghost use Rattle.tlog_checkpoint.specs.Parts.{ReadsSize, ReadsRoot};

use crate::fault::CheckpointFault;
use tlog_hash::Hash;
use tlog_shape::MAX_SIZE;
use tlog_text::{NumberFault, read_hash, read_number};

/// The size that the line gives in decimal digits, however many there are.
pub fn size_of(line: &str) -> Result<u64, CheckpointFault>
    ensures { ReadsSize line.now result }
{
    match read_number(line, MAX_SIZE) {
        Ok(size) => Ok(size),
        Err(NumberFault::NotANumber) => Err(CheckpointFault::BadSize),
        Err(NumberFault::TooLarge) => Err(CheckpointFault::SizeTooLarge),
    }
}

/// The hash that the line gives in base64.
pub fn root_of(line: &str) -> Result<Hash, CheckpointFault>
    ensures { ReadsRoot line.now result }
{
    match read_hash(line) {
        Some(root) => Ok(root),
        None => Err(CheckpointFault::BadRoot),
    }
}
