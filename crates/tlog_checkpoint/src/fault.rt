//! Why a text is not a checkpoint.

ghost use Rattle.std.specs.Prelude.{◌≡◌};
ghost use Rattle.tlog_checkpoint.specs.declared.fault.CheckpointFault.TheVariants.{OutOfMemory};

use std::alloc::{AllocError, AllocFailed};
use std::error::Error;
use std::fmt;

/// Why a text was refused as a checkpoint. The first fault that applies, in this order, is
/// returned; `OutOfMemory` may come before any of them.
#[derive(Debug, Drop, PartialEq, Eq, Clone, Copy)]
pub enum CheckpointFault {
    /// The text has fewer than three lines, or bytes after its last newline.
    TooFewLines,
    /// A line is empty. Extension lines count too.
    EmptyLine,
    /// The second line is not decimal digits, or has a leading zero before another digit.
    BadSize,
    /// The size is over 9223372036854775807, however many digits it has.
    SizeTooLarge,
    /// The third line is not the standard base64 of exactly 32 bytes, padded and canonical.
    BadRoot,
    /// Memory was refused.
    OutOfMemory,
}

/// Prints the name of the variant. A derived one takes the checker seconds more.
impl fmt::Display for CheckpointFault {
    fn fmt<W: fmt::Write>(&self, f: &mut fmt::Formatter<W>) -> fmt::Result {
        fmt::Debug::fmt(self, f)
    }
}

impl Error for CheckpointFault {}

impl From<AllocError> for CheckpointFault {
    ghost from_gives = { λ _ e. e ≡ OutOfMemory };

    fn from(_e: AllocError) -> CheckpointFault {
        CheckpointFault::OutOfMemory
    }
}

impl<T: Drop> From<AllocFailed<T>> for CheckpointFault {
    ghost from_gives = { λ _ e. e ≡ OutOfMemory };

    fn from(_e: AllocFailed<T>) -> CheckpointFault {
        CheckpointFault::OutOfMemory
    }
}
