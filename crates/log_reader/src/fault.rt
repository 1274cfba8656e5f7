//! The reasons why a read of a log ends early.
ghost use Rattle.std.specs.Prelude.{◌≡◌};
ghost use Rattle.log_reader.specs.Faults.{by_source};
ghost use Rattle.log_reader.specs.declared.fault.ReadFault.TheVariants.{OutOfMemory};

use mirror_sources::SourceFault;
use std::alloc::{AllocError, AllocFailed};
use std::fmt;
use tlog_tiles::Path;

/// The reason why a read gave nothing. It prints as its variant's name.
/// For example, `NoFile(Path::Entries { index: 1, width: 256 })` means that the source lacks `tile/entries/001`.
#[derive(Drop, Clone, Copy)]
pub enum ReadFault {
    /// The source lacks the file. If it is a partial file, the source lacks its full file too.
    NoFile(Path),
    /// The file from the source does not lead to the root. For edge rows, the path is that of the lowest row, or the checkpoint's if
    /// there are none.
    FalseFile(Path),
    /// A proof made from rows that lead to the root does not hold: two different strings of them share a digest.
    Collision,
    /// The source failed.
    Source,
    /// Memory was refused.
    OutOfMemory,
}

impl ReadFault {
    // The name of the variant.
    fn name(&self) -> &'static str {
        match self {
            ReadFault::NoFile(_) => "NoFile",
            ReadFault::FalseFile(_) => "FalseFile",
            ReadFault::Collision => "Collision",
            ReadFault::Source => "Source",
            ReadFault::OutOfMemory => "OutOfMemory",
        }
    }
}

/// Prints the name of the variant. A derived one takes the checker seconds more.
impl fmt::Display for ReadFault {
    fn fmt<W: fmt::Write>(&self, f: &mut fmt::Formatter<W>) -> fmt::Result {
        f.write_str(self.name())
    }
}

/// Prints what `Display` prints.
impl fmt::Debug for ReadFault {
    fn fmt<W: fmt::Write>(&self, f: &mut fmt::Formatter<W>) -> fmt::Result {
        fmt::Display::fmt(self, f)
    }
}

impl std::error::Error for ReadFault {}

impl From<SourceFault> for ReadFault {
    ghost from_gives = { λ e f. f ≡ by_source e };

    fn from(e: SourceFault) -> ReadFault {
        match e {
            SourceFault::Failed => ReadFault::Source,
            SourceFault::OutOfMemory => ReadFault::OutOfMemory,
        }
    }
}

impl From<AllocError> for ReadFault {
    ghost from_gives = { λ _ e. e ≡ OutOfMemory };

    fn from(_e: AllocError) -> ReadFault {
        ReadFault::OutOfMemory
    }
}

impl<T: Drop> From<AllocFailed<T>> for ReadFault {
    ghost from_gives = { λ _ e. e ≡ OutOfMemory };

    fn from(_e: AllocFailed<T>) -> ReadFault {
        ReadFault::OutOfMemory
    }
}
