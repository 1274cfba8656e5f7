//! The reasons why a copy is not read.
ghost use Rattle.std.specs.Prelude.{◌≡◌};
ghost use Rattle.copy_reader.specs.Faults.{by_read, by_shelf};
ghost use Rattle.copy_reader.specs.declared.fault.CopyFault.TheVariants as copy;

use log_reader::ReadFault;
use mirror_folders::ShelfError;
use mirror_model::TakeFault;
use std::alloc::{AllocError, AllocFailed};
use std::fmt;
use tlog_tiles::Path;

/// The reason why a copy is not read. It prints as its variant's name, or as the name of the fault inside.
/// For example, `CopyDamaged(Path::Tile { level: 0, index: 1, width: 256 })` means that `tile/0/001` is missing or false.
#[derive(Drop, Clone, Copy)]
pub enum CopyFault {
    /// No log can have that origin.
    BadOrigin,
    /// The copy's checkpoint does not open under the keys, or is not one of the origin.
    Head(TakeFault),
    /// The file at the path is missing, or it does not lead to the root of the copy's checkpoint. The path is the checkpoint's if all
    /// rows of a proof lead to the root, but it does not hold.
    CopyDamaged(Path),
    /// A file of the copy cannot be read.
    ShelfFault,
    /// Memory was refused.
    OutOfMemory,
}

/// Prints the name of the innermost variant. A derived one takes the checker seconds more.
impl fmt::Display for CopyFault {
    fn fmt<W: fmt::Write>(&self, f: &mut fmt::Formatter<W>) -> fmt::Result {
        let name = match self {
            CopyFault::Head(fault) => return fmt::Display::fmt(fault, f),
            CopyFault::BadOrigin => "BadOrigin",
            CopyFault::CopyDamaged(_) => "CopyDamaged",
            CopyFault::ShelfFault => "ShelfFault",
            CopyFault::OutOfMemory => "OutOfMemory",
        };
        f.write_str(name)
    }
}

/// Prints what `Display` prints.
impl fmt::Debug for CopyFault {
    fn fmt<W: fmt::Write>(&self, f: &mut fmt::Formatter<W>) -> fmt::Result {
        fmt::Display::fmt(self, f)
    }
}

impl std::error::Error for CopyFault {}

impl From<ShelfError> for CopyFault {
    ghost from_gives = { λ e f. f ≡ by_shelf e };

    fn from(e: ShelfError) -> CopyFault {
        match e {
            ShelfError::Failed => CopyFault::ShelfFault,
            ShelfError::OutOfMemory => CopyFault::OutOfMemory,
        }
    }
}

impl From<ReadFault> for CopyFault {
    ghost from_gives = { λ e f. f ≡ by_read e };

    fn from(e: ReadFault) -> CopyFault {
        match e {
            ReadFault::NoFile(path) => CopyFault::CopyDamaged(path),
            ReadFault::FalseFile(path) => CopyFault::CopyDamaged(path),
            ReadFault::Collision => CopyFault::CopyDamaged(Path::Checkpoint),
            ReadFault::Source => CopyFault::ShelfFault,
            ReadFault::OutOfMemory => CopyFault::OutOfMemory,
        }
    }
}

impl From<AllocError> for CopyFault {
    ghost from_gives = { λ _ f. f ≡ copy.OutOfMemory };

    fn from(_e: AllocError) -> CopyFault {
        CopyFault::OutOfMemory
    }
}

impl<T: Drop> From<AllocFailed<T>> for CopyFault {
    ghost from_gives = { λ _ f. f ≡ copy.OutOfMemory };

    fn from(_e: AllocFailed<T>) -> CopyFault {
        CopyFault::OutOfMemory
    }
}
