//! Why an export or an update ends early.
ghost use Rattle.std.specs.Prelude.{◌≡◌};
ghost use Rattle.mirror_files.specs.Faults.{of_shelf, update_of_shelf};

use mirror_folders::ShelfError;
use std::fmt;

/// Why an export ends early. It prints its variant's name.
/// A mirror that holds only a note serves nothing, and the fault is `NothingComplete`.
#[derive(Debug, Drop, PartialEq, Eq, Clone, Copy)]
pub enum ExportFault {
    /// Nothing is served.
    NothingComplete,
    /// A checkpoint is on the shelf.
    ShelfInUse,
    /// The shelf failed.
    ShelfFault,
    /// Memory was refused.
    OutOfMemory,
}

/// Prints the name of the variant. A derived one takes the checker seconds more.
impl fmt::Display for ExportFault {
    fn fmt<W: fmt::Write>(&self, f: &mut fmt::Formatter<W>) -> fmt::Result {
        fmt::Debug::fmt(self, f)
    }
}

impl std::error::Error for ExportFault {}

impl From<ShelfError> for ExportFault {
    ghost from_gives = { λ e f. f ≡ of_shelf e };

    fn from(e: ShelfError) -> ExportFault {
        match e {
            ShelfError::Failed => ExportFault::ShelfFault,
            ShelfError::OutOfMemory => ExportFault::OutOfMemory,
        }
    }
}

/// Why an update ends early. It prints its variant's name.
/// For a folder with the checkpoint of another log the fault is `OtherLog`.
#[derive(Debug, Drop, PartialEq, Eq, Clone, Copy)]
pub enum UpdateFault {
    /// Nothing is served.
    NothingComplete,
    /// The served log does not extend the folder's checkpoint.
    OtherLog,
    /// The shelf failed.
    ShelfFault,
    /// Memory was refused.
    OutOfMemory,
}

/// Prints the name of the variant. A derived one takes the checker seconds more.
impl fmt::Display for UpdateFault {
    fn fmt<W: fmt::Write>(&self, f: &mut fmt::Formatter<W>) -> fmt::Result {
        fmt::Debug::fmt(self, f)
    }
}

impl std::error::Error for UpdateFault {}

impl From<ShelfError> for UpdateFault {
    ghost from_gives = { λ e f. f ≡ update_of_shelf e };

    fn from(e: ShelfError) -> UpdateFault {
        match e {
            ShelfError::Failed => UpdateFault::ShelfFault,
            ShelfError::OutOfMemory => UpdateFault::OutOfMemory,
        }
    }
}
