//! The faults of bringing a copy to a checkpoint.
ghost use Rattle.std.specs.Prelude.{◌≡◌, ℕ, IsSome};
ghost use Rattle.copy_follow.specs.Conflicts.{IsNoConflict};
ghost use Rattle.copy_follow.specs.Faults.{BlamesPlaces, CountsFault, by_shelf};
ghost use Rattle.copy_follow.specs.declared.bring_fault.BringFault.TheVariants.{OutOfMemory};

use copy_places::Places;
use mirror_folders::ShelfError;
use mirror_sources::Source;
use std::alloc::{AllocError, AllocFailed};
use std::fmt;

/// The reason why a copy was not brought to a checkpoint. It prints as its variant's name.
#[derive(Debug, Drop, Clone, Copy)]
pub enum BringFault {
    /// The bytes are not a note whose text is a checkpoint of the origin.
    BadCheckpoint,
    /// The shelf has a checkpoint, but not a copy of a log of the origin.
    CopyDamaged,
    /// The copy has at least as many entries as the checkpoint.
    NotLarger,
    /// A row of the larger tree does not begin with the copy's row.
    Contradiction,
    /// The rows begin with the copy's rows, but the bundle does not begin with the copy's bundle.
    Collision,
    /// Neither the shelf nor a place has a file that verifies. No place failed in this call.
    NoFile,
    /// Neither the shelf nor a place has a file that verifies. A place failed in this call.
    Source,
    /// The shelf's checkpoint changed since the caller or this call read it.
    CopyInUse,
    /// The shelf failed.
    ShelfFault,
    /// Memory was refused.
    OutOfMemory,
}

/// Prints the name of the variant. A derived one takes the checker seconds more.
impl fmt::Display for BringFault {
    fn fmt<W: fmt::Write>(&self, f: &mut fmt::Formatter<W>) -> fmt::Result {
        fmt::Debug::fmt(self, f)
    }
}

impl std::error::Error for BringFault {}

impl From<ShelfError> for BringFault {
    ghost from_gives = { λ e f. f ≡ by_shelf e };

    fn from(e: ShelfError) -> BringFault {
        match e {
            ShelfError::Failed => BringFault::ShelfFault,
            ShelfError::OutOfMemory => BringFault::OutOfMemory,
        }
    }
}

impl From<AllocError> for BringFault {
    ghost from_gives = { λ _ e. e ≡ OutOfMemory };

    fn from(_e: AllocError) -> BringFault {
        BringFault::OutOfMemory
    }
}

impl<T: Drop> From<AllocFailed<T>> for BringFault {
    ghost from_gives = { λ _ e. e ≡ OutOfMemory };

    fn from(_e: AllocFailed<T>) -> BringFault {
        BringFault::OutOfMemory
    }
}

/// The fault after neither the shelf nor a place gave a file.
pub(crate) fn fault_of<S: Source + Drop>(places: &Places<S>) -> BringFault
    requires { IsSome places.now.lacked }
    ensures blames { BlamesPlaces places.now result }
    ensures fault { IsNoConflict result }
    ensures counted { (n : ℕ) → CountsFault n n result }
{
    if places.has_failed() {
        BringFault::Source
    } else {
        BringFault::NoFile
    }
}
