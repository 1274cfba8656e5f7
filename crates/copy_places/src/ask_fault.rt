//! Why a proof was not looked for to the end.
ghost use Rattle.std.specs.Prelude.{◌≡◌};
ghost use Rattle.copy_places.specs.Faults.{by_shelf};
ghost use Rattle.copy_places.specs.declared.ask_fault.AskFault.TheVariants.{OutOfMemory};

use mirror_folders::ShelfError;
use std::alloc::{AllocError, AllocFailed};
use std::fmt;

/// Why a proof was not looked for to the end. It prints as its variant's name.
#[derive(Debug, Drop, Clone, Copy)]
pub enum AskFault {
    /// Nobody has one of the files of the proof, or those that were had are of no log.
    NoFile,
    /// The shelf failed.
    ShelfFault,
    /// The places keep the answers for two other sizes.
    OtherFiles,
    /// Memory was refused.
    OutOfMemory,
}

/// Prints the name of the variant. A derived one takes the checker seconds more.
impl fmt::Display for AskFault {
    fn fmt<W: fmt::Write>(&self, f: &mut fmt::Formatter<W>) -> fmt::Result {
        fmt::Debug::fmt(self, f)
    }
}

impl std::error::Error for AskFault {}

impl From<ShelfError> for AskFault {
    ghost from_gives = { λ e f. f ≡ by_shelf e };

    fn from(e: ShelfError) -> AskFault {
        match e {
            ShelfError::Failed => AskFault::ShelfFault,
            ShelfError::OutOfMemory => AskFault::OutOfMemory,
        }
    }
}

impl From<AllocError> for AskFault {
    ghost from_gives = { λ _ e. e ≡ OutOfMemory };

    fn from(_e: AllocError) -> AskFault {
        AskFault::OutOfMemory
    }
}

impl<T: Drop> From<AllocFailed<T>> for AskFault {
    ghost from_gives = { λ _ e. e ≡ OutOfMemory };

    fn from(_e: AllocFailed<T>) -> AskFault {
        AskFault::OutOfMemory
    }
}
