//! The reasons why there is no candidate.
ghost use Rattle.std.specs.Prelude.{◌≡◌};
ghost use Rattle.copy_places.specs.declared.candidate_fault.CandidateFault.TheVariants.{OutOfMemory};

use mirror_model::TakeFault;
use std::alloc::{AllocError, AllocFailed};
use std::fmt;

/// The reason why places give no candidate. It prints as its variant's name, or as the name of the fault inside.
#[derive(Debug, Drop, Clone, Copy)]
pub enum CandidateFault {
    /// The first place lacks a checkpoint, and no place gives a candidate.
    NoCheckpoint,
    /// The checkpoint of the first place, or the given note, is no candidate.
    Head(TakeFault),
    /// A place failed.
    Source,
    /// Memory was refused.
    OutOfMemory,
}

/// Prints the name of the innermost variant. A derived one takes the checker seconds more.
impl fmt::Display for CandidateFault {
    fn fmt<W: fmt::Write>(&self, f: &mut fmt::Formatter<W>) -> fmt::Result {
        match self {
            CandidateFault::Head(fault) => fmt::Display::fmt(fault, f),
            _ => fmt::Debug::fmt(self, f),
        }
    }
}

impl std::error::Error for CandidateFault {}

impl From<AllocError> for CandidateFault {
    ghost from_gives = { λ _ e. e ≡ OutOfMemory };

    fn from(_e: AllocError) -> CandidateFault {
        CandidateFault::OutOfMemory
    }
}

impl<T: Drop> From<AllocFailed<T>> for CandidateFault {
    ghost from_gives = { λ _ e. e ≡ OutOfMemory };

    fn from(_e: AllocFailed<T>) -> CandidateFault {
        CandidateFault::OutOfMemory
    }
}
