//! The reasons why a call of `follow` ends early.
ghost use Rattle.std.specs.Prelude.{◌≡◌};
ghost use Rattle.copy_follow.specs.Blame.{by_shelf, of_candidates};
ghost use Rattle.copy_follow.specs.declared.follow_fault.FollowFault.TheVariants as follow;

use copy_places::CandidateFault;
use mirror_folders::ShelfError;
use mirror_model::TakeFault;
use std::alloc::{AllocError, AllocFailed};
use std::fmt;

/// The reason why a call of `follow` ended early. It prints as its variant's name, or as the name of the fault inside.
#[derive(Debug, Drop, Clone, Copy)]
pub enum FollowFault {
    /// The first place lacks a checkpoint, and no place gives a candidate.
    NoCheckpoint,
    /// The given note is no candidate. Or no place gives a candidate, and this is the reason for the first place's checkpoint.
    Head(TakeFault),
    /// The shelf has a checkpoint, but not a copy of a log of the origin.
    CopyDamaged,
    /// The shelf's checkpoint changed since it was read first.
    CopyInUse,
    /// The shelf failed.
    ShelfFault,
    /// The greatest candidate has size 0, and its root is not the hash of the empty list.
    Contradiction,
    /// A bundle of a candidate collides with that of the copy. `follow` skips such a candidate, so it never returns this fault.
    Collision,
    /// No place gave a file of the greatest candidate.
    NoFile,
    /// The same, and a place failed. Or no place gives a candidate, and the first place failed.
    Source,
    /// Memory was refused.
    OutOfMemory,
}

/// Prints the name of the innermost variant. A derived one takes the checker seconds more.
impl fmt::Display for FollowFault {
    fn fmt<W: fmt::Write>(&self, f: &mut fmt::Formatter<W>) -> fmt::Result {
        match self {
            FollowFault::Head(fault) => fmt::Display::fmt(fault, f),
            _ => fmt::Debug::fmt(self, f),
        }
    }
}

impl std::error::Error for FollowFault {}

impl<T: Drop> From<AllocFailed<T>> for FollowFault {
    ghost from_gives = { λ _ e. e ≡ follow.OutOfMemory };

    fn from(_e: AllocFailed<T>) -> FollowFault {
        FollowFault::OutOfMemory
    }
}

impl From<AllocError> for FollowFault {
    ghost from_gives = { λ _ e. e ≡ follow.OutOfMemory };

    fn from(_e: AllocError) -> FollowFault {
        FollowFault::OutOfMemory
    }
}

impl From<ShelfError> for FollowFault {
    ghost from_gives = { λ e f. f ≡ by_shelf e };

    fn from(e: ShelfError) -> FollowFault {
        match e {
            ShelfError::Failed => FollowFault::ShelfFault,
            ShelfError::OutOfMemory => FollowFault::OutOfMemory,
        }
    }
}

impl From<CandidateFault> for FollowFault {
    ghost from_gives = { λ e f. f ≡ of_candidates e };

    fn from(e: CandidateFault) -> FollowFault {
        match e {
            CandidateFault::NoCheckpoint => FollowFault::NoCheckpoint,
            CandidateFault::Head(fault) => FollowFault::Head(fault),
            CandidateFault::Source => FollowFault::Source,
            CandidateFault::OutOfMemory => FollowFault::OutOfMemory,
        }
    }
}
