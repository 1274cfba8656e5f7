//! The reasons why a run of `follow` that repairs the copy first ended early.
use crate::follow_fault::FollowRunFault;
use copy_follow::BringFault;
use mirror_model::TakeFault;
use std::fmt;

/// The reason why a copy was not repaired. It prints as the name of the innermost variant.
#[derive(Debug, Drop, Clone, Copy)]
pub enum RepairFault {
    /// The copy's checkpoint does not open under the keys. Nothing was put.
    Note(TakeFault),
    /// `repair_copy` ended with this fault. Or the copy's checkpoint was not read: `ShelfFault` or `OutOfMemory`.
    Copy(BringFault),
}

/// Prints the name of the innermost variant. A derived one takes the checker seconds more.
impl fmt::Display for RepairFault {
    fn fmt<W: fmt::Write>(&self, f: &mut fmt::Formatter<W>) -> fmt::Result {
        match self {
            RepairFault::Note(fault) => fmt::Display::fmt(fault, f),
            RepairFault::Copy(fault) => fmt::Display::fmt(fault, f),
        }
    }
}

impl std::error::Error for RepairFault {}

/// The reason why such a run ended early, in the order of its steps. It prints as the name of the innermost variant.
#[derive(Debug, Drop, Clone, Copy)]
pub enum RepairRunFault {
    /// It ended before the repair, by `File`, `CopyInUse` or `OutOfMemory`. Nothing was put or written.
    Early(FollowRunFault),
    /// Memory for the line `repaired N` was refused. The copy was repaired before, or not, and nothing was written.
    OutOfMemory,
    /// The copy was not repaired. The line was written.
    Repair(RepairFault),
    /// The copy was not repaired, and the line could not be written either.
    RepairAndOutput(RepairFault),
    /// The copy was repaired, and the line was written. Then the run ended as one without a repair.
    Followed(FollowRunFault),
    /// The copy was repaired, but the line could not be written. The copy was followed nevertheless, with this fault. If there was none, this is
    /// `WriteFault`.
    Unprinted(FollowRunFault),
}

/// Prints the name of the innermost variant. A derived one takes the checker seconds more.
impl fmt::Display for RepairRunFault {
    fn fmt<W: fmt::Write>(&self, f: &mut fmt::Formatter<W>) -> fmt::Result {
        match self {
            RepairRunFault::Early(fault) => fmt::Display::fmt(fault, f),
            RepairRunFault::OutOfMemory => fmt::Debug::fmt(self, f),
            RepairRunFault::Repair(fault) => fmt::Display::fmt(fault, f),
            RepairRunFault::RepairAndOutput(fault) => fmt::Display::fmt(fault, f),
            RepairRunFault::Followed(fault) => fmt::Display::fmt(fault, f),
            RepairRunFault::Unprinted(fault) => fmt::Display::fmt(fault, f),
        }
    }
}

impl std::error::Error for RepairRunFault {}
