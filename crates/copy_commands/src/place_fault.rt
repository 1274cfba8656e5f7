//! Why a command over places was not done.
use program_copies::{AuditRunFault, FollowRunFault, RepairRunFault};
use std::fmt;
use thiserror::Error as FaultText;
use tlog_mirror::NewFault;

/// Why a command over places was not done. It prints the name of the innermost variant.
#[derive(Drop, FaultText)]
pub enum PlaceRunFault {
    /// The origin is invalid.
    #[error(transparent)]
    Origin(NewFault),
    /// A copy was not followed to the end.
    #[error(transparent)]
    Follow(FollowRunFault),
    /// A copy was not repaired, or then not followed to the end.
    #[error(transparent)]
    Repair(RepairRunFault),
    /// The files of a log are wrong or missing, or the log was not read to the end.
    #[error(transparent)]
    Audit(AuditRunFault),
    /// Memory was refused.
    #[error("OutOfMemory")]
    OutOfMemory,
}

/// Prints what `Display` prints.
impl fmt::Debug for PlaceRunFault {
    fn fmt<W: fmt::Write>(&self, f: &mut fmt::Formatter<W>) -> fmt::Result {
        fmt::Display::fmt(self, f)
    }
}

/// Such a fault, with the thing that it is about.
pub type PlaceError = program_io::Error<PlaceRunFault>;
