//! Why a command over a state or a copy, or over a bundle or a proof, was not done.
use program_copies::{CopyAskFault, CopyEntriesFault, StateEntriesFault};
use program_io::{CheckFault, HeadFilesFault, ListenFault, RootFault, StateFault};
use program_reports::AskFault;
use std::fmt;
use thiserror::Error as FaultText;
use tlog_mirror::NewFault;

/// Why a command that asks a state or a copy, or needs neither, was not done. It prints the name of the innermost variant.
#[derive(Drop, FaultText)]
pub enum ReportRunFault {
    /// The state file gave no mirror.
    #[error(transparent)]
    State(StateFault),
    /// The named files gave no checkpoints.
    #[error(transparent)]
    Heads(HeadFilesFault),
    /// There is no report on a state.
    #[error(transparent)]
    Ask(AskFault),
    /// Not all entries of a state were written.
    #[error(transparent)]
    StateEntries(StateEntriesFault),
    /// `root` printed no root.
    #[error(transparent)]
    Root(RootFault),
    /// `check` printed no verdict.
    #[error(transparent)]
    Check(CheckFault),
    /// The origin is invalid.
    #[error(transparent)]
    Origin(NewFault),
    /// There is no report on a copy.
    #[error(transparent)]
    Copy(CopyAskFault),
    /// Not all entries of a copy were written.
    #[error(transparent)]
    CopyEntries(CopyEntriesFault),
    /// Clients were not served.
    #[error(transparent)]
    Listen(ListenFault),
}

/// Prints what `Display` prints.
impl fmt::Debug for ReportRunFault {
    fn fmt<W: fmt::Write>(&self, f: &mut fmt::Formatter<W>) -> fmt::Result {
        fmt::Display::fmt(self, f)
    }
}

/// Such a fault, with the thing that it is about.
pub type ReportError = program_io::Error<ReportRunFault>;
