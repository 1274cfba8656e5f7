//! Why a run of the program was not done.
use copy_commands::{PlaceRunFault, ReportRunFault};
use program_io::NamedFault;
use program_words::CommandFault;
use signed_note::KeyFileFault;
use state_commands::StateRunFault;
use std::fmt;
use thiserror::Error as FaultText;

/// Why a run was not done. It carries the faults of the calls, and prints the name of the innermost variant.
#[derive(Drop, FaultText)]
pub enum RunFault {
    /// The words are not those of a command.
    #[error(transparent)]
    Command(CommandFault),
    /// The key file was not read.
    #[error(transparent)]
    KeyFile(NamedFault),
    /// A line of the key file is no key.
    #[error(transparent)]
    KeyLines(KeyFileFault),
    /// A command that changes states, or writes files, was not done.
    #[error(transparent)]
    State(StateRunFault),
    /// A command that prints what a state, a copy, a bundle or a proof says was not done.
    #[error(transparent)]
    Report(ReportRunFault),
    /// A command over places was not done.
    #[error(transparent)]
    Place(PlaceRunFault),
    /// Memory was refused.
    #[error("OutOfMemory")]
    OutOfMemory,
}

/// Prints what `Display` prints.
impl fmt::Debug for RunFault {
    fn fmt<W: fmt::Write>(&self, f: &mut fmt::Formatter<W>) -> fmt::Result {
        fmt::Display::fmt(self, f)
    }
}

/// Such a fault, with the thing that it is about.
pub type Error = program_io::Error<RunFault>;
