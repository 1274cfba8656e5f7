//! Why a command that changes states, or writes files, was not done.
use crate::{BuildFault, EntriesFault, FolderFault, MergeFilesFault, NotesFault, TakeFilesFault};
use mirror_pull::PullFault;
use program_io::{NamedFault, StateFault};
use std::fmt;
use thiserror::Error as FaultText;
use tlog_mirror::NewFault;

/// Why a command that changes states, or writes files, was not done. It prints the name of the innermost variant.
#[derive(Drop, FaultText)]
pub enum StateRunFault {
    /// The key file has no key that signs.
    #[error("NoSigningKey")]
    NoSigningKey,
    /// The origin is invalid.
    #[error(transparent)]
    Origin(NewFault),
    /// The state file gave no mirror.
    #[error(transparent)]
    State(StateFault),
    /// Standard input gave no entries.
    #[error(transparent)]
    Entries(EntriesFault),
    /// No complete log was made.
    #[error(transparent)]
    Build(BuildFault),
    /// `take` wrote no state.
    #[error(transparent)]
    Take(TakeFilesFault),
    /// `merge` wrote no state.
    #[error(transparent)]
    Merge(MergeFilesFault),
    /// A pull ended early.
    #[error(transparent)]
    Pull(PullFault),
    /// The state after a pull was not written.
    #[error(transparent)]
    Out(NamedFault),
    /// Not all files were exported, or a folder was not brought up to date.
    #[error(transparent)]
    Export(FolderFault),
    /// Not all notes were written.
    #[error(transparent)]
    Notes(NotesFault),
    /// A write to standard output failed, or took no byte. A prefix of the text may have been written.
    #[error("WriteFault")]
    WriteFault,
    /// Memory was refused.
    #[error("OutOfMemory")]
    OutOfMemory,
}

/// Prints what `Display` prints.
impl fmt::Debug for StateRunFault {
    fn fmt<W: fmt::Write>(&self, f: &mut fmt::Formatter<W>) -> fmt::Result {
        fmt::Display::fmt(self, f)
    }
}

/// Such a fault, with the thing that it is about.
pub type Error = program_io::Error<StateRunFault>;
