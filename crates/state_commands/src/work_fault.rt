//! Why a command over named files is not done.
use mirror_files::{ExportFault, UpdateFault};
use program_io::{NamedFault, StateFault};
use thiserror::Error;
use tlog_mirror::{MergeFault, TakeFault};

/// Why no item was taken. The variants are in the order of the checks. It prints the name of the innermost variant.
#[derive(Debug, Drop, Clone, Copy, Error)]
pub enum TakeFilesFault {
    /// There is no mirror to begin with.
    #[error(transparent)]
    State(StateFault),
    /// A file of the item was not read.
    #[error(transparent)]
    Item(NamedFault),
    /// The item was refused.
    #[error(transparent)]
    Take(TakeFault),
    /// The new state was not written.
    #[error(transparent)]
    Out(NamedFault),
}

/// Why two states were not merged. The variants are in the order of the checks. It prints the name of the innermost variant.
#[derive(Debug, Drop, Clone, Copy, Error)]
pub enum MergeFilesFault {
    /// The first file gave no mirror.
    #[error(transparent)]
    First(StateFault),
    /// The second file gave no mirror.
    #[error(transparent)]
    Second(StateFault),
    /// The second mirror was refused.
    #[error(transparent)]
    Merge(MergeFault),
    /// The new state was not written.
    #[error(transparent)]
    Out(NamedFault),
}

/// Why the files of a mirror were not put into a folder. The variants are in the order of the checks. It prints the name of the innermost
/// variant.
#[derive(Debug, Drop, Clone, Copy, Error)]
pub enum FolderFault {
    /// The state file gave no mirror.
    #[error(transparent)]
    State(StateFault),
    /// Memory for the folder's name was refused.
    #[error("OutOfMemory")]
    OutOfMemory,
    /// Of `export`: nothing is served, or not all files were put.
    #[error(transparent)]
    Export(ExportFault),
    /// Of `export --update`: the folder was not updated.
    #[error(transparent)]
    Update(UpdateFault),
}

/// Why not all notes were written. The variants are in the order of the checks. It prints the name of the innermost variant.
#[derive(Debug, Drop, Clone, Copy, Error)]
pub enum NotesFault {
    /// The state file gave no mirror.
    #[error(transparent)]
    State(StateFault),
    /// Memory for the list of notes was refused.
    #[error("OutOfMemory")]
    OutOfMemory,
    /// The folder was not made.
    #[error(transparent)]
    Folder(NamedFault),
    /// A note was not written, or its name is of something else than a plain file with its bytes.
    #[error(transparent)]
    Note(NamedFault),
    /// All notes were written, but they were not flushed to the device.
    #[error(transparent)]
    Flush(NamedFault),
}
