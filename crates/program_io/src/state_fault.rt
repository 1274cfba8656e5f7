//! Why a state file gave no mirror, and why files gave no checkpoints. Each fault prints the name of the innermost variant.
use crate::NamedFault;
use mirror_files::LoadFault;
use thiserror::Error;
use tlog_mirror::{NewFault, TakeFault};

/// Why a state file gave no mirror.
#[derive(Debug, Drop, Clone, Copy, Error)]
pub enum StateFault {
    /// The origin is invalid.
    #[error(transparent)]
    Origin(NewFault),
    /// The file was not read.
    #[error(transparent)]
    File(NamedFault),
    /// The bytes of the file are not a valid state.
    #[error(transparent)]
    Load(LoadFault),
}

/// Why no checkpoints were read from files. The variants are in the order of the checks.
#[derive(Debug, Drop, Clone, Copy, Error)]
pub enum HeadFilesFault {
    /// A file was not read.
    #[error(transparent)]
    File(NamedFault),
    /// A file holds no checkpoint of the log that opens under the keys.
    #[error(transparent)]
    Head(TakeFault),
}
