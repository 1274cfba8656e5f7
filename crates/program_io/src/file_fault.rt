//! Why a named file was not read or not written.
use thiserror::Error;

/// Why a named file was not read, or not written. It prints its variant's name.
#[derive(Debug, Drop, Clone, Copy, Error)]
pub enum NamedFault {
    /// The file cannot be read or written, or has too many bytes.
    #[error("FileFault")]
    FileFault,
    /// Memory was refused.
    #[error("OutOfMemory")]
    OutOfMemory,
}
