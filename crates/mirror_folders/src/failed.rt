//! Why a file of a folder was not read or put.
use std::io;
use tlog_tiles::Path;

/// A file of a folder that was not read or not put: its path in the log, and the error of the system.
///
/// ```text
/// if let Some(failed) = shelf.last_failed() {
///     println!(rt; "log/{}: {}", failed.path, failed.error)?; // log/tile/0/000: No space left on device (os error 28)
/// }
/// ```
#[derive(Drop, Clone, Copy)]
pub struct FailedFile {
    /// The path.
    pub path: Path,
    /// The error of the system.
    pub error: io::Error,
}
