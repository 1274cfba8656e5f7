//! A file of a shelf that does not verify.
use tlog_tiles::Path;

/// A file that a reader of a shelf needs, but which is missing or false: its path in the log, and which of the two it is.
///
/// ```text
/// shelf.note_damaged(&path);
/// shelf.first_damaged() // Some(DamagedFile { path, is_missing: false })
/// ```
#[derive(Drop, Clone, Copy)]
pub struct DamagedFile {
    /// The path.
    pub path: Path,
    /// Whether there is no file at the path.
    pub is_missing: bool,
}
