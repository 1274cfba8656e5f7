//! The greatest length of a note, and the greatest number of its lines.

/// The greatest length of a note, in bytes.
pub(crate) const MAX_NOTE_LEN: usize = 1_000_000;

/// The greatest number of signature lines of a note.
pub(crate) const MAX_LINES: usize = 100;
