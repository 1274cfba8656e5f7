//! The greatest lengths of paths and of texts of proofs.

/// The greatest number of hashes in the path of a proof's text.
pub(crate) const MAX_PATH: usize = 64;

/// The greatest length of a proof's text, in bytes; a reader may stop there. The longest text has 3,365 bytes.
pub const MAX_TEXT_LEN: usize = 8192;
