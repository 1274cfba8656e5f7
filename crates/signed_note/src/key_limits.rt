//! The greatest lengths of names, of secrets, and of texts to sign.

/// The greatest length of a text to sign, in bytes: the note then has room for a signature line.
pub(crate) const MAX_TEXT_LEN: usize = 900_000;

/// The greatest length of the name of a key of this crate, in bytes.
pub(crate) const MAX_NAME_LEN: usize = 255;

/// The greatest length of a shared secret, in bytes: one block of SHA-256.
pub(crate) const MAX_SECRET_LEN: usize = 64;
