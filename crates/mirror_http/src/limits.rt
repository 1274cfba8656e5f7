//! The greatest length of the head of a message.

/// The greatest length of a head, in bytes.
pub const MAX_REQUEST_LEN: usize = 8_192;

/// The greatest number of fields of a head.
pub const MAX_REQUEST_FIELDS: usize = 64;
