//! Keys and notes that the tests of `signed_note` share.

use signed_note::{HmacKey, KeyFault, Note, NoteFault};
use std::alloc::Global;

// The result of reading the bytes. The tests need no clause of it, or of the key below.
pub(crate) fn note_of(alloc: Global, bytes: &[u8]) -> Result<Note, NoteFault> {
    Note::read(alloc, bytes)
}

pub(crate) fn key_of(
    alloc: Global,
    name: &str,
    id: u32,
    secret: &[u8],
) -> Result<HmacKey, KeyFault> {
    HmacKey::new(alloc, name, id, secret)
}
