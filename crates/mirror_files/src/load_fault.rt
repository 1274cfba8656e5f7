//! Why a state is not loaded.
use std::fmt;

/// Why a mirror is not loaded. Of the refusals of the bytes, it is the first that applies, in the order of the
/// variants. It prints its variant's name.
#[derive(Debug, Drop, PartialEq, Eq, Clone, Copy)]
pub enum LoadFault {
    /// The bytes begin like a state text of neither version.
    StateMagic,
    /// Too few bytes are left for an item, a list or the digest.
    StateShort,
    /// Bytes follow the digest.
    StateLong,
    /// The digest is not that of the bytes before it.
    StateDigest,
    /// The state has another origin.
    OtherOrigin,
    /// Notes, pairs, entries or strings are not strictly rising by their bytes.
    StateOrder,
    /// In version 1, a string is neither that of an entry of at most 65,535 bytes nor that of two hashes.
    StateString,
    /// A note is no note, its text is no checkpoint of the origin, or no key accepts one of its lines.
    StateHead,
    /// Two different strings have one digest.
    Collision,
    /// The strings of a checkpoint's right edge are not among the strings.
    StateEdge,
    /// A read failed, or the reader did not end within 16,777,216 reads.
    ReadFault,
    /// Memory was refused.
    OutOfMemory,
}

/// Prints the name of the variant. A derived one takes the checker seconds more.
impl fmt::Display for LoadFault {
    fn fmt<W: fmt::Write>(&self, f: &mut fmt::Formatter<W>) -> fmt::Result {
        fmt::Debug::fmt(self, f)
    }
}

impl std::error::Error for LoadFault {}
