//! Why a mirror is not made or restored.
use std::fmt;

/// Why a mirror was not made. It prints its variant's name.
#[derive(Debug, Drop, PartialEq, Eq, Clone, Copy)]
pub enum NewFault {
    /// The origin is empty, has more than 65,535 bytes, or has a character below U+0020.
    BadOrigin,
    /// Memory was refused.
    OutOfMemory,
}

/// Prints the name of the variant. A derived one takes the checker longer.
impl fmt::Display for NewFault {
    fn fmt<W: fmt::Write>(&self, f: &mut fmt::Formatter<W>) -> fmt::Result {
        fmt::Debug::fmt(self, f)
    }
}

impl std::error::Error for NewFault {}

/// Why a tree head is not kept over the held strings. It prints its variant's name.
#[derive(Debug, Drop, PartialEq, Eq, Clone, Copy)]
pub enum RestoreFault {
    /// The bytes are no note, its text is no checkpoint of the mirror's origin, or no key accepts one of its lines.
    BadHead,
    /// The strings of its right edge are not held.
    UnheldEdge,
    /// Memory was refused.
    OutOfMemory,
}

/// Prints the name of the variant, as that of `NewFault`.
impl fmt::Display for RestoreFault {
    fn fmt<W: fmt::Write>(&self, f: &mut fmt::Formatter<W>) -> fmt::Result {
        fmt::Debug::fmt(self, f)
    }
}

impl std::error::Error for RestoreFault {}
