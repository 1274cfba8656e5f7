//! Why a note was refused, or does not open.
//!
//! A call returns the first fault that applies, in the order below. `OutOfMemory` may come before any of them.

use std::alloc::{AllocError, AllocFailed};
use std::fmt;

/// Why bytes were refused as a note.
#[derive(Debug, Drop, PartialEq, Eq, Clone, Copy)]
pub enum NoteFault {
    /// There are more than 1,000,000 bytes.
    NoteTooLong,
    /// The bytes are not UTF-8, or have a character below U+0020 other than newline.
    NotText,
    /// There is no blank line, or nothing after the last one.
    NoSignatures,
    /// The signature part has more than 100 lines. A last line without its newline counts.
    TooManySignatures,
    /// A line of the signature part has no newline, or is not an em dash, the name of a key and base64.
    BadSignatureLine,
    /// Memory was refused.
    OutOfMemory,
}

/// Prints the name of the variant. A derived one takes the checker seconds more.
impl fmt::Display for NoteFault {
    fn fmt<W: fmt::Write>(&self, f: &mut fmt::Formatter<W>) -> fmt::Result {
        fmt::Debug::fmt(self, f)
    }
}

impl std::error::Error for NoteFault {}

impl From<AllocError> for NoteFault {
    ghost use Rattle.std.specs.Prelude.{◌≡◌};
    ghost use Rattle.signed_note.specs.declared.fault.NoteFault.TheVariants.{OutOfMemory};

    ghost from_gives = { λ _ e. e ≡ OutOfMemory };

    fn from(_e: AllocError) -> NoteFault {
        NoteFault::OutOfMemory
    }
}

impl<T: Drop> From<AllocFailed<T>> for NoteFault {
    ghost use Rattle.std.specs.Prelude.{◌≡◌};
    ghost use Rattle.signed_note.specs.declared.fault.NoteFault.TheVariants.{OutOfMemory};

    ghost from_gives = { λ _ e. e ≡ OutOfMemory };

    fn from(_e: AllocFailed<T>) -> NoteFault {
        NoteFault::OutOfMemory
    }
}

/// Why a note does not open.
#[derive(Debug, Drop, PartialEq, Eq, Clone, Copy)]
pub enum OpenFault {
    /// No line has the name and id of a key that accepts the line's signature over the text.
    NoTrustedSignature,
}

/// Prints the name of the variant. A derived one takes the checker seconds more.
impl fmt::Display for OpenFault {
    fn fmt<W: fmt::Write>(&self, f: &mut fmt::Formatter<W>) -> fmt::Result {
        fmt::Debug::fmt(self, f)
    }
}

impl std::error::Error for OpenFault {}
