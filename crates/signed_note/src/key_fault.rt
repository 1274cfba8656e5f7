//! Why a key or a key file was refused.
//!
//! A call returns the first fault that applies, in the order below. `OutOfMemory` may come before any of them.

use std::alloc::{AllocError, AllocFailed};
use std::fmt;

/// Why a key was refused.
#[derive(Debug, Drop, PartialEq, Eq, Clone, Copy)]
pub enum KeyFault {
    /// The name is empty, has over 255 bytes, or has Unicode white space, a plus or a character below
    /// U+0020.
    BadName,
    /// The secret is empty or has over 64 bytes.
    BadSecret,
    /// Memory was refused.
    OutOfMemory,
}

/// Prints the name of the variant. A derived one takes the checker seconds more.
impl fmt::Display for KeyFault {
    fn fmt<W: fmt::Write>(&self, f: &mut fmt::Formatter<W>) -> fmt::Result {
        fmt::Debug::fmt(self, f)
    }
}

impl std::error::Error for KeyFault {}

impl From<AllocError> for KeyFault {
    ghost use Rattle.std.specs.Prelude.{◌≡◌};
    ghost use Rattle.signed_note.specs.declared.key_fault.KeyFault.TheVariants.{OutOfMemory};

    ghost from_gives = { λ _ e. e ≡ OutOfMemory };

    fn from(_e: AllocError) -> KeyFault {
        KeyFault::OutOfMemory
    }
}

/// Why a key file was refused.
#[derive(Debug, Drop, Clone, Copy)]
pub enum KeyFileFault {
    /// The line with that number, counted from 1, is the first that gives no key.
    BadKeyLine(usize),
    /// Memory was refused.
    OutOfMemory,
}

/// Prints the name of the variant. A derived one takes the checker seconds more.
impl fmt::Display for KeyFileFault {
    fn fmt<W: fmt::Write>(&self, f: &mut fmt::Formatter<W>) -> fmt::Result {
        match self {
            KeyFileFault::BadKeyLine(_) => f.write_str("BadKeyLine"),
            KeyFileFault::OutOfMemory => f.write_str("OutOfMemory"),
        }
    }
}

impl std::error::Error for KeyFileFault {}

impl From<AllocError> for KeyFileFault {
    ghost use Rattle.std.specs.Prelude.{◌≡◌};
    ghost use Rattle.signed_note.specs.declared.key_fault.KeyFileFault.TheVariants.{OutOfMemory};

    ghost from_gives = { λ _ e. e ≡ OutOfMemory };

    fn from(_e: AllocError) -> KeyFileFault {
        KeyFileFault::OutOfMemory
    }
}

impl<T: Drop> From<AllocFailed<T>> for KeyFileFault {
    ghost use Rattle.std.specs.Prelude.{◌≡◌};
    ghost use Rattle.signed_note.specs.declared.key_fault.KeyFileFault.TheVariants.{OutOfMemory};

    ghost from_gives = { λ _ e. e ≡ OutOfMemory };

    fn from(_e: AllocFailed<T>) -> KeyFileFault {
        KeyFileFault::OutOfMemory
    }
}
