//! Why a state is not saved.
use std::fmt;

/// Why a mirror is not saved. It prints its variant's name.
/// A full disk, for example, gives a `WriteFault`.
#[derive(Debug, Drop, PartialEq, Eq, Clone, Copy)]
pub enum SaveFault {
    /// A write failed, or took no byte. A prefix of the text was written.
    WriteFault,
    /// Memory was refused.
    OutOfMemory,
}

/// Prints the name of the variant. A derived one takes the checker seconds more.
impl fmt::Display for SaveFault {
    fn fmt<W: fmt::Write>(&self, f: &mut fmt::Formatter<W>) -> fmt::Result {
        fmt::Debug::fmt(self, f)
    }
}

impl std::error::Error for SaveFault {}
