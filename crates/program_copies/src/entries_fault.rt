//! The reasons why an audit printed nothing, and why entries were not written.
ghost use Rattle.std.specs.Prelude.{◌≡◌};
ghost use Rattle.program_copies.specs.Copied.{by_copy};

use copy_reader::{AuditFault, CopyFault};
use mirror_model::TakeFault;
use std::fmt;
use tlog_tiles::Path;

/// The reason why an audit printed no line. It prints as the name of the innermost variant, for example `FalseFile`.
#[derive(Drop, Clone, Copy)]
pub enum AuditRunFault {
    /// The log is not whole, or the audit could not continue. `NoFile` and `FalseFile` carry the path.
    Audit(AuditFault),
    /// A write failed, or wrote no byte. A prefix of the line may have been written.
    WriteFault,
}

/// Prints the name of the innermost variant. A derived one takes the checker seconds more.
impl fmt::Display for AuditRunFault {
    fn fmt<W: fmt::Write>(&self, f: &mut fmt::Formatter<W>) -> fmt::Result {
        let name = match self {
            AuditRunFault::Audit(fault) => return fmt::Display::fmt(fault, f),
            AuditRunFault::WriteFault => "WriteFault",
        };
        f.write_str(name)
    }
}

/// Prints what `Display` prints.
impl fmt::Debug for AuditRunFault {
    fn fmt<W: fmt::Write>(&self, f: &mut fmt::Formatter<W>) -> fmt::Result {
        fmt::Display::fmt(self, f)
    }
}

impl std::error::Error for AuditRunFault {}

/// The reason why some entries of a mirror were not written. It prints as its variant's name.
/// For example, the entries up to 601 of a log of 600 are `NoSuchSize`.
#[derive(Debug, Drop, Clone, Copy)]
pub enum StateEntriesFault {
    /// No tree head is complete, so nothing is served.
    NothingComplete,
    /// The mirror serves fewer entries than the end of the range.
    NoSuchSize,
    /// The start of the range is larger than its end.
    Backwards,
    /// A write failed, or wrote no byte. Entries that were written before stay.
    WriteFault,
    /// Memory was refused. Entries that were written before stay.
    OutOfMemory,
}

/// Prints the name of the variant. A derived one takes the checker seconds more.
impl fmt::Display for StateEntriesFault {
    fn fmt<W: fmt::Write>(&self, f: &mut fmt::Formatter<W>) -> fmt::Result {
        fmt::Debug::fmt(self, f)
    }
}

impl std::error::Error for StateEntriesFault {}

/// The reason why some entries of a copy were not written. It prints as its variant's name, or, for a checkpoint that does not open, as
/// that of the innermost variant. A copy without `tile/entries/001` gives `CopyDamaged` with that path, after the entries before it are
/// written.
#[derive(Drop, Clone, Copy)]
pub enum CopyEntriesFault {
    /// The folder has no checkpoint: the copy is empty.
    NothingComplete,
    /// The checkpoint does not open under the keys, or is not one of the origin. `OutOfMemory` never comes here.
    Head(TakeFault),
    /// The file is missing (for a partial file, its full file too), or it does not lead to the root. For edge rows, the path is that of the
    /// lowest row, or the checkpoint's if there are none. Entries that were written before stay.
    CopyDamaged(Path),
    /// A file could not be read. Entries that were written before stay.
    ShelfFault,
    /// The copy has fewer entries than the end of the range.
    NoSuchSize,
    /// The start of the range is larger than its end.
    Backwards,
    /// A write failed, or wrote no byte. Entries that were written before stay.
    WriteFault,
    /// Memory was refused. Entries that were written before stay.
    OutOfMemory,
}

/// Prints the name of the innermost variant. A derived one takes the checker seconds more.
impl fmt::Display for CopyEntriesFault {
    fn fmt<W: fmt::Write>(&self, f: &mut fmt::Formatter<W>) -> fmt::Result {
        let name = match self {
            CopyEntriesFault::Head(fault) => return fmt::Display::fmt(fault, f),
            CopyEntriesFault::NothingComplete => "NothingComplete",
            CopyEntriesFault::CopyDamaged(_) => "CopyDamaged",
            CopyEntriesFault::ShelfFault => "ShelfFault",
            CopyEntriesFault::NoSuchSize => "NoSuchSize",
            CopyEntriesFault::Backwards => "Backwards",
            CopyEntriesFault::WriteFault => "WriteFault",
            CopyEntriesFault::OutOfMemory => "OutOfMemory",
        };
        f.write_str(name)
    }
}

/// Prints what `Display` prints.
impl fmt::Debug for CopyEntriesFault {
    fn fmt<W: fmt::Write>(&self, f: &mut fmt::Formatter<W>) -> fmt::Result {
        fmt::Display::fmt(self, f)
    }
}

impl std::error::Error for CopyEntriesFault {}

/// The fault of `entries` for a fault of a copy. `BadOrigin` never comes.
pub(crate) fn fault_of(fault: CopyFault) -> CopyEntriesFault
    ensures { result ≡ by_copy fault }
{
    match fault {
        CopyFault::BadOrigin => CopyEntriesFault::CopyDamaged(Path::Checkpoint),
        CopyFault::Head(fault) => CopyEntriesFault::Head(fault),
        CopyFault::CopyDamaged(path) => CopyEntriesFault::CopyDamaged(path),
        CopyFault::ShelfFault => CopyEntriesFault::ShelfFault,
        CopyFault::OutOfMemory => CopyEntriesFault::OutOfMemory,
    }
}
