//! The reasons why an audit ends early.
ghost use Rattle.std.specs.Prelude.{◌≡◌};
ghost use Rattle.copy_reader.specs.AuditFaults.{fault_of_head, fault_of_source};
ghost use Rattle.copy_reader.specs.declared.audit_fault.AuditFault.TheVariants.{OutOfMemory};

use mirror_model::TakeFault;
use mirror_sources::SourceFault;
use std::alloc::{AllocError, AllocFailed};
use std::fmt;
use tlog_tiles::Path;

/// The reason why an audit ends early: the first thing that is wrong. It prints as its variant's name, or as the name of the fault inside.
#[derive(Drop, Clone, Copy)]
pub enum AuditFault {
    /// The source lacks a checkpoint.
    NoCheckpoint,
    /// The checkpoint does not open under the keys, or is not one of the origin. `OutOfMemory` never comes here.
    Head(TakeFault),
    /// The source lacks a partial tile of the right edge, and its full tile.
    NoEdge,
    /// The source lacks the file. If it is a partial bundle, the source lacks its full bundle too.
    NoFile(Path),
    /// The file differs from that of the log of the checkpoint. If a full file replaces a partial one, the path is that of the partial
    /// one.
    FalseFile(Path),
    /// The source failed.
    Source,
    /// Memory was refused.
    OutOfMemory,
}

/// Prints the name of the innermost variant. A derived one takes the checker seconds more.
impl fmt::Display for AuditFault {
    fn fmt<W: fmt::Write>(&self, f: &mut fmt::Formatter<W>) -> fmt::Result {
        let name = match self {
            AuditFault::Head(fault) => return fmt::Display::fmt(fault, f),
            AuditFault::NoCheckpoint => "NoCheckpoint",
            AuditFault::NoEdge => "NoEdge",
            AuditFault::NoFile(_) => "NoFile",
            AuditFault::FalseFile(_) => "FalseFile",
            AuditFault::Source => "Source",
            AuditFault::OutOfMemory => "OutOfMemory",
        };
        f.write_str(name)
    }
}

/// Prints what `Display` prints.
impl fmt::Debug for AuditFault {
    fn fmt<W: fmt::Write>(&self, f: &mut fmt::Formatter<W>) -> fmt::Result {
        fmt::Display::fmt(self, f)
    }
}

impl std::error::Error for AuditFault {}

impl From<TakeFault> for AuditFault {
    ghost from_gives = { λ f e. e ≡ fault_of_head f };

    fn from(f: TakeFault) -> AuditFault {
        match f {
            TakeFault::OutOfMemory => AuditFault::OutOfMemory,
            _ => AuditFault::Head(f),
        }
    }
}

impl From<SourceFault> for AuditFault {
    ghost from_gives = { λ f e. e ≡ fault_of_source f };

    fn from(f: SourceFault) -> AuditFault {
        match f {
            SourceFault::Failed => AuditFault::Source,
            SourceFault::OutOfMemory => AuditFault::OutOfMemory,
        }
    }
}

impl From<AllocError> for AuditFault {
    ghost from_gives = { λ _ e. e ≡ OutOfMemory };

    fn from(_e: AllocError) -> AuditFault {
        AuditFault::OutOfMemory
    }
}

impl<T: Drop> From<AllocFailed<T>> for AuditFault {
    ghost from_gives = { λ _ e. e ≡ OutOfMemory };

    fn from(_e: AllocFailed<T>) -> AuditFault {
        AuditFault::OutOfMemory
    }
}
