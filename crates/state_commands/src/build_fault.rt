//! Why a log was not built.
ghost use Rattle.std.specs.Prelude.{◌≡◌};
ghost use Rattle.state_commands.specs.declared.build_fault.BuildFault.TheVariants.{OutOfMemory};
ghost use Rattle.state_commands.specs.BuildFaults.{of_export, of_new, of_pull};

use mirror_files::ExportFault;
use mirror_pull::PullFault;
use std::alloc::AllocError;
use thiserror::Error;
use tlog_mirror::NewFault;

/// Why a log was not built. It prints the name of the innermost variant. For example, it prints `ShelfInUse` if the shelf
/// has a checkpoint already.
#[derive(Debug, Drop, Clone, Copy, Error)]
pub enum BuildFault {
    /// No mirror may have that origin: it is empty, has more than 65,535 bytes, or has a character below U+0020.
    #[error("BadOrigin")]
    BadOrigin,
    /// The pull of the log's own entries ended early. The inner fault is never `OutOfMemory`.
    #[error(transparent)]
    Pull(PullFault),
    /// The log was not put onto its shelf. The inner fault is never `OutOfMemory`.
    #[error(transparent)]
    Export(ExportFault),
    /// Memory was refused.
    #[error("OutOfMemory")]
    OutOfMemory,
}

impl From<NewFault> for BuildFault {
    ghost from_gives = { λ f u. u ≡ of_new f };

    fn from(fault: NewFault) -> BuildFault {
        match fault {
            NewFault::BadOrigin => BuildFault::BadOrigin,
            NewFault::OutOfMemory => BuildFault::OutOfMemory,
        }
    }
}

impl From<PullFault> for BuildFault {
    ghost from_gives = { λ f u. u ≡ of_pull f };

    fn from(fault: PullFault) -> BuildFault {
        match fault {
            PullFault::OutOfMemory => BuildFault::OutOfMemory,
            _ => BuildFault::Pull(fault),
        }
    }
}

impl From<ExportFault> for BuildFault {
    ghost from_gives = { λ f u. u ≡ of_export f };

    fn from(fault: ExportFault) -> BuildFault {
        match fault {
            ExportFault::OutOfMemory => BuildFault::OutOfMemory,
            _ => BuildFault::Export(fault),
        }
    }
}

impl From<AllocError> for BuildFault {
    ghost from_gives = { λ _ u. u ≡ OutOfMemory };

    fn from(_e: AllocError) -> BuildFault {
        BuildFault::OutOfMemory
    }
}
