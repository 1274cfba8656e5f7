//! Why a pull ends early.
ghost use Rattle.std.specs.Prelude.{◌≡◌};
ghost use Rattle.mirror_pull.specs.Answering.{of_take};
ghost use Rattle.mirror_pull.specs.Faults.{of_source};
ghost use Rattle.mirror_pull.specs.declared.fault.PullFault.TheVariants.{OutOfMemory};

use mirror_model::TakeFault;
use mirror_sources::SourceFault;
use std::alloc::{AllocError, AllocFailed};
use std::fmt;

/// Why a pull ends early.
#[derive(Debug, Drop, PartialEq, Eq, Clone, Copy)]
pub enum PullFault {
    /// The source has no checkpoint. The mirror is unchanged.
    NoCheckpoint,
    /// Neither a row of the right edge nor a full tile of 8,192 bytes was found. The mirror is unchanged.
    NoEdge,
    /// The tree head was refused. The inner fault is never `Collision` or `OutOfMemory`. The mirror is unchanged.
    Head(TakeFault),
    /// The last get failed. The mirror keeps the items that it took.
    Source,
    /// The last item is valid but collides with held strings, and was not taken. The mirror keeps the earlier items.
    Collision,
    /// Memory was refused. The mirror keeps the items that it took.
    OutOfMemory,
}

/// Prints the name of the innermost variant. A derived one takes the checker seconds more.
impl fmt::Display for PullFault {
    fn fmt<W: fmt::Write>(&self, f: &mut fmt::Formatter<W>) -> fmt::Result {
        match self {
            PullFault::Head(fault) => fmt::Display::fmt(fault, f),
            _ => fmt::Debug::fmt(self, f),
        }
    }
}

impl std::error::Error for PullFault {}

impl From<TakeFault> for PullFault {
    ghost from_gives = { λ f e. e ≡ of_take f };

    fn from(f: TakeFault) -> PullFault {
        match f {
            TakeFault::OutOfMemory => PullFault::OutOfMemory,
            TakeFault::Collision => PullFault::Collision,
            _ => PullFault::Head(f),
        }
    }
}

impl From<SourceFault> for PullFault {
    ghost from_gives = { λ f e. e ≡ of_source f };

    fn from(f: SourceFault) -> PullFault {
        match f {
            SourceFault::Failed => PullFault::Source,
            SourceFault::OutOfMemory => PullFault::OutOfMemory,
        }
    }
}

impl From<AllocError> for PullFault {
    ghost from_gives = { λ _ e. e ≡ OutOfMemory };

    fn from(_e: AllocError) -> PullFault {
        PullFault::OutOfMemory
    }
}

impl<T: Drop> From<AllocFailed<T>> for PullFault {
    ghost from_gives = { λ _ e. e ≡ OutOfMemory };

    fn from(_e: AllocFailed<T>) -> PullFault {
        PullFault::OutOfMemory
    }
}
