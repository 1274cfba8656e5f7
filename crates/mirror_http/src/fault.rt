//! Why a client got no reply.
ghost use Rattle.std.specs.Prelude.{◌≡◌};
ghost use Rattle.mirror_http.specs.declared.fault.HttpFault.TheVariants.{OutOfMemory};

use std::alloc::AllocError;
use thiserror::Error;

/// Why a client got no reply.
#[derive(Debug, Drop, PartialEq, Eq, Clone, Copy, Error)]
pub enum HttpFault {
    /// A read failed. Nothing was written.
    #[error("ReadFault")]
    ReadFault,
    /// A write failed, or took no byte. A prefix of the reply was written.
    #[error("WriteFault")]
    WriteFault,
    /// Memory was refused.
    #[error("OutOfMemory")]
    OutOfMemory,
}

impl From<AllocError> for HttpFault {
    ghost from_gives = { λ _ e. e ≡ OutOfMemory };

    fn from(_e: AllocError) -> HttpFault {
        HttpFault::OutOfMemory
    }
}
