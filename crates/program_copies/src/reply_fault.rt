//! The reasons why a client was not answered from a copy.
ghost use Rattle.std.specs.Prelude.{◌≡◌};
ghost use Rattle.program_copies.specs.Faults.{by_body};

use crate::keys::KeysFault;
use copy_reader::CopyFault;
use mirror_http::HttpFault;
use mirror_model::TakeFault;
use tlog_tiles::Path;

/// The reason why a client was not answered from a copy, or was answered by `500 Internal Server Error`.
#[derive(Drop, Clone, Copy)]
pub enum CopyAnswerFault {
    /// A read or a write failed, or memory was refused, as for a mirror.
    Http(HttpFault),
    /// The file at the path is missing, or does not verify up to the checkpoint's root. For the checkpoint's path: it is not a checkpoint
    /// of the origin. The client got the reply 500.
    CopyDamaged(Path),
    /// A file of the copy cannot be read. The client got the reply 500.
    ShelfFault,
    /// The copy's checkpoint does not open under the keys, or is not one of the origin. The client got the reply 500.
    Head(TakeFault),
    /// The keys cannot be read for a new checkpoint. The client got the reply 500.
    KeyFile(KeysFault),
}

/// The client's fault for a fault of a body. The body itself never has `BadOrigin` or `Head`.
pub(crate) fn answer_fault(fault: CopyFault) -> CopyAnswerFault
    ensures { result ≡ by_body fault }
{
    match fault {
        CopyFault::BadOrigin => CopyAnswerFault::CopyDamaged(Path::Checkpoint),
        CopyFault::Head(_) => CopyAnswerFault::CopyDamaged(Path::Checkpoint),
        CopyFault::CopyDamaged(path) => CopyAnswerFault::CopyDamaged(path),
        CopyFault::ShelfFault => CopyAnswerFault::ShelfFault,
        CopyFault::OutOfMemory => CopyAnswerFault::Http(HttpFault::OutOfMemory),
    }
}
