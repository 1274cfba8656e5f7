//! Sources of the files of a log.
ghost use Rattle.std.specs.Prelude.{◌≡◌};
ghost use Rattle.mirror_sources.specs.declared.source.SourceFault.TheVariants.{OutOfMemory};

use std::alloc::{AllocError, AllocFailed};
use thiserror::Error;
use tlog_tiles::Path;

/// Why a source gave no answer. An example of `Failed` is a server that cannot be reached; a server without the file gave an
/// answer.
#[derive(Debug, Drop, PartialEq, Eq, Clone, Copy, Error)]
pub enum SourceFault {
    /// The source failed.
    #[error("Failed")]
    Failed,
    /// Memory was refused.
    #[error("OutOfMemory")]
    OutOfMemory,
}

impl From<AllocError> for SourceFault {
    ghost from_gives = { λ _ e. e ≡ OutOfMemory };

    fn from(_e: AllocError) -> SourceFault {
        SourceFault::OutOfMemory
    }
}

impl<T: Drop> From<AllocFailed<T>> for SourceFault {
    ghost from_gives = { λ _ e. e ≡ OutOfMemory };

    fn from(_e: AllocFailed<T>) -> SourceFault {
        SourceFault::OutOfMemory
    }
}

/// Returns the files of a log by their paths. `ListSource` makes them from a list of entries; other sources read a folder or
/// ask a server.
pub trait Source {
    ghost use Rattle.std.specs.Prelude.{◌≡◌, ℕ, List, Option, None, ⊤, IfOk, option_map};
    ghost use Rattle.tlog_tiles.specs.declared.paths.Path.{Path};
    ghost use Rattle.mirror_sources.specs.Source.{File, RecordsGet, CountsGet, StaysWithin};
    ghost use Rattle.mirror_sources.specs.Recorded.{KeepsRecord};

    /// The answers that may still come. By default, any answer may come.
    ghost may_answer: { Self → Path → Option (List ℕ) → Type 0 } = { λ _ _ _. ⊤ };

    /// The paths that were requested, oldest first, if the source records them.
    ghost asked: { Self → Option (List Path) } = { λ _. None };

    /// The files that were put into the source, oldest first, if they are known. A get or a hint does not change them.
    ghost files: { Self → Option (List File) } = { λ _. None };

    /// The number of gets that failed.
    ghost failed: { Self → ℕ };

    /// The bytes at a path, or None if there is no file.
    ///
    /// # Errors
    ///
    /// `Failed` if the source failed, which is counted, and `OutOfMemory` if memory was refused.
    fn get(&mut self, path: &Path) -> Result<Option<Vec<u8>>, SourceFault>
        ensures answer { IfOk result
            (λ bytes. may_answer self.old path.now (option_map (λ v. v.items) bytes)) }
        ensures later { StaysWithin (may_answer self.old) (may_answer self.new) }
        ensures kept { KeepsRecord (files self.old) (files self.new) }
        ensures recorded { RecordsGet (asked self.old) (asked self.new) path.now result }
        ensures counted { CountsGet (failed self.old) (failed self.new) result };

    /// A hint: these paths will be requested next, the first of them soonest.
    ///
    /// A source may fetch them ahead; by default it does nothing. A hint is not a get: it counts no failure, and allows no
    /// answer that could not come before. If memory is refused, the hint is ignored.
    fn expect(&mut self, _paths: &[Path])
        ensures later { StaysWithin (may_answer self.old) (may_answer self.new) }
        ensures kept { files self.new ≡ files self.old }
        ensures recorded { asked self.new ≡ asked self.old }
        ensures counted { failed self.new ≡ failed self.old }
    {}

    /// How many milliseconds a get took, on average over the last eight that had an answer. None if that is not known, which is
    /// the default. It decides nothing but which of several sources is asked first.
    fn reply_millis(&self) -> Option<u64> {
        None
    }

    /// The number of gets that failed. At the last value of a `u64` the count stays as it is.
    fn failures(&self) -> u64
        ensures { result ≡ failed self.now };
}
