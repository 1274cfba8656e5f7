//! Shelves: places for the files of a log.
ghost use Rattle.std.specs.Prelude.{◌≡◌};
ghost use Rattle.mirror_folders.specs.declared.shelf.ShelfError.TheVariants.{OutOfMemory};

use crate::damaged::DamagedFile;
use std::alloc::AllocError;
use thiserror::Error;
use tlog_tiles::Path;

/// Why a call of a shelf failed. It prints its variant's name.
/// A folder without permission to write, for example, gives `Failed`.
#[derive(Debug, Drop, Clone, Copy, Error)]
pub enum ShelfError {
    /// The shelf failed.
    #[error("Failed")]
    Failed,
    /// Memory was refused.
    #[error("OutOfMemory")]
    OutOfMemory,
}

impl From<AllocError> for ShelfError {
    ghost from_gives = { λ _ e. e ≡ OutOfMemory };

    fn from(_e: AllocError) -> ShelfError {
        ShelfError::OutOfMemory
    }
}

/// Keeps the files of a log by their paths.
/// `DirShelf` keeps them in a folder, a file for each path, as `tile/0/000`.
pub trait Shelf {
    ghost use Rattle.std.specs.Prelude.{◌≡◌, ℕ, List, Option, None, IfOk, IfSome, OnOk};
    ghost use Rattle.tlog_tiles.specs.declared.paths.Path.TheVariants.{Checkpoint};
    ghost use Rattle.mirror_sources.specs.Recorded.{KeepsRecord};
    ghost use Rattle.mirror_folders.specs.Shelf.{Put, RecordsPut, RecordsHas, CountsFailures};
    ghost use Rattle.mirror_folders.specs.Flushes.{Flushes, FlushesAll, SecuresAtOk};

    /// The puts, the oldest first, if the shelf records them. Each path has the bytes of the last put there.
    ghost puts: { Self → Option (List Put) } = { λ _. None };

    /// The files that were put or found, and how many of them were flushed to the device, if the shelf records them.
    ghost flushes: { Self → Option Flushes } = { λ _. None };

    /// The number of calls that failed.
    ghost failed: { Self → ℕ };

    /// The number of files to put in all, if the shelf records it.
    ghost expected: { Self → Option ℕ } = { λ _. None };

    /// Whether there is a file at the path.
    ///
    /// # Errors
    ///
    /// `Failed` if the shelf failed, which is counted, and `OutOfMemory` if memory was refused. All that was put stays.
    fn has(&mut self, path: &Path) -> Result<bool, ShelfError>
        ensures answer { IfOk result (λ b. RecordsHas (puts self.old) path.now b) }
        ensures same { KeepsRecord (puts self.old) (puts self.new) }
        ensures still { flushes self.new ≡ flushes self.old }
        ensures counted { CountsFailures (failed self.old) (failed self.new) result };

    /// Puts a file at the path, as a whole. Before a checkpoint is put, all files that were put or found before it are flushed to
    /// the device.
    ///
    /// # Errors
    ///
    /// Those of `has`; the path is then unchanged.
    fn put(&mut self, path: &Path, bytes: &[u8]) -> Result<(), ShelfError>
        ensures recorded { RecordsPut (puts self.old) (puts self.new) (path.now, bytes.now) result }
        ensures secured { SecuresAtOk (λ p. p ≡ path.now) (flushes self.old) (flushes self.new)
            result }
        ensures flushed { OnOk result (path.now ≡ Checkpoint
            → FlushesAll (flushes self.old) (flushes self.new)) }
        ensures counted { CountsFailures (failed self.old) (failed self.new) result };

    /// The caller relies on the file at the path, as an earlier run may have put it. So it is flushed to the device
    /// before a checkpoint is put, like the files that this shelf puts. If there is no file, nothing is flushed.
    ///
    /// # Errors
    ///
    /// Those of `has`. All that was put stays.
    fn flush_before_checkpoint(&mut self, path: &Path) -> Result<(), ShelfError>
        ensures same { KeepsRecord (puts self.old) (puts self.new) }
        ensures secured { SecuresAtOk (λ p. p ≡ path.now) (flushes self.old) (flushes self.new)
            result }
        ensures counted { CountsFailures (failed self.old) (failed self.new) result };

    /// The number of calls that failed; the count stops at its greatest value, 2^64 - 1.
    fn failures(&self) -> u64
        ensures { result ≡ failed self.now };

    /// Announces the number of files to put in all. All that was put stays. A shelf that reports progress uses the
    /// number.
    fn expect(&mut self, files: u64)
        ensures puts { puts self.new ≡ puts self.old }
        ensures still { flushes self.new ≡ flushes self.old }
        ensures failed { failed self.new ≡ failed self.old }
        ensures expected { IfSome (expected self.new) (λ all. all ≡ files) };
}

/// A shelf whose files can be read.
/// `MemShelf` and `DirShelf` are such shelves: a read after a put gives the bytes that were put.
///
/// ```text
/// shelf.put(&Path::Checkpoint, b"a note")?;
/// shelf.read(&Path::Checkpoint)? // Some(b"a note")
/// ```
pub trait ReadableShelf: Shelf {
    ghost use Rattle.std.specs.Prelude.{◌≡◌, IfOk, option_map};
    ghost use Rattle.mirror_sources.specs.Recorded.{KeepsRecord};
    ghost use Rattle.mirror_folders.specs.Shelf.{RecordsRead, CountsFailures};

    /// The bytes of the file at the path, and `None` if there is no file.
    ///
    /// # Errors
    ///
    /// Those of `has`. All that was put stays.
    fn read(&mut self, path: &Path) -> Result<Option<Vec<u8>>, ShelfError>
        ensures answer { IfOk result
            (λ found. RecordsRead (Self.puts self.old) path.now (option_map (λ v. v.items) found)) }
        ensures same { KeepsRecord (Self.puts self.old) (Self.puts self.new) }
        ensures still { Self.flushes self.new ≡ Self.flushes self.old }
        ensures counted { CountsFailures (Self.failed self.old) (Self.failed self.new) result };

    /// The caller needs the file at the path, but it is missing or false. A shelf that can name such a file keeps the first one; this
    /// default keeps none. All that was put stays.
    fn note_damaged(&mut self, _path: &Path)
        ensures puts { Self.puts self.new ≡ Self.puts self.old }
        ensures still { Self.flushes self.new ≡ Self.flushes self.old }
        ensures failed { Self.failed self.new ≡ Self.failed self.old }
    {}

    /// The caller read the file at the path, and it is true. So it is where a partial file gave way to a full one that begins with its bytes.
    /// A shelf that reports progress counts it; this default does nothing. All that was put stays.
    fn note_true(&mut self, _path: &Path)
        ensures puts { Self.puts self.new ≡ Self.puts self.old }
        ensures still { Self.flushes self.new ≡ Self.flushes self.old }
        ensures failed { Self.failed self.new ≡ Self.failed self.old }
    {}

    /// The first file that was noted as missing or false. None: there was none, or it was not kept.
    fn first_damaged(&self) -> Option<DamagedFile> {
        None
    }
}
