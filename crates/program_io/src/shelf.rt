//! A counting shelf.
ghost use Rattle.std.specs.Prelude.{◌≡◌, IfOk, IfSome, OnOk, Some, length, option_map};
ghost use Rattle.tlog_tiles.specs.declared.paths.Path.TheVariants.{Checkpoint};
ghost use Rattle.mirror_folders.specs.Shelf.{RecordsPut, RecordsRead, CountsFailures};
ghost use Rattle.mirror_sources.specs.Recorded.{KeepsRecord};
ghost use Rattle.mirror_folders.specs.Flushes.{FlushesAll, SecuresAtOk};
ghost use Rattle.program_io.specs.Counting.{CountsPut};
ghost use Rattle.program_io.specs.ProgressText.{with_file};

use crate::folders::CountedFolders;
use crate::progress::Progress;
use crate::task::Task;
use mirror_folders::{DamagedFile, NamedFolders, ReadableShelf, Shelf, ShelfError};
use std::alloc::AllocError;
use std::io::Write;
use std::time::Clock;
use tlog_tiles::Path;

/// A shelf that puts onto another shelf, and counts each file that is put or noted as true, and its bytes: a file that is noted is the one
/// that was read last. In contracts, the files that were put, the files to flush and the failures are those of the inner shelf
/// (`counted_shelf_law`). If the inner shelf is one for folders with names, so is this one.
///
/// ```text
/// let mut shelf = CountingShelf::new(DirShelf::new(&rt, alloc, "log"), progress);
/// export(alloc, &mirror, &mut shelf)?;
/// shelf.progress.counts() // Counts { files: 3, bytes: 401 }
/// ```
#[derive(Drop)]
pub struct CountingShelf<S: Shelf + Drop, C: Clock + Drop, W: Write + Drop> {
    /// The inner shelf.
    pub shelf: S,
    /// The counts and their reports.
    pub progress: Progress<C, W>,
}

impl<S: Shelf + Drop, C: Clock + Drop, W: Write + Drop> CountingShelf<S, C, W> {
    /// A counting shelf over that shelf, with that progress.
    pub fn new(shelf: S, progress: Progress<C, W>) -> Self
        ensures shelf { result.shelf ≡ shelf }
        ensures progress { result.progress ≡ progress }
    {
        CountingShelf { shelf, progress }
    }
}

impl<S: Shelf + Drop, C: Clock + Drop, W: Write + Drop> Shelf for CountingShelf<S, C, W> {
    ghost puts = { λ s. S.puts s.shelf };

    ghost flushes = { λ s. S.flushes s.shelf };

    ghost failed = { λ s. S.failed s.shelf };

    ghost expected = { λ s. s.progress.all };

    fn has(&mut self, path: &Path) -> Result<bool, ShelfError> {
        self.shelf.has(path)
    }

    fn put(&mut self, path: &Path, bytes: &[u8]) -> Result<(), ShelfError>
        ensures recorded { RecordsPut (S.puts self.old.shelf) (S.puts self.new.shelf)
            (path.now, bytes.now) result }
        ensures secured { SecuresAtOk (λ p. p ≡ path.now) (S.flushes self.old.shelf)
            (S.flushes self.new.shelf) result }
        ensures flushed { OnOk result (path.now ≡ Checkpoint
            → FlushesAll (S.flushes self.old.shelf) (S.flushes self.new.shelf)) }
        ensures counted { CountsFailures (S.failed self.old.shelf) (S.failed self.new.shelf)
            result }
        ensures counts { CountsPut (length bytes.now) self.old.progress.counts
            self.new.progress.counts result }
    {
        self.shelf.put(path, bytes)?;
        self.progress.count(bytes.len());
        Ok(())
    }

    fn flush_before_checkpoint(&mut self, path: &Path) -> Result<(), ShelfError> {
        self.shelf.flush_before_checkpoint(path)
    }

    fn failures(&self) -> u64 {
        self.shelf.failures()
    }

    fn expect(&mut self, files: u64)
        ensures shelf { self.new.shelf ≡ self.old.shelf }
        ensures all { self.new.progress.all ≡ Some files }
        ensures puts { S.puts self.new.shelf ≡ S.puts self.old.shelf }
        ensures still { S.flushes self.new.shelf ≡ S.flushes self.old.shelf }
        ensures failed { S.failed self.new.shelf ≡ S.failed self.old.shelf }
    {
        self.progress.expect(files);
    }
}

impl<S: ReadableShelf + Drop, C: Clock + Drop, W: Write + Drop> ReadableShelf
    for CountingShelf<S, C, W> {
    fn read(&mut self, path: &Path) -> Result<Option<Vec<u8>>, ShelfError>
        ensures answer { IfOk result (λ found. RecordsRead (S.puts self.old.shelf) path.now
            (option_map (λ v. v.items) found)) }
        ensures same { KeepsRecord (S.puts self.old.shelf) (S.puts self.new.shelf) }
        ensures still { S.flushes self.new.shelf ≡ S.flushes self.old.shelf }
        ensures counted { CountsFailures (S.failed self.old.shelf) (S.failed self.new.shelf)
            result }
        ensures length { IfOk result (λ found. IfSome found
            (λ bytes. self.new.progress.last_len ≡ length bytes.items)) }
    {
        let found = self.shelf.read(path)?;
        if let Some(bytes) = &found {
            self.progress.expect_log(path, bytes);
        }
        Ok(found)
    }

    fn note_damaged(&mut self, path: &Path) {
        self.shelf.note_damaged(path);
    }

    fn note_true(&mut self, path: &Path)
        ensures puts { S.puts self.new.shelf ≡ S.puts self.old.shelf }
        ensures still { S.flushes self.new.shelf ≡ S.flushes self.old.shelf }
        ensures failed { S.failed self.new.shelf ≡ S.failed self.old.shelf }
        ensures counts { self.new.progress.counts ≡ with_file self.old.progress.counts
            self.old.progress.last_len }
    {
        self.shelf.note_true(path);
        self.progress.count_true();
    }

    fn first_damaged(&self) -> Option<DamagedFile> {
        self.shelf.first_damaged()
    }
}

impl<S: NamedFolders + Drop, C: Clock + Drop, W: Write + Drop> NamedFolders
    for CountingShelf<S, C, W> {
    ghost held = { λ s. S.held s.shelf };

    fn open(&mut self, name: &str) -> Result<(), AllocError> {
        self.shelf.open(name)
    }
}

impl<S: NamedFolders + Drop, C: Clock + Drop, W: Write + Drop> CountedFolders
    for CountingShelf<S, C, W> {
    fn begin(&mut self, task: Task) {
        self.progress.begin(task);
    }

    fn end(&mut self) {
        self.progress.report_done();
    }

    fn end_followed(&mut self, old: u64, size: u64) {
        self.progress.report_followed(old, size);
    }
}
