//! A folder as a shelf.
ghost use Rattle.std.specs.Prelude.{◌≡◌, ◌≢◌, [], Contains, OnOk};
ghost use Rattle.tlog_tiles.specs.declared.paths.Path.TheVariants.{Checkpoint};
ghost use Rattle.mirror_folders.specs.Shelf.{CountsFailures};

use crate::damaged::DamagedFile;
use crate::failed::FailedFile;
use crate::flush::flush_folder;
use crate::folders::NamedFolders;
use crate::leftovers::Leftovers;
use crate::place::{count_failure, file_path, folder_of, is_there};
use crate::reading::read_file;
use crate::replace::put_whole;
use crate::shelf::{ReadableShelf, Shelf, ShelfError};
use crate::unflushed::Unflushed;
use std::alloc::{AllocError, Global};
use std::fs::Files;
use std::io::ErrorKind;
use std::marker::Model;
use std::{fs, io, mem};
use tlog_tiles::Path;

/// A folder as a shelf: the path of a file is the folder's path, a slash, and the text of its path in the log. It makes
/// missing folders, and replaces each file as a whole, like `replace_file`.
///
/// Before it puts a checkpoint, it flushes to the device all that was put and the folders of these files. So the
/// files of a checkpoint are on the device before the checkpoint is in the folder. It flushes parts of at most 1,024
/// files: memory does not grow with the log.
///
/// No contract says which files a folder holds: contracts see the number of calls that failed.
///
/// A folder with an empty name has no files: each call fails.
///
/// ```text
/// let mut shelf = DirShelf::new(&rt, rt.alloc(), "log");
/// shelf.put(&Path::Checkpoint, note)?; // log/checkpoint
/// ```
#[derive(Drop)]
pub struct DirShelf<'a, R: Files> {
    files: &'a R,
    alloc: Global,
    folder: &'a str,
    // The name of the folder that was opened after that one.
    opened: Option<String>,
    failures: u64,
    last_failed: Option<FailedFile>,
    first_damaged: Option<DamagedFile>,
    recent: Recent,
}

// The name of the folder that was opened last, else the first one.
fn folder_name<'b>(opened: &'b Option<String>, first: &'b str) -> &'b str {
    match opened {
        Some(name) => name.as_str(),
        None => first,
    }
}

// The recent puts into a folder. They are a record of their own, since contracts see the shelf as its count of
// failures: writing does not change that count.
#[derive(Drop)]
struct Recent {
    // The files to flush before the next checkpoint.
    unflushed: Unflushed,
    // Temporary files of earlier runs in the folder that was put into last, and in the one before. Tiles and bundles
    // may alternate, and it costs more to list a folder than to put a file.
    left: Leftovers,
    before: Leftovers,
}

impl Recent {
    // For a folder into which nothing was put yet. It takes no memory.
    fn none(alloc: Global) -> Recent {
        Recent {
            unflushed: Unflushed::none(alloc),
            left: Leftovers::none(alloc),
            before: Leftovers::none(alloc),
        }
    }

    // Turns to the temporary files of earlier runs in a folder.
    fn turn_to<R: Files>(
        &mut self,
        files: &R,
        alloc: Global,
        folder: &str,
    ) -> Result<(), AllocError> {
        if self.left.folder.as_str() == folder {
            return Ok(());
        }
        mem::swap(&mut self.left, &mut self.before);
        if self.left.folder.as_str() != folder {
            self.left = Leftovers::of(files, alloc, folder)?;
        }
        Ok(())
    }

    // Replaces the file of a path.
    fn write<R: Files>(
        &mut self,
        files: &R,
        alloc: Global,
        folder: &str,
        path: &Path,
        bytes: &[u8],
    ) -> io::Result<()>
        ensures noted { OnOk result (path.now ≢ Checkpoint
            → Contains self.new.unflushed.paths.items path.now) }
        ensures flushed { OnOk result (path.now ≡ Checkpoint
            → self.new.unflushed.paths.items ≡ []) }
    {
        let place = file_path(alloc, folder, path)?;
        self.write_at(files, alloc, folder, path, place.as_str(), bytes)
    }

    // Replaces the file of a path, which is at that place. The checkpoint is replaced after all that was put before it is
    // on the device.
    fn write_at<R: Files>(
        &mut self,
        files: &R,
        alloc: Global,
        folder: &str,
        path: &Path,
        place: &str,
        bytes: &[u8],
    ) -> io::Result<()>
        ensures noted { OnOk result (path.now ≢ Checkpoint
            → Contains self.new.unflushed.paths.items path.now) }
        ensures flushed { OnOk result (path.now ≡ Checkpoint
            → self.new.unflushed.paths.items ≡ []) }
    {
        let inner = folder_of(place);
        fs::create_dir_all(files, inner)?;
        self.turn_to(files, alloc, inner)?;
        if *path != Path::Checkpoint {
            self.unflushed.add(files, alloc, folder, path)?;
            return put_whole(files, alloc, place, bytes, &self.left, false);
        }
        self.unflushed.flush_all(files, alloc, folder)?;
        put_whole(files, alloc, place, bytes, &self.left, true)?;
        // The checkpoint is in the folder: an error of the system about the folder changes nothing.
        let _flushed = flush_folder(files, inner);
        Ok(())
    }
}

impl<'a, R: Files> Model for DirShelf<'a, R> {
    ghost use Rattle.std.specs.Prelude.{ℕ};

    ghost Value = { ℕ };

    ghost view = { λ a. a.failures };
}

impl<'a, R: Files> DirShelf<'a, R> {
    /// The folder with that path. No call has failed. The folder need not exist yet. It takes no memory.
    pub fn new(files: &'a R, alloc: Global, folder: &'a str) -> Self
        ensures { result ≡ 0 }
    {
        DirShelf {
            files,
            alloc,
            folder,
            opened: None,
            failures: 0,
            last_failed: None,
            first_damaged: None,
            recent: Recent::none(alloc),
        }
    }

    /// The file of the last call that failed, and why; `None` if no call has failed. It takes no memory.
    pub fn last_failed(&self) -> Option<FailedFile> {
        self.last_failed
    }

    /// The name of the folder.
    pub fn folder(&self) -> &str {
        folder_name(&self.opened, self.folder)
    }

    // Whether something is at the path.
    fn find(&self, path: &Path) -> io::Result<bool> {
        let place = file_path(self.alloc, self.folder(), path)?;
        let about = self.files.metadata(place.as_str());
        drop(place);
        is_there(about)
    }

    // The shelf's answer for an answer of the system about that file; it counts and keeps a failure.
    fn answer<T>(&mut self, path: &Path, answer: io::Result<T>) -> Result<T, ShelfError>
        ensures { CountsFailures self.old self.new result }
    {
        match answer {
            Ok(found) => Ok(found),
            Err(error) => {
                if error.kind() == ErrorKind::OutOfMemory {
                    return Err(ShelfError::OutOfMemory);
                }
                self.last_failed = Some(FailedFile { path: *path, error });
                self.failures = count_failure(self.failures);
                Err(ShelfError::Failed)
            }
        }
    }
}

impl<'a, R: Files> Shelf for DirShelf<'a, R> {
    ghost failed = { λ s. s };

    fn has(&mut self, path: &Path) -> Result<bool, ShelfError> {
        let found = self.find(path);
        self.answer(path, found)
    }

    fn put(&mut self, path: &Path, bytes: &[u8]) -> Result<(), ShelfError> {
        let folder = folder_name(&self.opened, self.folder);
        let put = self
            .recent
            .write(self.files, self.alloc, folder, path, bytes);
        self.answer(path, put)
    }

    fn flush_before_checkpoint(&mut self, path: &Path) -> Result<(), ShelfError> {
        let folder = folder_name(&self.opened, self.folder);
        let noted = self
            .recent
            .unflushed
            .add(self.files, self.alloc, folder, path);
        self.answer(path, noted)
    }

    fn failures(&self) -> u64 {
        self.failures
    }

    fn expect(&mut self, _files: u64) {}
}

impl<'a, R: Files> ReadableShelf for DirShelf<'a, R> {
    fn read(&mut self, path: &Path) -> Result<Option<Vec<u8>>, ShelfError> {
        let found = read_file(self.files, self.alloc, self.folder(), path);
        self.answer(path, found)
    }

    // If the system does not say whether there is a file, none is noted.
    fn note_damaged(&mut self, path: &Path) {
        if self.first_damaged.is_some() {
            return;
        }
        if let Ok(is_there) = self.find(path) {
            self.first_damaged = Some(DamagedFile {
                path: *path,
                is_missing: !is_there,
            });
        }
    }

    fn first_damaged(&self) -> Option<DamagedFile> {
        self.first_damaged
    }
}

impl<'a, R: Files> NamedFolders for DirShelf<'a, R> {
    fn open(&mut self, name: &str) -> Result<(), AllocError> {
        let name = String::from_str(self.alloc, name)?;
        self.opened = Some(name);
        self.recent = Recent::none(self.alloc);
        Ok(())
    }
}
