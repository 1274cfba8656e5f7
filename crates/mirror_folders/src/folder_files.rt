//! Files of one folder, flushed together.
ghost use Rattle.std.specs.Prelude.{◌≢◌, [], IfOk};

use crate::flush::{flush_file, flush_folder};
use crate::leftovers::Leftovers;
use crate::replace::put_whole;
use std::alloc::Global;
use std::fs::Files;
use std::io;

/// Files of one folder, each replaced as a whole, like `replace_file`, and flushed to the device together. The folder
/// is listed once, and each file is opened once more to be flushed.
///
/// ```text
/// let mut files = FolderFiles::of(&rt, alloc, "site/notes")?;
/// for (path, bytes) in &notes {
///     files.replace(path, bytes)?;
/// }
/// files.flush()?;
/// ```
#[derive(Drop)]
pub struct FolderFiles<'a, R: Files> {
    files: &'a R,
    alloc: Global,
    left: Leftovers,
    unflushed: Vec<String>,
}

impl<'a, R: Files> FolderFiles<'a, R> {
    /// The folder with that path, into which nothing was put yet.
    ///
    /// # Errors
    ///
    /// `ErrorKind::OutOfMemory` if memory was refused.
    pub fn of(files: &'a R, alloc: Global, folder: &str) -> io::Result<Self> {
        Ok(FolderFiles {
            files,
            alloc,
            left: Leftovers::of(files, alloc, folder)?,
            unflushed: Vec::new(alloc),
        })
    }

    /// Replaces the file at a path, which is in the folder, as a whole.
    ///
    /// # Errors
    ///
    /// Those of `replace_file`. The path is then unchanged.
    pub fn replace(&mut self, path: &str, bytes: &[u8]) -> io::Result<()>
        ensures named { IfOk result (λ _. path.now ≢ []) }
    {
        let kept = String::from_str(self.alloc, path)?;
        self.unflushed.push(kept)?;
        put_whole(self.files, self.alloc, path, bytes, &self.left, false)
    }

    /// Flushes each file that was replaced since the last flush, and then the folder.
    ///
    /// # Errors
    ///
    /// Those of the system.
    pub fn flush(&mut self) -> io::Result<()> {
        for path in &self.unflushed {
            flush_file(self.files, path.as_str())?;
        }
        self.unflushed.clear();
        flush_folder(self.files, self.left.folder.as_str())
    }
}
