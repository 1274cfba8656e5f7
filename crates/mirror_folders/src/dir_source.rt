//! A folder as a source.
ghost use Rattle.std.specs.Prelude.{◌≡◌, IfOk, None, option_map};
ghost use Rattle.mirror_folders.specs.Places.{longest_file};
ghost use Rattle.mirror_sources.specs.Source.{CountsGet, IsShortAnswer, RecordsGet, StaysWithin};

use crate::failed::FailedFile;
use crate::place::count_failure;
use crate::reading::read_file;
use mirror_sources::{Source, SourceFault};
use std::alloc::Global;
use std::fs::Files;
use std::io::ErrorKind;
use std::marker::Model;
use tlog_tiles::Path;

/// A folder as a source: the path of a file is the folder's path, a slash, and the text of its path in the log. No
/// contract says which files a folder holds. Contracts see the folder's path, which no get changes, that an answer has at
/// most 16,777,472 bytes, those of the longest bundle, and the number of gets that failed.
///
/// ```text
/// let mut source = DirSource::new(&rt, rt.alloc(), "log");
/// source.get(&Path::Checkpoint)?; // the bytes of log/checkpoint, None if there is no such file
/// ```
///
/// # Errors
///
/// `get` gives `Failed` if the file at the path is not a plain file, cannot be read, or has more than 16,777,472 bytes.
/// It reads at most one byte more than that. It also gives `Failed` if the folder's name is empty, and `OutOfMemory` if
/// memory was refused. A missing file is no failure, and neither is a path below a plain file.
#[derive(Drop)]
pub struct DirSource<'a, R: Files> {
    files: &'a R,
    alloc: Global,
    folder: &'a str,
    failures: u64,
    last_failed: Option<FailedFile>,
}

impl<'a, R: Files> Model for DirSource<'a, R> {
    ghost use Rattle.mirror_folders.specs.Places.{FolderSource};

    ghost Value = { FolderSource };

    ghost view = { λ a. record { folder = a.folder.now; failures = a.failures } };
}

impl<'a, R: Files> DirSource<'a, R> {
    /// The folder with that path. No get has failed. It takes no memory.
    pub fn new(files: &'a R, alloc: Global, folder: &'a str) -> Self
        ensures folder { result.folder ≡ folder.now }
        ensures failures { result.failures ≡ 0 }
    {
        DirSource {
            files,
            alloc,
            folder,
            failures: 0,
            last_failed: None,
        }
    }

    /// The file of the last get that failed, and why; `None` if no get has failed. It takes no memory.
    pub fn last_failed(&self) -> Option<FailedFile> {
        self.last_failed
    }
}

impl<'a, R: Files> Source for DirSource<'a, R> {
    ghost may_answer = { λ _ _ answer. IsShortAnswer longest_file answer };

    ghost failed = { λ s. s.failures };

    fn get(&mut self, path: &Path) -> Result<Option<Vec<u8>>, SourceFault>
        ensures answer { IfOk result
            (λ bytes. IsShortAnswer longest_file (option_map (λ v. v.items) bytes)) }
        ensures later { StaysWithin (λ _ answer. IsShortAnswer longest_file answer)
            (λ _ answer. IsShortAnswer longest_file answer) }
        ensures recorded { RecordsGet None None path.now result }
        ensures counted { CountsGet self.old.failures self.new.failures result }
        ensures folder { self.new.folder ≡ self.old.folder }
    {
        match read_file(self.files, self.alloc, self.folder, path) {
            Ok(found) => Ok(found),
            Err(error) => {
                if error.kind() == ErrorKind::OutOfMemory {
                    return Err(SourceFault::OutOfMemory);
                }
                self.last_failed = Some(FailedFile { path: *path, error });
                self.failures = count_failure(self.failures);
                Err(SourceFault::Failed)
            }
        }
    }

    fn failures(&self) -> u64 {
        self.failures
    }
}
