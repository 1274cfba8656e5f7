//! The files of a log for a proof, in memory.
ghost use Rattle.std.specs.Prelude.{◌≡◌, ◌≢◌, ◌∷◌, ◌++◌, ◌<◌, [], ℕ, Contains, IfNone, IfSome, OnOk, get_or, length};
ghost use Rattle.copy_places.specs.declared.proof_files.ReadFile.{ReadFile};
ghost use Rattle.tlog_tiles.specs.Row.{row_text};
ghost use Rattle.copy_places.specs.ReadFiles.{IsThere};

use mirror_sources::{Source, SourceFault};
use std::alloc::{AllocError, Global};
use std::marker::Model;
use tlog_hash::Hash;
use tlog_tiles::{Path, write_row};

/// A file.
#[derive(Drop)]
pub(crate) struct ReadFile {
    path: Path,
    bytes: Vec<u8>,
}

/// The files that were read.
#[derive(Drop)]
pub(crate) struct ReadFiles {
    files: Vec<ReadFile>,
}

impl Model for ReadFiles {
    ghost use Rattle.std.specs.Prelude.{List, map};
    ghost use Rattle.mirror_sources.specs.Source.{File};

    ghost Value = { List File };

    ghost view = { λ a. map (λ f. (f.path, f.bytes.items)) a.files.items };
}

impl ReadFiles {
    /// No files yet.
    pub(crate) fn new(alloc: Global) -> ReadFiles
        ensures { result ≡ [] }
    {
        ReadFiles {
            files: Vec::new(alloc),
        }
    }

    /// Adds the tile of a row.
    pub(crate) fn add_row(
        &mut self,
        alloc: Global,
        path: Path,
        row: &[Hash],
    ) -> Result<(), AllocError>
        ensures { OnOk result (self.new ≡ self.old ++ (path, row_text row.now) ∷ []) }
    {
        let bytes = write_row(alloc, row)?;
        self.files.push(ReadFile { path, bytes })?;
        Ok(())
    }

    // The bytes of the file of a path. None: no file has it.
    fn find(&self, path: &Path) -> Option<&[u8]>
        ensures some { IfSome result (λ bytes. Contains self.now (path.now, bytes.now)) }
        ensures none { IfNone result (¬ IsThere self.now path.now) }
    {
        match index_of(&self.files, path) {
            Some(i) => Some(self.files[i].bytes.as_slice()),
            None => None,
        }
    }
}

// The index of the first file of a path.
fn index_of(files: &[ReadFile], path: &Path) -> Option<usize>
    ensures some { IfSome result (λ i. (i < length files.now)
        × ((d : ReadFile) → (get_or files.now i d).path ≡ path.now)) }
    ensures none { IfNone result ((i : ℕ) (d : ReadFile) → i < length files.now
        → (get_or files.now i d).path ≢ path.now) }
{
    for i in 0..files.len() {
        if files[i].path == *path {
            return Some(i);
        }
    }
    None
}

/// A source of the files that were read. A get of another path fails.
#[derive(Drop)]
pub(crate) struct ReadSource {
    alloc: Global,
    files: ReadFiles,
    asked: Vec<Path>,
    failures: u64,
}

impl Model for ReadSource {
    ghost use Rattle.copy_places.specs.ReadFiles.{FailsUnread, Reading};

    ghost Value = { Reading };

    ghost view = { λ a. record {
      files = a.files;
      asked = a.asked.items;
      failures = a.failures;
    } };

    ghost invariant = { λ a. FailsUnread (record {
      files = a.files;
      asked = a.asked.items;
      failures = a.failures;
    }) };
}

impl ReadSource {
    /// A source of these files.
    pub(crate) fn new(alloc: Global, files: ReadFiles) -> ReadSource
        ensures files { result.files ≡ files }
        ensures asked { result.asked ≡ [] }
        ensures failures { result.failures ≡ 0 }
    {
        ReadSource {
            alloc,
            files,
            asked: Vec::new(alloc),
            failures: 0,
        }
    }
}

impl Source for ReadSource {
    ghost use Rattle.std.specs.Prelude.{Some};
    ghost use Rattle.copy_places.specs.ReadFiles.{IsRead};

    ghost may_answer = { λ s. IsRead s.files };

    ghost asked = { λ s. Some s.asked };

    ghost files = { λ s. Some s.files };

    ghost failed = { λ s. s.failures };

    fn get(&mut self, path: &Path) -> Result<Option<Vec<u8>>, SourceFault> {
        let found = match self.files.find(path) {
            Some(bytes) => Vec::from_slice(self.alloc, bytes)?,
            None => {
                self.asked.push(*path)?;
                self.failures = self.failures.saturating_add(1);
                return Err(SourceFault::Failed);
            }
        };
        self.asked.push(*path)?;
        Ok(Some(found))
    }

    fn failures(&self) -> u64 {
        self.failures
    }
}
