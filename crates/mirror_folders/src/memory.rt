//! A shelf in memory.
ghost use Rattle.std.specs.Prelude.{◌≡◌, ◌↔◌, [], map, IsTrue, Some, option_map};
ghost use Rattle.mirror_folders.specs.Shelf.{HasPut, RecordsRead};

use crate::folders::NamedFolders;
use crate::shelf::{ReadableShelf, Shelf, ShelfError};
use std::alloc::{AllocError, Global};
use std::marker::Model;
use tlog_tiles::Path;

/// A shelf in memory: it records what it holds, and never fails. Contracts see the list of its puts, the oldest first.
/// They also see what a folder would flush to the device, and when. It is the folder with every name: `open` changes nothing.
///
/// ```text
/// let mut shelf = MemShelf::new(alloc);
/// export(alloc, &mirror, &mut shelf)?;
/// shelf.puts() // the tiles, the bundles, and last the checkpoint
/// ```
#[derive(Drop)]
pub struct MemShelf {
    puts: Vec<(Path, Vec<u8>)>,
    // The files that were put or found. Those before the last checkpoint, and it too, are flushed.
    secured: Vec<Path>,
    flushed: usize,
    alloc: Global,
}

impl Model for MemShelf {
    ghost use Rattle.std.specs.Prelude.{map};
    ghost use Rattle.mirror_folders.specs.Flushes.{InMemory};

    ghost Value = { InMemory };

    ghost view = { λ a. record {
      puts = map (λ put. (put.0, put.1.items)) a.puts.items;
      flushes = record { files = a.secured.items; flushed = a.flushed };
    } };
}

impl MemShelf {
    /// A shelf that holds nothing. It takes no memory.
    pub fn new(alloc: Global) -> Self
        ensures puts { result.puts ≡ [] }
        ensures flushes { result.flushes ≡ record { files = []; flushed = 0 } }
    {
        MemShelf {
            puts: Vec::new(alloc),
            secured: Vec::new(alloc),
            flushed: 0,
            alloc,
        }
    }

    /// The puts, the oldest first. It takes no memory.
    pub fn puts(&self) -> &[(Path, Vec<u8>)]
        ensures { map (λ put. (put.0, put.1.items)) result.now ≡ self.now.puts }
    {
        self.puts.as_slice()
    }
}

fn is_same(first: &Path, second: &Path) -> bool
    ensures { IsTrue result ↔ (first.now ≡ second.now) }
{
    first == second
}

fn is_put(puts: &[(Path, Vec<u8>)], path: &Path) -> bool
    ensures { IsTrue result ↔ HasPut (map (λ put. (put.0, put.1.items)) puts.now) path.now }
{
    for put in puts {
        if is_same(&put.0, path) {
            return true;
        }
    }
    false
}

fn last_put<'a>(puts: &'a [(Path, Vec<u8>)], path: &Path) -> Option<&'a [u8]>
    ensures { RecordsRead (Some (map (λ put. (put.0, put.1.items)) puts.entry.now)) path.now
        (option_map (λ bytes. bytes.now) result) }
{
    let mut last: Option<&'a [u8]> = None;
    for put in puts {
        if is_same(&put.0, path) {
            last = Some(put.1.as_slice());
        }
    }
    last
}

impl Shelf for MemShelf {
    ghost use Rattle.std.specs.Prelude.{Some};

    ghost puts = { λ s. Some s.puts };

    ghost flushes = { λ s. Some s.flushes };

    ghost failed = { λ _. 0 };

    fn has(&mut self, path: &Path) -> Result<bool, ShelfError> {
        Ok(is_put(&self.puts, path))
    }

    fn put(&mut self, path: &Path, bytes: &[u8]) -> Result<(), ShelfError> {
        let Ok(bytes) = Vec::from_slice(self.alloc, bytes) else {
            return Err(ShelfError::OutOfMemory);
        };
        if self.secured.push(*path).is_err() {
            return Err(ShelfError::OutOfMemory);
        }
        if is_same(path, &Path::Checkpoint) {
            self.flushed = self.secured.len();
        }
        match self.puts.push((*path, bytes)) {
            Ok(()) => Ok(()),
            Err(_) => Err(ShelfError::OutOfMemory),
        }
    }

    fn flush_before_checkpoint(&mut self, path: &Path) -> Result<(), ShelfError> {
        if self.secured.push(*path).is_err() {
            return Err(ShelfError::OutOfMemory);
        }
        Ok(())
    }

    fn failures(&self) -> u64 {
        0
    }

    fn expect(&mut self, _files: u64) {}
}

impl ReadableShelf for MemShelf {
    fn read(&mut self, path: &Path) -> Result<Option<Vec<u8>>, ShelfError> {
        match last_put(&self.puts, path) {
            Some(bytes) => match Vec::from_slice(self.alloc, bytes) {
                Ok(bytes) => Ok(Some(bytes)),
                Err(_) => Err(ShelfError::OutOfMemory),
            },
            None => Ok(None),
        }
    }
}

impl NamedFolders for MemShelf {
    ghost use Rattle.std.specs.Prelude.{Some};

    ghost held = { λ s _. Some s.puts };

    fn open(&mut self, _name: &str) -> Result<(), AllocError> {
        Ok(())
    }
}
