//! The files to flush before a checkpoint is put.
ghost use Rattle.std.specs.Prelude.{◌≡◌, ◌≤◌, [], Contains, OnOk, length};

use crate::flush::{flush_above, flush_files, flush_folder};
use crate::place::folder_of;
use std::alloc::Global;
use std::fs::Files;
use std::io;
use tlog_tiles::Path;

// The greatest number of files that are noted.
const MOST: usize = 1_024;

// The files of a folder that have to be on the device before a checkpoint is there, and that were not flushed yet. This
// run or an earlier one put them. They are few, for a log of any size.
#[derive(Drop)]
pub(crate) struct Unflushed {
    paths: Vec<Path>,
    ghost few: { length paths.items ≤ 1024 },
}

impl Unflushed {
    // No file. It takes no memory.
    pub(crate) fn none(alloc: Global) -> Unflushed
        ensures { result.paths.items ≡ [] }
    {
        Unflushed {
            paths: Vec::new(alloc),
        }
    }

    // Notes a file. If the greatest number is noted already, those are flushed first.
    pub(crate) fn add<R: Files>(
        &mut self,
        files: &R,
        alloc: Global,
        folder: &str,
        path: &Path,
    ) -> io::Result<()>
        ensures noted { OnOk result (Contains self.new.paths.items path.now) }
    {
        if self.paths.len() >= MOST {
            self.flush(files, alloc, folder)?;
        }
        self.paths.push(*path)?;
        Ok(())
    }

    // Flushes the noted files, and the folders between that folder and them.
    fn flush<R: Files>(&mut self, files: &R, alloc: Global, folder: &str) -> io::Result<()>
        ensures { OnOk result (self.new.paths.items ≡ []) }
    {
        flush_files(files, alloc, folder, self.paths.as_slice())?;
        self.paths.clear();
        Ok(())
    }

    // Flushes all noted files, and the folder itself. Last it flushes the folders above, if the system allows it, since
    // the folder may be new there.
    pub(crate) fn flush_all<R: Files>(
        &mut self,
        files: &R,
        alloc: Global,
        folder: &str,
    ) -> io::Result<()>
        ensures { OnOk result (self.new.paths.items ≡ []) }
    {
        self.flush(files, alloc, folder)?;
        flush_folder(files, folder)?;
        flush_above(files, folder_of(folder));
        Ok(())
    }
}
