//! What a repair did.
ghost use Rattle.std.specs.Prelude.{◌≡◌, ◌+◌, ◌^◌, ◌<◌, ◌≤◌, [], IsSome, None, OnOk, length};
ghost use Rattle.copy_follow.specs.Named.{AddsNamed};

use mirror_folders::DamagedFile;
use std::alloc::{AllocError, Global};
use tlog_tiles::Path;

// So many files are named.
const NAMED: usize = 8;

/// What a repair of a copy did so far.
///
/// ```text
/// let mut repaired = Repaired::new(alloc);
/// repair_copy::<Sha256Tree, MemShelf, ListSource<Sha256Tree>>(alloc, "ex", &mut shelf, &mut places, &note, &mut repaired)?;
/// repaired.put()     // 1
/// repaired.damaged() // [DamagedFile { path, is_missing: true }]
/// repaired.lacked()  // None
/// ```
#[derive(Drop)]
pub struct Repaired {
    put: u64,
    lacked: Option<Path>,
    damaged: Vec<DamagedFile>,
}

impl Repaired {
    /// Nothing was done yet.
    pub fn new(alloc: Global) -> Repaired
        ensures put { result.put ≡ 0 }
        ensures lacked { result.lacked ≡ None }
        ensures damaged { result.damaged.items ≡ [] }
    {
        Repaired {
            put: 0,
            lacked: None,
            damaged: Vec::new(alloc),
        }
    }

    /// The number of files that were put. It stops at its greatest value, 2^64 - 1.
    pub fn put(&self) -> u64
        ensures { result ≡ self.now.put }
    {
        self.put
    }

    /// The path of the first file that neither the shelf nor a place had.
    pub fn lacked(&self) -> Option<Path>
        ensures { result ≡ self.now.lacked }
    {
        self.lacked
    }

    /// The first eight files that were missing or false, in the order of the walk: a file when it is put, or when nobody has it.
    pub fn damaged(&self) -> &[DamagedFile]
        ensures { result.now ≡ self.now.damaged.items }
    {
        self.damaged.as_slice()
    }

    // One more file was put.
    pub(crate) fn count(&mut self)
        ensures put { self.old.put + 1 < 2 ^ 64 → self.new.put ≡ self.old.put + 1 }
        ensures lacked { self.new.lacked ≡ self.old.lacked }
        ensures damaged { self.new.damaged ≡ self.old.damaged }
    {
        self.put = self.put.saturating_add(1);
    }

    // Nobody had the file.
    pub(crate) fn note_lacked(&mut self, path: &Path)
        ensures put { self.new.put ≡ self.old.put }
        ensures lacked { IsSome self.new.lacked }
        ensures damaged { self.new.damaged ≡ self.old.damaged }
    {
        if self.lacked.is_none() {
            self.lacked = Some(*path);
        }
    }
    // The file was missing or false.
    pub(crate) fn note_damaged(&mut self, file: DamagedFile) -> Result<(), AllocError>
        ensures put { self.new.put ≡ self.old.put }
        ensures few { length self.old.damaged.items ≤ 8 → length self.new.damaged.items ≤ 8 }
        ensures named { OnOk result
            (AddsNamed self.old.damaged.items self.new.damaged.items file) }
    {
        if self.damaged.len() < NAMED {
            self.damaged.push(file)?;
        }
        Ok(())
    }
}
