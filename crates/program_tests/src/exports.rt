//! Exports to shelves in memory, and to shelves that fail.
ghost use Rattle.std.specs.Prelude.{◌≡◌, min, ◌+◌, ◌-◌, ◌^◌};

use crate::given::complete;
use crate::states::{BUNDLE, NOTE, ROW};
use mirror_files::{ExportFault, export};
use mirror_folders::{MemShelf, Shelf, ShelfError};
use std::alloc::{AllocError, Global};
use std::process::Abort;
use std::test::Fail;
use tlog_hash::{Sha256Tree, TreeHash};
use tlog_mirror::Mirror;
use tlog_tiles::Path;

// A shelf whose first calls succeed, and all later ones fail. It counts the files that were put, without the checkpoint.
#[derive(Drop)]
struct Failing {
    passes: u32,
    files: u32,
    has_checkpoint: bool,
    failures: u64,
}

impl Failing {
    // Whether this call succeeds.
    fn passes(&mut self) -> bool
        ensures { self.new.failures ≡ self.old.failures }
    {
        if self.passes == 0 {
            return false;
        }
        self.passes -= 1;
        true
    }

    fn fail(&mut self) -> ShelfError
        ensures count { self.new.failures ≡ min (self.old.failures + 1) (2 ^ 64 - 1) }
        ensures fault { result ≡ ShelfError.Failed }
    {
        self.failures = self.failures.saturating_add(1);
        ShelfError::Failed
    }
}

impl Shelf for Failing {
    ghost failed = { λ s. s.failures };

    fn has(&mut self, path: &Path) -> Result<bool, ShelfError> {
        if !self.passes() {
            return Err(self.fail());
        }
        Ok(*path == Path::Checkpoint && self.has_checkpoint)
    }

    fn put(&mut self, path: &Path, _bytes: &[u8]) -> Result<(), ShelfError> {
        if !self.passes() {
            return Err(self.fail());
        }
        if *path == Path::Checkpoint {
            self.has_checkpoint = true;
        } else {
            self.files = self.files.saturating_add(1);
        }
        Ok(())
    }

    fn flush_before_checkpoint(&mut self, _path: &Path) -> Result<(), ShelfError> {
        if !self.passes() {
            return Err(self.fail());
        }
        Ok(())
    }

    fn failures(&self) -> u64 {
        self.failures
    }

    fn expect(&mut self, _files: u64) {}
}

fn shelf_of(passes: u32) -> Failing {
    Failing {
        passes,
        files: 0,
        has_checkpoint: false,
        failures: 0,
    }
}

// The shelf has `files` files, and the checkpoint only if the export is done.
fn assert_put(rt: &impl Abort, shelf: &Failing, files: u32, is_done: bool) {
    assert!(rt; shelf.files == files);
    assert!(rt; shelf.has_checkpoint == is_done);
    assert!(rt; (shelf.failures == 0) == is_done);
}

// An export. It ensures nothing, so that its callers are fast to check.
pub(crate) fn put_onto<H: TreeHash, S: Shelf>(
    alloc: Global,
    mirror: &Mirror<H>,
    shelf: &mut S,
) -> Result<(), ExportFault> {
    export(alloc, mirror, shelf)
}

// The number of calls that succeed, the number of files that were then put, and the answer.
const EXPORTS: [(u32, u32, Result<(), ExportFault>); 5] = [
    (0, 0, Err(ExportFault::ShelfFault)),
    (1, 0, Err(ExportFault::ShelfFault)),
    (2, 1, Err(ExportFault::ShelfFault)),
    (3, 2, Err(ExportFault::ShelfFault)),
    (4, 2, Ok(())),
];

// The first call asks for the checkpoint. The j-th put comes after j other calls.
#[test]
fn failing_shelf(rt: HostRuntime) -> Result<(), Fail> {
    let mirror = complete::<Sha256Tree>(rt.alloc())?;
    assert_exports(&rt, rt.alloc(), &mirror);
    drop(mirror);
    Ok(())
}

// An export to each of these shelves gives this answer and this number of files.
fn assert_exports<H: TreeHash>(rt: &impl Abort, alloc: Global, mirror: &Mirror<H>) {
    for &(passes, files, answer) in &EXPORTS {
        let mut shelf = shelf_of(passes);
        assert!(rt; put_onto(alloc, mirror, &mut shelf) == answer);
        assert_put(rt, &shelf, files, answer.is_ok());
    }
}

// The three files are put, each once. (`failing_shelf` shows that a failure at the third leaves no checkpoint, and
// `tests/states.runs` that an empty mirror exports nothing.)
#[test]
fn export_e3(rt: HostRuntime) -> Result<(), Fail> {
    let mirror = complete::<Sha256Tree>(rt.alloc())?;
    let answer = exports_once(&rt, rt.alloc(), &mirror);
    drop(mirror);
    answer
}

fn exports_once<H: TreeHash>(
    rt: &impl Abort,
    alloc: Global,
    mirror: &Mirror<H>,
) -> Result<(), Fail> {
    let mut shelf = MemShelf::new(alloc);
    assert!(rt; put_onto(alloc, mirror, &mut shelf) == Ok(()));
    let first = assert_files(rt, alloc, shelf.puts());
    assert!(rt; put_onto(alloc, mirror, &mut shelf) == Err(ExportFault::ShelfInUse));
    let second = assert_files(rt, alloc, shelf.puts());
    drop(shelf);
    first?;
    second?;
    Ok(())
}

// The puts are the row, the entry bundle and the note of the log, in this order.
pub(crate) fn assert_files(
    rt: &impl Abort,
    alloc: Global,
    puts: &[(Path, Vec<u8>)],
) -> Result<(), AllocError> {
    assert!(rt; puts.len() == 3);
    assert_file(rt, alloc, &puts[0], "tile/0/000.p/3", ROW)?;
    assert_file(rt, alloc, &puts[1], "tile/entries/000.p/3", BUNDLE)?;
    assert_file(rt, alloc, &puts[2], "checkpoint", NOTE)
}

// The put has that path, and these bytes.
fn assert_file(
    rt: &impl Abort,
    alloc: Global,
    put: &(Path, Vec<u8>),
    name: &str,
    want: &[u8],
) -> Result<(), AllocError> {
    assert!(rt; put.1.as_slice() == want, "{name}");
    let path = put.0.text(alloc)?;
    assert!(rt; path.as_str() == name);
    Ok(())
}
