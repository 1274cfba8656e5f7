//! Refused requests for memory, as by `rt try --test --fail-alloc N`. After a refusal a call did nothing, or what it put
//! is no checkpoint. The next call succeeds.
use crate::exports::{assert_files, put_onto};
use crate::given::{complete, keys, load_example, save_to};
use crate::states::{COMPLETE, NOTE};
use mirror_files::{ExportFault, LoadFault, SaveFault};
use mirror_folders::{DirShelf, DirSource, MemShelf, Shelf};
use mirror_sources::{Source, SourceFault};
use signed_note::Verifier;
use std::alloc::Global;
use std::fs;
use std::process::Abort;
use std::rt::Files;
use std::test::Fail;
use tlog_hash::{Sha256Tree, TreeHash};
use tlog_mirror::Mirror;
use tlog_tiles::Path;

#[test]
fn save_again_after_want_of_memory(rt: HostRuntime) -> Result<(), Fail> {
    let mirror = complete::<Sha256Tree>(rt.alloc())?;
    save_at_last(&rt, rt.alloc(), &mirror);
    drop(mirror);
    Ok(())
}

// Saves the mirror. The space of the writer needs no memory.
fn save_at_last<H: TreeHash>(rt: &impl Abort, alloc: Global, mirror: &Mirror<H>) {
    let mut space = [0u8; 1_024];
    let mut writer = space.as_mut_slice();
    let mut answer = save_to(alloc, mirror, &mut writer);
    if answer == Err(SaveFault::OutOfMemory) {
        assert!(rt; writer.len() == 1_024);
        answer = save_to(alloc, mirror, &mut writer);
    }
    assert!(rt; answer == Ok(()));
    let written = 1_024usize.saturating_sub(writer.len());
    assert!(rt; space.get(..written) == Some(COMPLETE));
}

#[test]
fn load_again_after_want_of_memory(rt: HostRuntime) -> Result<(), Fail> {
    let keys = keys(rt.alloc())?;
    loads_at_last::<Sha256Tree>(&rt, rt.alloc(), &keys)
}

fn loads_at_last<H: TreeHash>(
    rt: &impl Abort,
    alloc: Global,
    keys: &[Box<dyn Verifier>],
) -> Result<(), Fail> {
    let mirror = loaded_at_last::<H>(alloc, keys)?;
    save_at_last(rt, alloc, &mirror);
    drop(mirror);
    Ok(())
}

// The mirror of the state. It is loaded once more if memory was refused.
fn loaded_at_last<H: TreeHash>(
    alloc: Global,
    keys: &[Box<dyn Verifier>],
) -> Result<Mirror<H>, LoadFault> {
    let mut reader = COMPLETE;
    match load_example(alloc, keys, &mut reader) {
        Err(LoadFault::OutOfMemory) => {
            let mut reader = COMPLETE;
            load_example(alloc, keys, &mut reader)
        }
        answer => answer,
    }
}

// Exports the mirror of three entries, once more if memory was refused.
fn export_at_last<H: TreeHash, S: Shelf>(
    rt: &impl Abort,
    alloc: Global,
    mirror: &Mirror<H>,
    shelf: &mut S,
) {
    let mut answer = put_onto(alloc, mirror, shelf);
    if answer == Err(ExportFault::OutOfMemory) {
        let found = shelf.has(&Path::Checkpoint);
        assert!(rt; matches!(found, Ok(false)));
        answer = put_onto(alloc, mirror, shelf);
    }
    assert!(rt; answer == Ok(()));
    assert!(rt; shelf.failures() == 0);
}

#[test]
fn export_again_after_want_of_memory(rt: HostRuntime) -> Result<(), Fail> {
    let mirror = complete::<Sha256Tree>(rt.alloc())?;
    let answer = exports_at_last(&rt, rt.alloc(), &mirror);
    drop(mirror);
    answer
}

// The puts of the second export follow those of the first.
fn exports_at_last<H: TreeHash>(
    rt: &impl Abort,
    alloc: Global,
    mirror: &Mirror<H>,
) -> Result<(), Fail> {
    let mut shelf = MemShelf::new(alloc);
    export_at_last(rt, alloc, mirror, &mut shelf);
    let puts = shelf.puts();
    let first = puts.len().saturating_sub(3);
    let answer = assert_files(rt, alloc, &puts[first..]);
    drop(shelf);
    answer?;
    Ok(())
}

// `OutOfMemory`, then enough memory: an export to a folder, and a read of a file from it.
#[test]
fn folder_again_after_want_of_memory(rt: HostRuntime) -> Result<(), Fail> {
    let folder = "want-of-memory";
    let _ = fs::remove_dir_all(&rt, folder);
    let mirror = complete::<Sha256Tree>(rt.alloc())?;
    export_into(&rt, rt.alloc(), &mirror, folder);
    drop(mirror);
    reads_and_removes(&rt, folder)
}

fn export_into<H: TreeHash, R: Abort + Files>(
    rt: &R,
    alloc: Global,
    mirror: &Mirror<H>,
    folder: &str,
) {
    let mut shelf = DirShelf::new(rt, alloc, folder);
    export_at_last(rt, alloc, mirror, &mut shelf);
    drop(shelf);
}

fn reads_and_removes<R: AllocGlobal + Abort + Files>(rt: &R, folder: &str) -> Result<(), Fail> {
    let mut source = DirSource::new(rt, rt.alloc(), folder);
    let answer = read_at_last(rt, &mut source);
    drop(source);
    answer?;
    fs::remove_dir_all(rt, folder)?;
    Ok(())
}

fn read_at_last<S: Source>(rt: &impl Abort, source: &mut S) -> Result<(), SourceFault> {
    let note = match source.get(&Path::Checkpoint) {
        Err(SourceFault::OutOfMemory) => source.get(&Path::Checkpoint)?,
        note => note?,
    };
    assert!(rt; note.as_deref() == Some(NOTE));
    assert!(rt; source.failures() == 0);
    Ok(())
}
