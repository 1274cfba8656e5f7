//! Files and folders flushed to the device.
use crate::place::{file_path, folder_of, is_missing};
use std::alloc::Global;
use std::collections::BTreeSet;
use std::fs::{Files, OpenFile};
use std::io::ErrorKind;
use std::{fs, io};
use tlog_tiles::Path;

// Flushes a folder: the names in it. A system that cannot flush folders gives an error of invalid input, which is
// ignored.
pub(crate) fn flush_folder<R: Files>(files: &R, folder: &str) -> io::Result<()> {
    let opened = fs::open(files, folder)?;
    match opened.sync_all() {
        Ok(()) => Ok(()),
        Err(e) => {
            if e.kind() == ErrorKind::InvalidInput {
                Ok(())
            } else {
                Err(e)
            }
        }
    }
}

// Flushes a file. If it was removed since, it needs no flush.
pub(crate) fn flush_file<R: Files>(files: &R, place: &str) -> io::Result<()> {
    match fs::open(files, place) {
        Ok(opened) => opened.sync_all(),
        Err(e) => { if is_missing(&e) { Ok(()) } else { Err(e) } }
    }
}

// Flushes files of a log in a folder, and then each folder between it and the files once.
pub(crate) fn flush_files<R: Files>(
    files: &R,
    alloc: Global,
    folder: &str,
    paths: &[Path],
) -> io::Result<()> {
    let mut inner = BTreeSet::new(alloc);
    match flush_paths(files, alloc, &mut inner, folder, paths) {
        Ok(()) => flush_folders(files, &inner),
        Err(e) => Err(e),
    }
}

// Flushes files of a log in a folder, and adds the folders between them.
fn flush_paths<R: Files>(
    files: &R,
    alloc: Global,
    inner: &mut BTreeSet<String>,
    folder: &str,
    paths: &[Path],
) -> io::Result<()> {
    for path in paths {
        flush_path(files, alloc, inner, folder, path)?;
    }
    Ok(())
}

fn flush_folders<R: Files>(files: &R, folders: &BTreeSet<String>) -> io::Result<()> {
    for folder in folders {
        flush_folder(files, folder.as_str())?;
    }
    Ok(())
}

// Flushes one of these files.
fn flush_path<R: Files>(
    files: &R,
    alloc: Global,
    inner: &mut BTreeSet<String>,
    folder: &str,
    path: &Path,
) -> io::Result<()> {
    let place = file_path(alloc, folder, path)?;
    flush_file(files, place.as_str())?;
    add_between(alloc, inner, folder, folder_of(place.as_str()))
}

// Adds a folder and those above it, but not the outer one. If a folder was added before, all those above it were added
// too.
fn add_between(
    alloc: Global,
    folders: &mut BTreeSet<String>,
    outer: &str,
    inner: &str,
) -> io::Result<()> {
    let mut folder = inner;
    for _ in 0..inner.len() {
        if folder.len() <= outer.len() {
            break;
        }
        let is_new = folders.insert(String::from_str(alloc, folder)?)?;
        if !is_new {
            break;
        }
        folder = folder_of(folder);
    }
    Ok(())
}

// Flushes a folder and all folders above it that its name contains, if the system allows it.
pub(crate) fn flush_above<R: Files>(files: &R, folder: &str) {
    let mut above = folder;
    // (a relative name is in the folder `.` besides)
    for _ in 0..folder.len().saturating_add(1) {
        let _flushed = flush_folder(files, above);
        let next = folder_of(above);
        if next == above {
            break;
        }
        above = next;
    }
}
