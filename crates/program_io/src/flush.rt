//! Files and folders flushed to the device.
use std::fs::{Files, OpenFile};
use std::{fs, io};

// Flushes the file or the folder of that name.
pub(crate) fn flush_name<R: Files>(files: &R, name: &str) -> io::Result<()> {
    let opened = fs::open(files, name)?;
    opened.sync_all()
}

// The folder that a path is in.
pub(crate) fn folder_of(path: &str) -> &str {
    match path.rsplit_once('/') {
        Some(("", _)) => "/",
        Some((folder, _)) => folder,
        None => ".",
    }
}

// Flushes a folder and all folders above it that its name contains, if the system allows it: the one below may be new there.
pub(crate) fn flush_above<R: Files>(files: &R, folder: &str) {
    let mut above = folder;
    // (a relative name is in the folder `.` besides)
    for _ in 0..folder.len().saturating_add(1) {
        let _flushed = flush_name(files, above);
        let next = folder_of(above);
        if next == above {
            break;
        }
        above = next;
    }
}
