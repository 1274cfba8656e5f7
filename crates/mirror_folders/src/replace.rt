//! Files that are replaced as a whole.
ghost use Rattle.std.specs.Prelude.{◌≢◌, [], IfOk};

use crate::flush::flush_folder;
use crate::leftovers::Leftovers;
use crate::place::folder_of;
use crate::temporary::temporary_path;
use std::alloc::Global;
use std::fs::{Files, OpenFile, OpenOptions, Permissions};
use std::io;
use std::io::{ErrorKind, Write};
use std::os::unix::fs::OpenOptionsExt;

/// Replaces a file as a whole. It makes a temporary file beside it (`.NAME.tlogmirror-0.tmp`, or a higher number),
/// writes it, flushes it to the device, and renames it to the path. Then it flushes the folder, if the system allows
/// it. So whoever opens the path finds the old file or the new one, also if the run ends early.
///
/// The temporary file gets a number that no other one has, whatever earlier runs left. Temporary files of this name
/// that are older than a day are removed. If the name has more than 200 bytes, the name of the temporary file has only
/// its first 200.
///
/// A file that is replaced keeps its permissions, and a new one has those of the process. A symbolic link at the path
/// is replaced and not followed; the new file has the permissions of the file to which it led.
///
/// ```text
/// replace_file(&rt, rt.alloc(), "ex.state", &text)?;
/// ```
///
/// # Errors
///
/// Those of the system, `ErrorKind::InvalidInput` if the path is empty, and `ErrorKind::OutOfMemory` if memory was
/// refused. The path is then unchanged, and the temporary file is removed if the system allows it.
pub fn replace_file<R: Files>(files: &R, alloc: Global, path: &str, bytes: &[u8]) -> io::Result<()>
    ensures named { IfOk result (λ _. path.now ≢ []) }
{
    let left = Leftovers::of(files, alloc, folder_of(path))?;
    put_whole(files, alloc, path, bytes, &left, true)?;
    // The new file is at the path: an error of the system about the folder changes nothing.
    let _flushed = flush_folder(files, folder_of(path));
    Ok(())
}

// Replaces a file as a whole, and flushes it to the device or not. The list of leftover files in its folder is given.
pub(crate) fn put_whole<R: Files>(
    files: &R,
    alloc: Global,
    path: &str,
    bytes: &[u8],
    left: &Leftovers,
    flushed: bool,
) -> io::Result<()>
    ensures named { IfOk result (λ _. path.now ≢ []) }
{
    if path.is_empty() {
        return Err(io::Error::from(ErrorKind::InvalidInput));
    }
    let had = permissions_of(files, path);
    let (beside, mut file) = create_beside(files, alloc, path, had.is_some())?;
    let cleared = take_away_old(files, path, left, &file);
    let prepared = prepare(&mut file, cleared, had, flushed);
    let written = fill(&mut file, prepared, bytes, flushed);
    drop(file);
    move_or_remove(files, written, beside.as_str(), path)
}

// Renames a file that was written, or removes it.
fn move_or_remove<R: Files>(
    files: &R,
    written: io::Result<()>,
    from: &str,
    to: &str,
) -> io::Result<()> {
    match moved(files, written, from, to) {
        Ok(()) => Ok(()),
        Err(e) => {
            let _left = files.remove_file(from);
            Err(e)
        }
    }
}

// Renames a file that was written.
fn moved<R: Files>(files: &R, written: io::Result<()>, from: &str, to: &str) -> io::Result<()> {
    written?;
    files.rename(from, to)
}

// The permissions of the file at a path; `None` if there is no plain file.
fn permissions_of<R: Files>(files: &R, path: &str) -> Option<Permissions> {
    match files.metadata(path) {
        Ok(about) if about.is_file() => Some(about.permissions()),
        _ => None,
    }
}

// Removes leftovers of a file that are more than a day older than its new temporary file.
fn take_away_old<R: Files>(
    files: &R,
    path: &str,
    left: &Leftovers,
    file: &R::File,
) -> io::Result<()> {
    let now = file.metadata()?.modified()?;
    left.take_away(files, path, now);
    Ok(())
}

// A new file beside the path, with its own path. It never opens a file that exists already.
fn create_beside<R: Files>(
    files: &R,
    alloc: Global,
    path: &str,
    private: bool,
) -> io::Result<(String, R::File)> {
    for number in 0..u64::MAX {
        let beside = temporary_path(alloc, path, number)?;
        match create_new(files, beside.as_str(), private) {
            Ok(file) => return Ok((beside, file)),
            Err(e) => {
                if e.kind() != ErrorKind::AlreadyExists {
                    return Err(e);
                }
            }
        }
    }
    Err(io::Error::from(ErrorKind::AlreadyExists))
}

// A new file. A private one is only for its owner until it gets the permissions of the file that it replaces.
fn create_new<R: Files>(files: &R, path: &str, private: bool) -> io::Result<R::File> {
    let mut options = OpenOptions::new();
    options.write(true).create_new(true);
    if private {
        options.mode(0o600);
    }
    options.open(files, path)
}

// Gives the file its permissions. A file that is flushed later is then truncated to length 0. So ext4 and other file
// systems begin to write it to the device when it is closed, and a later flush of many files has little to wait for.
fn prepare<F: OpenFile>(
    file: &mut F,
    cleared: io::Result<()>,
    had: Option<Permissions>,
    flushed: bool,
) -> io::Result<()> {
    cleared?;
    if let Some(permissions) = had {
        file.set_permissions(permissions)?;
    }
    if !flushed {
        let _cut = file.set_len(0);
    }
    Ok(())
}

// Writes all the bytes to a file that was prepared, and flushes them to the device if asked.
fn fill<F: Write + OpenFile>(
    file: &mut F,
    prepared: io::Result<()>,
    bytes: &[u8],
    flushed: bool,
) -> io::Result<()> {
    prepared?;
    file.write_all(bytes)?;
    file.flush()?;
    if flushed { file.sync_all() } else { Ok(()) }
}
