//! Reads a log's files in a folder.
ghost use Rattle.std.specs.Prelude.{◌+◌, ◌≤◌, IfErr, IfNone, IfOk, IfSome, vec_len};
ghost use Rattle.byte_streams.specs.Streams.{TakesAtMost};
ghost use Rattle.mirror_folders.specs.Places.{SaysMissing, longest_file};

use crate::place::{file_path, is_missing};
use byte_streams::{WatchedStream, read_all};
use std::alloc::Global;
use std::fs::Files;
use std::io::ErrorKind;
use std::{fs, io};
use tlog_tiles::{MAX_BUNDLE_LEN, Path};

// The bytes of the file at a path of the log in a folder; `None` if there is no file.
pub(crate) fn read_file<R: Files>(
    files: &R,
    alloc: Global,
    folder: &str,
    path: &Path,
) -> io::Result<Option<Vec<u8>>>
    ensures { IfOk result (λ found. IfSome found (λ bytes. vec_len bytes ≤ longest_file)) }
{
    let place = file_path(alloc, folder, path)?;
    read_opened(alloc, open_plain(files, place.as_str()))
}

// The bytes of a file that was opened; `None` if there is no file. Only an error that says that the file is missing means that.
fn read_opened<F: io::Read + Drop>(
    alloc: Global,
    opened: io::Result<F>,
) -> io::Result<Option<Vec<u8>>>
    ensures short { IfOk result (λ found. IfSome found (λ bytes. vec_len bytes ≤ longest_file)) }
    ensures none { IfOk result (λ found. IfNone found (IfErr opened SaysMissing)) }
{
    match opened {
        Ok(file) => {
            let bytes = read_whole(alloc, &mut WatchedStream::new(file))?;
            Ok(Some(bytes))
        }
        Err(e) => { if is_missing(&e) { Ok(None) } else { Err(e) } }
    }
}

// The plain file at a path. Anything else is not opened: to open it could block.
fn open_plain<R: Files>(files: &R, place: &str) -> io::Result<R::File> {
    let about = files.metadata(place)?;
    if !about.is_file() {
        return Err(io::Error::new(ErrorKind::InvalidInput, "it is no plain file"));
    }
    fs::open(files, place)
}

// All the bytes of a file. It reads at most one byte more than the longest file has.
fn read_whole<F: io::Read + Drop>(alloc: Global, file: &mut WatchedStream<F>) -> io::Result<Vec<u8>>
    ensures short { IfOk result (λ bytes. vec_len bytes ≤ longest_file) }
    ensures limit { TakesAtMost (longest_file + 1) (F.remaining file.old) (F.remaining file.new) }
{
    match read_all(alloc, file, MAX_BUNDLE_LEN + 1, u64::MAX) {
        Ok(bytes) => {
            if bytes.len() > MAX_BUNDLE_LEN {
                return Err(io::Error::new(ErrorKind::FileTooLarge, "it has over 16,777,472 bytes"));
            }
            Ok(bytes)
        }
        Err(fault) => Err(file.read_error(fault)),
    }
}
