//! The paths of a log's files in a folder.
ghost use Rattle.std.specs.Prelude.{◌≡◌, IfErr, IfOk, IsFalse, IsTrue, string_bytes};
ghost use Rattle.mirror_sources.specs.Recorded.{one_more};
ghost use Rattle.mirror_folders.specs.Places.{LiesAt, SaysMissing};

use std::alloc::Global;
use std::io;
use std::io::ErrorKind;
use tlog_tiles::Path;

// The path of a file: the folder's path, a slash, and the text of the path in the log. That text has no segment of
// dots, so the file is in the folder. A folder whose name is empty has no files, so this never names the root folder.
pub(crate) fn file_path(alloc: Global, folder: &str, path: &Path) -> io::Result<String>
    ensures { IfOk result (λ place. LiesAt folder.now path.now (string_bytes place)) }
{
    if folder.is_empty() {
        return Err(io::Error::new(ErrorKind::InvalidInput, "the folder has no name"));
    }
    let place = format!(in alloc; "{folder}/{path}")?;
    Ok(place)
}

// The folder of a file, by the file's path.
pub(crate) fn folder_of(path: &str) -> &str {
    match path.rsplit_once('/') {
        Some(("", _)) => "/",
        Some((folder, _)) => folder,
        None => ".",
    }
}

// The last name of a file's path.
pub(crate) fn name_of(path: &str) -> &str {
    match path.rsplit_once('/') {
        Some((_, name)) => name,
        None => path,
    }
}

// Whether the system says that there is no file at a path, or that a plain file blocks the way to it.
pub(crate) fn is_missing(e: &io::Error) -> bool
    ensures { IsTrue result → SaysMissing e.now }
{
    e.kind() == ErrorKind::NotFound || e.kind() == ErrorKind::NotADirectory
}

// Whether something is at a path, by the system's answer about it. Only an error that says that it is missing means that nothing
// is there.
pub(crate) fn is_there<T: Drop>(about: io::Result<T>) -> io::Result<bool>
    ensures { IfOk result (λ there. IsFalse there → IfErr about SaysMissing) }
{
    match about {
        Ok(_) => Ok(true),
        Err(e) => { if is_missing(&e) { Ok(false) } else { Err(e) } }
    }
}

// A count of failures after one more.
pub(crate) fn count_failure(failures: u64) -> u64
    ensures { result ≡ one_more failures }
{
    failures.saturating_add(1)
}
