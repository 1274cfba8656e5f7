//! The files of the system.
ghost use Rattle.std.specs.Prelude.{◌≤◌, ◌≢◌, [], IfOk, None, vec_len};
ghost use Rattle.tlog_text.specs.Answers.{seen};
ghost use Rattle.program_io.specs.Named.{ReadsFile, ReadsShort, RecordsFolder, RecordsReplace};
ghost use Rattle.program_io.specs.declared.named.TheConstants.{MAX_FILE_LEN};

use crate::file_fault::NamedFault;
use crate::flush::{flush_above, flush_name, folder_of};
use crate::named::{MAX_FILE_LEN, NamedFiles};
use byte_streams::{WatchedStream, read_all};
use mirror_folders::{FolderFiles, replace_file};
use std::alloc::Global;
use std::cell::Cell;
use std::fs::{Files, OpenOptions};
use std::io::{ErrorKind, Write};
use std::{fs, io};

// The greatest number of reads for the file of a state. Each read takes at most 65,536 bytes.
const MOST_READS: u64 = 16_777_216;

/// What is wrong with a named file or folder.
#[derive(Debug, Drop)]
pub enum Cause {
    /// The system did not read, write or make it, and gave this error.
    System(io::Error),
    /// It was read, and this is wrong with its bytes. The text is empty if no more is known.
    Bytes(String),
}

/// A named file or folder, and what is wrong with it.
///
/// ```text
/// if let Some(failed) = files.last_failed() {
///     println!(rt; "{}", failed.name)?; // log.state
/// }
/// ```
#[derive(Debug, Drop)]
pub struct FailedName {
    /// The name.
    pub name: String,
    /// What is wrong with it.
    pub cause: Cause,
}

/// The files of the system. No contract says what bytes they have.
///
/// A file is replaced as `mirror_folders::replace_file` does. If the name is of something else, such as a device, that is
/// written directly. A folder cannot be read or written. An empty name names no file and no folder.
/// `last_failed` says which file failed last, and why.
///
/// ```text
/// let files = SystemFiles::new(&rt, alloc);
/// files.read("log.keys")?
/// ```
#[derive(Drop)]
pub struct SystemFiles<'a, R: Files> {
    files: &'a R,
    alloc: Global,
    // The folder that was made last.
    folder: Option<FolderFiles<'a, R>>,
    failed: Cell<Option<FailedName>>,
}

impl<'a, R: Files> SystemFiles<'a, R> {
    /// The files that the process sees.
    pub fn new(files: &'a R, alloc: Global) -> Self {
        SystemFiles {
            files,
            alloc,
            folder: None,
            failed: Cell::new(None),
        }
    }

    /// The last failure: the cause of a `FileFault`, or the text that `keep_reason` got. A second call returns None. None also if
    /// nothing failed, or if there was no memory for the name.
    pub fn last_failed(&self) -> Option<FailedName> {
        self.failed.take()
    }

    // Keeps the name of a file and what is wrong with it.
    fn keep(&self, name: &str, cause: Cause) {
        if let Ok(name) = String::from_str(self.alloc, name) {
            self.failed.set(Some(FailedName { name, cause }));
        }
    }

    // Keeps the error of the system for the name, and returns `FileFault`.
    fn refuse(&self, name: &str, error: io::Error) -> NamedFault {
        self.keep(name, Cause::System(error));
        NamedFault::FileFault
    }

    // The fault for an error of the system at that name.
    fn fault(&self, name: &str, error: io::Error) -> NamedFault {
        if error.kind() == ErrorKind::OutOfMemory {
            NamedFault::OutOfMemory
        } else {
            self.refuse(name, error)
        }
    }
}

// The error for an empty name.
fn no_name() -> io::Error {
    io::Error::new(ErrorKind::InvalidInput, "it has no name")
}

impl<'a, R: Files> NamedFiles for SystemFiles<'a, R> {
    fn read(&self, name: &str) -> Result<Vec<u8>, NamedFault>
        ensures bytes { ReadsShort None name.now (seen (λ bytes. bytes.items) result) }
        ensures short { IfOk result (λ bytes. vec_len bytes ≤ MAX_FILE_LEN) }
        ensures named { IfOk result (λ _. name.now ≢ []) }
    {
        if name.is_empty() {
            return Err(self.refuse(name, no_name()));
        }
        match read_short(self.files, self.alloc, name) {
            Ok(bytes) => Ok(bytes),
            Err(e) => Err(self.fault(name, e)),
        }
    }

    fn read_state(&self, name: &str) -> Result<Vec<u8>, NamedFault>
        ensures bytes { ReadsFile None name.now (seen (λ bytes. bytes.items) result) }
        ensures named { IfOk result (λ _. name.now ≢ []) }
    {
        if name.is_empty() {
            return Err(self.refuse(name, no_name()));
        }
        match read_long(self.files, self.alloc, name) {
            Ok(bytes) => Ok(bytes),
            Err(e) => Err(self.fault(name, e)),
        }
    }

    fn find(&self, name: &str) -> Result<Option<Vec<u8>>, NamedFault> {
        match find_short(self.files, self.alloc, name) {
            Ok(found) => Ok(found),
            Err(e) => Err(self.fault(name, e)),
        }
    }

    fn replace(&mut self, name: &str, bytes: &[u8]) -> Result<(), NamedFault>
        ensures put { RecordsReplace None None (name.now, bytes.now) result }
        ensures named { IfOk result (λ _. name.now ≢ []) }
    {
        if name.is_empty() {
            return Err(self.refuse(name, no_name()));
        }
        let written = if is_special(self.files, name) {
            write_in_place(self.files, name, bytes)
        } else {
            replace_file(self.files, self.alloc, name, bytes)
        };
        match written {
            Ok(()) => Ok(()),
            Err(e) => Err(self.fault(name, e)),
        }
    }

    fn make_folder(&mut self, name: &str) -> Result<(), NamedFault>
        ensures made { RecordsFolder None result }
        ensures named { IfOk result (λ _. name.now ≢ []) }
    {
        if name.is_empty() {
            return Err(self.refuse(name, no_name()));
        }
        match made_folder(self.files, self.alloc, name) {
            Ok(folder) => {
                self.folder = Some(folder);
                Ok(())
            }
            Err(e) => Err(self.fault(name, e)),
        }
    }

    fn put(&mut self, name: &str, bytes: &[u8]) -> Result<(), NamedFault> {
        let written = match &mut self.folder {
            Some(folder) => folder.replace(name, bytes),
            None => replace_file(self.files, self.alloc, name, bytes),
        };
        match written {
            Ok(()) => Ok(()),
            Err(e) => Err(self.fault(name, e)),
        }
    }

    fn flush(&mut self, folder: &str) -> Result<(), NamedFault> {
        let flushed = match &mut self.folder {
            Some(opened) => opened.flush(),
            None => Ok(()),
        };
        match flushed {
            Ok(()) => {
                flush_above(self.files, folder_of(folder));
                Ok(())
            }
            Err(e) => Err(self.fault(folder, e)),
        }
    }

    fn flush_file(&self, name: &str) -> Result<(), NamedFault> {
        match flush_name(self.files, name) {
            Ok(()) => Ok(()),
            Err(e) => Err(self.fault(name, e)),
        }
    }

    fn keep_reason(&self, name: &str, reason: String) {
        self.keep(name, Cause::Bytes(reason));
    }
}

// All bytes of a file that is not too long. It reads at most one byte beyond the limit.
fn read_short<R: Files>(files: &R, alloc: Global, name: &str) -> io::Result<Vec<u8>>
    ensures { IfOk result (λ bytes. vec_len bytes ≤ MAX_FILE_LEN) }
{
    let mut file = WatchedStream::new(fs::open(files, name)?);
    match read_all(alloc, &mut file, MAX_FILE_LEN + 1, u64::MAX) {
        Ok(bytes) => not_long(bytes),
        Err(fault) => Err(file.read_error(fault)),
    }
}

// The bytes of a plain file that is not too long, or None if nothing has that name. It opens only a plain file:
// opening anything else could wait.
fn find_short<R: Files>(files: &R, alloc: Global, name: &str) -> io::Result<Option<Vec<u8>>> {
    match fs::metadata(files, name) {
        Ok(about) => {
            if !about.is_file() {
                return Err(io::Error::new(ErrorKind::InvalidInput, "it is no plain file"));
            }
            Ok(Some(read_short(files, alloc, name)?))
        }
        Err(e) => { if is_missing(&e) { Ok(None) } else { Err(e) } }
    }
}

// Whether the system says that nothing has the name.
fn is_missing(e: &io::Error) -> bool {
    e.kind() == ErrorKind::NotFound || e.kind() == ErrorKind::NotADirectory
}

// Opens the folder of that name, and makes it first if it is missing.
fn made_folder<'a, R: Files>(
    files: &'a R,
    alloc: Global,
    name: &str,
) -> io::Result<FolderFiles<'a, R>> {
    fs::create_dir_all(files, name)?;
    FolderFiles::of(files, alloc, name)
}

// The bytes, unless there are too many.
fn not_long(bytes: Vec<u8>) -> io::Result<Vec<u8>>
    ensures { IfOk result (λ bytes. vec_len bytes ≤ MAX_FILE_LEN) }
{
    if bytes.len() > MAX_FILE_LEN {
        return Err(io::Error::new(ErrorKind::FileTooLarge, "it has over 16,777,472 bytes"));
    }
    Ok(bytes)
}

// All bytes of a file that ends.
fn read_long<R: Files>(files: &R, alloc: Global, name: &str) -> io::Result<Vec<u8>> {
    let mut file = WatchedStream::new(fs::open(files, name)?);
    match read_all(alloc, &mut file, usize::MAX, MOST_READS) {
        Ok(bytes) => Ok(bytes),
        Err(fault) => Err(file.read_error(fault)),
    }
}

// Whether the name is of something that is no plain file.
fn is_special<R: Files>(files: &R, name: &str) -> bool {
    match fs::metadata(files, name) {
        Ok(about) => !about.is_file(),
        Err(_) => false,
    }
}

fn write_in_place<R: Files>(files: &R, name: &str, bytes: &[u8]) -> io::Result<()> {
    let mut file = OpenOptions::new().write(true).open(files, name)?;
    file.write_all(bytes)?;
    file.flush()
}
