//! What of a run's files, folders, sources and streams failed, and why. Contracts see nothing of it.
use crate::{CountedFolders, CountingShelf, FailedName, MemoryFiles, NamedFiles, SystemFiles};
use byte_streams::WatchedStream;
use mirror_client::{Dial, FailedGet, HttpSource};
use mirror_folders::{DirShelf, DirSource, FailedFile, MemShelf, NamedFolders};
use std::fs::Files;
use std::io;
use std::io::Write;
use std::time::Clock;

/// What failed, and why.
#[derive(Drop)]
pub enum Failed {
    /// A file or folder by its name.
    Name(FailedName),
    /// A file of a folder.
    File(FailedFile),
    /// A file of a server.
    Get(FailedGet),
    /// A stream.
    Stream(io::Error),
}

/// A source, a shelf or a stream that keeps why it failed. Files and folders have a method of the same name in `RunFiles` and `RunFolders`: with
/// this trait above those, the checker runs out of steps at `run`.
///
/// ```text
/// Why::of_failed(alloc, "log", source.last_failed()?) // log/tile/0/000: Input/output error
/// ```
pub trait Failing {
    /// The last failure; None if there was none, or if it was not kept.
    fn last_failed(&self) -> Option<Failed>;
}

impl<'a, R: Files> Failing for DirSource<'a, R> {
    fn last_failed(&self) -> Option<Failed> {
        match DirSource::last_failed(self) {
            Some(failed) => Some(Failed::File(failed)),
            None => None,
        }
    }
}

impl<'a, R: Files> Failing for DirShelf<'a, R> {
    fn last_failed(&self) -> Option<Failed> {
        match DirShelf::last_failed(self) {
            Some(failed) => Some(Failed::File(failed)),
            None => None,
        }
    }
}

impl<D: Dial + Drop> Failing for HttpSource<D> {
    fn last_failed(&self) -> Option<Failed> {
        match HttpSource::last_failed(self) {
            Some(failed) => Some(Failed::Get(failed)),
            None => None,
        }
    }
}

impl<S: Drop> Failing for WatchedStream<S> {
    fn last_failed(&self) -> Option<Failed> {
        match WatchedStream::last_failed(self) {
            Some(error) => Some(Failed::Stream(error)),
            None => None,
        }
    }
}

/// Named files that keep what failed.
pub trait RunFiles: NamedFiles {
    /// The last failure; None if there was none, or if it was not kept.
    fn last_failed(&self) -> Option<Failed>;
}

impl<'a, R: Files> RunFiles for SystemFiles<'a, R> {
    fn last_failed(&self) -> Option<Failed> {
        match SystemFiles::last_failed(self) {
            Some(failed) => Some(Failed::Name(failed)),
            None => None,
        }
    }
}

// Files in memory fail only if memory is refused.
impl RunFiles for MemoryFiles {
    fn last_failed(&self) -> Option<Failed> {
        None
    }
}

/// Folders by their names that keep what failed.
pub trait RunFolders: CountedFolders {
    /// The last failure; None if there was none, or if it was not kept.
    fn last_failed(&self) -> Option<Failed>;
}

impl RunFolders for MemShelf {
    fn last_failed(&self) -> Option<Failed> {
        None
    }
}

impl<S: NamedFolders + Failing + Drop, C: Clock + Drop, W: Write + Drop> RunFolders
    for CountingShelf<S, C, W> {
    fn last_failed(&self) -> Option<Failed> {
        self.shelf.last_failed()
    }
}
