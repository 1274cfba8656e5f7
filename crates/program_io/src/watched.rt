//! Sources that keep what `--why` needs.
ghost use Rattle.std.specs.Prelude.{◌≡◌};

use crate::failing::{Failed, Failing};
use mirror_sources::{Source, SourceFault};
use std::alloc::Global;
use tlog_tiles::Path;

/// A source that passes on the answers of another one. It keeps the checkpoint, and the partial tile that was missing last.
/// Contracts see it as the other source.
///
/// ```text
/// let mut source = WatchedSource::new(alloc, DirSource::new(&rt, alloc, "log"));
/// let pulled = pull(alloc, &mut mirror, &keys, &mut source);
/// source.lacked() // Some(tile/0/000.p/3) after a NoEdge
/// ```
#[derive(Drop)]
pub struct WatchedSource<S: Drop> {
    /// The inner source.
    pub source: S,
    alloc: Global,
    note: Option<Vec<u8>>,
    lacked: Option<Path>,
}

impl<S: Drop> WatchedSource<S> {
    /// Wraps a source, before the first request. This allocates nothing.
    pub fn new(alloc: Global, source: S) -> WatchedSource<S>
        ensures { result.source ≡ source }
    {
        WatchedSource {
            source,
            alloc,
            note: None,
            lacked: None,
        }
    }

    /// The last checkpoint that the source gave; None if it gave none, or if there was no memory to keep it.
    pub fn note(&self) -> Option<&[u8]> {
        match &self.note {
            Some(note) => Some(note.as_slice()),
            None => None,
        }
    }

    /// The last partial tile that was missing.
    pub fn lacked(&self) -> Option<Path> {
        self.lacked
    }

    // Keeps what `--why` needs from an answer.
    fn keep(&mut self, path: &Path, found: &Option<Vec<u8>>)
        ensures { self.new.source ≡ self.old.source }
    {
        match (path, found) {
            (Path::Checkpoint, Some(note)) => self.note = Vec::from_slice(self.alloc, note).ok(),
            (Path::Tile { width, .. }, None) if *width < 256 => self.lacked = Some(*path),
            _ => {}
        }
    }
}

impl<S: Source + Drop> Source for WatchedSource<S> {
    ghost may_answer = { λ s. S.may_answer s.source };

    ghost asked = { λ s. S.asked s.source };

    ghost files = { λ s. S.files s.source };

    ghost failed = { λ s. S.failed s.source };

    fn get(&mut self, path: &Path) -> Result<Option<Vec<u8>>, SourceFault> {
        match self.source.get(path) {
            Ok(found) => {
                self.keep(path, &found);
                Ok(found)
            }
            Err(fault) => Err(fault),
        }
    }

    fn expect(&mut self, paths: &[Path]) {
        self.source.expect(paths);
    }

    fn failures(&self) -> u64 {
        self.source.failures()
    }
}

impl<S: Failing + Drop> Failing for WatchedSource<S> {
    fn last_failed(&self) -> Option<Failed> {
        self.source.last_failed()
    }
}
