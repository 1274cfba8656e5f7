//! A source that lies, or fails.
use crate::pulls::list;
use mirror_pull::{ListSource, Source, SourceFault};
use std::alloc::Global;
use std::test::Fail;
use tlog_hash::TreeHash;
use tlog_tiles::Path;

// The lie of a source.
#[derive(Clone, Copy, PartialEq, Eq)]
pub(crate) enum Lie {
    Nothing,
    // The first bundle has other entries.
    FalseBundle,
    // The files are those of 512 entries, and the partial files of the lowest level are gone.
    PartialsGone,
    // The first two bundles are exchanged.
    SwappedBundles,
    // The first bundle lacks its last byte.
    CutBundle,
}

// A source over two lists, with a lie, that fails after some gets and from then on. The first list counts the gets.
#[derive(Drop)]
pub(crate) struct Liar<H: TreeHash> {
    pub(crate) log: ListSource<H>,
    pub(crate) other: ListSource<H>,
    pub(crate) lie: Lie,
    pub(crate) passes: u64,
    pub(crate) failures: u64,
}

// A source over C(n) with that lie. The other list has 512 numbers, from 1,000 on for the false bundle.
pub(crate) fn lying_log<H: TreeHash>(alloc: Global, lie: Lie, n: u16) -> Result<Liar<H>, Fail> {
    let log = list(alloc, 0, n)?;
    let from = if lie == Lie::FalseBundle { 1000 } else { 0 };
    match list(alloc, from, 512) {
        Ok(other) => Ok(Liar {
            log,
            other,
            lie,
            passes: u64::MAX,
            failures: 0,
        }),
        Err(fault) => {
            drop(log);
            Err(fault)
        }
    }
}

// Whether it is a partial file of the lowest level.
fn is_partial(path: &Path) -> bool {
    match *path {
        Path::Tile { level, width, .. } => level == 0 && width < 256,
        Path::Entries { width, .. } => width < 256,
        Path::Checkpoint => false,
    }
}

// The other list's answer, which that list may not have.
fn others<S: Source>(other: &mut S, path: &Path) -> Result<Option<Vec<u8>>, SourceFault> {
    other.get(path)
}

// What the source makes of the true answer.
fn lied<S: Source>(
    other: &mut S,
    lie: Lie,
    path: &Path,
    found: Option<Vec<u8>>,
) -> Result<Option<Vec<u8>>, SourceFault> {
    match (lie, *path) {
        (Lie::PartialsGone, Path::Tile { .. } | Path::Entries { .. }) => {
            if is_partial(path) {
                Ok(None)
            } else {
                others(other, path)
            }
        }
        (Lie::FalseBundle, Path::Entries { index: 0, .. }) => others(other, path),
        (Lie::SwappedBundles, Path::Entries { index, width }) => {
            let index = 1u64.wrapping_sub(index);
            others(other, &Path::Entries { index, width })
        }
        (Lie::CutBundle, Path::Entries { index: 0, .. }) => Ok(cut(found)),
        _ => Ok(found),
    }
}

// The bytes without the last one.
fn cut(found: Option<Vec<u8>>) -> Option<Vec<u8>> {
    let mut bytes = found?;
    let _last = bytes.pop();
    Some(bytes)
}

impl<H: TreeHash> Source for Liar<H> {
    ghost failed = { λ s. s.failures };

    fn get(&mut self, path: &Path) -> Result<Option<Vec<u8>>, SourceFault> {
        if self.passes == 0 {
            self.failures = self.failures.saturating_add(1);
            return Err(SourceFault::Failed);
        }
        self.passes -= 1;
        let answer = match self.log.get(path) {
            Ok(found) => lied(&mut self.other, self.lie, path, found),
            Err(fault) => Err(fault),
        };
        match answer {
            Ok(found) => Ok(found),
            Err(_fault) => Err(SourceFault::OutOfMemory),
        }
    }

    fn failures(&self) -> u64 {
        self.failures
    }
}
