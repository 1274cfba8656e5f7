//! A counting source.
ghost use Rattle.std.specs.Prelude.{◌≡◌, IfOk, option_map, vec_len};
ghost use Rattle.mirror_sources.specs.Source.{RecordsGet, CountsGet, StaysWithin};
ghost use Rattle.mirror_sources.specs.Recorded.{KeepsRecord};
ghost use Rattle.program_io.specs.Counting.{CountsAnswer, CountsFound};

use crate::progress::Progress;
use mirror_sources::{Source, SourceFault};
use std::io::Write;
use std::time::Clock;
use tlog_tiles::Path;

/// A source that gets from another source, and counts each file that is found, and its bytes. In contracts, the answers, the
/// requested paths and the failures are those of the inner source (`counted_source_law`).
///
/// ```text
/// let mut source = CountingSource::new(source, progress);
/// let pulled = pull(alloc, &mut mirror, &keys, &mut source)?;
/// source.progress.counts() // Counts { files: 4, bytes: 91_224 }
/// ```
#[derive(Drop)]
pub struct CountingSource<S: Source + Drop, C: Clock + Drop, W: Write + Drop> {
    /// The inner source.
    pub source: S,
    /// The counts and their reports.
    pub progress: Progress<C, W>,
}

impl<S: Source + Drop, C: Clock + Drop, W: Write + Drop> CountingSource<S, C, W> {
    /// A counting source over that source, with that progress.
    pub fn new(source: S, progress: Progress<C, W>) -> Self
        ensures source { result.source ≡ source }
        ensures progress { result.progress ≡ progress }
    {
        CountingSource { source, progress }
    }

    /// The inner source, no longer counted.
    pub fn into_source(self) -> S
        ensures { result ≡ self.source }
    {
        let CountingSource {
            source,
            progress: _counted,
        } = self;
        source
    }
}

// Counts a file that is found, and its bytes.
fn count_found<C: Clock + Drop, W: Write + Drop>(
    progress: &mut Progress<C, W>,
    path: &Path,
    found: &Option<Vec<u8>>,
)
    ensures { CountsFound vec_len progress.old.counts progress.new.counts found.now }
{
    match found {
        Some(bytes) => {
            progress.expect_log(path, bytes);
            progress.count(bytes.len());
        }
        None => {}
    }
}

impl<S: Source + Drop, C: Clock + Drop, W: Write + Drop> Source for CountingSource<S, C, W> {
    ghost may_answer = { λ s. S.may_answer s.source };

    ghost asked = { λ s. S.asked s.source };

    ghost files = { λ s. S.files s.source };

    ghost failed = { λ s. S.failed s.source };

    fn get(&mut self, path: &Path) -> Result<Option<Vec<u8>>, SourceFault>
        ensures answer { IfOk result
            (λ bytes. S.may_answer self.old.source path.now (option_map (λ v. v.items) bytes)) }
        ensures later { StaysWithin (S.may_answer self.old.source) (S.may_answer self.new.source) }
        ensures kept { KeepsRecord (S.files self.old.source) (S.files self.new.source) }
        ensures recorded { RecordsGet (S.asked self.old.source) (S.asked self.new.source) path.now
            result }
        ensures counted { CountsGet (S.failed self.old.source) (S.failed self.new.source) result }
        ensures counts { CountsAnswer vec_len self.old.progress.counts self.new.progress.counts
            result }
    {
        let found = self.source.get(path)?;
        count_found(&mut self.progress, path, &found);
        Ok(found)
    }

    fn expect(&mut self, paths: &[Path])
        ensures later { StaysWithin (S.may_answer self.old.source) (S.may_answer self.new.source) }
        ensures kept { S.files self.new.source ≡ S.files self.old.source }
        ensures recorded { S.asked self.new.source ≡ S.asked self.old.source }
        ensures counted { S.failed self.new.source ≡ S.failed self.old.source }
        ensures counts { self.new.progress.counts ≡ self.old.progress.counts }
    {
        self.source.expect(paths);
    }

    fn failures(&self) -> u64 {
        self.source.failures()
    }

    fn reply_millis(&self) -> Option<u64> {
        self.source.reply_millis()
    }
}
