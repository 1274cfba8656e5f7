//! A place of a run: a source that is not trusted.
ghost use Rattle.std.specs.Prelude.{◌≡◌, ◌↔◌, ◌≤◌, IfOk, IsTrue, None};
ghost use Rattle.copy_places.specs.AskedOnce.{IsAskedOnce};
ghost use Rattle.copy_places.specs.PlaceGets.{AnswersGet, IsAskedFor, NotesFailure, with_first};

use mirror_sources::{Source, SourceFault};
use std::alloc::AllocError;
use tlog_hash::Hash;
use tlog_tiles::Path;

/// How a file at a place was wrong.
#[derive(Clone, Copy)]
pub enum Wrong {
    /// The place lacks the file.
    NotFound,
    /// The place has other bytes at the path.
    False,
    /// The get failed.
    Failed,
}

/// A file that was wrong at a place.
#[derive(Clone, Copy)]
pub struct WrongFile {
    /// Its path.
    pub path: Path,
    /// How it was wrong.
    pub wrong: Wrong,
    /// The number of entries and the root of the tree for which the place was asked, if `Places::keep_ends` named one.
    pub tried: Option<(u64, Hash)>,
}

/// The answer of a place to a get.
#[derive(Drop)]
pub enum PlaceAnswer {
    /// The bytes of the file, not verified yet.
    File(Vec<u8>),
    /// The place has no such file.
    NotFound,
    /// The get failed, or the place was not asked since it had failed 8 times.
    Failed,
}

// What an answer takes at least, for a comparison of two places, in milliseconds.
const LEAST_MILLIS: u64 = 40;

// The number of failures after which a place is given up.
const MOST_FAILURES: u32 = 8;

/// A source that is not trusted, with its number of failures in this run and the first file that was wrong there. After 8 failures, no
/// get goes to this place.
#[derive(Drop)]
pub struct Place<S: Source + Drop> {
    source: S,
    failures: u32,
    first_wrong: Option<WrongFile>,
}

impl<S: Source + Drop> Place<S> {
    /// A place of that source, before its first get.
    pub fn new(source: S) -> Self
        ensures source { result.source ≡ source }
        ensures failures { result.failures ≡ 0 }
        ensures wrong { result.first_wrong ≡ None }
    {
        Place {
            source,
            failures: 0,
            first_wrong: None,
        }
    }

    /// The source.
    pub fn source(&self) -> &S
        ensures { result.now ≡ self.now.source }
    {
        &self.source
    }

    /// The number of gets that failed in this run, 8 at most.
    pub fn failures(&self) -> u32
        ensures { result ≡ self.now.failures }
    {
        self.failures
    }

    /// The first file that was wrong at the place in this run.
    pub fn first_wrong(&self) -> Option<WrongFile>
        ensures { result ≡ self.now.first_wrong }
    {
        self.first_wrong
    }

    /// Whether the place failed 8 times, so no get goes to it.
    pub fn is_given_up(&self) -> bool
        ensures { IsTrue result ↔ 8 ≤ self.now.failures }
    {
        self.failures >= MOST_FAILURES
    }

    /// Records a wrong file, and the tree for which it was asked, if it is the first.
    pub fn note_wrong(&mut self, path: &Path, wrong: Wrong, tried: Option<(u64, Hash)>)
        ensures source { self.new.source ≡ self.old.source }
        ensures failures { self.new.failures ≡ self.old.failures }
        ensures wrong { self.new.first_wrong
            ≡ with_first self.old.first_wrong path.now wrong tried }
    {
        if self.first_wrong.is_none() {
            self.first_wrong = Some(WrongFile {
                path: *path,
                wrong,
                tried,
            });
        }
    }

    /// Whether nothing was wrong at this place, and its answers take less than half the time of the other's. What a busy machine takes
    /// does not count.
    pub(crate) fn is_faster(&self, other: &Place<S>) -> bool {
        match (self.source.reply_millis(), other.source.reply_millis()) {
            (Some(own), Some(others)) => {
                self.first_wrong.is_none() && own.max(LEAST_MILLIS).saturating_mul(2) < others
            }
            _ => false,
        }
    }

    /// Gives the source a hint of the next paths, unless the place is given up.
    pub(crate) fn expect(&mut self, paths: &[Path])
        ensures asks { IsAskedFor S.may_answer S.failed S.asked (λ p. ⊥) self.old self.new }
        ensures failures { self.new.failures ≡ self.old.failures }
    {
        if self.is_given_up() {
            return;
        }
        self.source.expect(paths);
    }

    /// Gets the file at a path. A failure is counted and recorded.
    ///
    /// # Errors
    ///
    /// `AllocError`: memory was refused.
    pub fn get(&mut self, path: &Path) -> Result<PlaceAnswer, AllocError>
        ensures asks { IsAskedFor S.may_answer S.failed S.asked (λ p. p ≡ path.now)
            self.old self.new }
        ensures once { IsAskedOnce S.asked (λ p. p ≡ path.now) self.old self.new }
        ensures answer { IfOk result (λ answer. AnswersGet (S.may_answer self.old.source) path.now
            self.old.failures self.new.failures answer) }
        ensures wrong { NotesFailure path.now self.old self.new }
    {
        if self.is_given_up() {
            return Ok(PlaceAnswer::Failed);
        }
        match self.source.get(path) {
            Ok(Some(bytes)) => Ok(PlaceAnswer::File(bytes)),
            Ok(None) => Ok(PlaceAnswer::NotFound),
            Err(SourceFault::Failed) => {
                self.failures += 1;
                self.note_wrong(path, Wrong::Failed, None);
                Ok(PlaceAnswer::Failed)
            }
            Err(SourceFault::OutOfMemory) => Err(AllocError),
        }
    }
}
