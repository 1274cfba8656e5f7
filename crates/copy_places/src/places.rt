//! The places of a run.
ghost use Rattle.std.specs.Prelude.{◌≡◌, ◌∷◌, ◌++◌, [], ◌<◌, ℕ, IfOk, IsFalse, IsSome, MatchResult, None, Some, get_or, length};
ghost use Rattle.copy_places.specs.Asked.{IsAskedInTurn};
ghost use Rattle.copy_places.specs.AskedOnce.{AsksEachOnce, AsksMore, AsksOnce, IsAtPlace};
ghost use Rattle.copy_places.specs.EndTiles.{AnswersStay, IsEndTile, IsKeptAnswer};
ghost use Rattle.copy_places.specs.PlaceGets.{AnswersEnd, AnswersGet, AsksPlaces, NotesFailure, NotesWrong};
ghost use Rattle.copy_places.specs.declared.place.Place.{Place};

use crate::end_tiles::EndTiles;
use crate::place::{Place, PlaceAnswer, Wrong};
use mirror_sources::Source;
use std::alloc::{AllocError, Global};
use tlog_hash::Hash;
use tlog_tiles::Path;

/// The places of a run, in the order in which they were added. What was learnt about them is kept from call to call.
///
/// The place whose bytes verified last is asked first, then the others in order. Until bytes verified, that is the first place at which
/// nothing was wrong. Before it comes a place at which nothing was wrong, if that answers more than twice as fast. A place that failed 8
/// times in the run is not asked again.
///
/// ```text
/// let mut places = Places::new(alloc);
/// places.add(source)?;
/// edge_at_places::<Sha256Tree, ListSource<Sha256Tree>>(alloc, &mut places, 257, &root)?;
/// places.list()[0].first_wrong() // None
/// ```
#[derive(Drop)]
pub struct Places<S: Source + Drop> {
    list: Vec<Place<S>>,
    verified_last: Option<usize>,
    has_failed: bool,
    lacked: Option<Path>,
    first_lacked: Option<Path>,
    ends: EndTiles,
    tried: Option<(u64, Hash)>,
}

impl<S: Source + Drop> Places<S> {
    /// No places yet.
    pub fn new(alloc: Global) -> Self
        ensures list { result.list.items ≡ [] }
        ensures first { result.first_lacked ≡ None }
    {
        Places {
            list: Vec::new(alloc),
            verified_last: None,
            has_failed: false,
            lacked: None,
            first_lacked: None,
            ends: EndTiles::new(alloc),
            tried: None,
        }
    }

    /// Adds a place after the others. No get has gone to it yet.
    ///
    /// # Errors
    ///
    /// `AllocError`: memory was refused.
    pub fn add(&mut self, source: S) -> Result<(), AllocError>
        ensures { MatchResult result
            (λ _. self.new.list.items ≡ self.old.list.items ++
            record { source = source; failures = 0; first_wrong = None } ∷ [])
            (λ _. self.new.list.items ≡ self.old.list.items) }
    {
        self.list.push(Place::new(source))?;
        Ok(())
    }

    /// The places, in order.
    pub fn list(&self) -> &[Place<S>]
        ensures { result.now ≡ self.now.list.items }
    {
        self.list.as_slice()
    }

    /// The path of the last file that no place gave in this call.
    pub fn lacked(&self) -> Option<Path>
        ensures { result ≡ self.now.lacked }
    {
        self.lacked
    }

    /// The path of the first file that no place gave since the places were made. A new call does not clear it.
    pub fn first_lacked(&self) -> Option<Path>
        ensures { result ≡ self.now.first_lacked }
    {
        self.first_lacked
    }

    /// Whether a place failed in this call.
    pub fn has_failed(&self) -> bool
        ensures { result ≡ self.now.has_failed }
    {
        self.has_failed
    }

    /// The numbers of entries of the two trees whose last tiles are kept.
    pub fn ends(&self) -> (u64, u64)
        ensures { result ≡ self.now.ends.sizes }
    {
        self.ends.sizes()
    }

    // Gets the file at a path from a place.
    fn ask(&mut self, index: usize, path: &Path) -> Result<PlaceAnswer, AllocError>
        requires { index < length self.old.list.items }
        ensures ends { self.new.ends ≡ self.old.ends }
        ensures asks { AsksPlaces S.may_answer S.failed S.asked (λ p. p ≡ path.now)
            self.old self.new }
        ensures once { AsksEachOnce S.asked (IsAtPlace index (λ p. p ≡ path.now))
            self.old self.new }
        ensures answer { IfOk result (λ answer. (d : Place S) → AnswersGet
            (S.may_answer (get_or self.old.list.items index d).source) path.now
            (get_or self.old.list.items index d).failures (get_or self.new.list.items index d).failures
            answer) }
        ensures wrong { (d : Place S) → NotesFailure path.now
            (get_or self.old.list.items index d) (get_or self.new.list.items index d) }
    {
        let place = &mut self.list[index];
        let before = place.failures();
        let answer = place.get(path);
        if place.failures() != before {
            self.has_failed = true;
        }
        answer
    }

    /// Gets the file at a path from a place.
    ///
    /// # Errors
    ///
    /// `AllocError`: memory was refused.
    pub fn get(&mut self, index: usize, path: &Path) -> Result<PlaceAnswer, AllocError>
        requires { index < length self.old.list.items }
        ensures asks { AsksPlaces S.may_answer S.failed S.asked (λ p. p ≡ path.now)
            self.old self.new }
        ensures once { AsksOnce S.asked (IsAtPlace index (λ p. p ≡ path.now)) self.old self.new }
        ensures answer { IfOk result (λ answer. (d : Place S) → AnswersGet
            (S.may_answer (get_or self.old.list.items index d).source) path.now
            (get_or self.old.list.items index d).failures (get_or self.new.list.items index d).failures
            answer) }
        ensures wrong { (d : Place S) → NotesFailure path.now
            (get_or self.old.list.items index d) (get_or self.new.list.items index d) }
        ensures kept { IfOk result (λ answer. IsEndTile self.old.ends.sizes path.now
            → IsKeptAnswer self.new.ends.tiles.items index path.now answer) }
        ensures stay { AnswersStay self.old.ends.tiles.items self.new.ends.tiles.items }
    {
        let at = self.ends.note(index, path)?;
        let answer = self.ask(index, path)?;
        self.ends.keep(at, &answer)?;
        Ok(answer)
    }

    /// The tile at a path, in which one of the two trees of `ends` ends. If the place was asked for it since `keep_ends`, this is what it
    /// answered, and no get goes to it.
    ///
    /// # Errors
    ///
    /// `AllocError`: memory was refused.
    pub fn end_tile(&mut self, index: usize, path: &Path) -> Result<PlaceAnswer, AllocError>
        requires place { index < length self.old.list.items }
        requires end { IsEndTile self.old.ends.sizes path.now }
        ensures asks { AsksPlaces S.may_answer S.failed S.asked (λ p. p ≡ path.now)
            self.old self.new }
        ensures more { AsksMore S.asked self.old self.new }
        ensures answer { IfOk result
            (AnswersEnd S.may_answer index path.now self.old self.new) }
        ensures wrong { (d : Place S) → NotesFailure path.now
            (get_or self.old.list.items index d) (get_or self.new.list.items index d) }
        ensures kept { IfOk result
            (IsKeptAnswer self.new.ends.tiles.items index path.now) }
        ensures stay { AnswersStay self.old.ends.tiles.items self.new.ends.tiles.items }
    {
        match self.ends.find(index, path)? {
            Some(answer) => Ok(answer),
            None => self.get(index, path),
        }
    }

    pub(crate) fn len(&self) -> usize
        ensures { result ≡ length self.now.list.items }
    {
        self.list.len()
    }

    // The first place at which nothing was wrong. If there is none, the first one.
    fn first_right(&self) -> usize {
        for (i, place) in self.list.iter().enumerate() {
            if place.first_wrong().is_none() {
                return i;
            }
        }
        0
    }

    /// The place that is asked first: its bytes verified last, or nothing was wrong at it and it answers more than twice as fast. Until bytes
    /// verified it is the first place at which nothing was wrong, so a silent place that is named first costs one wait.
    pub(crate) fn first(&self) -> usize
        ensures { 0 < length self.now.list.items → result < length self.now.list.items }
    {
        let index = match self.verified_last {
            Some(index) => index,
            None => self.first_right(),
        };
        let Some(last) = self.list.get(index) else {
            return 0;
        };
        for (i, place) in self.list.iter().enumerate() {
            if place.is_faster(last) {
                return i;
            }
        }
        index
    }

    /// Begins a call: no place has failed in it yet, and no file is lacked.
    pub fn begin(&mut self)
        ensures list { self.new.list.items ≡ self.old.list.items }
        ensures failed { IsFalse self.new.has_failed }
        ensures lacked { self.new.lacked ≡ None }
        ensures first { self.new.first_lacked ≡ self.old.first_lacked }
    {
        self.has_failed = false;
        self.lacked = None;
    }

    /// From now on keeps what places answer for the tiles in which trees of these two sizes end. The second one has that root: it is what a
    /// wrong file of a place was asked for.
    pub fn keep_ends(&mut self, old_size: u64, size: u64, root: &Hash)
        ensures list { self.new.list.items ≡ self.old.list.items }
        ensures failed { self.new.has_failed ≡ self.old.has_failed }
        ensures ends { self.new.ends.sizes ≡ (old_size, size) }
        ensures tried { self.new.tried ≡ Some (size, root.now) }
        ensures none { self.new.ends.tiles.items ≡ [] }
        ensures first { self.new.first_lacked ≡ self.old.first_lacked }
    {
        self.ends.begin((old_size, size));
        self.tried = Some((size, *root));
    }

    /// Gives the place that is asked first a hint of the next paths.
    pub(crate) fn expect(&mut self, paths: &[Path])
        ensures { AsksPlaces S.may_answer S.failed S.asked (λ p. ⊥) self.old self.new }
    {
        let index = self.first();
        if index >= self.list.len() {
            return;
        }
        self.list[index].expect(paths);
    }

    /// Records that the bytes of a place verified.
    pub(crate) fn note_verified(&mut self, index: usize)
        ensures { AsksPlaces S.may_answer S.failed S.asked (λ p. ⊥) self.old self.new }
    {
        self.verified_last = Some(index);
    }

    /// Records that a file of a place was wrong. The place keeps the first such record only.
    pub fn note_wrong(&mut self, index: usize, path: &Path, wrong: Wrong)
        requires { index < length self.old.list.items }
        ensures asks { AsksPlaces S.may_answer S.failed S.asked (λ p. ⊥) self.old self.new }
        ensures more { AsksMore S.asked self.old self.new }
        ensures ends { self.new.ends ≡ self.old.ends }
        ensures wrong { NotesWrong path.now wrong self.old self.new index }
        ensures noted { (d : Place S) → IsSome (get_or self.new.list.items index d).first_wrong }
    {
        let tried = self.tried;
        self.list[index].note_wrong(path, wrong, tried);
    }

    /// Records that no place gave a file.
    pub(crate) fn note_lacked(&mut self, path: &Path)
        ensures list { self.new.list.items ≡ self.old.list.items }
        ensures asks { AsksPlaces S.may_answer S.failed S.asked (λ p. ⊥) self.old self.new }
        ensures lacked { IsSome self.new.lacked }
        ensures named { self.new.lacked ≡ Some path.now }
        ensures first { self.old.first_lacked ≡ None → self.new.first_lacked ≡ Some path.now }
        ensures kept { IsSome self.old.first_lacked
            → self.new.first_lacked ≡ self.old.first_lacked }
    {
        self.lacked = Some(*path);
        if self.first_lacked.is_none() {
            self.first_lacked = Some(*path);
        }
    }
}

/// The index of the place at a turn: `first` at turn 0, then the other places in order.
pub(crate) fn in_turn(first: usize, turn: usize) -> usize
    ensures turn { IsAskedInTurn first turn result }
    ensures within { (n : ℕ) → first < n → turn < n → result < n }
{
    if turn == 0 {
        first
    } else if turn <= first {
        turn - 1
    } else {
        turn
    }
}
