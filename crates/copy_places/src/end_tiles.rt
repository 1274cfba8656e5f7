//! The tiles in which two trees end, and the bundle in which the first one ends, as places answered for them.
ghost use Rattle.std.specs.Prelude.{◌≡◌, ◌↔◌, [], ℕ, IfNone, IfOk, IfSome, IsSomeAnd, IsTrue, OnOk, length};
ghost use Rattle.copy_places.specs.EndTiles.{AnswersStay, HasNewAt, HasNoNew, IsEmpty, IsEndTile, IsHeard, IsKeptAnswer, IsTileOf, KeepsAnswers, OthersStay, said};

use crate::place::PlaceAnswer;
use std::alloc::{AllocError, Global};
use tlog_shape::edge_index;
use tlog_tiles::Path;

/// What a place answered for a tile, or for the bundle.
#[derive(Drop)]
pub(crate) struct EndTile {
    place: usize,
    path: Path,
    // None: it is not there, since memory was refused.
    answer: Option<PlaceAnswer>,
}

/// What the places answered in one bringing for the last tile of each level, partial or full, of the copy and of the larger tree, and
/// for the full bundle in which the copy ends. The proof that they contradict each other is made from these files. A place gives 24
/// tiles at most, of 8,192 bytes at most, and one bundle.
#[derive(Drop)]
pub(crate) struct EndTiles {
    alloc: Global,
    sizes: (u64, u64),
    tiles: Vec<EndTile>,
}

// A copy of an answer.
fn copy_of(alloc: Global, answer: &PlaceAnswer) -> Result<PlaceAnswer, AllocError>
    ensures { IfOk result (λ copy. said copy ≡ said answer.now) }
{
    match answer {
        PlaceAnswer::File(bytes) => Ok(PlaceAnswer::File(Vec::from_slice(alloc, bytes)?)),
        PlaceAnswer::NotFound => Ok(PlaceAnswer::NotFound),
        PlaceAnswer::Failed => Ok(PlaceAnswer::Failed),
    }
}

// Whether a tree of one of these sizes ends in the tile at a path, or the first one in the full bundle there.
fn is_end_tile(sizes: (u64, u64), path: &Path) -> bool
    ensures { IsTrue result ↔ IsEndTile sizes path.now }
{
    match path {
        Path::Checkpoint => false,
        Path::Tile { level, index, .. } => {
            *level <= 7
                && (*index == edge_index(sizes.0, *level) || *index == edge_index(sizes.1, *level))
        }
        Path::Entries { index, width } => *index == edge_index(sizes.0, 0) && *width == 256,
    }
}

impl EndTiles {
    /// No answers.
    pub(crate) fn new(alloc: Global) -> EndTiles {
        EndTiles {
            alloc,
            sizes: (0, 0),
            tiles: Vec::new(alloc),
        }
    }

    /// The sizes of the two trees.
    pub(crate) fn sizes(&self) -> (u64, u64)
        ensures { result ≡ self.now.sizes }
    {
        self.sizes
    }

    /// Forgets all answers. From now on those for trees of these sizes are kept.
    pub(crate) fn begin(&mut self, sizes: (u64, u64))
        ensures sizes { self.new.sizes ≡ sizes }
        ensures none { self.new.tiles.items ≡ [] }
    {
        self.sizes = sizes;
        self.tiles.clear();
    }

    /// Records that a place will be asked for a path, if that is the path of such a tile. The answer is where its answer belongs.
    /// Until it is there, the place has not answered.
    pub(crate) fn note(&mut self, place: usize, path: &Path) -> Result<Option<usize>, AllocError>
        ensures kept { KeepsAnswers self.old self.new }
        ensures heard { IfOk result (λ at. IsEndTile self.old.sizes path.now
            → IsHeard self.new.tiles.items place path.now) }
        ensures place { IfOk result (λ at. IsEndTile self.old.sizes path.now
            → IsSomeAnd at (IsTileOf self.new.tiles.items place path.now)) }
        ensures empty { IfOk result (λ at. IfSome at (IsEmpty self.new.tiles.items)) }
        ensures stay { AnswersStay self.old.tiles.items self.new.tiles.items }
        ensures last { IfOk result (λ at. IfSome at (λ i. i ≡ length self.old.tiles.items)) }
        ensures own { IfOk result (λ at. IfSome at
            (IsTileOf self.new.tiles.items place path.now)) }
        ensures none { HasNoNew self.old.tiles.items self.new.tiles.items }
    {
        if !is_end_tile(self.sizes, path) {
            return Ok(None);
        }
        let at = self.tiles.len();
        self.tiles.push(EndTile {
            place,
            path: *path,
            answer: None,
        })?;
        Ok(Some(at))
    }

    /// Keeps a copy of an answer where it belongs.
    pub(crate) fn keep(&mut self, at: Option<usize>, answer: &PlaceAnswer) -> Result<(), AllocError>
        requires { IfSome at (IsEmpty self.old.tiles.items) }
        ensures kept { KeepsAnswers self.old self.new }
        ensures answer { OnOk result (IfSome at (λ i. (k : ℕ) (path : Path)
            → IsTileOf self.old.tiles.items k path i
            → IsKeptAnswer self.new.tiles.items k path answer.now)) }
        ensures stay { OthersStay at self.old.tiles.items self.new.tiles.items }
        ensures none { HasNewAt at answer.now self.old.tiles.items self.new.tiles.items }
    {
        if let Some(i) = at {
            let copy = copy_of(self.alloc, answer)?;
            if i < self.tiles.len() {
                self.tiles[i].answer = Some(copy);
            }
        }
        Ok(())
    }

    // The index of the answer of a place for a path.
    fn index_of(&self, place: usize, path: &Path) -> Option<usize>
        ensures none { IfNone result (¬ IsHeard self.now.tiles.items place path.now) }
        ensures some { IfSome result (IsTileOf self.now.tiles.items place path.now) }
    {
        for i in 0..self.tiles.len() {
            if self.tiles[i].place == place && self.tiles[i].path == *path {
                return Some(i);
            }
        }
        None
    }

    /// A copy of what a place answered for a path. None: it was not asked. It is an error where memory was refused as it was asked.
    pub(crate) fn find(&self, place: usize, path: &Path) -> Result<Option<PlaceAnswer>, AllocError>
        ensures none { IfOk result (λ found. IfNone found
            (¬ IsHeard self.now.tiles.items place path.now)) }
        ensures some { IfOk result (λ found. IfSome found
            (IsKeptAnswer self.now.tiles.items place path.now)) }
    {
        match self.index_of(place, path) {
            Some(i) => match &self.tiles[i].answer {
                Some(answer) => Ok(Some(copy_of(self.alloc, answer)?)),
                None => Err(AllocError),
            },
            None => Ok(None),
        }
    }
}
