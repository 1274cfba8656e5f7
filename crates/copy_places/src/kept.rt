//! The files in which two trees end, by the answers that are kept: no place is asked twice.
ghost use Rattle.std.specs.Prelude.{◌≡◌, ◌<◌, ◌≤◌, ℕ, IfNone, IfOk, IfSome, List, length, option_map};
ghost use Rattle.log_reader.specs.EdgeRows.{LeadsTo};
ghost use Rattle.log_reader.specs.Verified.{Verifies};
ghost use Rattle.tlog_shape.specs.Edge.{width_of};
ghost use Rattle.copy_places.specs.AskedEnds.{AsksEnds, IsEndSize, IsKeptInVain};
ghost use Rattle.copy_places.specs.EndTiles.{IsEndTile, IsKeptAnswer};
ghost use Rattle.copy_places.specs.KeptRows.{AreKeptRows, IsKeptCut, IsKeptRow, IsKeptTile, LackMix};
ghost use Rattle.copy_places.specs.Mixes.{HaveWidths};

use crate::file::{Found, accept_file};
use crate::mix::{GivenRows, edge_of_pairs, edge_of_two};
use crate::place::{PlaceAnswer, Wrong};
use crate::places::{Places, in_turn};
use crate::row::row_of;
use log_reader::{EdgeRows, FullFile, edge_path};
use mirror_sources::Source;
use std::alloc::{AllocError, Global};
use tlog_hash::{Hash, TreeHash};
use tlog_shape::edge_width;
use tlog_tiles::Path;

// What a place answers for such a file, or answered before.
fn ask_end<S: Source + Drop>(
    places: &mut Places<S>,
    index: usize,
    path: &Path,
) -> Result<PlaceAnswer, AllocError>
    requires place { index < length places.old.list.items }
    requires end { IsEndTile places.old.ends.sizes path.now }
    ensures goes { AsksEnds S.may_answer S.failed S.asked places.old places.new }
    ensures kept { IfOk result (IsKeptAnswer places.new.ends.tiles.items index path.now) }
{
    places.end_tile(index, path)
}

// Records that a file of a place is wrong.
fn note_end<S: Source + Drop>(places: &mut Places<S>, index: usize, path: &Path, wrong: Wrong)
    requires { index < length places.old.list.items }
    ensures goes { AsksEnds S.may_answer S.failed S.asked places.old places.new }
    ensures ends { places.new.ends ≡ places.old.ends }
{
    places.note_wrong(index, path, wrong);
}

// The full file from a place, if it verifies.
fn kept_file_at_place<H: TreeHash, S: Source + Drop>(
    alloc: Global,
    places: &mut Places<S>,
    index: usize,
    kind: FullFile,
    path: &Path,
    hash: &Hash,
) -> Result<Option<Found>, AllocError>
    requires place { index < length places.old.list.items }
    requires end { IsEndTile places.old.ends.sizes path.now }
    ensures goes { AsksEnds S.may_answer S.failed S.asked places.old places.new }
    ensures found { IfOk result (λ found. IfSome found
        (λ f. Verifies H.digest kind hash.now f.bytes.items f.row.items)) }
    ensures none { IfOk result (λ found. IfNone found
        (IsKeptInVain places.new.ends.tiles.items index path.now
        (λ bytes. (row : List (List ℕ)) × Verifies H.digest kind hash.now bytes row))) }
{
    match ask_end::<S>(places, index, path)? {
        PlaceAnswer::File(bytes) => match accept_file::<H>(alloc, kind, hash, bytes)? {
            Some(found) => Ok(Some(found)),
            None => {
                note_end::<S>(places, index, path, Wrong::False);
                Ok(None)
            }
        },
        PlaceAnswer::NotFound => {
            note_end::<S>(places, index, path, Wrong::NotFound);
            Ok(None)
        }
        PlaceAnswer::Failed => Ok(None),
    }
}

/// A full file in which one of the two trees of `Places::ends` ends, from the first place whose file verifies. A place that was asked
/// for it since `Places::keep_ends` is not asked again. None: no place has it.
///
/// ```text
/// kept_file::<Sha256Tree, ListSource<Sha256Tree>>(alloc, &mut places, FullFile::Tile, &path, &hash)? // Some(found)
/// ```
///
/// # Errors
///
/// `AllocError`: memory was refused.
pub fn kept_file<H: TreeHash, S: Source + Drop>(
    alloc: Global,
    places: &mut Places<S>,
    kind: FullFile,
    path: &Path,
    hash: &Hash,
) -> Result<Option<Found>, AllocError>
    requires { IsEndTile places.old.ends.sizes path.now }
    ensures goes { AsksEnds S.may_answer S.failed S.asked places.old places.new }
    ensures found { IfOk result (λ found. IfSome found
        (λ f. Verifies H.digest kind hash.now f.bytes.items f.row.items)) }
    ensures none { IfOk result (λ found. IfNone found
        ((k : ℕ) → k < length places.old.list.items
        → IsKeptInVain places.new.ends.tiles.items k path.now
        (λ bytes. (row : List (List ℕ)) × Verifies H.digest kind hash.now bytes row))) }
{
    let first = places.first();
    for turn in 0..places.len() {
        let index = in_turn(first, turn);
        match kept_file_at_place::<H, S>(alloc, places, index, kind, path, hash)? {
            Some(found) => return Ok(Some(found)),
            None => {}
        }
    }
    Ok(None)
}

// The partial tile of that path, cut from the place's full tile.
fn kept_part<S: Source + Drop>(
    alloc: Global,
    places: &mut Places<S>,
    index: usize,
    path: &Path,
) -> Result<Option<Vec<u8>>, AllocError>
    requires place { index < length places.old.list.items }
    requires end { IsEndTile places.old.ends.sizes path.now }
    ensures goes { AsksEnds S.may_answer S.failed S.asked places.old places.new }
    ensures kept { IfOk result (λ found. IsKeptCut places.new.ends.tiles.items index path.now
        (option_map (λ v. v.items) found)) }
{
    let full_path = path.full();
    match ask_end::<S>(places, index, &full_path)? {
        PlaceAnswer::File(full) => match path.cut(256, &full) {
            Some(part) => Ok(Some(Vec::from_slice(alloc, part)?)),
            None => {
                note_end::<S>(places, index, &full_path, Wrong::False);
                Ok(None)
            }
        },
        PlaceAnswer::NotFound => {
            note_end::<S>(places, index, path, Wrong::NotFound);
            Ok(None)
        }
        PlaceAnswer::Failed => Ok(None),
    }
}

// The bytes of a partial tile at a place, or else those that its full tile begins with.
fn kept_partial<S: Source + Drop>(
    alloc: Global,
    places: &mut Places<S>,
    index: usize,
    path: &Path,
) -> Result<Option<Vec<u8>>, AllocError>
    requires place { index < length places.old.list.items }
    requires end { IsEndTile places.old.ends.sizes path.now }
    ensures goes { AsksEnds S.may_answer S.failed S.asked places.old places.new }
    ensures kept { IfOk result (λ found. IsKeptTile places.new.ends.tiles.items index path.now
        (option_map (λ v. v.items) found)) }
{
    match ask_end::<S>(places, index, path)? {
        PlaceAnswer::File(bytes) => Ok(Some(bytes)),
        PlaceAnswer::NotFound => kept_part::<S>(alloc, places, index, path),
        PlaceAnswer::Failed => Ok(None),
    }
}

// The row of a level at a place, empty if the level has none.
fn kept_row<S: Source + Drop>(
    alloc: Global,
    places: &mut Places<S>,
    index: usize,
    size: u64,
    level: u32,
) -> Result<Option<Vec<Hash>>, AllocError>
    requires place { index < length places.old.list.items }
    requires level { level ≤ 7 }
    requires end { IsEndSize places.old size }
    ensures goes { AsksEnds S.may_answer S.failed S.asked places.old places.new }
    ensures wide { IfOk result (λ found. IfSome found
        (λ row. length row.items ≡ width_of size level)) }
    ensures kept { IfOk result (λ found. IsKeptRow places.new.ends.tiles.items index size level
        (option_map (λ row. row.items) found)) }
{
    let width = edge_width(size, level);
    if width == 0 {
        return Ok(Some(Vec::new(alloc)));
    }
    let path = edge_path(size, level);
    let Some(bytes) = kept_partial::<S>(alloc, places, index, &path)? else {
        return Ok(None);
    };
    match row_of(alloc, width, &bytes)? {
        Some(row) => Ok(Some(row)),
        None => {
            note_end::<S>(places, index, &path, Wrong::False);
            Ok(None)
        }
    }
}

// The edge rows at a place.
fn kept_rows<S: Source + Drop>(
    alloc: Global,
    places: &mut Places<S>,
    index: usize,
    size: u64,
) -> Result<GivenRows, AllocError>
    requires place { index < length places.old.list.items }
    requires end { IsEndSize places.old size }
    ensures goes { AsksEnds S.may_answer S.failed S.asked places.old places.new }
    ensures wide { IfOk result (HaveWidths size) }
    ensures kept { IfOk result (AreKeptRows places.new.ends.tiles.items index size) }
{
    let mut rows = Vec::new(alloc);
    for level in 0..8u32 {
        let row = kept_row::<S>(alloc, places, index, size, level)?;
        rows.push(row)?;
    }
    Ok(GivenRows::new(rows))
}

/// The edge rows of one of the two trees of `Places::ends`, of that size and root: those of one place, else those of two places mixed, for
/// each pair of places. A place that was asked for a row since `Places::keep_ends` is not asked again. None: no two places have them.
///
/// ```text
/// kept_edge::<Sha256Tree, ListSource<Sha256Tree>>(alloc, &mut places, 257, &root)? // Some(edge)
/// ```
///
/// # Errors
///
/// `AllocError`: memory was refused.
pub fn kept_edge<H: TreeHash, S: Source + Drop>(
    alloc: Global,
    places: &mut Places<S>,
    size: u64,
    root: &Hash,
) -> Result<Option<EdgeRows>, AllocError>
    requires { IsEndSize places.old size }
    ensures goes { AsksEnds S.may_answer S.failed S.asked places.old places.new }
    ensures leads { IfOk result (λ found. IfSome found
        (λ edge. LeadsTo H.digest size root.now edge)) }
    ensures none { IfOk result (λ found. IfNone found
        ((i j : ℕ) → i < length places.old.list.items → j < length places.old.list.items
        → LackMix H.digest size root.now places.new.ends.tiles.items i j)) }
{
    let first = places.first();
    let mut given = Vec::new(alloc);
    for turn in 0..places.len() {
        let index = in_turn(first, turn);
        let rows = kept_rows::<S>(alloc, places, index, size)?;
        match edge_of_two::<H>(alloc, size, root, &rows, &rows)? {
            Some(edge) => return Ok(Some(edge)),
            None => given.push(rows)?,
        }
    }
    edge_of_pairs::<H>(alloc, size, root, &given)
}
