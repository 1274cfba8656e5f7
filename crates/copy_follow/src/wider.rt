//! Edge rows and the partial bundle of a copy, cut from the wider files of places that have a larger tree (C2SP tlog-tiles, "Partial
//! Tiles").
ghost use Rattle.std.specs.Prelude.{◌≤◌, ◌<◌, ℕ, List, IfOk, IfSome, length};
ghost use Rattle.tlog_tiles.specs.Row.{IsRow};
ghost use Rattle.log_reader.specs.EdgeRows.{LeadsTo};
ghost use Rattle.log_reader.specs.Verified.{HasLeaves};
ghost use Rattle.copy_places.specs.Giving.{IsFirstOf, MayGive};
ghost use Rattle.copy_places.specs.PlaceGets.{AsksPlaces};
ghost use Rattle.copy_follow.specs.Repaired.{BeginsBundle, BeginsTile, IsEdgeCut, IsOfEdge};
ghost use Rattle.tlog_shape.specs.Edge.{edge_index_of};

use copy_places::{PlaceAnswer, Places, accept_bundle, row_of};
use log_reader::{EdgeRows, edge_path, head_of, leads_to};
use mirror_sources::Source;
use std::alloc::{AllocError, Global};
use tlog_hash::{Hash, TreeHash};
use tlog_shape::{edge_index, edge_width};
use tlog_tiles::Path;

// What a place gives at the path. None: nothing, or it failed.
fn given_at<S: Source + Drop>(
    places: &mut Places<S>,
    place: usize,
    size: u64,
    path: &Path,
) -> Result<Option<Vec<u8>>, AllocError>
    requires place { place < length places.old.list.items }
    requires of { IsOfEdge size path.now }
    ensures asks { AsksPlaces S.may_answer S.failed S.asked (IsOfEdge size)
        places.old places.new }
    ensures given { IfOk result (λ found. IfSome found
        (λ bytes. MayGive S.may_answer places.old path.now bytes.items)) }
{
    match places.get(place, path) {
        Ok(PlaceAnswer::File(bytes)) => Ok(Some(bytes)),
        Ok(PlaceAnswer::NotFound) => Ok(None),
        Ok(PlaceAnswer::Failed) => Ok(None),
        Err(fault) => Err(fault),
    }
}

// The number of entries in a checkpoint. None: the bytes are no checkpoint of the origin.
fn size_in(alloc: Global, origin: &str, bytes: &[u8]) -> Result<Option<u64>, AllocError> {
    match head_of(alloc, origin, bytes)? {
        Some(head) => Ok(Some(head.0)),
        None => Ok(None),
    }
}

// The number of entries in the checkpoint of a place. None: it gives no checkpoint of the origin.
fn size_at_place<S: Source + Drop>(
    alloc: Global,
    origin: &str,
    places: &mut Places<S>,
    place: usize,
    size: u64,
) -> Result<Option<u64>, AllocError>
    requires { place < length places.old.list.items }
    ensures { AsksPlaces S.may_answer S.failed S.asked (IsOfEdge size) places.old places.new }
{
    match given_at(places, place, size, &Path::Checkpoint)? {
        Some(bytes) => size_in(alloc, origin, &bytes),
        None => Ok(None),
    }
}

// The width of the tile of that level and index in a tree of that many entries. A tree without it: 0.
fn width_in(size: u64, level: u32, index: u64) -> u32
    requires { level ≤ 7 }
    ensures { result ≤ 256 }
{
    let last = edge_index(size, level);
    if index < last {
        256
    } else if index == last {
        edge_width(size, level)
    } else {
        0
    }
}

// The first part of a file of that width.
fn first_part<'a>(path: &Path, wider: u32, bytes: &'a [u8]) -> Option<&'a [u8]>
    ensures { IfSome result (λ part. IsFirstOf bytes.now part.now) }
{
    match path.cut(wider, bytes) {
        Some(part) => Some(part),
        None => None,
    }
}

// The row of that width that a wider tile begins with.
fn row_of_first(
    alloc: Global,
    path: &Path,
    width: u32,
    wider: u32,
    bytes: &[u8],
) -> Result<Option<Vec<Hash>>, AllocError>
    ensures { IfOk result (λ found. IfSome found
        (λ row. (part : List ℕ) × IsRow width part row.items × IsFirstOf bytes.now part)) }
{
    match first_part(path, wider, bytes) {
        Some(part) => row_of(alloc, width, part),
        None => Ok(None),
    }
}

// The bundle with these leaf hashes that a wider bundle begins with.
fn bundle_of_first<H: TreeHash>(
    alloc: Global,
    path: &Path,
    row: &[Hash],
    wider: u32,
    bytes: &[u8],
) -> Result<Option<Vec<u8>>, AllocError>
    requires { length row.now ≤ 256 }
    ensures found { IfOk result (λ found. IfSome found
        (λ part. HasLeaves H.digest (length row.now) part.items row.now)) }
    ensures first { IfOk result (λ found. IfSome found (λ part. IsFirstOf bytes.now part.items)) }
{
    match first_part(path, wider, bytes) {
        Some(part) => accept_bundle::<H>(alloc, row, Some(Vec::from_slice(alloc, part)?)),
        None => Ok(None),
    }
}

// The row of a level, cut from the tile of a larger tree at a place. Empty if the level has none. None: the place lacks it.
fn row_in_wider<S: Source + Drop>(
    alloc: Global,
    places: &mut Places<S>,
    place: usize,
    size: u64,
    level: u32,
    wider: u64,
) -> Result<Option<Vec<Hash>>, AllocError>
    requires place { place < length places.old.list.items }
    requires level { level ≤ 7 }
    ensures asks { AsksPlaces S.may_answer S.failed S.asked (IsOfEdge size)
        places.old places.new }
    ensures taken { IfOk result (λ found. IfSome found
        (λ row. BeginsTile (MayGive S.may_answer places.old) size level row.items)) }
{
    let width = edge_width(size, level);
    if width == 0 {
        return Ok(Some(Vec::new(alloc)));
    }
    let index = edge_index(size, level);
    let path = Path::Tile {
        level,
        index,
        width: width_in(wider, level, index),
    };
    let Some(bytes) = given_at(places, place, size, &path)? else {
        return Ok(None);
    };
    row_of_first(alloc, &edge_path(size, level), width, path.width(), &bytes)
}

// The edge rows, cut from the tiles of a larger tree at a place, to the first row that it lacks.
fn rows_in_wider<S: Source + Drop>(
    alloc: Global,
    places: &mut Places<S>,
    place: usize,
    size: u64,
    wider: u64,
) -> Result<Option<EdgeRows>, AllocError>
    requires { place < length places.old.list.items }
    ensures asks { AsksPlaces S.may_answer S.failed S.asked (IsOfEdge size)
        places.old places.new }
    ensures taken { IfOk result (λ found. IfSome found
        (λ edge. IsEdgeCut (MayGive S.may_answer places.old) size edge)) }
{
    let mut rows = Vec::new(alloc);
    for level in 0..8u32 {
        match row_in_wider(alloc, places, place, size, level, wider)? {
            Some(row) => rows.push(row)?,
            None => return Ok(None),
        }
    }
    Ok(Some(EdgeRows::new(size, rows)))
}

// The edge rows of a tree of that size and root, cut from the tiles of a larger tree at a place, if they lead to the root.
fn edge_in_wider<H: TreeHash, S: Source + Drop>(
    alloc: Global,
    origin: &str,
    places: &mut Places<S>,
    place: usize,
    size: u64,
    root: &Hash,
) -> Result<Option<EdgeRows>, AllocError>
    requires { place < length places.old.list.items }
    ensures asks { AsksPlaces S.may_answer S.failed S.asked (IsOfEdge size)
        places.old places.new }
    ensures leads { IfOk result (λ found. IfSome found
        (λ edge. LeadsTo H.digest size root.now edge)) }
    ensures taken { IfOk result (λ found. IfSome found
        (λ edge. IsEdgeCut (MayGive S.may_answer places.old) size edge)) }
{
    let Some(wider) = size_at_place(alloc, origin, places, place, size)? else {
        return Ok(None);
    };
    let Some(edge) = rows_in_wider(alloc, places, place, size, wider)? else {
        return Ok(None);
    };
    if leads_to::<H>(alloc, &edge, root)? {
        Ok(Some(edge))
    } else {
        Ok(None)
    }
}

/// The edge rows of a tree of that size and root, cut from the tiles of a larger tree: all from the first place whose rows lead to the
/// root. The size of that tree is that of the place's checkpoint. None: no place has them.
pub(crate) fn edge_in_wider_ones<H: TreeHash, S: Source + Drop>(
    alloc: Global,
    origin: &str,
    places: &mut Places<S>,
    size: u64,
    root: &Hash,
) -> Result<Option<EdgeRows>, AllocError>
    ensures asks { AsksPlaces S.may_answer S.failed S.asked (IsOfEdge size)
        places.old places.new }
    ensures leads { IfOk result (λ found. IfSome found
        (λ edge. LeadsTo H.digest size root.now edge)) }
    ensures taken { IfOk result (λ found. IfSome found
        (λ edge. IsEdgeCut (MayGive S.may_answer places.old) size edge)) }
{
    for place in 0..places.list().len() {
        match edge_in_wider::<H, S>(alloc, origin, places, place, size, root)? {
            Some(edge) => return Ok(Some(edge)),
            None => {}
        }
    }
    Ok(None)
}

// The partial bundle with these leaf hashes, cut from the bundle of a larger tree at a place.
fn end_in_wider<H: TreeHash, S: Source + Drop>(
    alloc: Global,
    origin: &str,
    places: &mut Places<S>,
    place: usize,
    size: u64,
    row: &[Hash],
) -> Result<Option<Vec<u8>>, AllocError>
    requires place { place < length places.old.list.items }
    requires width { length row.now ≤ 256 }
    ensures asks { AsksPlaces S.may_answer S.failed S.asked (IsOfEdge size)
        places.old places.new }
    ensures found { IfOk result (λ found. IfSome found
        (λ bytes. HasLeaves H.digest (length row.now) bytes.items row.now)) }
    ensures taken { IfOk result (λ found. IfSome found
        (λ bytes. BeginsBundle (MayGive S.may_answer places.old) (edge_index_of size 0)
        bytes.items)) }
{
    let Some(wider) = size_at_place(alloc, origin, places, place, size)? else {
        return Ok(None);
    };
    let index = edge_index(size, 0);
    let path = Path::Entries {
        index,
        width: width_in(wider, 0, index),
    };
    let Some(bytes) = given_at(places, place, size, &path)? else {
        return Ok(None);
    };
    let end = Path::Entries {
        index,
        width: row.len() as u32,
    };
    bundle_of_first::<H>(alloc, &end, row, path.width(), &bytes)
}

/// The partial bundle with these leaf hashes at the edge of a tree of that size, cut from the bundle of a larger tree at a place. None:
/// no place has it.
pub(crate) fn end_in_wider_ones<H: TreeHash, S: Source + Drop>(
    alloc: Global,
    origin: &str,
    places: &mut Places<S>,
    size: u64,
    row: &[Hash],
) -> Result<Option<Vec<u8>>, AllocError>
    requires { length row.now ≤ 256 }
    ensures asks { AsksPlaces S.may_answer S.failed S.asked (IsOfEdge size)
        places.old places.new }
    ensures found { IfOk result (λ found. IfSome found
        (λ bytes. HasLeaves H.digest (length row.now) bytes.items row.now)) }
    ensures taken { IfOk result (λ found. IfSome found
        (λ bytes. BeginsBundle (MayGive S.may_answer places.old) (edge_index_of size 0)
        bytes.items)) }
{
    for place in 0..places.list().len() {
        match end_in_wider::<H, S>(alloc, origin, places, place, size, row)? {
            Some(bytes) => return Ok(Some(bytes)),
            None => {}
        }
    }
    Ok(None)
}
