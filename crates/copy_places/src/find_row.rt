//! Verified full files, from the shelf or from a place.
ghost use Rattle.std.specs.Prelude.{◌≡◌, ◌≤◌, IfErr, IfNone, IfOk, IfSome, length};
ghost use Rattle.tlog_shape.specs.Edge.{edge_index_of};
ghost use Rattle.tlog_hash.specs.Tree.{fold_of};
ghost use Rattle.mirror_sources.specs.Recorded.{KeepsRecord};
ghost use Rattle.log_reader.specs.Verified.{Verifies};
ghost use Rattle.copy_places.specs.AskedEnds.{AsksEnds};
ghost use Rattle.copy_places.specs.EndTiles.{IsEndTile};
ghost use Rattle.log_reader.specs.declared.verify.FullFile.TheVariants.{Tile};
ghost use Rattle.copy_places.specs.Faults.{CountsAsk, IsOfShelf};
ghost use Rattle.copy_places.specs.Nobodys.{IsFileOf, IsNobodys, IsReadInVain, IsRowNobodys};

use crate::ask_fault::AskFault;
use crate::{Found, Places, accept_file, kept_file};
use log_reader::FullFile;
use mirror_folders::ReadableShelf;
use mirror_sources::Source;
use std::alloc::Global;
use tlog_hash::{Hash, TreeHash};
use tlog_tiles::Path;

// The file from the shelf, if it verifies. One that does not is not damaged: the logs may differ there.
fn file_on_shelf<H: TreeHash, D: ReadableShelf>(
    alloc: Global,
    shelf: &mut D,
    kind: FullFile,
    path: &Path,
    hash: &Hash,
) -> Result<Option<Found>, AskFault>
    ensures same { KeepsRecord (D.puts shelf.old) (D.puts shelf.new) }
    ensures counted { CountsAsk (D.failed shelf.old) (D.failed shelf.new) result }
    ensures sure { IfErr result IsOfShelf }
    ensures found { IfOk result (λ found. IfSome found
        (λ f. Verifies H.digest kind hash.now f.bytes.items f.row.items)) }
    ensures none { IfOk result (λ found. IfNone found (IsReadInVain (D.puts shelf.old) path.now
        (IsFileOf H.digest kind hash.now))) }
{
    let Some(bytes) = shelf.read(path)? else {
        return Ok(None);
    };
    Ok(accept_file::<H>(alloc, kind, hash, bytes)?)
}

// The file from the shelf, or else from the first place whose file verifies.
fn find_file<H: TreeHash, D: ReadableShelf, S: Source + Drop>(
    alloc: Global,
    shelf: &mut D,
    places: &mut Places<S>,
    kind: FullFile,
    path: &Path,
    hash: &Hash,
) -> Result<Option<Found>, AskFault>
    requires { IsEndTile places.old.ends.sizes path.now }
    ensures same { KeepsRecord (D.puts shelf.old) (D.puts shelf.new) }
    ensures counted { CountsAsk (D.failed shelf.old) (D.failed shelf.new) result }
    ensures sure { IfErr result IsOfShelf }
    ensures goes { AsksEnds S.may_answer S.failed S.asked places.old places.new }
    ensures found { IfOk result (λ found. IfSome found
        (λ f. Verifies H.digest kind hash.now f.bytes.items f.row.items)) }
    ensures none { IfOk result (λ found. IfNone found (IsNobodys H.digest (D.puts shelf.old)
        places.new.ends.tiles.items (length places.old.list.items) kind path.now hash.now)) }
{
    match file_on_shelf::<H, D>(alloc, shelf, kind, path, hash)? {
        Some(found) => Ok(Some(found)),
        None => Ok(kept_file::<H, S>(alloc, places, kind, path, hash)?),
    }
}

// The row of a full tile, from the tile.
fn row_of_tile<H: TreeHash, D: ReadableShelf, S: Source + Drop>(
    alloc: Global,
    shelf: &mut D,
    places: &mut Places<S>,
    level: u32,
    index: u64,
    hash: &Hash,
) -> Result<Option<Vec<Hash>>, AskFault>
    requires low { level ≤ 7 }
    requires end { index ≡ edge_index_of places.old.ends.sizes.0 level }
    ensures same { KeepsRecord (D.puts shelf.old) (D.puts shelf.new) }
    ensures counted { CountsAsk (D.failed shelf.old) (D.failed shelf.new) result }
    ensures sure { IfErr result IsOfShelf }
    ensures goes { AsksEnds S.may_answer S.failed S.asked places.old places.new }
    ensures row { IfOk result (λ found. IfSome found
        (λ row. fold_of H.digest row.items ≡ hash.now)) }
    ensures long { IfOk result (λ found. IfSome found (λ row. length row.items ≡ 256)) }
    ensures none { IfOk result (λ found. IfNone found (IsNobodys H.digest (D.puts shelf.old)
        places.new.ends.tiles.items (length places.old.list.items) Tile (Path.Tile level index 256)
        hash.now)) }
{
    let path = Path::Tile {
        level,
        index,
        width: 256,
    };
    match find_file::<H, D, S>(alloc, shelf, places, FullFile::Tile, &path, hash)? {
        Some(found) => Ok(Some(found.row)),
        None => Ok(None),
    }
}

// The row of a full tile of level 0: the leaf hashes of its bundle or, if nobody has that, from the tile.
fn row_of_leaves<H: TreeHash, D: ReadableShelf, S: Source + Drop>(
    alloc: Global,
    shelf: &mut D,
    places: &mut Places<S>,
    index: u64,
    hash: &Hash,
) -> Result<Option<Vec<Hash>>, AskFault>
    requires { index ≡ edge_index_of places.old.ends.sizes.0 0 }
    ensures same { KeepsRecord (D.puts shelf.old) (D.puts shelf.new) }
    ensures counted { CountsAsk (D.failed shelf.old) (D.failed shelf.new) result }
    ensures sure { IfErr result IsOfShelf }
    ensures goes { AsksEnds S.may_answer S.failed S.asked places.old places.new }
    ensures row { IfOk result (λ found. IfSome found
        (λ row. fold_of H.digest row.items ≡ hash.now)) }
    ensures long { IfOk result (λ found. IfSome found (λ row. length row.items ≡ 256)) }
    ensures none { IfOk result (λ found. IfNone found (IsRowNobodys H.digest (D.puts shelf.old)
        places.new.ends.tiles.items (length places.old.list.items) 0 index hash.now)) }
{
    let path = Path::Entries { index, width: 256 };
    match find_file::<H, D, S>(alloc, shelf, places, FullFile::Bundle, &path, hash)? {
        Some(found) => Ok(Some(found.row)),
        None => row_of_tile::<H, D, S>(alloc, shelf, places, 0, index, hash),
    }
}

/// The row of the full tile in which the smaller of the two trees of `Places::ends` ends. Its fold is the hash.
pub(crate) fn find_row<H: TreeHash, D: ReadableShelf, S: Source + Drop>(
    alloc: Global,
    shelf: &mut D,
    places: &mut Places<S>,
    level: u32,
    index: u64,
    hash: &Hash,
) -> Result<Option<Vec<Hash>>, AskFault>
    requires low { level ≤ 7 }
    requires end { index ≡ edge_index_of places.old.ends.sizes.0 level }
    ensures same { KeepsRecord (D.puts shelf.old) (D.puts shelf.new) }
    ensures counted { CountsAsk (D.failed shelf.old) (D.failed shelf.new) result }
    ensures sure { IfErr result IsOfShelf }
    ensures goes { AsksEnds S.may_answer S.failed S.asked places.old places.new }
    ensures row { IfOk result (λ found. IfSome found
        (λ row. fold_of H.digest row.items ≡ hash.now)) }
    ensures long { IfOk result (λ found. IfSome found (λ row. length row.items ≡ 256)) }
    ensures none { IfOk result (λ found. IfNone found (IsRowNobodys H.digest (D.puts shelf.old)
        places.new.ends.tiles.items (length places.old.list.items) level index hash.now)) }
{
    if level == 0 {
        return row_of_leaves::<H, D, S>(alloc, shelf, places, index, hash);
    }
    row_of_tile::<H, D, S>(alloc, shelf, places, level, index, hash)
}
